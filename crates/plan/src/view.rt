ghost use Rattle.std.specs.Prelude.{◌≡◌, ◌≤◌, length, IsTrue, ◌↔◌, MatchOption, MatchResult, IfOk, IfErr, OnOk, OnErr, IfSome, IfNone};
ghost use Rattle.std.specs.Bool.{OnTrue, OnFalse};
ghost use Rattle.plan.specs.declared.refusal.Refusal.TheVariants.{ListTooShort};
ghost use Rattle.plan.specs.Plan.{plan_of, lists, IsLong, ends_of, costs_of};
ghost use Rattle.plan.specs.Sound.{Called, Unknown, AreRelays, Dangling, ColoursUsed, LowestAbsent};
ghost use Rattle.plan.specs.Walk.{ArePaired, Connected, LowestOut};
ghost use Rattle.plan.specs.Checks.{AllHold, FirstFails};
ghost use Rattle.plan.specs.Rules.{IsNewPair, IsBadPair, relay_rules, link_rules};

use crate::counts::{Counts, LARGEST_NAME, MOST_LINKS, MOST_RELAYS};
use crate::ends::{Ends, joins};
use crate::lists::{LinkView, RelayView};
use crate::names::find;
use crate::reach::{first_out, is_loose, lowest_absent};
use crate::refusal::Refusal;
use kind::Cost;
use std::marker::Model;

// Four lists, and no `RelayView` and `LinkView`: to open a model within a model is no plainer.

/// The plan that lent lists hold, to be read. A clause sees it as the plan.
#[derive(Drop)]
pub struct PlanView<'a, C: Cost> {
    palette: u8,
    names: &'a [u32],
    colours: &'a [u8],
    ends: &'a [Ends],
    costs: &'a [C],
}

impl<'a, C: Cost> Model for PlanView<'a, C> {
    ghost use Rattle.plan.specs.Plan.{Plan, plan_with, InStep};

    ghost Value = { Plan C };

    ghost view = { λ v. plan_with v.palette v.names.now v.colours.now v.ends.now v.costs.now };

    ghost invariant = { λ v. InStep v.palette v.names.now v.colours.now v.ends.now v.costs.now };
}

impl<'a, C: Cost> PlanView<'a, C> {
    /// The first entries of the lists, as many as are counted.
    /// Refused with `ListTooShort` if a list has fewer.
    pub fn new(
        counts: Counts,
        relays: &RelayView<'a>,
        links: &LinkView<'a, C>,
    ) -> Result<PlanView<'a, C>, Refusal>
        ensures accepted { OnOk result (IsLong counts (lists relays.now links.now)) }
        ensures refused { OnErr result (IsLong counts (lists relays.now links.now) → ⊥) }
        ensures reason { IfErr result (λ f. f ≡ ListTooShort) }
        ensures plan { IfOk result (λ p. p ≡ plan_of counts (lists relays.now links.now)) }
    {
        let (n, m) = (usize::from(counts.relays), usize::from(counts.links));
        if relays.names.len() < n || relays.colours.len() < n {
            return Err(Refusal::ListTooShort);
        }
        if links.ends.len() < m || links.costs.len() < m {
            return Err(Refusal::ListTooShort);
        }
        Ok(PlanView {
            palette: counts.colours,
            names: &relays.names[..n],
            colours: &relays.colours[..n],
            ends: &links.ends[..m],
            costs: &links.costs[..m],
        })
    }

    // How many colours the plan has.
    pub(crate) fn colour_count(&self) -> u8
        ensures { result ≡ self.now.colours }
    {
        self.palette
    }

    /// How many relays the plan has: at most 256.
    pub fn relay_count(&self) -> usize
        ensures count { result ≡ length self.now.relays }
        ensures few { result ≤ 256 }
    {
        self.names.len()
    }

    /// How many links the plan has: at most 1,024.
    pub fn link_count(&self) -> usize
        ensures count { result ≡ length self.now.links }
        ensures few { result ≤ 1024 }
    {
        self.ends.len()
    }

    /// The two ends of each link, in order of entry.
    pub fn ends(&self) -> &'a [Ends]
        ensures { result.now ≡ ends_of self.now }
    {
        self.ends
    }

    /// The cost of each link, in order of entry.
    pub fn costs(&self) -> &'a [C]
        ensures { result.now ≡ costs_of self.now }
    {
        self.costs
    }

    // The number of the relay of this name.
    pub(crate) fn number_of(&self, name: u64) -> Option<u16>
        ensures { MatchOption result (Unknown self.now name) (λ i. Called self.now i name) }
    {
        let place = find(self.names, name)?;
        Some(place as u16)
    }

    // Whether a link joins the two relays of these numbers.
    pub(crate) fn are_joined(&self, one: u16, other: u16) -> bool
        ensures { IsTrue result ↔ ArePaired self.now one other }
    {
        joins(self.ends, one, other)
    }

    // The ends of a new link between these names; none where there may be no such link.
    pub(crate) fn new_ends(&self, from: u64, to: u64) -> Option<Ends>
        ensures bad { IfNone result (IsBadPair self.now from to) }
        ensures new { IfSome result (λ _. IsNewPair self.now from to) }
        ensures from { IfSome result (λ e. Called self.now e.from from) }
        ensures to { IfSome result (λ e. Called self.now e.to to) }
    {
        let one = self.number_of(from)?;
        let other = self.number_of(to)?;
        if from == to || self.are_joined(one, other) {
            return None;
        }
        Some(Ends {
            from: one,
            to: other,
        })
    }

    // Whether the plan may have one more relay, of this name and colour; if not, why.
    pub(crate) fn check_relay(&self, name: u64, colour: u64) -> Result<(), Refusal>
        ensures { MatchResult result
            (λ _. AllHold (relay_rules self.now name colour))
            (λ f. FirstFails (relay_rules self.now name colour) f) }
    {
        if name < 1
            || name > LARGEST_NAME
            || colour < 1
            || colour > u64::from(self.colour_count())
        {
            return Err(Refusal::BeyondLimit);
        }
        // Not `is_some()`: the proof needs the number, which shows who bears the name.
        if let Some(_) = self.number_of(name) {
            return Err(Refusal::NameBorne);
        }
        if self.relay_count() >= MOST_RELAYS {
            return Err(Refusal::NoPlace);
        }
        Ok(())
    }

    // Whether the plan may have one more link, between these names; if so, its ends, if not, why.
    pub(crate) fn check_link(&self, from: u64, to: u64, cost: C) -> Result<Ends, Refusal>
        ensures checked { MatchResult result
            (λ _. AllHold (link_rules C.kind self.now from to cost))
            (λ f. FirstFails (link_rules C.kind self.now from to cost) f) }
        ensures from { IfOk result (λ e. Called self.now e.from from) }
        ensures to { IfOk result (λ e. Called self.now e.to to) }
    {
        if from > LARGEST_NAME || to > LARGEST_NAME || !cost.is_link() {
            return Err(Refusal::BeyondLimit);
        }
        let Some(ends) = self.new_ends(from, to) else {
            return Err(Refusal::BadLink);
        };
        if self.link_count() >= MOST_LINKS {
            return Err(Refusal::NoPlace);
        }
        Ok(ends)
    }

    // The lowest colour that no relay of the plan has.
    pub(crate) fn absent_colour(&self) -> Option<u8>
        ensures { MatchOption result (ColoursUsed self.now) (λ c. LowestAbsent self.now c) }
    {
        lowest_absent(self.colours, self.palette)
    }

    /// Whether a link of the plan has an end that is no relay.
    pub fn is_dangling(&self) -> bool
        ensures dangling { OnTrue result (Dangling self.now) }
        ensures tied { OnFalse result (AreRelays self.now) }
    {
        is_loose(self.ends, self.names.len() as u16)
    }

    // The lowest relay of the plan that is out of reach of relay 0.
    pub(crate) fn unreached(&self) -> Option<u16>
        requires { AreRelays self.now }
        ensures { MatchOption result (Connected self.now) (λ v. LowestOut self.now v) }
    {
        first_out(self.ends, self.names.len() as u16)
    }
}
