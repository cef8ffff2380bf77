ghost use Rattle.std.specs.Prelude.{◌≡◌, ◌<◌, MatchResult, IfOk, IfErr, OnOk, OnErr};
ghost use Rattle.plan.specs.Plan.{lists, plan_of};
ghost use Rattle.plan.specs.Lent.{relays_in, links_in, SameRelays, SameLinks};
ghost use Rattle.plan.specs.Sound.{Sound, Called};
ghost use Rattle.plan.specs.Checks.{AllHold, FirstFails};
ghost use Rattle.plan.specs.Rules.{open_checks, relay_checks, link_checks};
ghost use Rattle.plan.specs.Steps.{Grown, RelayAdded, LinkAdded};
ghost use Rattle.plan.specs.History.{AddRelay, AddLink, Continues};

use crate::counts::{Counts, MOST_COLOURS};
use crate::ends::Ends;
use crate::lists::{LinkLists, LinkView, RelayLists, RelayView};
use crate::refusal::Refusal;
use crate::view::PlanView;
use kind::Cost;
use std::marker::Model;

// `Draft` and `Closed` are two types, and a measured plan is a third, since each allows other
// steps: a rule of the project.

/// A plan that is being entered: relays and links may be added, and it may be closed.
/// The entries lie in lists that are lent at each call; a clause sees a draft as its counts.
#[derive(Drop)]
pub struct Draft {
    counts: Counts,
}

impl Model for Draft {
    ghost use Rattle.plan.specs.declared.counts.Counts.{Counts};

    ghost Value = { Counts };

    ghost view = { λ d. d.counts };
}

impl Counts {
    // The counts with one relay more. Each field is named, since `..self` passes no ghost field on.
    fn with_relay(self) -> Counts
        requires { self.relays < 256 }
        ensures { Grown self result 1 0 }
    {
        Counts {
            colours: self.colours,
            relays: self.relays + 1,
            links: self.links,
        }
    }

    // The counts with one link more.
    fn with_link(self) -> Counts
        requires { self.links < 1024 }
        ensures { Grown self result 0 1 }
    {
        Counts {
            colours: self.colours,
            relays: self.relays,
            links: self.links + 1,
        }
    }
}

// Whether a relay of this name and colour may be added; if not, why.
fn check_relay<C: Cost>(
    counts: Counts,
    relays: &RelayView,
    links: &LinkView<C>,
    name: u64,
    colour: u64,
) -> Result<(), Refusal>
    ensures { MatchResult result
        (λ _. AllHold (relay_checks counts (lists relays.now links.now) name colour))
        (λ f. FirstFails (relay_checks counts (lists relays.now links.now) name colour) f) }
{
    let plan = PlanView::new(counts, relays, links)?;
    plan.check_relay(name, colour)?;
    if !relays.has_place(counts.relays) {
        return Err(Refusal::NoPlace);
    }
    Ok(())
}

// Whether a link between these names may be added; if so, its ends, if not, why.
fn check_link<C: Cost>(
    counts: Counts,
    relays: &RelayView,
    links: &LinkView<C>,
    from: u64,
    to: u64,
    cost: C,
) -> Result<Ends, Refusal>
    ensures checked { MatchResult result
        (λ _. AllHold (link_checks C.kind counts (lists relays.now links.now) from to cost))
        (λ f. FirstFails (link_checks C.kind counts (lists relays.now links.now) from to cost) f) }
    ensures from { IfOk result
        (λ e. Called (plan_of counts (lists relays.now links.now)) e.from from) }
    ensures to { IfOk result
        (λ e. Called (plan_of counts (lists relays.now links.now)) e.to to) }
{
    let plan = PlanView::new(counts, relays, links)?;
    let ends = plan.check_link(from, to, cost)?;
    if !links.has_place(counts.links) {
        return Err(Refusal::NoPlace);
    }
    Ok(ends)
}

impl Draft {
    /// A draft with this many colours, 1 to 16, and no relay yet.
    /// Refused with `BeyondLimit` for any other number.
    pub fn open(colours: u64) -> Result<Draft, Refusal>
        ensures colours { IfOk result (λ d. d.colours ≡ colours) }
        ensures no_relays { IfOk result (λ d. d.relays ≡ 0) }
        ensures no_links { IfOk result (λ d. d.links ≡ 0) }
        ensures accepted { OnOk result (AllHold (open_checks colours)) }
        ensures refused { IfErr result (λ f. FirstFails (open_checks colours) f) }
    {
        if colours < 1 || colours > MOST_COLOURS as u64 {
            return Err(Refusal::BeyondLimit);
        }
        let counts = Counts {
            colours: colours as u8,
            relays: 0,
            links: 0,
        };
        Ok(Draft { counts })
    }

    /// How much has been entered.
    pub fn counts(&self) -> Counts
        ensures { result ≡ self.now }
    {
        self.counts
    }

    /// Adds a relay behind the others.
    /// Refused, in this order: `ListTooShort`, `BeyondLimit` for the name or the colour, `NameBorne`, and `NoPlace`
    /// in the plan or in a list; the draft is then given back, and the lists are as they were.
    pub fn add_relay<C: Cost>(
        self,
        relays: &mut RelayLists,
        links: &LinkView<C>,
        name: u64,
        colour: u64,
    ) -> Result<Draft, (Draft, Refusal)>
        ensures accepted { OnOk result
            (AllHold (relay_checks self (lists (relays_in relays.old) links.now) name colour)) }
        ensures refused { IfErr result (λ e. FirstFails
            (relay_checks self (lists (relays_in relays.old) links.now) name colour) e.1) }
        ensures returned { IfErr result (λ e. e.0 ≡ self) }
        ensures unchanged { OnErr result (relays_in relays.new ≡ relays_in relays.old) }

        ensures added { IfOk result (λ d. RelayAdded
            self (lists (relays_in relays.old) links.now) name colour
            d (lists (relays_in relays.new) links.now)) }
        ensures sound { IfOk result (λ d.
            Sound C.kind (plan_of self (lists (relays_in relays.old) links.now))
            → Sound C.kind (plan_of d (lists (relays_in relays.new) links.now))) }
        ensures history { Continues C.kind
            self (lists (relays_in relays.old) links.now) (AddRelay name colour)
            result (lists (relays_in relays.new) links.now) }
        ensures lent { SameRelays relays.old relays.new }
    {
        if let Err(refusal) = check_relay(self.counts, &relays.view(), links, name, colour) {
            return Err((self, refusal));
        }
        relays.write(self.counts.relays, name as u32, colour as u8);
        Ok(Draft {
            counts: self.counts.with_relay(),
        })
    }

    /// Adds a link behind the others, between the relays of these names.
    /// Refused, in this order: `ListTooShort`, `BeyondLimit` for a name or the cost, `BadLink` for an end that no relay
    /// bears, equal ends or a pair already linked, and `NoPlace` in the plan or in a list; the draft is then given back,
    /// and the lists are as they were.
    pub fn add_link<C: Cost>(
        self,
        relays: &RelayView,
        links: &mut LinkLists<C>,
        from: u64,
        to: u64,
        cost: C,
    ) -> Result<Draft, (Draft, Refusal)>
        ensures accepted { OnOk result
            (AllHold
            (link_checks C.kind self (lists relays.now (links_in links.old)) from to cost)) }
        ensures refused { IfErr result (λ e. FirstFails
            (link_checks C.kind self (lists relays.now (links_in links.old)) from to cost) e.1) }
        ensures returned { IfErr result (λ e. e.0 ≡ self) }
        ensures unchanged { OnErr result (links_in links.new ≡ links_in links.old) }

        ensures added { IfOk result (λ d. LinkAdded
            self (lists relays.now (links_in links.old)) from to cost
            d (lists relays.now (links_in links.new))) }
        ensures sound { IfOk result (λ d.
            Sound C.kind (plan_of self (lists relays.now (links_in links.old)))
            → Sound C.kind (plan_of d (lists relays.now (links_in links.new)))) }
        ensures history { Continues C.kind
            self (lists relays.now (links_in links.old)) (AddLink from to cost)
            result (lists relays.now (links_in links.new)) }
        ensures lent { SameLinks links.old links.new }
    {
        let pair = match check_link(self.counts, relays, &links.view(), from, to, cost) {
            Ok(pair) => pair,
            Err(refusal) => return Err((self, refusal)),
        };
        links.write(self.counts.links, pair, cost);
        Ok(Draft {
            counts: self.counts.with_link(),
        })
    }
}
