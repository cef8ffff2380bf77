ghost use Rattle.std.specs.Prelude.{◌≡◌, MatchResult, IfOk, IfErr, OnOk};
ghost use Rattle.plan.specs.Plan.{lists, plan_of, IsLong};
ghost use Rattle.plan.specs.Sound.{Sound};
ghost use Rattle.plan.specs.Checks.{AllHold, FirstFails};
ghost use Rattle.plan.specs.Rules.{close_checks};
ghost use Rattle.plan.specs.Steps.{Closes};

use crate::counts::Counts;
use crate::draft::Draft;
use crate::lists::{LinkView, RelayView};
use crate::refusal::Refusal;
use crate::view::PlanView;
use kind::Cost;
use std::marker::Model;

/// A plan whose colours are all borne and whose relays are connected. It can only be measured.
/// A clause sees it as its counts.
#[derive(Drop)]
pub struct Closed {
    counts: Counts,
}

impl Model for Closed {
    ghost use Rattle.plan.specs.declared.counts.Counts.{Counts};

    ghost Value = { Counts };

    ghost view = { λ c. c.counts };
}

impl Closed {
    /// How many colours, relays and links it has.
    pub fn counts(&self) -> Counts
        ensures { result ≡ self.now }
    {
        self.counts
    }
}

// Whether the plan may be closed; if not, why.
fn check_closing<C: Cost>(
    counts: Counts,
    relays: &RelayView,
    links: &LinkView<C>,
) -> Result<(), Refusal>
    ensures { MatchResult result
        (λ _. AllHold (close_checks counts (lists relays.now links.now)))
        (λ f. FirstFails (close_checks counts (lists relays.now links.now)) f) }
{
    let plan = PlanView::new(counts, relays, links)?;
    if let Some(colour) = plan.absent_colour() {
        return Err(Refusal::ColourAbsent(colour));
    }
    if plan.is_dangling() {
        return Err(Refusal::EntryBroken);
    }
    if let Some(relay) = plan.unreached() {
        return Err(Refusal::OutOfReach(relay));
    }
    Ok(())
}

impl Draft {
    /// Closes the plan, if every colour is borne and every relay in reach of relay 0.
    /// Refused, in this order: `ListTooShort`, `ColourAbsent` with the lowest colour, `EntryBroken`, and
    /// `OutOfReach` with the lowest relay; the draft is then given back.
    pub fn close<C: Cost>(
        self,
        relays: &RelayView,
        links: &LinkView<C>,
    ) -> Result<Closed, (Draft, Refusal)>
        ensures accepted { OnOk result (AllHold (close_checks self (lists relays.now links.now))) }
        ensures refused { IfErr result
            (λ e. FirstFails (close_checks self (lists relays.now links.now)) e.1) }
        ensures kept { IfOk result (λ p. p ≡ self) }
        ensures returned { IfErr result (λ e. e.0 ≡ self) }

        // A sound plan is refused only for want of a colour, or of a walk.
        ensures plainly { IsLong self (lists relays.now links.now)
            → Sound C.kind (plan_of self (lists relays.now links.now))
            → Closes (plan_of self (lists relays.now links.now)) result }
    {
        let counts = self.counts();
        if let Err(refusal) = check_closing(counts, relays, links) {
            return Err((self, refusal));
        }
        Ok(Closed { counts })
    }
}
