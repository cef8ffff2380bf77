ghost use Rattle.std.specs.Prelude.{◌≡◌, ◌≤◌, length};
ghost use Rattle.plan.specs.Reach.{Within};
ghost use Rattle.plan.specs.Sound.{AreRelays};
ghost use Rattle.measure.specs.Incidence.{Incident};

use crate::incidence::Incidence;
use kind::Cost;
use plan::{Ends, PlanView};

// A relay, and what it costs to get there.
#[derive(Clone, Copy)]
pub(crate) struct Reached<C> {
    pub(crate) relay: usize,
    pub(crate) cost: C,
}

// The links of a plan, for each of its relays.
#[derive(Drop)]
pub(crate) struct Graph<'a, C> {
    pub(crate) relays: usize,
    pub(crate) ends: &'a [Ends],
    pub(crate) costs: &'a [C],
    pub(crate) incidence: Incidence,
    ghost few: { relays ≤ 256 },
    ghost within: { Within ends.now relays },
    ghost same: { length ends.now ≡ length costs.now },
    ghost sparse: { length ends.now ≤ 1024 },
    ghost incident: { Incident ends.now incidence },
}

impl<'a, C: Cost> Graph<'a, C> {
    ghost use Rattle.measure.specs.Settling.{Entered};

    // The links of this plan.
    pub(crate) fn new(plan: &PlanView<'a, C>) -> Graph<'a, C>
        requires { AreRelays plan.now }
        ensures { Entered plan.now result }
    {
        let relays = plan.relay_count();
        Graph {
            relays,
            ends: plan.ends(),
            costs: plan.costs(),
            incidence: Incidence::new(plan),
        }
    }
}
