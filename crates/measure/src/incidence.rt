ghost use Rattle.std.specs.Prelude.{◌≤◌, length};
ghost use Rattle.plan.specs.Plan.{ends_of};
ghost use Rattle.plan.specs.Sound.{AreRelays};
ghost use Rattle.measure.specs.Incidence.{Incident};

use kind::Cost;
use plan::{MOST_LINKS, MOST_RELAYS, PlanView};

// The links of each relay, in rising order: the first of them,
// and after each link the next one at its `from` and at its `to`.
// Where no link is left stands the number of links, and no `Option`: `get` at that number gives
// none by itself, so an option would ask twice, which is no plainer.
// Fixed memory: a list of links for each relay would need a heap.
#[derive(Drop)]
pub(crate) struct Incidence {
    pub(crate) first: [u16; MOST_RELAYS],
    pub(crate) from: [u16; MOST_LINKS],
    pub(crate) to: [u16; MOST_LINKS],
}

impl Incidence {
    // The links of each relay, entered from the last link to the first.
    pub(crate) fn new<C: Cost>(plan: &PlanView<C>) -> Incidence
        requires tied { AreRelays plan.now }
        requires few { length plan.now.relays ≤ 256 }
        ensures incident { Incident (ends_of plan.now) result }
        ensures sparse { length plan.now.links ≤ 1024 }
    {
        let links = plan.link_count();
        let ends = plan.ends();
        let mut first = [links as u16; MOST_RELAYS];
        let mut from = [0; MOST_LINKS];
        let mut to = [0; MOST_LINKS];
        for (k, pair) in ends.iter().enumerate().rev() {
            let (u, v) = (usize::from(pair.from), usize::from(pair.to));
            from[k] = first[u];
            to[k] = first[v];
            first[u] = k as u16;
            first[v] = k as u16;
        }
        Incidence { first, from, to }
    }
}
