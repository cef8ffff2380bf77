ghost use Rattle.std.specs.Prelude.{◌≡◌, ◌<◌, ◌≤◌, length};
ghost use Rattle.std.specs.Bool.{OnTrue, OnFalse};
ghost use Rattle.measure.specs.declared.mark.Mark.TheVariants.{Open};
ghost use Rattle.measure.specs.Links.{links_of};
ghost use Rattle.measure.specs.Settling.{Near, reach_of, reaches_of, near_of, settled_of, Improves, Takes, Offered, Followed, cost_of_best, BestOf, DistancesFrom};

use crate::graph::{Graph, Reached};
use crate::mark::Mark;
use kind::Cost;
use plan::MOST_RELAYS;

// Marks and costs of relays stand side by side, the costs in a lent row:
// fixed memory, and an array of costs has no known size, since their type is a parameter.
// No struct holds the two: it would hold the lent row, and each method would have to say
// besides that the same row stays lent, which is no plainer.

// Whether a relay of this mark and cost takes an offer.
fn takes<C: Cost>(mark: Mark, known: C, offer: C) -> bool
    ensures taken { OnTrue result (Takes C.kind (reach_of mark known) offer (Near offer)) }
    ensures left { OnFalse result
        (Takes C.kind (reach_of mark known) offer (reach_of mark known)) }
{
    match mark {
        Mark::Unknown => true,
        Mark::Open => offer < known,
        Mark::Settled => false,
    }
}

// Offers relay x this cost: taken unless the relay is settled, or a cost is known that is no more.
fn offer<C: Cost>(marks: &mut [Mark], row: &mut [C], x: usize, cost: C)
    requires mark { x < length marks.old }
    requires cell { x < length row.old }
    ensures { Offered C.kind x cost (reaches_of marks.old row.old) (reaches_of marks.new row.new) }
{
    if takes(marks[x], row[x], cost) {
        marks[x] = Mark::Open;
        row[x] = cost;
    }
}

// Offers each relay that a link joins to this one the cost over that link.
fn relax<C: Cost>(graph: &Graph<C>, at: Reached<C>, marks: &mut [Mark], row: &mut [C])
    requires inside { at.relay < graph.now.relays }
    requires marks { graph.now.relays ≤ length marks.old }
    requires size { length row.old ≡ graph.now.relays }
    ensures { Followed C.kind at.cost (links_of graph.now at.relay) (reaches_of marks.old row.old)
        (reaches_of marks.new row.new) }
{
    let Reached { relay, cost } = at;
    for link in graph.links_at(relay) {
        offer(marks, row, link.relay, cost + link.cost);
    }
}

// Whether a relay of this mark and cost is not settled, and nearer than the best so far.
fn is_nearer<C: Cost>(mark: Mark, cost: C, best: Option<Reached<C>>) -> bool
    ensures nearer { OnTrue result ((mark ≡ Open) × Improves C.kind (cost_of_best best) cost) }
    ensures other { OnFalse result (mark ≡ Open → ¬ Improves C.kind (cost_of_best best) cost) }
{
    matches!(mark, Mark::Open) && best.is_none_or(|best| cost < best.cost)
}

// The nearest relay that is known and not settled.
fn nearest<C: Cost>(marks: &[Mark], row: &[C]) -> Option<Reached<C>>
    requires marks { length row.now ≤ length marks.now }
    ensures { let reaches = reaches_of marks.now row.now in
        BestOf C.kind (near_of reaches) (settled_of reaches) (length row.now) result }
{
    let mut best = None;
    for (relay, cost) in row.iter().enumerate() {
        if is_nearer(marks[relay], *cost, best) {
            best = Some(Reached { relay, cost: *cost });
        }
    }
    best
}

// Fills the row with the distances from the source:
// the nearest relay is settled, and its links are followed, over and over.
// A relay that no walk leads to has zero.
pub(crate) fn distances_from<C: Cost>(graph: &Graph<C>, source: usize, row: &mut [C])
    requires inside { source < graph.now.relays }
    requires size { length row.old ≡ graph.now.relays }
    ensures { DistancesFrom C.kind graph.now source row.new }
{
    let zero = C::zero();
    row.fill_with(move || zero);
    let mut marks = [Mark::Unknown; MOST_RELAYS];
    marks[source] = Mark::Open;
    while let Some(next) = nearest(&marks, row) {
        marks[next.relay] = Mark::Settled;
        relax(graph, next, &mut marks, row);
    }
}
