ghost use Rattle.std.specs.Prelude.{◌≡◌, ℕ, ◌*◌, ◌<◌, ◌≤◌, IsTrue, ◌↔◌, length, slice_index};
ghost use Rattle.measure.specs.Settling.{IsSquareOf, Toward};

use crate::graph::Graph;
use crate::square::Square;
use kind::Cost;

// Whether the link and the rest cost as much as the whole.
fn adds_up<C: Cost>(whole: C, over: C, rest: C) -> bool
    ensures { IsTrue result ↔ (whole ≡ C.kind.adds over rest) }
{
    whole == over + rest
}

// The lowest relay that comes next on a cheapest walk; `from` itself if the distances show none.
fn next_toward<C: Cost>(graph: &Graph<C>, distances: &Square<C>, from: usize, to: usize) -> usize
    requires square { IsSquareOf graph.now distances.now }
    requires inside { from < graph.now.relays }
    requires target { to < graph.now.relays }
    ensures relay { result < graph.now.relays }
    ensures toward { Toward C.kind graph.now distances.now.cells.now from to result }
{
    if from == to {
        return from;
    }
    let whole = distances.entry(from, to);
    let mut lowest: Option<usize> = None;
    // A loop: the closures of a chain would owe that each link leads to a relay,
    // which a chain's clauses do not carry.
    for link in graph.links_at(from) {
        if adds_up(whole, link.cost, distances.entry(link.relay, to)) {
            lowest = Some(link.relay.min(lowest.unwrap_or(link.relay)));
        }
    }
    lowest.unwrap_or(from)
}

// Fills the row with the next relay toward each relay.
pub(crate) fn nexts_from<C: Cost>(
    graph: &Graph<C>,
    distances: &Square<C>,
    from: usize,
    row: &mut [u16],
)
    requires square { IsSquareOf graph.now distances.now }
    requires inside { from < graph.now.relays }
    requires size { length row.old ≡ graph.now.relays }
    ensures { (x : ℕ) → x < graph.now.relays
        → Toward C.kind graph.now distances.now.cells.now from x (slice_index row.new x) }
{
    for (x, next) in row.iter_mut().enumerate() {
        *next = next_toward(graph, distances, from, x) as u16;
    }
}
