ghost use Rattle.std.specs.Prelude.{◌≡◌, ◌*◌, ◌≤◌, length, MatchResult, OnOk, IfOk, IfErr, OnErr};
ghost use Rattle.plan.specs.Checks.{AllHold, FirstFails};
ghost use Rattle.plan.specs.Plan.{lists, plan_of};
ghost use Rattle.measure.specs.Settling.{IsSquareOf, Rows, NextRows, Behind};
ghost use Rattle.measure.specs.Measuring.{measure_checks, Measures};

use crate::graph::Graph;
use crate::next::nexts_from;
use crate::spread::distances_from;
use crate::square::Square;
use kind::Cost;
use plan::{Closed, Counts, LinkView, PlanView, Refusal, RelayView};
use std::marker::Model;

/// A measured plan: its distances and next relays are in the two squares.
/// The only step left to it is to be laid.
/// A clause sees it as its counts.
#[derive(Drop)]
pub struct Measured {
    counts: Counts,
}

impl Model for Measured {
    ghost use Rattle.plan.specs.declared.counts.Counts.{Counts};

    ghost Value = { Counts };

    ghost view = { λ m. m.counts };
}

impl Measured {
    /// How many colours, relays and links it has.
    pub fn counts(&self) -> Counts
        ensures { result ≡ self.now }
    {
        self.counts
    }
}

// Whether the lists hold a plan that may be measured into these squares;
// if so, the plan, if not, why.
fn check_measuring<'a, C: Cost>(
    counts: Counts,
    relays: &RelayView<'a>,
    links: &LinkView<'a, C>,
    distances: &[C],
    nexts: &[u16],
) -> Result<PlanView<'a, C>, Refusal>
    ensures checked { let l = lists relays.now links.now in
        let checks = measure_checks counts l distances.now nexts.now in
        MatchResult result (λ _. AllHold checks) (λ f. FirstFails checks f) }
    ensures plan { IfOk result (λ p. p ≡ plan_of counts (lists relays.now links.now)) }
    ensures side { IfOk result (λ p. length p.relays ≡ counts.relays) }
{
    let plan = PlanView::new(counts, relays, links)?;
    let side = usize::from(counts.relays);
    if !Square::new(side, distances).fits() || !Square::new(side, nexts).fits() {
        return Err(Refusal::ListTooShort);
    }
    if plan.is_dangling() {
        return Err(Refusal::EntryBroken);
    }
    Ok(plan)
}

// Fills the square with the distances, row by row.
fn fill_distances<C: Cost>(graph: &Graph<C>, distances: &mut [C])
    requires square { graph.now.relays * graph.now.relays ≤ length distances.old }
    ensures rows { Rows C.kind graph.now distances.new graph.now.relays }
    ensures behind { Behind graph.now.relays distances.old distances.new }
{
    let relays = graph.relays;
    // By index: of what is written through `chunks_mut` no proof knows anything afterwards.
    // Not by `SquareMut`: it writes a cell at a time, and a row is written whole, by an iterator.
    for u in 0..relays {
        let start = u * relays;
        distances_from(graph, u, &mut distances[start..start + relays]);
    }
}

// Fills the square with the next relays, row by row.
fn fill_nexts<C: Cost>(graph: &Graph<C>, distances: &Square<C>, nexts: &mut [u16])
    requires square { IsSquareOf graph.now distances.now }
    requires room { graph.now.relays * graph.now.relays ≤ length nexts.old }
    ensures rows { NextRows C.kind graph.now distances.now.cells.now nexts.new graph.now.relays }
    ensures behind { Behind graph.now.relays nexts.old nexts.new }
{
    let relays = graph.relays;
    // As in `fill_distances`: one function for both would take a closure,
    // with a clause on each of its calls, which is no plainer.
    for u in 0..relays {
        let start = u * relays;
        nexts_from(graph, distances, u, &mut nexts[start..start + relays]);
    }
}

/// Measures the plan into the two squares: in row u at column v the distance from u to v,
/// and the next relay from u toward v. What stands behind the squares in their lists
/// stays as it is.
///
/// Refused with `ListTooShort` if a list has fewer entries than the plan or a square needs,
/// and with `EntryBroken` if a link has an end that is no relay.
/// What is refused changes nothing, and gives the plan back.
pub fn measure<C: Cost>(
    closed: Closed,
    relays: &RelayView,
    links: &LinkView<C>,
    distances: &mut [C],
    nexts: &mut [u16],
) -> Result<Measured, (Closed, Refusal)>
    ensures accepted { let l = lists relays.now links.now in
        OnOk result (AllHold (measure_checks closed l distances.old nexts.old)) }
    ensures refused { let l = lists relays.now links.now in
        IfErr result (λ e. FirstFails (measure_checks closed l distances.old nexts.old) e.1) }
    ensures counts { IfOk result (λ m. m ≡ closed) }
    ensures measured { let p = plan_of closed (lists relays.now links.now) in
        OnOk result
        (Measures C.kind p closed.relays distances.old distances.new nexts.old nexts.new) }
    ensures unchanged { IfErr result (λ e. e.0 ≡ closed) }
    ensures distances_unchanged { OnErr result (distances.new ≡ distances.old) }
    ensures nexts_unchanged { OnErr result (nexts.new ≡ nexts.old) }
{
    let counts = closed.counts();
    let plan = match check_measuring(counts, relays, links, distances, nexts) {
        Ok(plan) => plan,
        Err(refusal) => return Err((closed, refusal)),
    };
    let graph = Graph::new(&plan);
    fill_distances(&graph, distances);
    fill_nexts(&graph, &Square::new(graph.relays, distances), nexts);
    Ok(Measured { counts })
}
