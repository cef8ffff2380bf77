ghost use Rattle.std.specs.Prelude.{◌≤◌, true, false, length, MatchOption};
ghost use Rattle.std.specs.Bool.{OnTrue, OnFalse};
ghost use Rattle.plan.specs.Reach.{NoneAbsent, FirstAbsent, Loose, Within, Marked, NoCrossing, Crosses, AllReached, FirstOut, FirstUnmarked};

use crate::counts::MOST_RELAYS;
use crate::ends::Ends;

// The lowest colour that is none of these, of the colours 1 to `most`.
pub(crate) fn lowest_absent(colours: &[u8], most: u8) -> Option<u8>
    requires { most ≤ 16 }
    ensures { MatchOption result
        (NoneAbsent colours.now most)
        (λ c. FirstAbsent colours.now most c) }
{
    // A loop: through `find` the check does not prove the answer, and by hand its proof is longer.
    for c in 1..=most {
        if !colours.contains(&c) {
            return Some(c);
        }
    }
    None
}

// Whether one of these links has an end that is no relay.
pub(crate) fn is_loose(ends: &[Ends], relays: u16) -> bool
    ensures loose { OnTrue result (Loose ends.now relays) }
    ensures within { OnFalse result (Within ends.now relays) }
{
    ends.iter().any(|e| e.from >= relays || e.to >= relays)
}

// A relay that is not marked, and that a link joins to one that is.
// A loop: `find_map` would hold the same two tests, and is no plainer.
fn crossing(ends: &[Ends], marks: &[bool]) -> Option<u16>
    requires { Within ends.now (length marks.now) }
    ensures { MatchOption result
        (NoCrossing ends.now marks.now)
        (λ v. Crosses ends.now marks.now v) }
{
    for e in ends {
        let from = marks[usize::from(e.from)];
        let to = marks[usize::from(e.to)];
        if from && !to {
            return Some(e.to);
        }
        if to && !from {
            return Some(e.from);
        }
    }
    None
}

// Marks every relay that links join to a marked one, over and over.
fn spread(ends: &[Ends], marks: &mut [bool])
    requires { (Within ends.now (length marks.old)) × (Marked ends.now marks.old) }
    ensures { Marked ends.now marks.new × NoCrossing ends.now marks.new }
{
    while let Some(v) = crossing(ends, marks) {
        marks[usize::from(v)] = true;
    }
}

// The first place that has no mark.
fn first_unmarked(marks: &[bool]) -> Option<usize>
    ensures { FirstUnmarked marks.now result }
{
    marks.iter().position(|marked| !*marked)
}

// The lowest relay that is out of reach of relay 0.
pub(crate) fn first_out(ends: &[Ends], relays: u16) -> Option<u16>
    requires { (Within ends.now relays) × (relays ≤ 256) }
    ensures { MatchOption result (AllReached ends.now relays) (λ v. FirstOut ends.now relays v) }
{
    // fixed memory: a mark for each relay that a plan may have
    let mut marks = [false; MOST_RELAYS];
    marks[0] = true;
    spread(ends, &mut marks);
    let relay = first_unmarked(&marks[..usize::from(relays)])?;
    Some(relay as u16)
}
