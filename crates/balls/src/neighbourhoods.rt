ghost use Rattle.std.specs.Prelude.{◌≡◌, ◌≢◌, ◌↔◌, ℕ, ◌*◌, ◌≤◌, length, drop, IfOk, IfErr, OnOk, OnErr, IsTrue};
ghost use Rattle.plan.specs.Checks.{AllHold, FirstFails};
ghost use Rattle.plan.specs.Reach.{IsMarked};
ghost use Rattle.balls.specs.Checks.{near_checks, order_checks};
ghost use Rattle.balls.specs.Lists.{entries_of, first_relays, colour_at, HasColour};
ghost use Rattle.balls.specs.Told.{IsOfPlan, HasTheory, IsSeenFrom, FindsSize, FindsBall, FindsFirst, FindsManager, FindsHome};

use crate::missing::Missing;
use crate::sorting::sort_relays;
use kind::Cost;
use measure::{Measured, Square};
use order::LANDMARKS;
use plan::{Counts, Refusal};
use std::marker::Model;

// Whether the lists have the entries of a measured plan.
fn check_lists<C: Cost>(counts: Counts, colours: &[u8], distances: &[C]) -> Result<(), Refusal>
    ensures accepted { OnOk result (AllHold (near_checks counts colours.now distances.now)) }
    ensures refused { IfErr result (FirstFails (near_checks counts colours.now distances.now)) }
{
    let relays = usize::from(counts.relays);
    if colours.len() < relays || !Square::new(relays, distances).fits() {
        return Err(Refusal::ListTooShort);
    }
    Ok(())
}

/// The neighbourhoods of a measured plan: what each relay has near it, by colours and distances.
/// A clause sees them as the lists that they are found in.
#[derive(Drop)]
pub struct Neighbourhoods<'a, C> {
    palette: u8,
    colours: &'a [u8],
    distances: Square<'a, C>,
}

impl<'a, C> Model for Neighbourhoods<'a, C> {
    ghost use Rattle.balls.specs.Lists.{MeasuredLists, IsWhole};

    ghost Value = { MeasuredLists C };

    ghost view = { λ near. record {
      palette = near.palette;
      colours = near.colours.now;
      distances = near.distances.cells.now;
    } };

    ghost invariant = { λ near. IsWhole near.colours.now near.distances };
}

impl<'a, C: Cost> Neighbourhoods<'a, C> {
    /// Over the lists of a measured plan: a colour for each relay,
    /// and a distance for each pair, row by row.
    /// Refused with `ListTooShort` if one of the two has fewer entries;
    /// those behind them are not read.
    pub fn new(
        measured: &Measured,
        colours: &'a [u8],
        distances: &'a [C],
    ) -> Result<Neighbourhoods<'a, C>, Refusal>
        ensures accepted { OnOk result
            (AllHold (near_checks measured.now colours.now distances.now)) }
        ensures refused { IfErr result
            (FirstFails (near_checks measured.now colours.now distances.now)) }
        ensures entries { IfOk result
            (λ near. near ≡ entries_of measured.now colours.now distances.now) }
        ensures plan { IfOk result
            (IsOfPlan C.kind measured.now colours.now distances.now) }
        ensures theory { IfOk result (HasTheory C.kind) }
    {
        let counts = measured.counts();
        check_lists(counts, colours, distances)?;
        let relays = usize::from(counts.relays);
        Ok(Neighbourhoods {
            palette: counts.colours,
            colours: &colours[..relays],
            distances: Square::new(relays, &distances[..relays * relays]),
        })
    }

    /// How many relays there are: at most 256, and there is a distance for each pair of them.
    pub fn relay_count(&self) -> usize
        ensures count { result ≡ length self.now.colours }
        ensures few { result ≤ 256 }
        ensures pairs { length self.now.distances ≡ result * result }
    {
        self.distances.side
    }

    // The colour of a relay; 0 if there is no such relay.
    // No `Option`: 0 is no colour and is never missing, so to take it out changes nothing.
    fn colour_of(&self, relay: u16) -> u8
        ensures { result ≡ colour_at self.now.colours relay }
    {
        self.colours.get(usize::from(relay)).copied().unwrap_or(0)
    }

    // Whether it is a relay of the colour.
    fn bears(&self, relay: u16, colour: u8) -> bool
        ensures { IsTrue result ↔ HasColour self.now.colours relay colour }
    {
        self.colours.get(usize::from(relay)) == Some(&colour)
    }

    // Takes the relay's colour out of the missing ones.
    fn meet(&self, relay: u16, missing: &mut Missing)
        ensures { (c : ℕ) → IsMarked missing.new.marks c
            ↔ (IsMarked missing.old.marks c × (c ≢ colour_at self.now.colours relay)) }
    {
        missing.remove(self.colour_of(relay));
    }

    // The first entries of an order, as many as there are relays.
    fn entries<'b>(&self, order: &'b [u16]) -> &'b [u16]
        ensures { result.now ≡ first_relays self.now order.now }
    {
        &order[..order.len().min(self.colours.len())]
    }

    /// Writes the relays in the order that the relay `from` sees: by distance,
    /// equal ones by lower number.
    /// Refused with `ListTooShort` if the list has fewer places than there are relays,
    /// and with `UnknownSource` if there is no such relay; the list then stays as it is.
    /// So do the places behind the relays.
    pub fn order_from(&self, from: u16, order: &mut [u16]) -> Result<(), Refusal>
        ensures accepted { OnOk result
            (AllHold (order_checks (length self.now.colours) from order.old)) }
        ensures refused { IfErr result
            (FirstFails (order_checks (length self.now.colours) from order.old)) }
        ensures unchanged { OnErr result (order.new ≡ order.old) }
        ensures seen { OnOk result (IsSeenFrom C.kind self.now from order.new) }
        ensures behind { OnOk result
            (drop (length self.now.colours) order.new ≡ drop (length self.now.colours) order.old) }
    {
        let relays = self.colours.len();
        if order.len() < relays {
            return Err(Refusal::ListTooShort);
        }
        let Some(row) = self.distances.row(usize::from(from)) else {
            return Err(Refusal::UnknownSource);
        };
        sort_relays(row, &mut order[..relays]);
        Ok(())
    }

    /// How many entries of this order it takes to meet all the colours; none if they lack one.
    /// In the order that a relay sees, these are its ball.
    /// Only as many entries are read as there are relays.
    pub fn ball_size(&self, order: &[u16]) -> Option<usize>
        ensures size { FindsSize self.now order.now result }
        ensures ball { FindsBall C.kind self.now order.now result }
    {
        let relays = self.entries(order);
        let mut missing = Missing::all(self.palette);
        let mut place = 0;
        // The project names this form: a loop that leaves with the ball's size as its value.
        let size = loop {
            if missing.is_empty() {
                break place;
            }
            let relay = relays.get(place)?;
            self.meet(*relay, &mut missing);
            place += 1;
        };
        Some(size)
    }

    /// The first relay of this order that has the colour; none if no entry has it.
    /// In the order that a relay sees, this is its manager.
    /// Only as many entries are read as there are relays.
    pub fn manager(&self, order: &[u16], colour: u8) -> Option<u16>
        ensures first { FindsFirst self.now order.now colour result }
        ensures manager { FindsManager C.kind self.now order.now colour result }
    {
        self.entries(order)
            .iter()
            .copied()
            .find(|relay| self.bears(*relay, colour))
    }

    /// The first landmark of this order; none if no entry is one.
    /// In the order that a relay sees, this is its home.
    pub fn home(&self, order: &[u16]) -> Option<u16>
        ensures first { FindsFirst self.now order.now 1 result }
        ensures home { FindsHome C.kind self.now order.now result }
    {
        self.manager(order, LANDMARKS)
    }
}
