ghost use Rattle.std.specs.Prelude.{◌≡◌, IsTrue, ◌↔◌};
ghost use Rattle.plan.specs.Plan.{RelayEntries, LinkEntries};
ghost use Rattle.plan.specs.Lent.{relays_in, links_in, SameRelays, SameLinks};
ghost use Rattle.plan.specs.Rules.{RelayPlace, LinkPlace};
ghost use Rattle.plan.specs.Steps.{relay_written, link_written};

use crate::ends::Ends;
use kind::Cost;
use std::marker::Model;

// Two lists for the relays and two for the links, each pair for writing and for reading: memory is lent at each call, which is a
// rule of the project. One generic pair for both would lose the names of the fields.

/// The names and the colours of relays, in two lists that are lent to be written.
#[derive(Drop)]
pub struct RelayLists<'a> {
    pub names: &'a mut [u32],
    pub colours: &'a mut [u8],
}

/// The ends and the costs of links, in two lists that are lent to be written.
#[derive(Drop)]
pub struct LinkLists<'a, C: Cost> {
    pub ends: &'a mut [Ends],
    pub costs: &'a mut [C],
}

/// The names and the colours of relays, in two lists that are lent to be read.
#[derive(Drop)]
pub struct RelayView<'a> {
    pub(crate) names: &'a [u32],
    pub(crate) colours: &'a [u8],
}

impl<'a> Model for RelayView<'a> {
    ghost use Rattle.plan.specs.Plan.{RelayEntries};

    ghost Value = { RelayEntries };

    ghost view = { λ v. record { names = v.names.now; colours = v.colours.now } };
}

/// The ends and the costs of links, in two lists that are lent to be read.
#[derive(Drop)]
pub struct LinkView<'a, C: Cost> {
    pub(crate) ends: &'a [Ends],
    pub(crate) costs: &'a [C],
}

impl<'a, C: Cost> Model for LinkView<'a, C> {
    ghost use Rattle.plan.specs.Plan.{LinkEntries};

    ghost Value = { LinkEntries C };

    ghost view = { λ v. record { ends = v.ends.now; costs = v.costs.now } };
}

impl<'a> RelayLists<'a> {
    /// The lists, to be read.
    pub fn view(&self) -> RelayView
        ensures { result ≡ relays_in self.now }
    {
        RelayView {
            names: self.names,
            colours: self.colours,
        }
    }

    // Writes the relay of this number.
    pub(crate) fn write(&mut self, number: u16, name: u32, colour: u8)
        requires place { RelayPlace number (relays_in self.old) }
        ensures written { relays_in self.new
            ≡ relay_written (relays_in self.old) number name colour }
        ensures lent { SameRelays self.old self.new }
    {
        self.names[usize::from(number)] = name;
        self.colours[usize::from(number)] = colour;
    }
}

impl<'a, C: Cost> LinkLists<'a, C> {
    /// The lists, to be read.
    pub fn view(&self) -> LinkView<C>
        ensures { result ≡ links_in self.now }
    {
        LinkView {
            ends: self.ends,
            costs: self.costs,
        }
    }

    // Writes the link of this number.
    pub(crate) fn write(&mut self, number: u16, pair: Ends, cost: C)
        requires place { LinkPlace number (links_in self.old) }
        ensures written { links_in self.new ≡ link_written (links_in self.old) number pair cost }
        ensures lent { SameLinks self.old self.new }
    {
        self.ends[usize::from(number)] = pair;
        self.costs[usize::from(number)] = cost;
    }
}

impl<'a> RelayView<'a> {
    /// A list of names and one of colours, of whatever lengths.
    pub fn new(names: &'a [u32], colours: &'a [u8]) -> RelayView<'a>
        ensures { result ≡ record { names = names.now; colours = colours.now } }
    {
        RelayView { names, colours }
    }

    // Whether both lists have a place of this number.
    pub(crate) fn has_place(&self, number: u16) -> bool
        ensures { IsTrue result ↔ RelayPlace number self.now }
    {
        let number = usize::from(number);
        number < self.names.len() && number < self.colours.len()
    }
}

impl<'a, C: Cost> LinkView<'a, C> {
    /// A list of ends and one of costs, of whatever lengths.
    pub fn new(ends: &'a [Ends], costs: &'a [C]) -> LinkView<'a, C>
        ensures { result ≡ record { ends = ends.now; costs = costs.now } }
    {
        LinkView { ends, costs }
    }

    // Whether both lists have a place of this number.
    pub(crate) fn has_place(&self, number: u16) -> bool
        ensures { IsTrue result ↔ LinkPlace number self.now }
    {
        let number = usize::from(number);
        number < self.ends.len() && number < self.costs.len()
    }
}
