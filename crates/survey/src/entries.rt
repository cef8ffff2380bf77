use kind::Cost;
use plan::{Counts, Ends, LinkLists, MOST_LINKS, MOST_RELAYS, RelayLists, port_at};
use std::alloc::{AllocError, Global};
use std::{fmt, io};

// The lists in which a plan is entered, with a place for each relay and link that it may have:
// four of them, since the libraries take their memory as lists that are lent.
#[derive(Drop)]
pub(crate) struct Lists<C: Cost> {
    names: Vec<u32>,
    colours: Vec<u8>,
    ends: Vec<Ends>,
    costs: Vec<C>,
}

// The entries of a plan: of each list as many values as there are relays or links.
#[derive(Drop)]
pub(crate) struct Entries<'a, C: Cost> {
    pub(crate) counts: Counts,
    pub(crate) names: &'a [u32],
    pub(crate) colours: &'a [u8],
    pub(crate) ends: &'a [Ends],
    pub(crate) costs: &'a [C],
}

// The first values of a list, as many as are counted.
fn first<T>(list: &[T], count: u16) -> &[T] {
    list.get(..usize::from(count)).unwrap_or(list)
}

impl<C: Cost> Lists<C> {
    pub(crate) fn new(heap: Global) -> Result<Lists<C>, AllocError> {
        Ok(Lists {
            names: vec![in heap; 0; MOST_RELAYS]?,
            colours: vec![in heap; 0; MOST_RELAYS]?,
            ends: vec![in heap; Ends { from: 0, to: 0 }; MOST_LINKS]?,
            costs: vec![in heap; C::zero(); MOST_LINKS]?,
        })
    }

    // The lists, to be written.
    pub(crate) fn lend(&mut self) -> (RelayLists, LinkLists<C>) {
        let relays = RelayLists {
            names: &mut self.names,
            colours: &mut self.colours,
        };
        let links = LinkLists {
            ends: &mut self.ends,
            costs: &mut self.costs,
        };
        (relays, links)
    }

    // The entries of a plan of these counts.
    pub(crate) fn entries(&self, counts: Counts) -> Entries<C> {
        Entries {
            counts,
            names: first(&self.names, counts.relays),
            colours: first(&self.colours, counts.relays),
            ends: first(&self.ends, counts.links),
            costs: first(&self.costs, counts.links),
        }
    }
}

// The name of the relay of this number; 0, which is no name, if there is none.
// No `Option`: each number that is printed is a relay's, so there would be nothing to print.
pub(crate) fn name_of(names: &[u32], relay: u16) -> u32 {
    names.get(usize::from(relay)).copied().unwrap_or(0)
}

impl<'a, C: Cost + fmt::Display> Entries<'a, C> {
    // Prints each relay and each link.
    pub(crate) fn print(&self, rt: &impl Print) -> io::Result<()> {
        self.print_relays(rt)?;
        self.print_links(rt)
    }

    // Prints each relay with the number that it got.
    fn print_relays(&self, rt: &impl Print) -> io::Result<()> {
        for (number, (name, colour)) in self.names.iter().zip(self.colours).enumerate() {
            println!(rt; "relay {number}: name {name}, colour {colour}")?;
        }
        Ok(())
    }

    // Prints each link with its two ports.
    fn print_links(&self, rt: &impl Print) -> io::Result<()> {
        for (link, (pair, cost)) in self.ends.iter().zip(self.costs).enumerate() {
            print!(rt; "link {link}: from")?;
            self.print_end(rt, link, pair.from)?;
            print!(rt; " to")?;
            self.print_end(rt, link, pair.to)?;
            println!(rt; ", {cost}")?;
        }
        Ok(())
    }

    // Prints the name of the relay at one end of a link, and the link's port there.
    fn print_end(&self, rt: &impl Print, link: usize, relay: u16) -> io::Result<()> {
        let name = name_of(self.names, relay);
        match port_at(self.ends, link, relay) {
            Some(port) => print!(rt; " {name} (port {port})"),
            None => print!(rt; " {name} (no port)"),
        }
    }
}
