ghost use Rattle.std.specs.Prelude.{◌≡◌, ◌<◌};
ghost use Rattle.std.specs.Iterator.{YieldsFirst, item_count};
ghost use Rattle.measure.specs.Links.{links_of};

use crate::graph::{Graph, Reached};
use kind::Cost;
use std::marker::Model;

// The links at a relay: for each the relay at its other end, and what the link costs.
#[derive(Drop)]
pub(crate) struct Links<'g, 'a, C> {
    graph: &'g Graph<'a, C>,
    at: usize,
    // The place of the next link at the relay; the number of links if none is left.
    place: usize,
}

impl<'g, 'a, C> Model for Links<'g, 'a, C> {
    ghost use Rattle.std.specs.Prelude.{List};
    ghost use Rattle.measure.specs.declared.graph.Reached.{Reached};

    ghost Value = { List (Reached C) };

    ghost use Rattle.measure.specs.Links.{links_from};
    ghost use Rattle.measure.specs.Incidence.{IsPlace};

    ghost view = { λ l. links_from l.graph.now l.at l.place };

    ghost invariant = { λ l. IsPlace l.graph.now.ends.now l.at l.place };
}

impl<'a, C: Cost> Graph<'a, C> {
    // The links at this relay.
    pub(crate) fn links_at<'g>(&'g self, at: usize) -> Links<'g, 'a, C>
        requires { at < self.now.relays }
        ensures { result ≡ links_of self.now at }
    {
        let graph = self;
        let place = usize::from(graph.incidence.first[at]);
        Links { graph, at, place }
    }
}

impl<'g, 'a, C: Cost> Iterator for Links<'g, 'a, C> {
    type Item = Reached<C>;

    ghost next_gives = { YieldsFirst (λ rest. rest) };

    ghost remaining = { item_count (λ rest. rest) };

    fn next(&mut self) -> Option<Reached<C>> {
        let graph = self.graph;
        let place = self.place;
        let ends = *graph.ends.get(place)?;
        let cost = *graph.costs.get(place)?;
        let (next, end) = if usize::from(ends.from) == self.at {
            (graph.incidence.from[place], ends.to)
        } else {
            (graph.incidence.to[place], ends.from)
        };
        self.place = usize::from(next);
        let relay = usize::from(end);
        Some(Reached { relay, cost })
    }
}
