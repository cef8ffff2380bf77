//! Distances between the relays of a plan, and the next relay from each toward each other.

#![tactic(auto)]

mod example;
mod graph;
mod hops;
mod incidence;
mod links;
mod mark;
mod measured;
mod next;
mod spread;
mod square;

pub use example::paid_example;
pub use hops::most_hops;
pub use measured::{Measured, measure};
pub use square::{Square, SquareMut};
