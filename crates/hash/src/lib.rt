//! Name hashes: for each number of colours one fixed function from names to colours.
//! Two of them, the remainder and FNV-1a.

#![tactic(auto)]

mod fnv;
mod name_hash;
mod remainder;

pub use fnv::{Fnv, fnv_1a, fnv_basis, fnv_step};
pub use name_hash::NameHash;
pub use remainder::{Remainder, largest_name_colour};
