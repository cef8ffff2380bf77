//! What each relay has near it: the order that it sees,
//! its ball, its managers and its home landmark.

#![tactic(auto)]

mod missing;
mod neighbourhoods;
mod sorting;

pub use neighbourhoods::Neighbourhoods;
