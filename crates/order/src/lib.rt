//! The order of the relays as one of them sees it: balls and managers.

#![tactic(auto)]

mod colour;
mod examples;
mod mistakes;

pub use colour::{LANDMARKS, landmark_colour};
pub use examples::{Near, seen_from_twelve, seen_from_twenty};
pub use mistakes::classic_mistakes;
