//! A plan of relays and links: drafted step by step, then closed.

#![tactic(auto)]

mod closed;
mod counts;
mod draft;
mod ends;
mod history;
mod lists;
mod names;
mod port;
mod reach;
mod refusal;
mod view;

pub use closed::Closed;
pub use counts::{Counts, LARGEST_NAME, MOST_COLOURS, MOST_LINKS, MOST_RELAYS};
pub use draft::Draft;
pub use ends::Ends;
pub use history::drafting;
pub use lists::{LinkLists, LinkView, RelayLists, RelayView};
pub use port::port_at;
pub use refusal::Refusal;
pub use view::PlanView;
