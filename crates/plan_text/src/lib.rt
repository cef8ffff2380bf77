//! Reads the text of a plan.

#![tactic(auto)]

mod plan_kind;
mod read;
mod refused;
mod scan;
mod text_cost;

pub use plan_kind::PlanKind;
pub use read::read_plan;
pub use refused::{Refused, Refuser};
pub use text_cost::TextCost;
