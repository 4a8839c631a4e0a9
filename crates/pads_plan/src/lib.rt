//! The parts of a module's record types: what a summary counts for.
#![tactic(auto)]

mod form;
mod listing;
mod part;
mod place;
mod plan;

pub use part::{PlanList, PlanLists, PlanPart, PlanParts, Step};
pub use plan::{MOST, TooManyParts, plan_of};
