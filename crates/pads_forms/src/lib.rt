//! The form that a value has by its term, and the kids that a term gives to a node: a struct's parts, a
//! union's branch, an array's elements. Lines, summaries and paths tell values and places by these.
#![tactic(auto)]

mod form;
mod slot;
mod step;
mod terms;

pub use form::{Form, form_at};
pub use slot::{Slot, arm_at, name_at, slot_at};
pub use step::Step;
pub use terms::Terms;
