//! The nodes of a row that the steps of a path lead to.
//!
//! [`Cursor`] hands them out in document order.
#![tactic(auto)]

mod cursor;
mod nodes;
mod step;

pub use cursor::Cursor;
pub use step::{Step, Steps};
