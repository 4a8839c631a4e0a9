//! The form of the grammars of `pads`.
#![tactic(auto)]

mod cursor;
mod kind;

pub use cursor::{Cursor, Reading, Unexpected};
pub use kind::Kind;
