//! The resolving of expressions: what each name in them stands for, and their sorts.
//!
//! [`resolve_expr`] gives what an expression resolves to in a scope, by the definitions of `pads_resolution`.
#![tactic(auto)]

mod members;
mod names;
mod nodes;
mod numbers;
mod part_table;
mod resolving;
mod scope;
mod texts;

pub use names::sort_known;
pub use numbers::{number_of, short};
pub use part_table::PartTable;
pub use resolving::resolve_expr;
pub use scope::{NameScope, Types};
pub use texts::{points, text};
