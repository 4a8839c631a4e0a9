//! The plain reader: what the calculus says of a record, computed by recursion on terms.
#![tactic(auto)]

mod fields;
mod leaf;
mod reader;
mod row;
mod search;

pub use row::walk;
