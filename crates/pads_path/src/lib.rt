//! Paths over a module: the steps by number that a path's names stand for.
//!
//! [`resolve`] gives them, or the first step that names no part of the record type, and why.
#![tactic(auto)]

mod fault;
mod resolving;
mod way;

pub use fault::{PathFault, PathReason};
pub use resolving::resolve;
