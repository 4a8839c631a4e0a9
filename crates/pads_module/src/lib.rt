//! Whole descriptions: declarations that are well formed together, and what they keep of their values.
#![tactic(auto)]

mod bound;
mod checking;
mod counts;
mod module;
mod scope;
mod skeleton;
mod straight;

pub use module::{IllFormed, Module};
pub use skeleton::{erased, skeleton_of};
