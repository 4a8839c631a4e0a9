//! Calls of declarations that are known to take no byte at a place, by the code of an image and what stands there.
#![tactic(auto)]

mod links;
mod literals;
mod lookups;
mod parts;
mod program;

pub use links::{Called, Link, ends, idles, optional_at};
pub use literals::{are_literals, literal_in};
pub use lookups::{absorbs, at, begins_search, entry_at, marks, part_at, searches, shuts, stands};
pub use parts::behind_guard;
pub use program::Program;
