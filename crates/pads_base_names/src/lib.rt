//! The names of base types.
//!
//! [`base_name`] says which base type a name means, if any, and [`BaseName::takes`] which arguments it takes. The
//! table stands in `specs/Names.antt`.
#![tactic(auto)]

mod lookup;
mod meaning;
#[cfg(test)]
mod tests;

pub use lookup::base_name;
pub use meaning::{BaseName, NamedCoding, Takes};
