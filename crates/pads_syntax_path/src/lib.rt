//! The paths of token lists.
//!
//! [`parse_path`] gives a path. The grammar decides by the kind of one token at each place, so that a list of tokens has
//! at most one path, and where it has none, there is a first token at which no path goes on.
#![tactic(auto)]

mod index;
mod laws;
mod path;
mod reading;
mod whole;

pub use laws::{
    no_tokens_derive_a_path_and_fault, tokens_derive_a_path_or_fault, tokens_derive_one_path,
    tokens_fault_at_one_place,
};
pub use path::{Path, PathStep, PathSteps};
pub use whole::parse_path;
