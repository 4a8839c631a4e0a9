//! The resolving of an accepted description: its declarations with each name resolved, and the record types of its
//! sources.
//!
//! [`resolve`] gives what a syntax tree resolves to, by the definitions of `pads_resolution`. The files follow them:
//! declarations, sources, the bodies of structs, unions, arrays, enums, typedefs and optionals, and what stands in
//! the bodies: types and expressions, literals and labels, and the names in scope there.
//!
//! Each call gives what a piece of a syntax tree resolves to at the place of the declaration in which it stands
//! ([`ResolvingSite`]). Only want of memory keeps a call from its answer.
#![tactic(auto)]

mod arrays;
mod bodies;
mod branches;
mod declarations;
mod expressions;
mod labels;
mod literals;
mod resolving;
mod scopes;
mod site;
mod sources;
mod structs;
mod typedefs;
mod types;
mod unions;

pub use expressions::{expr_at, option_at};
pub use labels::labels_of;
pub use literals::{const_of, literal_of};
pub use resolving::resolve;
pub use scopes::{add_variable, variables, with_fields};
pub use site::{ResolvingSite, seen_types};
pub use types::{computed_of, params_of, type_at};
