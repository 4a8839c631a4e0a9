//! The translation of an accepted description into a module of the calculus.
//!
//! In the first pass [`Numbering::of`] meets the names of a description and gives each its number. In the second
//! [`translate_expr`] makes the expressions of the calculus, whose variables are such numbers, and
//! [`module_of_description`] the terms.
#![tactic(auto)]

mod array;
mod body;
mod decl;
mod expr;
mod meet_decl;
mod meet_expr;
mod names;
mod numbering;
mod translation;
mod types;

pub use expr::{translate_expr, translate_exprs, translate_option};
pub use numbering::Numbering;
pub use translation::module_of_description;
