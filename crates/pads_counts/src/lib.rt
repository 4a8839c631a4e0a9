//! How much a description holds: the rule that a declaration has too many parts or names, or the description too
//! many names up to its end.
//!
//! The different names of a description stand in one set, to which each declaration adds its own
//! ([`meet_decl`]); [`too_much`] then tells whether a declaration breaks the rule.
#![tactic(auto)]

mod counts;
mod in_decl;
mod in_expr;
mod in_scope;
mod parts;

pub use counts::too_much;
pub use in_decl::meet_decl;
