//! The laws of descriptions: nothing here runs.
//!
//! An expression that breaks no rule resolves to a well-sorted one, of the sort that the rules give it, among
//! declarations that are what the rules know of them: those of a tree without violations are. Such a tree resolves to
//! a well-sorted description (`accepted`), and the module of one is well formed, well-sorted and plain (`well_sorted`).
//!
//! Each name of a tree is spelled as a name: it begins with a letter or `_`. So none is spelled `@`, the name that an
//! array's elements so far have, and a whole in its `Pwhere` (`spelled`).
#![tactic(auto)]

mod accepted;
mod spelled;
mod well_sorted;

pub use accepted::{
    accepted_declarations_are_described, accepted_declarations_are_sorted,
    accepted_descriptions_are_sorted, accepted_expressions_are_sorted, accepted_modules_are_formed,
};
pub use spelled::no_name_is_at_sign;
pub use well_sorted::{modules_are_formed, modules_are_plain, modules_are_sorted};
