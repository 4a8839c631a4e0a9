//! The rules that a description keeps.
//!
//! The rules stand in `specs/`, each as one definition with the rule in words beside it, and `specs/Violations.antt` lists all
//! their violations in a tree. `specs/SiteFaults.antt` lists them part by part, as a check meets them; the law says that the
//! first violation is the same. Beside them stand the sorts of expressions, the types that the code of the check fills, and
//! the small functions that all of it shares.
#![tactic(auto)]

mod declared;
mod expr_sort;
mod fault;
mod laws;
mod lead;
mod operators;
mod rule;
mod sort;
#[cfg(test)]
mod tests;

pub use declared::{Content, Declared, Environment, Named};
pub use expr_sort::ExprSort;
pub use fault::{CheckFault, fault_if, lesser};
pub use laws::violations_come_by_parts;
pub use lead::Lead;
pub use operators::{result_of, unary_gives};
pub use rule::Rule;
pub use sort::{Form, Sort};
