//! The grammar of expressions.
#![tactic(auto)]

mod leaf;
mod level;
mod nested;
mod operator;

pub use leaf::{name, number, word};
pub use level::Level;
pub use nested::{begins_expr, expr, opened};
