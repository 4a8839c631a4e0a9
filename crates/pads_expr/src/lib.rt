//! Expressions of a description: what they are, and what they are worth where names stand for values.
#![tactic(auto)]

mod environment;
mod evaluation;
mod expr;
mod lent;
mod numbers;
mod operators;
mod parts;
mod worth;

pub use environment::{Binding, Env};
pub use evaluation::{eval, eval_in, eval_lent, eval_with};
pub use expr::{BinOp, Expr};
pub use lent::Lent;
pub use worth::{Res, is_true};
