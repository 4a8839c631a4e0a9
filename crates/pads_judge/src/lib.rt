//! The judging of expressions: their sorts and the least violation of the rules in them.
//!
//! [`judge`] computes what the rules say of an expression, without taking memory.
#![tactic(auto)]

mod forms;
mod judgement;
mod judging;
mod scope;

pub use judgement::Judgement;
pub use judging::judge;
pub use scope::Scope;
