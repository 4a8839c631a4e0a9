//! Questions to the records of a description: a path and maybe a filter, from their texts, or why they are refused.
//!
//! A filter is an expression of which `it` is the value of a path's node. [`filter`] judges and resolves one as the
//! expressions of descriptions are, and [`keeps`] asks it of a value.
#![tactic(auto)]

mod asked;
mod asking;
mod fault;
mod fault_line;
mod filter_text;
mod filtering;
mod laws;
mod levels;
mod path_text;
mod sorts;
mod tree;

pub use asked::Asked;
pub use asking::question;
pub use fault::{FilterError, PathError, QuestionFault};
pub use filtering::{filter, keeps};
pub use laws::no_question_is_asked_and_refused;
pub use sorts::node_sort;
