//! From the text of a description to what it describes, or why it is refused.
//!
//! [`check_text`] says whether a text is accepted, and [`describe`] gives the module of an accepted one. What
//! that is stands in `specs/`: `Trees.antt`, `Describing.antt`, and `Verdicts.antt` for the refusals.
//!
//! Between them stand [`check`] and [`translate`]. The first refuses a syntax tree that breaks a rule with the first
//! violation by place, then by rule, and of any other it gives the resolved tree, in a type that keeps that it is accepted.
//! The second takes what is accepted to its module, and has no answer beside it but want of memory. A [`Verdict`] is why
//! a description is refused, with the line that tells it.
#![tactic(auto)]

mod checked;
mod describing;
mod laws;
mod reading;
mod text_check;
mod translating;
mod tree_check;
mod verdict;
mod verdict_line;
#[cfg(test)]
mod verdict_tests;

pub use checked::Checked;
pub use describing::describe;
pub use laws::{
    described_modules_are_sound, each_text_describes_one_module, each_text_has_one_answer,
};
pub use text_check::check_text;
pub use translating::translate;
pub use tree_check::check;
pub use verdict::Verdict;
pub use verdict_line::{Line, put, put_number};
