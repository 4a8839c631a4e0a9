//! The report of a summary, as text.
#![tactic(auto)]

mod number;
mod rank;
mod text;

pub use text::report;
