//! Integers written as text, in any coding: what bytes read as, and how a number is spelled.
#![tactic(auto)]

mod digits;
mod kind;
mod laws;
mod reading;
mod spelling;
#[cfg(test)]
mod tests;

pub use kind::Kind;
pub use laws::{field_integers_read_what_they_spell, integers_read_what_they_spell};
pub use reading::{read_int, read_int_fw};
pub use spelling::{spell_int, spell_int_fw};
