//! Decimal numbers as mainframe programs store them: packed, two digits in a byte, and zoned, one digit in
//! a byte.
#![tactic(auto)]

mod digits;
mod laws;
mod packed;
mod sign;
#[cfg(test)]
mod tests;
mod zoned;

pub use laws::{packed_decimals_read_what_they_spell, zoned_decimals_read_what_they_spell};
pub use packed::{read_packed, spell_packed};
pub use zoned::{read_zoned, spell_zoned};
