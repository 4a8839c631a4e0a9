//! The other base types: texts, classes, single characters, IP addresses, enums and binary integers; and
//! whole texts in a coding.
#![tactic(auto)]

mod address;
mod binary;
mod bytes;
mod choice;
mod class;
mod dotted;
mod enums;
mod laws;
#[cfg(test)]
mod tests;
mod text;

pub use address::read_ip;
pub use binary::{Order, Range};
pub use bytes::{read_bin, spell_bin};
pub use choice::read_enum;
pub use class::{in_class, read_class};
pub use dotted::spell_ip;
pub use enums::{Label, Labels, copy_labels};
pub use laws::{
    addresses_read_what_they_spell, binary_integers_read_what_they_spell,
    characters_read_what_they_spell, class_texts_read_what_they_spell, enums_read_what_they_spell,
    fixed_texts_read_what_they_spell, texts_read_what_they_spell,
};
pub use text::{decode_text, encode_text, read_char, read_fixed, read_until};
