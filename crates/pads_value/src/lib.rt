//! What a record reads as: values, parse descriptors, frames and rows, and the two containers of
//! which every tree of `pads` is made.
//!
//! Contracts see each of these as plain data: an [`Items`] as the list of its items, a [`Boxed`] as
//! the value in it, a [`NameTable`] as the list of its texts.
#![tactic(auto)]

mod boxed;
mod cause;
mod descriptor;
mod frame;
mod items;
mod memory;
mod name_table;
mod reading;
mod row;
mod value;
mod words;

pub use boxed::Boxed;
pub use cause::Cause;
pub use descriptor::{Class, Own, Pd, Pds, Span};
pub use frame::{Frame, Frames, Kept, Mark};
pub use items::{Bytes, Items};
pub use memory::{Memory, Refusal};
pub use name_table::NameTable;
pub use reading::Read;
pub use row::{Row, Rows};
pub use value::{Val, Vals};
pub use words::is_word;

#[cfg(test)]
mod tests;
