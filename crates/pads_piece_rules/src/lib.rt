//! The rules on the pieces of declarations: types, conditions, sizes, choices and literals where they stand.
//!
//! A piece's call gives the least violation of the rules at that piece.
#![tactic(auto)]

mod arguments;
mod base_rules;
mod const_set;
mod constants;
mod piece;
mod shapes;
mod site;
mod typed;

pub use piece::{choice, computed, condition, of_param, size, spelled, used};
pub use shapes::is_source_shape;
pub use site::{Site, sight};
