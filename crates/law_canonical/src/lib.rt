//! The canonical bytes of a value by its term, and which bytes a value may stand for.
#![tactic(auto)]

mod laws;
mod rows;

pub use laws::{clean_readings_fit, clean_records_have_canonical_bytes};
pub use rows::{canonical_bytes_by_the_rules, values_fit_by_the_rules};
