//! Printing: a value as an input of its one record, in canonical bytes that read back as the value.
#![tactic(auto)]

mod laws;
mod leaf;
mod printed;
mod printing;
mod reading;
mod scope;
mod writer;

pub use laws::{printed_values_read_back, tests_hold_exactly};
pub use printed::Printed;
pub use printing::print;
