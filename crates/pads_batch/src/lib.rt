//! Reads the records of a batch by as many workers as are asked for, or sums up their rows. The rows and the
//! chunk are those that one worker would give.
#![tactic(auto)]

mod reading;
mod summing;

pub use reading::read_batch;
pub use summing::summarise_batch;
