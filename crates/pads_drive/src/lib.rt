//! The reading of an input, once for every command: a source is read to its end, cut into records,
//! and what a command says of each record's row is written on two sinks and counted.
//!
//! Records are read in batches, so that neither the input nor its output is ever held as a whole,
//! and each full batch is written before more is read. What a record means is no matter here: the
//! caller's `Command` makes the rows of a batch, and says what each gives.
#![tactic(auto)]

mod command;
mod driving;
mod ended;
mod finish;
mod flush;
mod gate;
mod gather;
mod given;
mod handing;
mod input;
mod laws;
mod limit;
mod output;
mod pieces;
mod pump;
mod refill;
mod source;
mod stop;

pub use command::Command;
pub use ended::Ended;
pub use gate::{Gate, NoGate};
pub use input::drive;
pub use laws::{frames_lie_close_behind, reading_is_little_ahead};
pub use limit::Limit;
pub use output::Output;
pub use pieces::{in_pieces, pieces_for};
pub use stop::Stop;
