//! The commands of `pads`, and the top call `run`: it takes the words of a command line, reads the
//! description that they name, does what they order, and ends with a status and the last words.
//!
//! Each command says by its ending what it read and wrote. How an input is read, record by record,
//! and written for stands in `pads_drive`, once for every command.
#![tactic(auto)]

mod check;
mod close;
mod description;
mod ending;
mod files;
mod parse;
mod print;
mod query;
mod reader;
mod reason;
mod rows;
mod running;
mod selftest;
mod status;
mod summary;
mod summed;
mod tell;
mod telling;
mod test_tally;
mod text;
mod unused;
mod words_of;

pub use running::run;
pub use status::Status;
