//! Framing: where the records of an input lie, by one of four disciplines, whatever pieces the
//! input comes in.
#![tactic(auto)]

mod cutter;
mod discipline;
mod framer;
mod framing;
mod laws;
mod look;
mod only;
#[cfg(test)]
mod tests;

pub use cutter::{Fed, TooLong};
pub use discipline::Discipline;
pub use framer::Framer;
pub use framing::frame_of;
pub use laws::{closed_frames_are_the_first, frames_move_with_the_input, frames_take_up_the_input};
pub use only::{FirstFrame, first_frame, only_frame};
