//! What the programs share whose rows are data: how a table is cut into rows, how a row writes its texts, and how
//! the rows are counted that differ from what they say.
//!
//! A row is a line, or a block of lines with an empty line behind it. A line that begins with `#` is a note.
#![tactic(auto)]

mod lines;
mod part;
mod shown;
mod tally;
mod trouble;
mod verdict;

pub use lines::{is_note, lines_of};
pub use part::put_part;
pub use shown::difference;
pub use tally::Tally;
pub use trouble::Trouble;
pub use verdict::verdict_on;
