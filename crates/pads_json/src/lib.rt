//! The lines of JSON in which the program tells what records read as.
#![tactic(auto)]

mod faults;
mod key;
mod line;
mod node;
mod number;
mod order;
mod orders;
mod place;
mod text;
mod value;
mod writer;

pub use line::record_line;
pub use node::node_line;
pub use orders::LineKeys;
pub use text::write_quoted;
