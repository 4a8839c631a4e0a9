//! What a self-test reads: records that are made for it one by one, and their description.
#![tactic(auto)]

mod making;
mod source;
mod text;

pub use making::bytes_made;
pub use source::MadeRecords;
pub use text::description;
