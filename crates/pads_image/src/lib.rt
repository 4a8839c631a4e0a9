//! Images: descriptions as flat code, with the numbers of stack entries that they need.
#![tactic(auto)]

mod entry;
mod image;
mod keeping;
mod need;
mod op;

pub use entry::{Entries, Entry};
pub use image::Image;
pub use need::needs_inside;
pub use op::{Op, Ops, Target, Targets};
