//! What runs over a record.
use pads_image::{Entry, Op};
use pads_steps::Record;

/// What runs: the instructions and the declarations of an image, over a record.
#[derive(Clone, Copy)]
pub struct Program<'a> {
    /// The instructions, each at its address.
    pub code: &'a [Op],
    /// Where the code of each declaration begins, by the declaration's number.
    pub entries: &'a [Entry],
    /// The record.
    pub record: Record<'a>,
}
