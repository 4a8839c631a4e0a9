use pads_accum::{Chunk, Summary};

/// What a summary learns of records.
#[derive(Drop)]
pub(crate) struct Summed {
    pub(crate) summary: Summary,
    /// Whether all of them are clean.
    pub(crate) clean: bool,
}

/// What a worker learns of the records of its piece.
#[derive(Drop)]
pub(crate) struct PieceSummed {
    pub(crate) chunk: Chunk,
    /// Whether all of them are clean.
    pub(crate) clean: bool,
}
