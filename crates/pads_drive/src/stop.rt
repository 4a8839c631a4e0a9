/// Why the reading of an input stopped before its end. By then a prefix of the output for all its
/// records was written on each sink.
#[derive(Clone, Copy, Debug, PartialEq, Eq)]
pub enum Stop {
    /// There was no memory. No clause says when this comes.
    Memory,
    /// A write on `out` failed.
    Out,
    /// A write on the notes failed. A command that notes nothing never gets this.
    Notes,
    /// The tally can't count the rows of all records.
    Limit,
}
