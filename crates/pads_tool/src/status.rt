/// How a run of a command ends.
#[derive(Clone, Copy, Debug, PartialEq, Eq)]
pub enum Status {
    /// All was read and written, and every record is clean, and where records are printed none is ambiguous.
    Done,
    /// All was read and written, and some record isn't clean, or is ambiguous where records are printed.
    Dirty,
    /// The words are no order.
    Usage,
    /// The description isn't accepted.
    Refused,
    /// The description's file can't be read.
    FileFault,
    /// The source failed.
    ReadFault,
    /// A sink failed.
    WriteFault,
    /// There was no memory.
    Memory,
    /// The input is longer than 2^62 bytes.
    TooLong,
    /// A count of a summary would pass 2^62.
    Limit,
}
