/// How the reading of an input ended that neither a sink nor want of memory nor a limit stopped.
#[derive(Clone, Copy, Debug, Drop, PartialEq, Eq)]
pub enum Ended<T> {
    /// The source is at its end, and the output for all records of the input was written. The input
    /// has at most 2^62 bytes. The value is the tally of all its rows.
    Finished(T),
    /// A read failed. The output for the records that the bytes read complete was written, and nothing
    /// else.
    ReadFault,
    /// The input has more than 2^62 bytes. The output for the records that the first 2^62 of them
    /// complete was written, and nothing else.
    TooLong,
}
