/// What came of one read.
#[derive(Clone, Copy, Debug, PartialEq, Eq)]
pub(crate) enum Refill {
    /// Some bytes.
    More,
    /// The end of the source.
    End,
    /// The source failed.
    ReadFault,
    /// A byte whose offset is 2^62.
    TooLong,
}
