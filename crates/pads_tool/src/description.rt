use pads_value::Bytes;

/// The most bytes that a description may have.
pub(crate) const LONGEST_DESCRIPTION: u64 = 1_048_576;

/// What a description's file holds.
#[derive(Drop)]
pub(crate) enum Described {
    Text(Bytes),
    /// More bytes than a description may have.
    TooLong,
}

/// The file can't be read.
#[derive(Clone, Copy, Debug, PartialEq, Eq)]
pub(crate) struct FileFault;
