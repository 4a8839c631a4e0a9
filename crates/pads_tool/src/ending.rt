use crate::reason::Reason;

/// How a run ends, with the reason of a refusal.
#[derive(Clone, Copy, Debug, PartialEq, Eq)]
pub(crate) enum Ending {
    Done,
    Dirty,
    Usage,
    Refused(Reason),
    FileFault,
    ReadFault,
    WriteFault,
    Memory,
    TooLong,
    Limit,
}
