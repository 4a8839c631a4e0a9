use pads_value::Memory;
use std::alloc::AllocError;

/// Why a line isn't answered.
#[derive(Debug, Drop)]
pub(crate) enum Trouble {
    /// It isn't what a table may have there, for this reason.
    Line(&'static str),
    Memory,
}

impl From<AllocError> for Trouble {
    fn from(_error: AllocError) -> Trouble {
        Trouble::Memory
    }
}

impl From<Memory> for Trouble {
    fn from(_error: Memory) -> Trouble {
        Trouble::Memory
    }
}
