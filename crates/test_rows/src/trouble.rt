use pads_value::Memory;
use std::alloc::AllocError;

/// Why a row isn't tried.
#[derive(Debug, Drop)]
pub enum Trouble {
    /// It isn't what a row may be, for this reason.
    Row(&'static str),
    Memory,
}

impl From<AllocError> for Trouble {
    fn from(_error: AllocError) -> Trouble {
        Trouble::Memory
    }
}

impl From<Memory> for Trouble {
    fn from(_error: Memory) -> Trouble {
        Trouble::Memory
    }
}
