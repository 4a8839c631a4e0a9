ghost use Rattle.std.specs.Prelude.{◌≡◌};
ghost use Rattle.pads_value.specs.declared.memory.Refusal.TheVariants as refusal;

use std::alloc::{AllocError, AllocFailed};

/// Want of memory, the one answer that a contract leaves free.
#[derive(Clone, Copy, Debug, PartialEq, Eq)]
pub struct Memory;

impl From<AllocError> for Memory {
    fn from(_error: AllocError) -> Memory {
        Memory
    }
}

impl<T: Drop> From<AllocFailed<T>> for Memory {
    fn from(_error: AllocFailed<T>) -> Memory {
        Memory
    }
}

/// Why a call that takes memory refused: its own fault, or want of memory.
#[derive(Clone, Copy, Debug, Drop, PartialEq, Eq)]
pub enum Refusal<F> {
    /// The call's own refusal. Its contract says when it comes.
    Fault(F),
    /// Want of memory.
    Memory,
}

impl<F> From<Memory> for Refusal<F> {
    ghost from_gives = { λ _ gives. gives ≡ refusal.Memory };

    fn from(_error: Memory) -> Refusal<F> {
        Refusal::Memory
    }
}

impl<F> From<AllocError> for Refusal<F> {
    ghost from_gives = { λ _ gives. gives ≡ refusal.Memory };

    fn from(_error: AllocError) -> Refusal<F> {
        Refusal::Memory
    }
}

impl<F, T: Drop> From<AllocFailed<T>> for Refusal<F> {
    ghost from_gives = { λ _ gives. gives ≡ refusal.Memory };

    fn from(_error: AllocFailed<T>) -> Refusal<F> {
        Refusal::Memory
    }
}
