use crate::Cause;

/// What a base type reads at a place.
#[derive(Clone, Copy, Debug, Drop, PartialEq, Eq)]
pub enum Read<T> {
    /// A value, over the first so many bytes.
    Good(u64, T),
    /// No value, with a cause, over the first so many bytes: the reading goes on after them.
    Soft(u64, Cause),
    /// No value, with a cause, and no byte taken.
    Hard(Cause),
}
