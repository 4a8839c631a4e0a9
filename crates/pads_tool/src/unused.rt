use pads_io::{Calls, MemSink};
use std::alloc::Global;

/// A sink for output that a command has none of.
pub(crate) fn unused(alloc: Global) -> MemSink {
    MemSink::new(alloc, 0, Calls::new(alloc))
}
