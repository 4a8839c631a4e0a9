//! What a program reads and writes, as traits: a source of bytes, a sink for bytes, and files by
//! name. Each object counts its own failures, so that a caller answers for a failure only where
//! there was one.
//!
//! Beside the traits stand objects in memory that never fail, objects in memory that fail at listed
//! calls, and adapters of the standard streams and the file system. Of those adapters nothing is
//! proved but that they meet their traits: what the outside world holds, no contract can tell.
#![tactic(auto)]

mod failing;
mod moves;
mod named;
mod real;
mod schedule;
mod sure;
mod traits;
mod whole;

pub use failing::{MemFiles, MemSink, MemSource};
pub use named::{NamedFile, NamedFiles};
pub use real::{RealFiles, RealSink, RealSource};
pub use schedule::Calls;
pub use sure::{SureFiles, SureSink, SureSource};
pub use traits::{Failed, Files, Sink, Source};
pub use whole::{WriteFault, write_all};

#[cfg(test)]
mod tests;
