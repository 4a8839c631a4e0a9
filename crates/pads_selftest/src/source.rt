//! The records, as a source that makes one at a time.

ghost use Rattle.std.specs.Prelude.{◌≡◌, ◌<◌, ◌≤◌, ◌⊎◌, [], Some, IsOk, drop, length, min, take, ⊤};
ghost use Rattle.std.specs.Io.{ReadsAtMost};
ghost use Rattle.std.specs.Io.KnownBytes.{ReadConsumes};
ghost use Rattle.pads_io.specs.Faults.{HasCause};
ghost use Rattle.pads_selftest.specs.Left.{left_of};
ghost use Rattle.pads_selftest.specs.Records.{made};

use crate::making::made_record;
use pads_describe::Line;
use pads_io::{Failed, Source};
use std::marker::Model;

/// How far the making of records has come.
#[derive(Drop)]
struct Progress {
    /// The record at hand, and how many of its bytes were given.
    line: Line,
    at: usize,
    /// The number of the next record, and the first number that has none.
    next: u32,
    end: u32,
}

impl Progress {
    /// Makes the next record, if there is one and the one at hand was given.
    fn advance(&mut self)
        ensures same { left_of self.new ≡ left_of self.old }
        ensures ready { (self.new.at < length self.new.line.items) ⊎ (left_of self.new ≡ []) }
    {
        if self.at < self.line.len() {
            return;
        }
        if self.next >= self.end {
            return;
        }
        self.line = made_record(self.next);
        self.at = 0;
        self.next += 1;
    }

    /// Puts bytes of the record at hand at the front of `into`, and gives their number.
    fn give(&mut self, into: &mut [u8]) -> usize
        ensures count { result ≡ min (length into.old) (length (drop self.old.at self.old.line.items)) }
        ensures front { take result into.new ≡ take result (left_of self.old) }
        ensures left { left_of self.new ≡ drop result (left_of self.old) }
    {
        let at = self.at.min(self.line.len());
        let rest = &self.line.as_slice()[at..];
        let count = rest.len().min(into.len());
        into[..count].copy_from_slice(&rest[..count]);
        self.at = at + count;
        count
    }
}

/// A source of records that are made one by one; it never holds more than one of them, takes no memory
/// and never fails. Contracts see it as the bytes that it has left.
#[derive(Drop)]
pub struct MadeRecords {
    progress: Progress,
}

impl Model for MadeRecords {
    ghost use Rattle.std.specs.Prelude.{ℕ, List};
    ghost use Rattle.pads_selftest.specs.Left.{left_of};

    ghost Value = { List ℕ };

    ghost view = { λ records. left_of records.progress };
}

impl MadeRecords {
    /// A source of so many records.
    pub fn new(count: u32) -> MadeRecords
        ensures left { result ≡ made count }
    {
        MadeRecords {
            progress: Progress {
                line: Line::new(),
                at: 0,
                next: 0,
                end: count,
            },
        }
    }
}

impl Source for MadeRecords {
    ghost left = { λ records. Some records };

    ghost faults = { λ _. 0 };

    ghost reads = { λ _ _ _. ⊤ };

    fn read(&mut self, into: &mut [u8]) -> Result<usize, Failed>
        ensures within { ReadsAtMost result into.new }
        ensures bytes { ReadConsumes (Some self.old) (Some self.new) result into.new }
        ensures call { ⊤ }
        ensures cause { HasCause 0 0 result }

        // It never fails.
        ensures sure { IsOk result }
    {
        self.progress.advance();
        Ok(self.progress.give(into))
    }
}
