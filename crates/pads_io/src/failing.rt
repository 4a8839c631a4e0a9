ghost use Rattle.std.specs.Prelude.{◌≡◌, ◌↔◌, [], length, drop, Contains, Some, IfOk, IsOk, IsErr, IsSome, IfSome, is_err, is_none};
ghost use Rattle.std.specs.Io.{ReadsAtMost, WritesAtMost};
ghost use Rattle.std.specs.Io.KnownBytes.{ReadConsumes, WriteAppends};
ghost use Rattle.pads_io.specs.Calls.{moved};
ghost use Rattle.pads_io.specs.Faults.{HasCause};
ghost use Rattle.pads_io.specs.Transfer.{TakesSome, GivesFrom, EndsAt};
ghost use Rattle.pads_io.specs.InMemory.{portion, counted};
ghost use Rattle.pads_io.specs.Named.{bytes_at};

use crate::moves::{give, portion_of, rest_from};
use crate::named::{NamedFiles, find_bytes};
use crate::schedule::{Calls, Schedule};
use crate::sure::SureSource;
use crate::traits::{Failed, Files, Sink, Source};
use pads_value::Bytes;
use std::alloc::Global;
use std::marker::Model;

/// A source in memory that fails at listed calls.
#[derive(Drop)]
pub struct MemSource {
    supply: SureSource,
    schedule: Schedule,
}

impl Model for MemSource {
    ghost use Rattle.pads_io.specs.InMemory.{FailingSupply};

    ghost Value = { FailingSupply };

    ghost view = { λ s. record { left = s.supply.left; piece = s.supply.piece; schedule = s.schedule } };
}

impl MemSource {
    /// A source of these bytes that gives at most `piece` of them at a call, or as many as fit where
    /// `piece` is 0. The calls whose numbers, from 0, are listed fail.
    pub fn new(bytes: Bytes, piece: u64, failing: Calls) -> MemSource
        ensures left { result.left ≡ bytes }
        ensures piece { result.piece ≡ piece }
        ensures failing { result.schedule.failing ≡ failing }
        ensures calls { result.schedule.calls ≡ 0 }
        ensures faults { result.schedule.faults ≡ 0 }
    {
        MemSource {
            supply: SureSource::new(bytes, piece),
            schedule: Schedule::new(failing),
        }
    }

    /// The bytes that are still there to read.
    pub fn unread(&self) -> &[u8]
        ensures left { result.now ≡ self.now.left }
    {
        self.supply.unread()
    }

    /// How many calls failed so far.
    pub fn fault_count(&self) -> u64
        ensures faults { result ≡ self.now.schedule.faults }
    {
        self.schedule.faults()
    }
}

impl Source for MemSource {
    ghost left = { λ s. Some s.left };

    ghost faults = { λ s. s.schedule.faults };

    ghost reads = { λ s count t. t.schedule ≡ counted s.schedule (is_none count) };

    fn read(&mut self, into: &mut [u8]) -> Result<usize, Failed>
        ensures within { ReadsAtMost result into.new }
        ensures bytes { ReadConsumes (Some self.old.left) (Some self.new.left) result into.new }
        ensures call { self.new.schedule ≡ counted self.old.schedule (is_none (moved result)) }
        ensures cause { HasCause self.old.schedule.faults self.new.schedule.faults result }

        // It fails exactly at the listed calls, and else gives as much as the piece and the room allow.
        ensures fails { IsErr result ↔ Contains self.old.schedule.failing self.old.schedule.calls }
        ensures count { IfOk result
            (λ n. n ≡ portion self.old.piece (length into.old) (length self.old.left)) }
        ensures schedule { self.new.schedule ≡ counted self.old.schedule (is_err result) }
        ensures piece { self.new.piece ≡ self.old.piece }
    {
        if self.schedule.fails_now() {
            self.schedule.count(true);
            return Err(Failed);
        }
        self.schedule.count(false);
        self.supply.read(into)
    }
}

/// A sink in memory that fails at listed calls, and where it finds no memory, since it reserves
/// none.
#[derive(Drop)]
pub struct MemSink {
    written: Bytes,
    piece: u64,
    schedule: Schedule,
}

impl Model for MemSink {
    ghost use Rattle.pads_io.specs.InMemory.{FailingTank};

    ghost Value = { FailingTank };

    ghost view = { λ s. record { written = s.written; piece = s.piece; schedule = s.schedule } };
}

impl MemSink {
    /// An empty sink that takes at most `piece` bytes at a call, or any number where `piece` is 0.
    /// The calls whose numbers, from 0, are listed fail.
    pub fn new(alloc: Global, piece: u64, failing: Calls) -> MemSink
        ensures written { result.written ≡ [] }
        ensures piece { result.piece ≡ piece }
        ensures failing { result.schedule.failing ≡ failing }
        ensures calls { result.schedule.calls ≡ 0 }
        ensures faults { result.schedule.faults ≡ 0 }
    {
        MemSink {
            written: Bytes::new(alloc),
            piece,
            schedule: Schedule::new(failing),
        }
    }

    /// The bytes written so far.
    pub fn bytes(&self) -> &[u8]
        ensures written { result.now ≡ self.now.written }
    {
        self.written.as_slice()
    }

    /// How many calls failed so far.
    pub fn fault_count(&self) -> u64
        ensures faults { result ≡ self.now.schedule.faults }
    {
        self.schedule.faults()
    }
}

impl Sink for MemSink {
    ghost written = { λ s. Some s.written };

    ghost faults = { λ s. s.schedule.faults };

    ghost writes = { λ s count t. t.schedule ≡ counted s.schedule (is_none count) };

    fn write(&mut self, piece: &[u8]) -> Result<usize, Failed>
        ensures within { WritesAtMost result piece.now }
        ensures takes { TakesSome result piece.now }
        ensures bytes { WriteAppends (Some self.old.written) (Some self.new.written) result piece.now }
        ensures call { self.new.schedule ≡ counted self.old.schedule (is_none (moved result)) }
        ensures cause { HasCause self.old.schedule.faults self.new.schedule.faults result }

        // It fails at the listed calls, and else only for want of memory.
        ensures fails { Contains self.old.schedule.failing self.old.schedule.calls → IsErr result }
        ensures count { IfOk result (λ n. n ≡ portion self.old.piece (length piece.now) (length piece.now)) }
        ensures schedule { self.new.schedule ≡ counted self.old.schedule (is_err result) }
        ensures piece { self.new.piece ≡ self.old.piece }
    {
        let count = portion_of(self.piece, piece.len(), piece.len());
        if self.schedule.fails_now() || self.written.extend_from_slice(&piece[..count]).is_err() {
            self.schedule.count(true);
            return Err(Failed);
        }
        self.schedule.count(false);
        Ok(count)
    }
}

/// Files in memory that fail at listed calls, and where the name isn't there.
#[derive(Drop)]
pub struct MemFiles {
    named: NamedFiles,
    schedule: Schedule,
}

impl Model for MemFiles {
    ghost use Rattle.pads_io.specs.Named.{FailingFiles};

    ghost Value = { FailingFiles };

    ghost view = { λ s. record { named = s.named; schedule = s.schedule } };
}

impl MemFiles {
    /// These files; the calls whose numbers, from 0, are listed fail.
    pub fn new(named: NamedFiles, failing: Calls) -> MemFiles
        ensures named { result.named ≡ named }
        ensures failing { result.schedule.failing ≡ failing }
        ensures calls { result.schedule.calls ≡ 0 }
        ensures faults { result.schedule.faults ≡ 0 }
    {
        MemFiles {
            named,
            schedule: Schedule::new(failing),
        }
    }

    /// How many calls failed so far.
    pub fn fault_count(&self) -> u64
        ensures faults { result ≡ self.now.schedule.faults }
    {
        self.schedule.faults()
    }
}

impl Files for MemFiles {
    ghost content = { λ s. bytes_at s.named };

    ghost faults = { λ s. s.schedule.faults };

    ghost reads = { λ s call t. t.schedule ≡ counted s.schedule (is_none call.count) };

    fn read_at(&mut self, name: &str, at: u64, into: &mut [u8]) -> Result<usize, Failed>
        ensures within { ReadsAtMost result into.new }
        ensures bytes { GivesFrom (bytes_at self.old.named name.now) at result into.new }
        ensures end { EndsAt (bytes_at self.old.named name.now) at result into.new }
        ensures stays { bytes_at self.new.named ≡ bytes_at self.old.named }
        ensures call { self.new.schedule ≡ counted self.old.schedule (is_none (moved result)) }
        ensures cause { HasCause self.old.schedule.faults self.new.schedule.faults result }

        // It fails exactly at the listed calls and at a name that isn't there, and else gives as much
        // as the room allows.
        ensures succeeds { IsOk result ↔ (¬ Contains self.old.schedule.failing self.old.schedule.calls
            × IsSome (bytes_at self.old.named name.now)) }
        ensures count { IfOk result (λ n. IfSome (bytes_at self.old.named name.now)
            (λ bytes. n ≡ portion 0 (length into.old) (length (drop at bytes)))) }
        ensures schedule { self.new.schedule ≡ counted self.old.schedule (is_err result) }
        ensures named { self.new.named ≡ self.old.named }
    {
        if self.schedule.fails_now() {
            self.schedule.count(true);
            return Err(Failed);
        }
        let Some(bytes) = find_bytes(&self.named, name) else {
            self.schedule.count(true);
            return Err(Failed);
        };
        self.schedule.count(false);
        Ok(give(rest_from(bytes, at), 0, into))
    }
}
