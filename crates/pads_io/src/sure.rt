ghost use Rattle.std.specs.Prelude.{◌≡◌, ◌≢◌, ◌↔◌, ◌-◌, [], length, drop, Some, IfOk, IsOk, IsErr, is_err, is_none, ⊤};
ghost use Rattle.std.specs.Io.{ReadsAtMost, WritesAtMost};
ghost use Rattle.std.specs.Io.KnownBytes.{ReadConsumes, WriteAppends};
ghost use Rattle.pads_io.specs.Calls.{moved};
ghost use Rattle.pads_io.specs.Faults.{HasCause};
ghost use Rattle.pads_io.specs.Transfer.{TakesSome, GivesFrom, EndsAt};
ghost use Rattle.pads_io.specs.InMemory.{portion, counted_faults};
ghost use Rattle.pads_io.specs.Named.{bytes_or_empty, content_or_empty};

use crate::moves::{give, portion_of, raised, rest_from};
use crate::named::{NamedFiles, find_bytes};
use crate::traits::{Failed, Files, Sink, Source};
use pads_value::{Bytes, Memory};
use std::alloc::Global;
use std::marker::Model;

/// A source in memory that never fails.
#[derive(Drop)]
pub struct SureSource {
    bytes: Bytes,
    at: usize,
    piece: u64,
}

impl Model for SureSource {
    ghost use Rattle.std.specs.Prelude.{◌≤◌, length, drop};
    ghost use Rattle.pads_io.specs.InMemory.{Supply};

    ghost Value = { Supply };

    ghost view = { λ s. record { left = drop s.at s.bytes; piece = s.piece } };

    ghost invariant = { λ s. s.at ≤ length s.bytes };
}

impl SureSource {
    /// A source of these bytes that gives at most `piece` of them at a call, or as many as fit where
    /// `piece` is 0.
    pub fn new(bytes: Bytes, piece: u64) -> SureSource
        ensures left { result.left ≡ bytes }
        ensures piece { result.piece ≡ piece }
    {
        SureSource {
            bytes,
            at: 0,
            piece,
        }
    }

    /// The bytes that are still there to read.
    pub fn unread(&self) -> &[u8]
        ensures left { result.now ≡ self.now.left }
    {
        &self.bytes.as_slice()[self.at..]
    }
}

impl Source for SureSource {
    ghost left = { λ s. Some s.left };

    ghost faults = { λ _. 0 };

    ghost reads = { λ _ _ _. ⊤ };

    fn read(&mut self, into: &mut [u8]) -> Result<usize, Failed>
        ensures within { ReadsAtMost result into.new }
        ensures bytes { ReadConsumes (Some self.old.left) (Some self.new.left) result into.new }
        ensures call { ⊤ }
        ensures cause { HasCause 0 0 result }

        // It never fails, and gives as much as the piece and the room allow.
        ensures sure { IsOk result }
        ensures count { IfOk result
            (λ n. n ≡ portion self.old.piece (length into.old) (length self.old.left)) }
        ensures piece { self.new.piece ≡ self.old.piece }
    {
        let left = &self.bytes.as_slice()[self.at..];
        let count = give(left, self.piece, into);
        self.at += count;
        Ok(count)
    }
}

/// A sink in memory with a fixed room, which fails exactly where the room is used up.
#[derive(Drop)]
pub struct SureSink {
    written: Vec<u8>,
    piece: u64,
    room: usize,
    faults: u64,
}

impl Model for SureSink {
    ghost use Rattle.std.specs.Prelude.{◌≤◌, vec_len, vec_capacity};
    ghost use Rattle.pads_io.specs.InMemory.{Tank};

    ghost Value = { Tank };

    ghost view = { λ s. record { written = s.written.items; piece = s.piece; room = s.room; faults = s.faults } };

    ghost invariant = { λ s. (vec_len s.written ≤ s.room) × (s.room ≤ vec_capacity s.written) };
}

impl SureSink {
    /// An empty sink that takes at most `piece` bytes at a call, or any number where `piece` is 0,
    /// and `room` bytes in all, for which it takes the memory now.
    pub fn new(alloc: Global, piece: u64, room: u64) -> Result<SureSink, Memory>
        ensures written { IfOk result (λ sink. sink.written ≡ []) }
        ensures piece { IfOk result (λ sink. sink.piece ≡ piece) }
        ensures room { IfOk result (λ sink. sink.room ≡ room) }
        ensures faults { IfOk result (λ sink. sink.faults ≡ 0) }
    {
        let written = Vec::with_capacity(alloc, room as usize)?;
        Ok(SureSink {
            written,
            piece,
            room: room as usize,
            faults: 0,
        })
    }

    /// The bytes written so far.
    pub fn bytes(&self) -> &[u8]
        ensures written { result.now ≡ self.now.written }
    {
        self.written.as_slice()
    }

    /// How often a write failed so far.
    pub fn fault_count(&self) -> u64
        ensures faults { result ≡ self.now.faults }
    {
        self.faults
    }
}

impl Sink for SureSink {
    ghost written = { λ s. Some s.written };

    ghost faults = { λ s. s.faults };

    ghost writes = { λ s count t. t.faults ≡ counted_faults s.faults (is_none count) };

    fn write(&mut self, piece: &[u8]) -> Result<usize, Failed>
        ensures within { WritesAtMost result piece.now }
        ensures takes { TakesSome result piece.now }
        ensures bytes { WriteAppends (Some self.old.written) (Some self.new.written) result piece.now }
        ensures call { self.new.faults ≡ counted_faults self.old.faults (is_none (moved result)) }
        ensures cause { HasCause self.old.faults self.new.faults result }

        // It fails exactly where there is a byte to write and no room, and else takes what it can.
        ensures fails { IsErr result ↔ ((piece.now ≢ []) × (length self.old.written ≡ self.old.room)) }
        ensures count { IfOk result (λ n. n ≡ portion self.old.piece (length piece.now)
            (self.old.room - length self.old.written)) }
        ensures faults { self.new.faults ≡ counted_faults self.old.faults (is_err result) }
        ensures piece { self.new.piece ≡ self.old.piece }
        ensures room { self.new.room ≡ self.old.room }
    {
        let free = self.room - self.written.len();
        if free == 0 && !piece.is_empty() {
            self.faults = raised(self.faults);
            return Err(Failed);
        }
        let count = portion_of(self.piece, piece.len(), free);
        self.written.extend_from_slice(&piece[..count]).unwrap();
        Ok(count)
    }
}

/// Files in memory that never fail. A name that isn't there is an empty file.
#[derive(Drop)]
pub struct SureFiles {
    named: NamedFiles,
}

impl Model for SureFiles {
    ghost use Rattle.std.specs.Prelude.{List};
    ghost use Rattle.pads_io.specs.declared.named.NamedFile.{NamedFile};

    ghost Value = { List NamedFile };

    ghost view = { λ files. files.named };
}

impl SureFiles {
    pub fn new(named: NamedFiles) -> SureFiles
        ensures named { result ≡ named }
    {
        SureFiles { named }
    }
}

impl Files for SureFiles {
    ghost content = { content_or_empty };

    ghost faults = { λ _. 0 };

    ghost reads = { λ s _ t. t ≡ s };

    fn read_at(&mut self, name: &str, at: u64, into: &mut [u8]) -> Result<usize, Failed>
        ensures within { ReadsAtMost result into.new }
        ensures bytes { GivesFrom (content_or_empty self.old name.now) at result into.new }
        ensures end { EndsAt (content_or_empty self.old name.now) at result into.new }
        ensures stays { content_or_empty self.new ≡ content_or_empty self.old }
        ensures call { self.new ≡ self.old }
        ensures cause { HasCause 0 0 result }

        // It never fails, and gives as much as the room allows.
        ensures sure { IsOk result }
        ensures count { IfOk result (λ n. n ≡ portion 0 (length into.old) (length (drop at (bytes_or_empty self.old name.now)))) }
        ensures same { self.new ≡ self.old }
    {
        let bytes = find_bytes(&self.named, name).unwrap_or(&[]);
        Ok(give(rest_from(bytes, at), 0, into))
    }
}
