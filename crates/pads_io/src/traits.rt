ghost use Rattle.std.specs.Prelude.{◌≡◌, ℕ, List, Option};
ghost use Rattle.std.specs.Io.{ReadsAtMost, WritesAtMost};
ghost use Rattle.std.specs.Io.KnownBytes.{ReadConsumes, WriteAppends};
ghost use Rattle.pads_io.specs.Calls.{ReadAt, moved, read_of};
ghost use Rattle.pads_io.specs.Faults.{HasCause};
ghost use Rattle.pads_io.specs.Transfer.{TakesSome, GivesFrom, EndsAt};

/// The object that was called failed, and counted that.
#[derive(Debug, Clone, Copy, PartialEq, Eq)]
pub struct Failed;

/// Bytes that are read once, from the front.
pub trait Source {
    // The bytes that reads will give from here on, where they are known.
    ghost left: { Self → Option (List ℕ) };

    // How often the source has failed so far.
    ghost faults: { Self → ℕ };

    // What a read that gave so many bytes, or none where it failed, may have made of the source.
    ghost reads: { Self → Option ℕ → Self → Type 0 };

    /// Reads some of the next bytes into the front of `into`, and gives their number: 0 only at the
    /// end, or where `into` has no room. At `Failed` none are lost.
    fn read(&mut self, into: &mut [u8]) -> Result<usize, Failed>
        ensures within { ReadsAtMost result into.new }
        ensures bytes { ReadConsumes (left self.old) (left self.new) result into.new }
        ensures call { reads self.old (moved result) self.new }
        ensures cause { HasCause (faults self.old) (faults self.new) result };
}

/// A place that takes bytes, one piece after the other.
pub trait Sink {
    // The bytes written so far, where they are known.
    ghost written: { Self → Option (List ℕ) };

    // How often the sink has failed so far.
    ghost faults: { Self → ℕ };

    // What a write that took so many bytes, or none where it failed, may have made of the sink.
    ghost writes: { Self → Option ℕ → Self → Type 0 };

    /// Writes a prefix of the piece, and gives its length: 0 only for an empty piece. At `Failed`
    /// nothing was written.
    fn write(&mut self, piece: &[u8]) -> Result<usize, Failed>
        ensures within { WritesAtMost result piece.now }
        ensures takes { TakesSome result piece.now }
        ensures bytes { WriteAppends (written self.old) (written self.new) result piece.now }
        ensures call { writes self.old (moved result) self.new }
        ensures cause { HasCause (faults self.old) (faults self.new) result };
}

/// Files by name, read at any offset.
pub trait Files {
    // The bytes of the file of this name, where they are known.
    ghost content: { Self → List ℕ → Option (List ℕ) };

    // How often a call has failed so far.
    ghost faults: { Self → ℕ };

    // What this read may have made of the object.
    ghost reads: { Self → ReadAt → Self → Type 0 };

    /// Reads some of the file's bytes from the offset `at` on into the front of `into`, and gives
    /// their number: 0 only at or past the file's end, or where `into` has no room.
    fn read_at(&mut self, name: &str, at: u64, into: &mut [u8]) -> Result<usize, Failed>
        ensures within { ReadsAtMost result into.new }
        ensures bytes { GivesFrom (content self.old name.now) at result into.new }
        ensures end { EndsAt (content self.old name.now) at result into.new }
        ensures stays { content self.new ≡ content self.old }
        ensures call { reads self.old (read_of name.now at result) self.new }
        ensures cause { HasCause (faults self.old) (faults self.new) result };
}
