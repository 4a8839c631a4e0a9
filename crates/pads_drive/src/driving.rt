ghost use Rattle.std.specs.Prelude.{ℕ, Option, ◌≡◌, ◌≢◌, ◌+◌, ◌^◌, ◌<◌, ◌≤◌, ◌∷◌, ◌++◌, [], false, true, length, map, IfOk, IfErr, OnOk, OnErr, Ok, Err};
ghost use Rattle.pads_io.specs.Calls.{WritesBy, gave_some};
ghost use Rattle.pads_io.specs.Faults.{Rose};
ghost use Rattle.pads_frame.specs.State.{reach, room};
ghost use Rattle.pads_value.specs.Cuts.{cut_of_kept};
ghost use Rattle.pads_drive.specs.declared.refill.Refill.TheVariants as refilled;
ghost use Rattle.pads_drive.specs.Driving.{KeepsNext, Collects, IsWaiting, RefillGives, is_full, most_frames};
ghost use Rattle.pads_drive.specs.Halting.{IsFilled};
ghost use Rattle.pads_drive.specs.Writing.{Grows, GrowsPrefix};
ghost use Rattle.pads_drive.specs.Stopping.{AtLimit, HasSinkCause};

use crate::output::Output;
use crate::refill::Refill;
use crate::stop::Stop;
use pads_frame::Framer;
use pads_io::{Sink, Source, write_all};
use pads_value::{Frames, Kept, Memory};
use std::alloc::Global;

/// Writes output on both sinks.
pub(crate) fn write_output<K: Sink, E: Sink>(
    output: &Output,
    out: &mut K,
    notes: &mut E,
) -> Result<(), Stop>
    ensures ok { OnOk result (Grows (K.written out.old) (K.written out.new) (E.written notes.old) (E.written notes.new) output.now) }
    ensures err { OnErr result (GrowsPrefix (K.written out.old) (K.written out.new) (E.written notes.old) (E.written notes.new) output.now) }
    ensures sink { IfErr result (AtLimit ⊥) }
    ensures calls { WritesBy K.writes E.writes out.old notes.old out.new notes.new result }
    ensures cause { HasSinkCause (K.faults out.old) (K.faults out.new) (E.faults notes.old) (E.faults notes.new)
        (output.now.notes ≡ []) result }
{
    let Ok(()) = write_all(out, output.out.as_slice()) else {
        return Err(Stop::Out);
    };
    if output.notes.is_empty() {
        return Ok(());
    }
    let Ok(()) = write_all(notes, output.notes.as_slice()) else {
        return Err(Stop::Notes);
    };
    Ok(())
}

/// The framer's next frame, with bytes of its own.
pub(crate) fn next_kept(alloc: Global, framer: &mut Framer) -> Result<Option<Kept>, Memory>
    ensures next { IfOk result (KeepsNext framer.old framer.new) }
{
    match framer.next() {
        None => Ok(None),
        Some(frame) => Ok(Some(frame.keep(alloc)?)),
    }
}

/// The frames that wait to be read together, and how many bytes they have in all.
#[derive(Drop)]
pub(crate) struct Batch {
    pub(crate) frames: Frames,
    pub(crate) size: u64,
}

/// The most frames of a batch that one worker reads.
const MOST_FRAMES: u64 = 256;

/// The most frames of a batch that workers share. To start them takes longer than to read a few records.
const MOST_SHARED: u64 = 8192;

/// A batch with so many bytes takes no more frames.
const BATCH_SIZE: u64 = 4_194_304;

/// The most frames of a batch that so many workers read.
fn most_frames(jobs: u32) -> u64
    ensures most { result ≡ most_frames jobs }
    ensures some { 0 < result }
    ensures bound { result ≤ 8192 }
{
    if jobs <= 1 { MOST_FRAMES } else { MOST_SHARED }
}

impl Batch {
    pub(crate) fn new(alloc: Global) -> Batch
        ensures frames { result.frames ≡ [] }
        ensures filled { IsFilled result }
    {
        Batch {
            frames: Frames::new(alloc),
            size: 0,
        }
    }

    fn is_full(&self, most: u64) -> bool
        requires some { 0 < most }
        ensures full { result ≡ is_full most self.now }
        ensures some { result ≡ true → 0 < length self.now.frames }
        ensures bound { result ≡ false → length self.now.frames < most }
        ensures light { result ≡ false → 0 < length self.now.frames → self.now.size < 4194304 }
    {
        self.frames.len() >= most || (self.size >= BATCH_SIZE && !self.frames.is_empty())
    }

    fn push(&mut self, kept: Kept) -> Result<(), Memory>
        requires filled { IsFilled self.old }
        requires few { length self.old.frames < 8192 }
        requires light { 0 < length self.old.frames → self.old.size < 4194304 }
        ensures ok { OnOk result (self.new.frames ≡ self.old.frames ++ kept ∷ []) }
        ensures filled { OnOk result (IsFilled self.new) }
    {
        let size = self.size.saturating_add(kept.bytes.len());
        self.frames.push(kept)?;
        self.size = size;
        Ok(())
    }
}

/// Moves the framer's frames into the batch, until it is full for so many workers, as `true` says, or
/// the framer wants more bytes.
pub(crate) fn collect(
    alloc: Global,
    jobs: u32,
    framer: &mut Framer,
    batch: &mut Batch,
) -> Result<bool, Memory>
    requires filled { IsFilled batch.old }
    ensures collects { OnOk result (Collects framer.old framer.new (map cut_of_kept batch.old.frames) (map cut_of_kept batch.new.frames)) }
    ensures full { result ≡ Ok true → is_full (most_frames jobs) batch.new ≡ true }
    ensures some { result ≡ Ok true → 0 < length batch.new.frames }
    ensures waiting { result ≡ Ok false → IsWaiting framer.new }
    ensures filled { OnOk result (IsFilled batch.new) }
{
    let most = most_frames(jobs);
    'frames: while !batch.is_full(most) {
        match next_kept(alloc, framer)? {
            None => return Ok(false),
            Some(kept) => batch.push(kept)?,
        }
    }
    Ok(true)
}

/// Reads once, at most as many bytes as the piece has room for, and feeds them to the framer. At the
/// end of the source the framer learns that.
pub(crate) fn refill<S: Source>(source: &mut S, framer: &mut Framer, piece: &mut [u8]) -> Refill
    requires open { framer.old.ended ≡ false }
    requires free { length framer.old.held + 4096 ≤ room framer.old }
    requires within { reach framer.old ≤ 2 ^ 62 }
    requires some { 0 < length piece.old }
    requires bound { length piece.old ≤ 4096 }
    ensures gives { RefillGives (S.left source.old) (S.left source.new) (S.faults source.old) (S.faults source.new)
        framer.old framer.new result }
    ensures call { (count : Option ℕ) × S.reads source.old count source.new × (result ≡ refilled.More → gave_some count ≡ true) }
    ensures later { S.faults source.old ≤ S.faults source.new }
    ensures kept { result ≢ refilled.ReadFault → S.faults source.new ≡ S.faults source.old }
    ensures piece { length piece.new ≡ length piece.old }
{
    let Ok(count) = source.read(piece) else {
        return Refill::ReadFault;
    };
    if count == 0 {
        framer.finish();
        return Refill::End;
    }
    match framer.feed(&piece[..count]) {
        Err(_) => Refill::TooLong,
        Ok(fed) if fed.took < count as u64 => Refill::TooLong,
        Ok(_) => Refill::More,
    }
}

/// Where the reading of an input stands.
#[derive(Drop)]
pub(crate) struct Reading<T> {
    pub(crate) framer: Framer,
    /// The frames that wait to be read.
    pub(crate) batch: Batch,
    /// The number of the next record.
    pub(crate) number: u64,
    /// The tally of the rows of all records so far.
    pub(crate) tally: T,
}
