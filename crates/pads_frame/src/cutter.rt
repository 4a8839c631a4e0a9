ghost use Rattle.std.specs.Prelude.{◌≡◌, ◌+◌, ◌-◌, ◌≤◌, ◌^◌, ◌<◌, ◌++◌, length, drop, take, vec_len, vec_capacity, IfOk, IsErr, IsTrue, ◌↔◌, true, false};
ghost use Rattle.pads_frame.specs.Extents.{extent};
ghost use Rattle.pads_frame.specs.Feed.{FeedGives, IsPastEnd, holding};
ghost use Rattle.pads_frame.specs.Looks.{Finds, Loses, LookGives};
ghost use Rattle.pads_frame.specs.Fits.{FitsLimit};
ghost use Rattle.pads_frame.specs.State.{closes, new_state, reach, text_of, word_size};
ghost use Rattle.pads_frame.specs.Next.{HandsOut, Waits};
ghost use Rattle.pads_frame.specs.Cutters.{AdvanceGives, IsCutter, IsPlace, Takes, cut_of_place, held_of, state_of};
ghost use Rattle.pads_value.specs.Cuts.{cut_of_frame};
ghost use Rattle.pads_value.specs.Marks.{bytes_of};

use crate::discipline::{Discipline, Extent};
use crate::look::{Look, look_at};
use pads_value::{Frame, Mark, Memory};
use std::alloc::Global;

/// The state of a framer. The buffer holds the bytes that came: those before `start` were taken by
/// frames, and the first `searched` of the others were searched for a terminator.
#[derive(Debug, Drop)]
pub struct Cutter {
    pub discipline: Discipline,
    pub max: u64,
    pub first: u64,
    pub passed: u64,
    pub buffer: Vec<u8>,
    pub start: usize,
    pub searched: usize,
    pub ended: bool,
}

/// What was taken of a piece.
#[derive(Clone, Copy, Debug, PartialEq, Eq)]
pub struct Fed {
    /// How many of its first bytes.
    pub took: u64,
    /// Whether all room is taken, so that nothing more can come before a frame is handed out.
    pub full: bool,
}

/// The input goes on, past the 2^62 bytes that it may have.
#[derive(Clone, Copy, Debug, PartialEq, Eq)]
pub struct TooLong;

/// How many bytes an input may have.
const INPUT_LIMIT: u64 = 1 << 62;

/// How many bytes are held beside those of a longest frame: a read of 4,096 and a descriptor word.
const SPARE: usize = 4100;

/// A frame whose bytes stand at a place of the buffer.
#[derive(Clone, Copy, Debug)]
pub struct Place {
    pub first: u64,
    pub end: u64,
    pub from: usize,
    pub to: usize,
    pub mark: Mark,
}

impl Cutter {
    /// A cutter before its first byte, which has offset `first`.
    pub fn new(
        alloc: Global,
        discipline: Discipline,
        max: u64,
        first: u64,
    ) -> Result<Cutter, Memory>
        requires limit { max ≤ 16777216 }
        requires fits_limit { FitsLimit discipline max }
        requires first { first ≤ 2 ^ 62 }
        ensures state { IfOk result (λ cutter. state_of cutter ≡ new_state discipline max first) }
        ensures kept { IfOk result IsCutter }
    {
        let buffer = Vec::with_capacity(alloc, max as usize + SPARE)?;
        Ok(Cutter {
            discipline,
            max,
            first,
            passed: 0,
            buffer,
            start: 0,
            searched: 0,
            ended: false,
        })
    }

    /// Moves the held bytes to the front where so many more don't fit behind them.
    fn make_room(&mut self, more: usize)
        requires kept { IsCutter self.old }
        requires fits { length (held_of self.old) + more ≤ self.old.max + 4100 }
        ensures same { state_of self.new ≡ state_of self.old }
        ensures kept { IsCutter self.new }
        ensures room { vec_len self.new.buffer + more ≤ self.new.max + 4100 }
    {
        if self.buffer.len() + more <= self.max as usize + SPARE {
            return;
        }
        compact(&mut self.buffer, self.start);
        self.start = 0;
    }

    /// Holds these bytes too.
    fn hold(&mut self, bytes: &[u8])
        requires kept { IsCutter self.old }
        requires fits { length (held_of self.old) + length bytes.now ≤ self.old.max + 4100 }
        requires below { reach (state_of self.old) + length bytes.now ≤ 2 ^ 62 }
        ensures holds { state_of self.new ≡ holding (state_of self.old) bytes.now }
        ensures kept { IsCutter self.new }
    {
        self.make_room(bytes.len());
        append(&mut self.buffer, bytes);
    }

    /// Whether a byte comes whose offset would be 2^62.
    fn is_past_end(&self, piece: &[u8]) -> bool
        requires kept { IsCutter self.now }
        ensures { IsTrue result ↔ IsPastEnd (state_of self.now) piece.now }
    {
        let held = self.buffer.len() - self.start;
        !piece.is_empty() && self.first + self.passed + held as u64 == INPUT_LIMIT
    }

    /// Takes what it can of a piece.
    pub fn feed(&mut self, piece: &[u8]) -> Result<Fed, TooLong>
        requires kept { IsCutter self.old }
        ensures too_long { IsErr result ↔ IsPastEnd (state_of self.old) piece.now }
        ensures gives { FeedGives (state_of self.old) piece.now (state_of self.new) result }
        ensures kept { IsCutter self.new }
    {
        if self.is_past_end(piece) {
            return Err(TooLong);
        }
        let held = self.buffer.len() - self.start;
        let reach = self.first + self.passed + held as u64;
        let free = self.max as usize + SPARE - held;
        let took = piece.len().min(free).min((INPUT_LIMIT - reach) as usize);
        self.hold(&piece[..took]);
        Ok(Fed {
            took: took as u64,
            full: took == free,
        })
    }

    /// What the held bytes say of the frame in work.
    fn look(&self) -> Look
        requires kept { IsCutter self.now }
        ensures { LookGives self.now.discipline self.now.max self.now.passed (held_of self.now) self.now.ended result }
    {
        look_at(
            self.discipline,
            self.max,
            self.passed,
            &self.buffer[self.start..],
            self.searched,
            self.ended,
        )
    }

    /// Hands over the place of a frame that was found, and moves on after it.
    fn take(&mut self, found: Extent) -> Place
        requires kept { IsCutter self.old }
        requires found { Finds self.old.discipline self.old.max self.old.passed (held_of self.old) self.old.ended found }
        ensures takes { Takes self.old result self.new }
        ensures kept { IsCutter self.new }
    {
        let first = self.first + found.lead;
        let end = first + found.len;
        let from = self.start + found.lead as usize;
        let to = from + carried(found.mark, found.len) as usize;
        self.start += (found.lead + found.len + found.terminator - self.passed) as usize;
        self.searched = 0;
        self.first = end + found.terminator;
        self.passed = 0;
        Place {
            first,
            end,
            from,
            to,
            mark: found.mark,
        }
    }

    /// Passes over the held bytes of a frame that carries none, all but its descriptor word.
    fn pass_over(&mut self)
        requires kept { IsCutter self.old }
        requires lost { Loses self.old.discipline self.old.max self.old.passed (held_of self.old) self.old.ended }
        ensures waits { Waits (state_of self.old) (state_of self.new) }
        ensures kept { IsCutter self.new }
    {
        let left = self.start + word_len(self.discipline);
        self.passed += (self.buffer.len() - left) as u64;
        self.buffer.truncate(left);
        self.searched = 0;
    }

    /// The place of the next frame, where one closes.
    pub fn advance(&mut self) -> Option<Place>
        requires kept { IsCutter self.old }
        ensures gives { AdvanceGives self.old self.new result }
        ensures kept { IsCutter self.new }
    {
        match self.look() {
            Look::Found(found) => Some(self.take(found)),
            Look::Pass => {
                self.pass_over();
                None
            }
            Look::Wait => {
                self.searched = self.buffer.len() - self.start;
                None
            }
        }
    }

    /// The input has ended.
    pub fn finish(&mut self)
        requires kept { IsCutter self.old }
        ensures state { state_of self.new ≡ record (state_of self.old) { ended = true } }
        ensures kept { IsCutter self.new }
    {
        self.ended = true;
    }

    /// The frame at a place of the buffer.
    pub fn frame(&self, place: Place) -> Frame<'_>
        requires { IsPlace place self.now.buffer.items }
        ensures { cut_of_frame result ≡ cut_of_place place self.now.buffer.items }
    {
        Frame {
            first: place.first,
            end: place.end,
            bytes: &self.buffer[place.from..place.to],
            mark: place.mark,
        }
    }
}

/// How many bytes a frame of this extent carries.
pub fn carried(mark: Mark, len: u64) -> u64
    ensures { result ≡ bytes_of mark len }
{
    match mark {
        Mark::Plain | Mark::Short => len,
        Mark::Long | Mark::Broken => 0,
    }
}

/// The size of a descriptor word, where the discipline has one.
fn word_len(discipline: Discipline) -> usize
    ensures { result ≡ word_size discipline }
{
    match discipline {
        Discipline::Rdw => 4,
        Discipline::Term(_) | Discipline::Fixed(_) | Discipline::Whole => 0,
    }
}

/// Removes the first `start` bytes.
fn compact(buffer: &mut Vec<u8>, start: usize)
    requires { start ≤ vec_len buffer.old }
    ensures items { buffer.new.items ≡ drop start buffer.old.items }
    ensures len { vec_len buffer.new ≡ vec_len buffer.old - start }
    ensures capacity { vec_capacity buffer.old ≤ vec_capacity buffer.new }
{
    let left = buffer.len() - start;
    buffer.copy_within(start.., 0);
    buffer.truncate(left);
}

/// Appends bytes for which there is room.
fn append(buffer: &mut Vec<u8>, bytes: &[u8])
    requires { vec_len buffer.old + length bytes.now ≤ vec_capacity buffer.old }
    ensures items { buffer.new.items ≡ buffer.old.items ++ bytes.now }
    ensures len { vec_len buffer.new ≡ vec_len buffer.old + length bytes.now }
    ensures capacity { vec_capacity buffer.old ≤ vec_capacity buffer.new }
{
    match buffer.extend_from_slice(bytes) {
        Ok(()) => {}
        Err(_) => unreachable!(),
    }
}
