//! Runs in which calls fail in turn: each call of the files, of the source and of the output, and behind each of these
//! failures, and behind none, each call of the notes. What they may leave is what the clauses of `run` say.

use crate::left::{Left, left_by};
use crate::row::{Asked, Row, Wanted, row_of};
use pads_tool::Status;
use pads_value::Memory;
use std::alloc::{AllocError, Global};
use std::thread::Threads;
use test_rows::{Trouble, difference};

/// More calls than an object of a row has.
const MOST_CALLS: u64 = 10_000;

/// An object of a run.
#[derive(Clone, Copy, Debug, PartialEq, Eq)]
enum Object {
    Files,
    Source,
    Out,
    Notes,
}

/// A call that fails, by its number from 0.
#[derive(Clone, Copy, Debug)]
struct Failure {
    object: Object,
    call: u64,
}

/// A row whose calls fail in turn.
#[derive(Drop)]
pub(crate) struct Turns<'t> {
    pub(crate) lines: &'t [&'t str],
    pub(crate) wanted: Wanted<'t>,
    /// How many bytes the input has.
    pub(crate) length: u64,
    /// What the run leaves where no call fails.
    pub(crate) whole: Left,
}

/// How a run ends at a failed call of an object, and its last words.
fn ending_at(object: Object) -> (Status, &'static [u8]) {
    match object {
        Object::Files => (Status::FileFault, b"pads: file fault\n".as_slice()),
        Object::Source => (Status::ReadFault, b"pads: read fault\n".as_slice()),
        Object::Out | Object::Notes => (Status::WriteFault, b"pads: write fault\n".as_slice()),
    }
}

fn put_failure(asked: &mut Asked, failure: Failure) -> Result<(), Memory> {
    let Failure { object, call } = failure;
    match object {
        Object::Files => asked.files.push(call),
        Object::Source => asked.source.failing.push(call),
        Object::Out => asked.out.failing.push(call),
        Object::Notes => asked.notes.failing.push(call),
    }
}

/// What the run of these lines leaves where these calls fail.
fn left_at<R: Threads + Sync>(
    rt: &R,
    alloc: Global,
    lines: &[&str],
    failures: &[Failure],
) -> Result<Left, Trouble> {
    let Row { asked, .. } = row_of(alloc, lines)?;
    let mut asked = asked;
    for failure in failures {
        put_failure(&mut asked, *failure)?;
    }
    Ok(left_by(rt, alloc, asked)?)
}

/// The first so many bytes, or all where there are fewer.
fn front(bytes: &[u8], count: u64) -> &[u8] {
    &bytes[..bytes.len().min(count as usize)]
}

/// Whether these bytes stand on output and notes that are complete where so many bytes of the input were read.
fn are_complete(wanted: &Wanted<'_>, read: u64, out: &[u8], notes: &[u8]) -> bool {
    let mut complete = (0, 0);
    for mark in wanted.marks.as_slice() {
        if mark.read <= read {
            complete = (mark.out, mark.notes);
        }
    }
    out == front(wanted.out.as_slice(), complete.0)
        && notes == front(wanted.notes.as_slice(), complete.1)
}

/// Whether a run with one failed call, of this object, left what it must.
fn is_due(turns: &Turns<'_>, object: Object, left: &Left) -> bool {
    let (status, words) = ending_at(object);
    let out = left.out.as_slice();
    let Some(notes) = left.notes.as_slice().strip_suffix(words) else {
        return false;
    };
    let wanted = &turns.wanted;
    let read = turns.length.saturating_sub(left.unread);
    left.status == status
        && match object {
            Object::Files => out.is_empty() && notes.is_empty(),
            Object::Source => are_complete(wanted, read, out, notes),
            Object::Out | Object::Notes => {
                wanted.out.as_slice().starts_with(out) && wanted.notes.as_slice().starts_with(notes)
            }
        }
}

/// Whether two runs left the same.
fn is_same(left: &Left, other: &Left) -> bool {
    left.status == other.status
        && left.out.as_slice() == other.out.as_slice()
        && left.notes.as_slice() == other.notes.as_slice()
}

/// Whether a run left what it leaves where the notes don't fail, but for an end of its last words.
fn lacks_words(met: &Left, words: &[u8], left: &Left) -> bool {
    let notes = left.notes.as_slice();
    let Some(due) = met.notes.as_slice().strip_suffix(words) else {
        return false;
    };
    left.status == met.status
        && left.out.as_slice() == met.out.as_slice()
        && notes.starts_with(due)
        && met.notes.as_slice().starts_with(notes)
}

/// Whether a run ended at its notes, before all stood on them that stands there before these last words where they
/// don't fail.
fn ends_at_notes(met: &Left, words: &[u8], left: &Left) -> bool {
    let (status, last) = ending_at(Object::Notes);
    let Some(due) = met.notes.as_slice().strip_suffix(words) else {
        return false;
    };
    let Some(notes) = left.notes.as_slice().strip_suffix(last) else {
        return false;
    };
    left.status == status
        && met.out.as_slice().starts_with(left.out.as_slice())
        && due.starts_with(notes)
        && notes.len() < due.len()
}

/// Tells of a run that left what it may not.
fn tell(
    alloc: Global,
    text: &mut String,
    failures: &[Failure],
    left: &Left,
) -> Result<(), AllocError> {
    for failure in failures {
        let Failure { object, call } = failure;
        write!(text, "{object:?} call {call} ")?;
    }
    let status = left.status;
    let out = difference(alloc, left.out.as_slice(), b"")?;
    let notes = difference(alloc, left.notes.as_slice(), b"")?;
    write!(text, "left {status:?} out {out} notes {notes}; ")
}

/// Lets each call of the notes fail in turn, behind these failures, of which `met` is what they leave without that.
/// Gives how many calls there were.
fn notes_in_turn<R: Threads + Sync>(
    rt: &R,
    alloc: Global,
    text: &mut String,
    lines: &[&str],
    first: Option<Failure>,
    met: &Left,
) -> Result<u64, Trouble> {
    let words = match first {
        None => b"".as_slice(),
        Some(failure) => ending_at(failure.object).1,
    };
    for call in 0..MOST_CALLS {
        let note = Failure {
            object: Object::Notes,
            call,
        };
        let left = match first {
            None => left_at(rt, alloc, lines, &[note])?,
            Some(first) => left_at(rt, alloc, lines, &[first, note])?,
        };
        if left.faults == met.faults {
            if !is_same(&left, met) {
                tell(alloc, text, &[note], &left)?;
            }
            return Ok(call);
        }
        if !lacks_words(met, words, &left) && !ends_at_notes(met, words, &left) {
            tell(alloc, text, &[note], &left)?;
        }
    }
    Err(Trouble::Row("notes with more calls than are tried"))
}

/// Lets each call of an object fail in turn. Gives how many calls there were.
fn calls_in_turn<R: Threads + Sync>(
    rt: &R,
    alloc: Global,
    text: &mut String,
    turns: &Turns<'_>,
    object: Object,
) -> Result<u64, Trouble> {
    for call in 0..MOST_CALLS {
        let failure = Failure { object, call };
        let left = left_at(rt, alloc, turns.lines, &[failure])?;
        if left.faults == 0 {
            if !is_same(&left, &turns.whole) {
                tell(alloc, text, &[failure], &left)?;
            }
            return Ok(call);
        }
        if !is_due(turns, object, &left) {
            tell(alloc, text, &[failure], &left)?;
        }
        notes_in_turn(rt, alloc, text, turns.lines, Some(failure), &left)?;
    }
    Err(Trouble::Row("an object with more calls than are tried"))
}

/// Tells of an object that was called another number of times than the row says. The row says it of the files, the
/// source, the output and the notes, in this order, from 0.
fn put_count(
    text: &mut String,
    wanted: &Wanted<'_>,
    at: u64,
    calls: u64,
) -> Result<(), AllocError> {
    match wanted.calls.get(at) {
        Some(wanted) if *wanted == calls => Ok(()),
        _ => write!(text, "object {at} was called {calls} times; "),
    }
}

/// Puts how the runs of a row whose calls fail in turn differ from what they must leave.
pub(crate) fn put_turns<R: Threads + Sync>(
    rt: &R,
    alloc: Global,
    text: &mut String,
    turns: &Turns<'_>,
) -> Result<(), Trouble> {
    for (at, object) in [(0, Object::Files), (1, Object::Source), (2, Object::Out)] {
        let calls = calls_in_turn(rt, alloc, text, turns, object)?;
        put_count(text, &turns.wanted, at, calls)?;
    }
    let calls = notes_in_turn(rt, alloc, text, turns.lines, None, &turns.whole)?;
    put_count(text, &turns.wanted, 3, calls)?;
    Ok(())
}
