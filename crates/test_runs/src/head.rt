//! What each line of a row says.

use crate::row::{Mark, Row, Wanted};
use pads_io::Calls;
use pads_orders::{Word, Words};
use std::alloc::Global;
use test_rows::{Trouble, put_part};

fn put_word(alloc: Global, words: &mut Words, word: &str) -> Result<(), Trouble> {
    words.push(Word::new(String::from_str(alloc, word)?))?;
    Ok(())
}

fn put_words(alloc: Global, words: &mut Words, rest: &str) -> Result<(), Trouble> {
    for word in rest.split_whitespace() {
        put_word(alloc, words, word)?;
    }
    Ok(())
}

fn number_of(rest: &str) -> Result<u64, Trouble> {
    match rest.parse::<u64>() {
        Ok(number) => Ok(number),
        Err(_) => Err(Trouble::Row("no number")),
    }
}

fn put_call(calls: &mut Calls, rest: &str) -> Result<(), Trouble> {
    calls.push(number_of(rest)?)?;
    Ok(())
}

/// Takes a line that says how an object moves its bytes.
fn put_moves(row: &mut Row<'_>, head: &str, rest: &str) -> Result<(), Trouble> {
    let asked = &mut row.asked;
    if head == "a read gives" {
        asked.source.most = number_of(rest)?;
    } else if head == "read fails" {
        put_call(&mut asked.source.failing, rest)?;
    } else if head == "a write takes" {
        asked.out.most = number_of(rest)?;
    } else if head == "write fails" {
        put_call(&mut asked.out.failing, rest)?;
    } else if head == "a note takes" {
        asked.notes.most = number_of(rest)?;
    } else if head == "note fails" {
        put_call(&mut asked.notes.failing, rest)?;
    } else if head == "file read fails" {
        put_call(&mut asked.files, rest)?;
    } else if head == "room" {
        asked.room = Some(number_of(rest)?);
    } else {
        return Err(Trouble::Row("a head that none has"));
    }
    Ok(())
}

/// Takes a line that says what a run is made over.
fn put_asked(alloc: Global, row: &mut Row<'_>, head: &str, rest: &str) -> Result<(), Trouble> {
    let asked = &mut row.asked;
    if head == "words" {
        put_words(alloc, &mut asked.words, rest)
    } else if head == "word" {
        put_word(alloc, &mut asked.words, rest)
    } else if head == "description" {
        put_part(alloc, &mut asked.description, rest, 0)
    } else if head == "input" {
        put_part(alloc, &mut asked.input, rest, 0)
    } else {
        put_moves(row, head, rest)
    }
}

/// What is said above is complete as soon as so many bytes were read.
fn put_mark(wanted: &mut Wanted<'_>, rest: &str) -> Result<(), Trouble> {
    let mark = Mark {
        read: number_of(rest)?,
        out: wanted.out.len(),
        notes: wanted.notes.len(),
    };
    wanted.marks.push(mark)?;
    Ok(())
}

/// Takes a line that says what failing calls must leave, or another.
fn put_turns(alloc: Global, row: &mut Row<'_>, head: &str, rest: &str) -> Result<(), Trouble> {
    if head == "complete after" {
        put_mark(&mut row.wanted, rest)
    } else if head == "calls" {
        for calls in rest.split_whitespace() {
            put_call(&mut row.wanted.calls, calls)?;
        }
        Ok(())
    } else {
        put_asked(alloc, row, head, rest)
    }
}

/// Takes a line that says what a run must leave, or another.
fn put_head<'t>(
    alloc: Global,
    row: &mut Row<'t>,
    head: &str,
    rest: &'t str,
) -> Result<(), Trouble> {
    if head == "row" {
        Ok(())
    } else if head == "status" {
        row.wanted.status = rest;
        Ok(())
    } else if head == "out" {
        put_part(alloc, &mut row.wanted.out, rest, 0)
    } else if head == "out bytes" {
        row.wanted.out_bytes = Some(number_of(rest)?);
        Ok(())
    } else if head == "notes" {
        put_part(alloc, &mut row.wanted.notes, rest, 0)
    } else if head == "unread at least" {
        row.wanted.unread = number_of(rest)?;
        Ok(())
    } else {
        put_turns(alloc, row, head, rest)
    }
}

/// Takes a line of a row.
pub(crate) fn put_line<'t>(alloc: Global, row: &mut Row<'t>, line: &'t str) -> Result<(), Trouble> {
    let Some((head, rest)) = line.split_once(':') else {
        return Err(Trouble::Row("a line without a colon"));
    };
    put_head(alloc, row, head, rest.trim())
}
