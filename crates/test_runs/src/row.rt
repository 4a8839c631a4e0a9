//! What a row asks for, and what it wants.

use crate::head::put_line;
use pads_io::Calls;
use pads_orders::Words;
use pads_value::{Bytes, Items};
use std::alloc::Global;
use test_rows::Trouble;

/// How an object moves its bytes.
#[derive(Drop)]
pub(crate) struct Moves {
    /// The most that one call moves, or 0 for any number.
    pub(crate) most: u64,
    /// The calls that fail, by their numbers from 0.
    pub(crate) failing: Calls,
}

/// What a run is made over.
#[derive(Drop)]
pub(crate) struct Asked {
    pub(crate) words: Words,
    /// The bytes of the file `d`, which is the only one.
    pub(crate) description: Bytes,
    pub(crate) input: Bytes,
    /// How much room `out` and the notes have that never fail before; where none is said, the objects are those that
    /// fail at listed calls.
    pub(crate) room: Option<u64>,
    /// The reads of files that fail.
    pub(crate) files: Calls,
    pub(crate) source: Moves,
    pub(crate) out: Moves,
    pub(crate) notes: Moves,
}

/// What is complete as soon as so many bytes of the input were read.
#[derive(Clone, Copy)]
pub(crate) struct Mark {
    pub(crate) read: u64,
    /// How many bytes of the output and of the notes.
    pub(crate) out: u64,
    pub(crate) notes: u64,
}

/// What a run must leave.
#[derive(Drop)]
pub(crate) struct Wanted<'t> {
    pub(crate) status: &'t str,
    pub(crate) out: Bytes,
    /// How many bytes stand on `out`, where they aren't written out in the row.
    pub(crate) out_bytes: Option<u64>,
    pub(crate) notes: Bytes,
    /// How many bytes of the input are left at least.
    pub(crate) unread: u64,
    /// What stands on the sinks where the source fails behind so many bytes.
    pub(crate) marks: Items<Mark>,
    /// How often files, source, output and notes are called; where that is said, each of these calls fails in turn.
    pub(crate) calls: Calls,
}

/// A row of a table.
#[derive(Drop)]
pub(crate) struct Row<'t> {
    pub(crate) asked: Asked,
    pub(crate) wanted: Wanted<'t>,
}

/// Each call moves as many bytes as it can, and none fails.
fn whole(alloc: Global) -> Moves {
    Moves {
        most: 0,
        failing: Calls::new(alloc),
    }
}

/// A row that says nothing.
fn empty(alloc: Global) -> Row<'static> {
    Row {
        asked: Asked {
            words: Words::new(alloc),
            description: Bytes::new(alloc),
            input: Bytes::new(alloc),
            room: None,
            files: Calls::new(alloc),
            source: whole(alloc),
            out: whole(alloc),
            notes: whole(alloc),
        },
        wanted: Wanted {
            status: "",
            out: Bytes::new(alloc),
            out_bytes: None,
            notes: Bytes::new(alloc),
            unread: 0,
            marks: Items::new(alloc),
            calls: Calls::new(alloc),
        },
    }
}

/// The row of these lines, each of which is a head, a colon and what it says.
pub(crate) fn row_of<'t>(alloc: Global, lines: &[&'t str]) -> Result<Row<'t>, Trouble> {
    let mut row = empty(alloc);
    for line in lines {
        put_line(alloc, &mut row, line)?;
    }
    Ok(row)
}
