//! Tries each row of the tables `records.txt`, `refusals.txt`, `failures.txt`, `turns.txt`, `prints.txt`,
//! `summaries.txt`, `masks.txt`, `queries.txt`, `selftests.txt` and `jobs.txt`: a run of the program over objects in memory,
//! and what it must leave. What a row says was worked out by hand. Prints each row whose run leaves something else, and how many
//! rows each table has.
#![tactic(auto)]

mod head;
mod left;
mod meeting;
mod row;
mod turns;

use crate::left::{Left, left_by};
use crate::meeting::workers_meet;
use crate::row::{Row, Wanted, row_of};
use crate::turns::{Turns, put_turns};
use std::alloc::{AllocError, Global};
use std::thread::Threads;
use std::{fs, io};
use test_rows::{Tally, Trouble, difference, lines_of};

/// Puts what came out in place of what is wanted, under its name.
fn put_difference(
    alloc: Global,
    text: &mut String,
    name: &str,
    came: &[u8],
    wanted: &[u8],
) -> Result<(), AllocError> {
    let shown = difference(alloc, came, wanted)?;
    if !shown.is_empty() {
        write!(text, "{name} {shown}; ")?;
    }
    Ok(())
}

/// Puts what stands on `out` in place of what is wanted, or of as many bytes.
fn put_out(
    alloc: Global,
    text: &mut String,
    left: &Left,
    wanted: &Wanted<'_>,
) -> Result<(), AllocError> {
    let Some(wanted) = wanted.out_bytes else {
        return put_difference(
            alloc,
            text,
            "out",
            left.out.as_slice(),
            wanted.out.as_slice(),
        );
    };
    let bytes = left.out.len();
    if bytes != wanted {
        write!(text, "out bytes {bytes}; ")?;
    }
    Ok(())
}

/// What a run left in place of what is wanted; nothing where it left that.
fn differences(alloc: Global, left: &Left, wanted: &Wanted<'_>) -> Result<String, AllocError> {
    let mut text = String::new(alloc);
    let status = left.status;
    let status = format!(in alloc; "{status:?}")?;
    put_difference(
        alloc,
        &mut text,
        "status",
        status.as_bytes(),
        wanted.status.as_bytes(),
    )?;
    put_out(alloc, &mut text, left, wanted)?;
    put_difference(
        alloc,
        &mut text,
        "notes",
        left.notes.as_slice(),
        wanted.notes.as_slice(),
    )?;
    let unread = left.unread;
    if unread < wanted.unread {
        write!(text, "unread {unread}; ")?;
    }
    Ok(text)
}

/// What the run of a row left in place of what it wants, and where its calls fail in turn what those runs left; nothing
/// where each left that.
fn tried<R: Threads + Sync>(rt: &R, alloc: Global, lines: &[&str]) -> Result<String, Trouble> {
    let Row { asked, wanted } = row_of(alloc, lines)?;
    let length = asked.input.len();
    let whole = left_by(rt, alloc, asked)?;
    let mut text = differences(alloc, &whole, &wanted)?;
    if wanted.calls.is_empty() {
        return Ok(text);
    }
    let turns = Turns {
        lines,
        wanted,
        length,
        whole,
    };
    put_turns(rt, alloc, &mut text, &turns)?;
    Ok(text)
}

/// Tries the rows of a table.
fn try_table<R: Threads + Sync>(rt: &HostRuntime, threads: &R, name: &str) -> io::Result<()> {
    let table = fs::read_to_string(rt, name)?;
    let mut tally = Tally::new();
    for block in table.split("\n\n") {
        let lines = lines_of(rt.alloc(), block)?;
        if let [first, ..] = lines.as_slice() {
            tally.count(rt, first, tried(threads, rt.alloc(), lines.as_slice()))?;
        }
    }
    tally.print(rt, name)
}

fn main(rt: HostRuntime) -> io::Result<()> {
    try_table(&rt, &rt, "records.txt")?;
    try_table(&rt, &rt, "refusals.txt")?;
    try_table(&rt, &rt, "failures.txt")?;
    try_table(&rt, &rt, "turns.txt")?;
    try_table(&rt, &rt, "prints.txt")?;
    try_table(&rt, &rt, "summaries.txt")?;
    try_table(&rt, &rt, "masks.txt")?;
    try_table(&rt, &rt, "queries.txt")?;
    try_table(&rt, &rt, "selftests.txt")?;
    try_table(&rt, &rt, "jobs.txt")?;
    match workers_meet(&rt, rt.alloc()) {
        Ok(true) => println!(&rt; "meeting: two workers meet"),
        _ => println!(&rt; "meeting: two workers don't meet"),
    }
}
