//! A table is a text of rows. A row is a line that asks for something, lines behind `|` that go on with it and,
//! below, the lines that must be told, each behind four spaces.
use crate::tell::told;
use std::{fs, io};

/// A row, as far as it was read.
#[derive(Drop)]
struct Row {
    asked: String,
    wanted: String,
}

#[derive(Default, Drop)]
struct Tally {
    rows: u64,
    differ: u64,
}

impl Tally {
    /// Counts a row, and prints it where what is told isn't what must be told. Where nothing is told and nothing must
    /// be, it is none.
    fn count(&mut self, rt: &HostRuntime, row: &Row) -> io::Result<()> {
        let Row { asked, wanted } = row;
        let told = told(rt.alloc(), asked.as_str())?;
        if wanted.is_empty() && told.is_empty() {
            return Ok(());
        }
        self.rows = self.rows.saturating_add(1);
        if *wanted == told {
            return Ok(());
        }
        self.differ = self.differ.saturating_add(1);
        println!(rt; "{asked}\nmust be told:\n{wanted}is told:\n{told}")
    }
}

/// Compares each row of a table, and tells how many there are and how many differ.
pub(crate) fn compare(rt: &HostRuntime, name: &str) -> io::Result<()> {
    let alloc = rt.alloc();
    let text = fs::read_to_string(rt, name)?;
    let mut tally = Tally::default();
    let mut row = Row {
        asked: String::new(alloc),
        wanted: String::new(alloc),
    };
    for line in text.lines() {
        if let Some(answer) = line.strip_prefix("    ") {
            row.wanted.push_str(answer)?;
            row.wanted.push('\n')?;
        } else if let Some(more) = line.strip_prefix("|") {
            row.asked.push('\n')?;
            row.asked.push_str(more)?;
        } else {
            tally.count(rt, &row)?;
            row = Row {
                asked: String::from_str(alloc, line)?,
                wanted: String::new(alloc),
            };
        }
    }
    tally.count(rt, &row)?;
    let Tally { rows, differ } = tally;
    println!(rt; "{name}: {rows} rows, {differ} differ")
}
