//! A table is a text of rows. A row is a line that asks for something and, below it, the lines that must be
//! told, each behind four spaces.
use crate::tell::told;
use std::{fs, io};

/// A row, as far as it was read.
#[derive(Drop)]
struct Row<'t> {
    asked: &'t str,
    /// What must be told, and what is told.
    wanted: String,
    told: String,
}

#[derive(Default, Drop)]
struct Tally {
    rows: u64,
    differ: u64,
}

impl Tally {
    /// Counts a row, and prints it where what is told isn't what must be told. Where nothing is told and
    /// nothing must be, it is none.
    fn count(&mut self, rt: &HostRuntime, row: &Row<'_>) -> io::Result<()> {
        if row.wanted.is_empty() && row.told.is_empty() {
            return Ok(());
        }
        self.rows = self.rows.saturating_add(1);
        if row.wanted == row.told {
            return Ok(());
        }
        self.differ = self.differ.saturating_add(1);
        let Row {
            asked,
            wanted,
            told,
        } = row;
        println!(rt; "{asked}\nmust be told:\n{wanted}is told:\n{told}")
    }
}

/// Compares each row of a table, and tells how many there are and how many differ.
pub(crate) fn compare(rt: &HostRuntime, name: &str) -> io::Result<()> {
    let alloc = rt.alloc();
    let text = fs::read_to_string(rt, name)?;
    let mut tally = Tally::default();
    let mut module = None;
    let mut row = Row {
        asked: "",
        wanted: String::new(alloc),
        told: String::new(alloc),
    };
    for line in text.lines() {
        if let Some(answer) = line.strip_prefix("    ") {
            row.wanted.push_str(answer)?;
            row.wanted.push('\n')?;
        } else {
            tally.count(rt, &row)?;
            row = Row {
                asked: line,
                wanted: String::new(alloc),
                told: told(alloc, &mut module, line)?,
            };
        }
    }
    tally.count(rt, &row)?;
    let Tally { rows, differ } = tally;
    println!(rt; "{name}: {rows} rows, {differ} differ")
}
