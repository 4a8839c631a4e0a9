//! How many rows there are, and how many differ.

use crate::trouble::Trouble;
use std::alloc::AllocError;
use std::io;

/// The rows of a table so far.
#[derive(Clone, Copy, Debug, Drop)]
pub struct Tally {
    rows: u64,
    differing: u64,
}

impl Tally {
    /// No row yet.
    pub fn new() -> Tally {
        Tally {
            rows: 0,
            differing: 0,
        }
    }

    /// Counts a row, and prints it where it differs from what it says. `difference` says how, and is empty where it
    /// doesn't differ.
    pub fn count(
        &mut self,
        rt: &impl Print,
        row: &str,
        difference: Result<String, Trouble>,
    ) -> io::Result<()> {
        self.rows = self.rows.saturating_add(1);
        match difference {
            Ok(text) if text.is_empty() => return Ok(()),
            Ok(text) => println!(rt; "{row}\n    differs: {text}")?,
            Err(Trouble::Row(why)) => println!(rt; "{row}\n    is no row: {why}")?,
            Err(Trouble::Memory) => return Err(AllocError.into()),
        }
        self.differing = self.differing.saturating_add(1);
        Ok(())
    }

    /// Prints how many rows of a table there were, and how many of them differ.
    pub fn print(&self, rt: &impl Print, table: &str) -> io::Result<()> {
        let rows = self.rows;
        let differing = self.differing;
        println!(rt; "{table}: {rows} rows, {differing} differ")
    }
}
