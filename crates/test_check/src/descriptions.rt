//! The rows of `descriptions.txt`: a verdict, a colon and a description.

use std::alloc::Global;
use std::{fs, io};
use test_rows::{Tally, Trouble, is_note, verdict_on};

/// The verdict on the description of a row where it isn't the row's; nothing where it is.
fn tried(alloc: Global, row: &str) -> Result<String, Trouble> {
    let Some((verdict, rest)) = row.split_once(':') else {
        return Err(Trouble::Row("no colon"));
    };
    let text = rest.strip_prefix(' ').unwrap_or(rest);
    verdict_on(alloc, text.as_bytes(), verdict)
}

/// Tries each row. Prints each whose description gets another verdict, and how many rows there are.
pub(crate) fn compare(rt: &HostRuntime) -> io::Result<()> {
    let table = fs::read_to_string(rt, "descriptions.txt")?;
    let mut tally = Tally::new();
    for line in table.lines() {
        if !is_note(line) {
            tally.count(rt, line, tried(rt.alloc(), line))?;
        }
    }
    tally.print(rt, "descriptions.txt")
}
