//! Compares what all fields of two bytes read as, and how each number that is read is spelled, with the table
//! `two_bytes.txt`, which a second reader wrote. Prints each row that differs, and how many rows there are.
#![tactic(auto)]

mod form;
mod row;

use form::forms;
use row::row_of;
use std::{fs, io};

fn main(rt: HostRuntime) -> io::Result<()> {
    let table = fs::read_to_string(&rt, "two_bytes.txt")?;
    let mut rows = table.lines().filter(|line| !line.starts_with('#'));
    let mut differing: u64 = 0;
    for form in forms() {
        for first in 0..=255u8 {
            let row = row_of(rt.alloc(), form, first)?;
            if rows.next() != Some(row.as_str()) {
                println!(rt; "{row}")?;
                differing = differing.saturating_add(1);
            }
        }
    }
    let mut more: u64 = 0;
    for _row in rows {
        more = more.saturating_add(1);
    }
    println!(rt; "two_bytes.txt: {differing} rows differ, {more} are left over")
}
