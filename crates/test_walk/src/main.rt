//! Compares what is told of the rows of five tables with what must be told, which was worked out by hand:
//! `rows.txt` has what records read as, `modules.txt` the terms that descriptions stand for, `lines.txt` the
//! lines of JSON of records, `masks.txt` modules and records under masks, and `inputs.txt` the inputs of the runs of test_runs.
//! Each record is read by the terms of its module and by their image, and must read the same by both. Behind the
//! tables a batch is read by three workers, which must meet.
#![tactic(auto)]

mod base_text;
mod expr_text;
mod line;
mod masks;
mod meeting;
mod order;
mod row_text;
mod table;
mod tell;
mod term_text;
mod trouble;

use crate::meeting::{others_go_on, workers_meet};
use std::io;

fn main(rt: HostRuntime) -> io::Result<()> {
    table::compare(&rt, "rows.txt")?;
    table::compare(&rt, "modules.txt")?;
    table::compare(&rt, "lines.txt")?;
    table::compare(&rt, "masks.txt")?;
    table::compare(&rt, "inputs.txt")?;
    match workers_meet(&rt, rt.alloc()) {
        Ok(true) => println!(&rt; "meeting: three workers of a batch meet")?,
        _ => println!(&rt; "meeting: three workers of a batch don't meet")?,
    }
    match others_go_on(&rt, rt.alloc()) {
        Ok(true) => println!(&rt; "delay: the other worker of a batch goes on"),
        _ => println!(&rt; "delay: the other worker of a batch doesn't go on"),
    }
}
