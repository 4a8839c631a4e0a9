//! Compares the verdicts on the descriptions of two tables with what they say, which was worked out by hand:
//! `descriptions.txt` has descriptions as they are written, `limits.txt` says how long ones are made, at the limits.
#![tactic(auto)]

mod descriptions;
mod limits;

use std::io;

fn main(rt: HostRuntime) -> io::Result<()> {
    descriptions::compare(&rt)?;
    limits::compare(&rt)
}
