//! Compares what is told of the rows of three tables with what must be told, which was worked out by hand:
//! `descriptions.txt` has the trees of descriptions, `expressions.txt` those of expressions and what the rules say
//! of some, `paths.txt` paths. A text that has no tree has a fault.
#![tactic(auto)]

mod decl_text;
mod expr_text;
mod judgement;
mod part_text;
mod path_text;
mod table;
mod tell;
mod tree_text;

use std::io;

fn main(rt: HostRuntime) -> io::Result<()> {
    table::compare(&rt, "descriptions.txt")?;
    table::compare(&rt, "expressions.txt")?;
    table::compare(&rt, "paths.txt")
}
