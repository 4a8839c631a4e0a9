//! The rows of `limits.txt`: a verdict, and below it how a description is made that gets it, which is as long or holds
//! as much as one may, or is one past that. The image of an accepted one has at most 1,048,576 instructions, but where
//! the verdict says otherwise.

use pads_code::Coding;
use pads_compile::image_length;
use pads_describe::describe;
use pads_value::{Bytes, Refusal};
use std::alloc::{AllocError, Global};
use std::{fs, io};
use test_rows::{Tally, Trouble, difference, lines_of, put_part, verdict_on};

/// Puts these parts, so many times.
fn put_rounds(alloc: Global, out: &mut Bytes, parts: &[&str], rounds: u32) -> Result<(), Trouble> {
    for round in 0..rounds {
        for part in parts {
            put_part(alloc, out, part, round)?;
        }
    }
    Ok(())
}

/// The text of these lines: parts, and `N rounds` and `end` around parts that come N times.
fn made(alloc: Global, lines: &[&str]) -> Result<Bytes, Trouble> {
    let mut out = Bytes::new(alloc);
    let mut parts = Vec::new(alloc);
    let mut rounds = 1;
    for line in lines {
        if let Some(count) = line.strip_suffix(" rounds") {
            put_rounds(alloc, &mut out, parts.as_slice(), rounds)?;
            parts.clear();
            let Ok(count) = count.parse::<u32>() else {
                return Err(Trouble::Row("a number of rounds that is no number"));
            };
            rounds = count;
        } else if *line == "end" {
            put_rounds(alloc, &mut out, parts.as_slice(), rounds)?;
            parts.clear();
            rounds = 1;
        } else {
            parts.push(*line).map_err(AllocError::from)?;
        }
    }
    put_rounds(alloc, &mut out, parts.as_slice(), rounds)?;
    Ok(out)
}

/// The most instructions of an image.
const LONGEST: u64 = 1_048_576;

/// How many instructions the image of a description has, or nothing where it is refused.
fn instructions(alloc: Global, text: &[u8]) -> Result<Option<u64>, Trouble> {
    match describe(alloc, text, Coding::Ascii) {
        Ok(module) => Ok(Some(image_length(&module))),
        Err(Refusal::Fault(_)) => Ok(None),
        Err(Refusal::Memory) => Err(Trouble::Memory),
    }
}

/// The verdict on the description of a row where it isn't the row's; nothing where it is. A row says how many
/// instructions the image has where they are too many.
fn tried(alloc: Global, verdict: &str, parts: &[&str]) -> Result<String, Trouble> {
    let text = made(alloc, parts)?;
    if let Some(length) = instructions(alloc, text.as_slice())?
        && length > LONGEST
    {
        let told = format!(in alloc; "image of {length} instructions")?;
        return Ok(difference(alloc, told.as_bytes(), verdict.as_bytes())?);
    }
    verdict_on(alloc, text.as_slice(), verdict)
}

/// Tries each row. Prints each whose description gets another verdict, and how many rows there are.
pub(crate) fn compare(rt: &HostRuntime) -> io::Result<()> {
    let table = fs::read_to_string(rt, "limits.txt")?;
    let mut tally = Tally::new();
    for block in table.split("\n\n") {
        let lines = lines_of(rt.alloc(), block)?;
        if let [verdict, parts @ ..] = lines.as_slice() {
            tally.count(rt, block, tried(rt.alloc(), verdict, parts))?;
        }
    }
    tally.print(rt, "limits.txt")
}
