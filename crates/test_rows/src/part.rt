//! How a row writes a text.

use crate::trouble::Trouble;
use hex::FromHexError;
use pads_value::Bytes;
use std::alloc::Global;

/// A part of a text as it is written.
#[derive(Clone, Copy)]
struct Part<'t> {
    /// What stands between the first quote and the last.
    body: &'t str,
    /// How often it comes, where that is said.
    times: Option<u32>,
}

fn part_of(line: &str) -> Result<Part<'_>, Trouble> {
    let Some((before, rest)) = line.split_once('"') else {
        return Err(Trouble::Row("a text without quotes"));
    };
    let Some(body) = rest.strip_suffix('"') else {
        return Err(Trouble::Row("a text that doesn't end with a quote"));
    };
    if before.is_empty() {
        return Ok(Part { body, times: None });
    }
    let Some(count) = before.strip_suffix(" times ") else {
        return Err(Trouble::Row("words before a text"));
    };
    match count.parse::<u32>() {
        Ok(count) => Ok(Part {
            body,
            times: Some(count),
        }),
        Err(_) => Err(Trouble::Row("a number of times that is no number")),
    }
}

/// Puts what stands behind a backslash, up to the next one. Whether that was the second of two backslashes, so that
/// what follows is plain.
fn put_escaped(alloc: Global, out: &mut Bytes, piece: &[u8]) -> Result<bool, Trouble> {
    match piece {
        [] => {
            out.push(b'\\')?;
            Ok(true)
        }
        [b'n', rest @ ..] => {
            out.push(b'\n')?;
            out.extend_from_slice(rest)?;
            Ok(false)
        }
        [b'x', high, low, rest @ ..] => {
            match hex::decode(alloc, [*high, *low].as_slice()) {
                Ok(byte) => out.extend_from_slice(byte.as_slice())?,
                Err(FromHexError::OutOfMemory) => return Err(Trouble::Memory),
                Err(_) => return Err(Trouble::Row("an escape that isn't two hex digits")),
            }
            out.extend_from_slice(rest)?;
            Ok(false)
        }
        _ => Err(Trouble::Row("a backslash before another letter")),
    }
}

/// Puts a text: `\n` in it is a line's end, `\\` a backslash, and `\xHH` the byte of these hex digits.
fn put_text(alloc: Global, out: &mut Bytes, text: &str) -> Result<(), Trouble> {
    let mut is_plain = true;
    for piece in text.split('\\') {
        if is_plain {
            out.extend_from_slice(piece.as_bytes())?;
            is_plain = false;
        } else {
            is_plain = put_escaped(alloc, out, piece.as_bytes())?;
        }
    }
    if is_plain {
        return Err(Trouble::Row("a backslash at the end"));
    }
    Ok(())
}

/// Puts what stands behind an opening brace, up to the next one: a number that has counted so many steps up, or the
/// brace and the text as they stand.
fn put_counted(alloc: Global, out: &mut Bytes, piece: &str, step: u64) -> Result<(), Trouble> {
    if let Some((digits, rest)) = piece.split_once('}')
        && let Ok(first) = digits.parse::<u64>()
    {
        let number = first.saturating_add(step);
        let digits = format!(in alloc; "{number}")?;
        out.extend_from_slice(digits.as_bytes())?;
        return put_text(alloc, out, rest);
    }
    out.push(b'{')?;
    put_text(alloc, out, piece)
}

/// Puts a text whose numbers have counted so many steps up.
fn put_step(alloc: Global, out: &mut Bytes, body: &str, step: u64) -> Result<(), Trouble> {
    for (at, piece) in body.split('{').enumerate() {
        if at == 0 {
            put_text(alloc, out, piece)?;
        } else {
            put_counted(alloc, out, piece, step)?;
        }
    }
    Ok(())
}

/// Puts a part of a text. `"TEXT"` stands for what is between the first quote and the last, where `\n` is a line's
/// end, `\\` a backslash and `\xHH` a byte in hex. `N times "TEXT"` stands for N of it, one behind the other, and
/// `{K}` in it for a number: K at the first time of the first round, and one more at each later one.
pub fn put_part(alloc: Global, out: &mut Bytes, part: &str, round: u32) -> Result<(), Trouble> {
    let Part { body, times } = part_of(part)?;
    let Some(times) = times else {
        return put_text(alloc, out, body);
    };
    let before = u64::from(round).saturating_mul(u64::from(times));
    for time in 0..times {
        put_step(alloc, out, body, before.saturating_add(u64::from(time)))?;
    }
    Ok(())
}
