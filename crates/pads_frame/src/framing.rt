ghost use Rattle.std.specs.Prelude.{◌≡◌, ◌≤◌, ◌++◌, ◌∷◌, [], nat_le, Some, None, length, IfOk, if◌then◌else◌};
ghost use Rattle.pads_frame.specs.Framed.{framed, most_behind_word, word};

use crate::discipline::Discipline;
use pads_value::{Bytes, Items, Memory};
use std::alloc::Global;

/// The most bytes that a record behind a descriptor word has.
const MOST_BEHIND_WORD: usize = 65_531;

/// A record with its terminator.
fn line(alloc: Global, terminator: u8, bytes: &[u8]) -> Result<Bytes, Memory>
    ensures line { IfOk result (λ input. input ≡ bytes.now ++ terminator ∷ []) }
{
    let mut input = Items::from_slice(alloc, bytes)?;
    input.push(terminator)?;
    Ok(input)
}

/// The descriptor word of a record of so many bytes.
fn word_of(size: u16) -> [u8; 4]
    requires { size ≤ most_behind_word }
    ensures word { result ≡ word size }
{
    let [high, low] = (size + 4).to_be_bytes();
    [high, low, 0, 0]
}

/// A record behind its descriptor word, where a word can give its length.
fn behind_word(alloc: Global, bytes: &[u8]) -> Result<Option<Bytes>, Memory>
    ensures word { IfOk result (λ input. input ≡ (if nat_le (length bytes.now) most_behind_word then Some (word (length bytes.now) ++ bytes.now) else None)) }
{
    if bytes.len() > MOST_BEHIND_WORD {
        return Ok(None);
    }
    let mut input = Items::from_slice(alloc, &word_of(bytes.len() as u16))?;
    input.extend_from_slice(bytes)?;
    Ok(Some(input))
}

/// The bytes of a record as an input of their own: with a terminator, behind a descriptor word, or as they
/// are. `None` exactly where no descriptor word gives their length: under `Rdw`, at more than 65,531 bytes.
/// Whether the input is cut into this one record again isn't asked.
pub fn frame_of(
    alloc: Global,
    discipline: Discipline,
    bytes: &[u8],
) -> Result<Option<Bytes>, Memory>
    ensures framed { IfOk result (λ input. input ≡ framed discipline bytes.now) }
{
    match discipline {
        Discipline::Term(terminator) => Ok(Some(line(alloc, terminator, bytes)?)),
        Discipline::Rdw => behind_word(alloc, bytes),
        Discipline::Fixed(_) | Discipline::Whole => Ok(Some(Items::from_slice(alloc, bytes)?)),
    }
}
