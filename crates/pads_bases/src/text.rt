ghost use Rattle.std.specs.Prelude.{◌≡◌, ◌≤◌, ◌==◌, length, IfOk};
ghost use Rattle.std.specs.List.{position_or_len};
ghost use Rattle.pads_value.specs.declared.reading.Read.TheVariants.{Good};
ghost use Rattle.pads_code.specs.CodePage.{points_of, bytes_of};
ghost use Rattle.pads_bases.specs.Strings.{until_reading, fixed_reading, char_reading};

use memchr::memchr;
use pads_code::{Coding, decode, encode};
use pads_value::{Bytes, Cause, Memory, Read};
use std::alloc::Global;

/// The code points of bytes.
pub fn decode_text(alloc: Global, coding: Coding, bytes: &[u8]) -> Result<Bytes, Memory>
    ensures points { IfOk result (λ text. text ≡ points_of coding bytes.now) }
{
    let points = bytes
        .iter()
        .map(|byte| decode(coding, *byte))
        .collect(alloc)?;
    Ok(Bytes::from_vec(points))
}

/// The bytes of code points.
pub fn encode_text(alloc: Global, coding: Coding, points: &[u8]) -> Result<Bytes, Memory>
    ensures bytes { IfOk result (λ text. text ≡ bytes_of coding points.now) }
{
    let bytes = points
        .iter()
        .map(|point| encode(coding, *point))
        .collect(alloc)?;
    Ok(Bytes::from_vec(bytes))
}

/// All of the bytes as a text.
pub(crate) fn read_all(alloc: Global, coding: Coding, bytes: &[u8]) -> Result<Read<Bytes>, Memory>
    ensures reading { IfOk result (λ r. r ≡ Good (length bytes.now) (points_of coding bytes.now)) }
{
    Ok(Read::Good(bytes.len() as u64, decode_text(alloc, coding, bytes)?))
}

/// How many bytes stand before the first stop character.
fn stop_at(coding: Coding, stop: u8, bytes: &[u8]) -> usize
    ensures stop { result ≡ position_or_len (λ p. p == stop) (points_of coding bytes.now) }
    ensures within { result ≤ length bytes.now }
{
    match memchr(encode(coding, stop), bytes) {
        Some(place) => place,
        None => bytes.len(),
    }
}

/// Reads all before the first stop character, or to the record's end where there is none or `stop` is
/// `None`. It doesn't take the stop character.
pub fn read_until(
    alloc: Global,
    coding: Coding,
    stop: Option<u8>,
    bytes: &[u8],
) -> Result<Read<Bytes>, Memory>
    ensures reading { IfOk result (λ r. r ≡ until_reading coding stop bytes.now) }
{
    match stop {
        None => read_all(alloc, coding, bytes),
        Some(stop) => {
            let (text, _) = bytes.split_at(stop_at(coding, stop, bytes));
            read_all(alloc, coding, text)
        }
    }
}

/// Reads a text of `width` bytes. A width below 0 is hard `BadParam`, fewer bytes hard `Width`.
pub fn read_fixed(
    alloc: Global,
    coding: Coding,
    width: i128,
    bytes: &[u8],
) -> Result<Read<Bytes>, Memory>
    ensures reading { IfOk result (λ r. r ≡ fixed_reading coding width bytes.now) }
{
    if width < 0 {
        return Ok(Read::Hard(Cause::BadParam));
    }
    if (bytes.len() as i128) < width {
        return Ok(Read::Hard(Cause::Width));
    }
    let (text, _) = bytes.split_at(width as usize);
    read_all(alloc, coding, text)
}

/// Reads one character. At the record's end it is hard `Width`.
pub fn read_char(alloc: Global, coding: Coding, bytes: &[u8]) -> Result<Read<Bytes>, Memory>
    ensures reading { IfOk result (λ r. r ≡ char_reading coding bytes.now) }
{
    if bytes.is_empty() {
        return Ok(Read::Hard(Cause::Width));
    }
    let (text, _) = bytes.split_at(1);
    read_all(alloc, coding, text)
}
