ghost use Rattle.std.specs.Prelude.{◌≡◌, ◌≤◌, ◌++◌, map, replicate, length, IfOk, OnOk, option_map};
ghost use Rattle.pads_code.specs.CodePage.{byte_of};
ghost use Rattle.pads_int.specs.Filled.{filled, sign_of};
ghost use Rattle.pads_int.specs.Spellings.{int_spelling, int_fw_spelling, is_field_width as width_of_field};

use crate::Kind;
use arrayvec::ArrayVec;
use itoa::Buffer;
use pads_code::{Coding, encode};
use pads_value::{Bytes, Memory};
use std::alloc::Global;

/// The widest field that is spelled.
const WIDEST: i128 = 16_777_216;

/// The bytes of a short text.
fn encoded(coding: Coding, text: &[u8]) -> ArrayVec<u8, 40>
    requires { length text.now ≤ 40 }
    ensures bytes { result.items ≡ map (byte_of coding) text.now }
{
    let mut bytes = ArrayVec::new();
    for point in text {
        bytes.push(encode(coding, *point));
    }
    bytes
}

/// The canonical spelling of a number: plain decimal, `-` in front of a negative one. `None` exactly
/// where the kind doesn't have the number.
pub fn spell_int(kind: Kind, coding: Coding, v: i128) -> Option<ArrayVec<u8, 40>>
    ensures spelling { option_map (λ s. s.items) result ≡ int_spelling kind coding v }
{
    if !kind.contains(v) {
        return None;
    }
    let mut buffer = Buffer::new();
    Some(encoded(coding, buffer.format(v).as_bytes()))
}

/// Puts the bytes of a text behind the field.
fn push_text(field: &mut Bytes, coding: Coding, text: &[u8]) -> Result<(), Memory>
    ensures pushed { OnOk result (field.new ≡ field.old ++ map (byte_of coding) text.now) }
{
    for point in text {
        field.push(encode(coding, *point))?;
    }
    Ok(())
}

/// Puts so many zeros behind the field.
fn push_zeros(field: &mut Bytes, coding: Coding, count: usize) -> Result<(), Memory>
    ensures pushed { OnOk result (field.new ≡ field.old ++ replicate count (byte_of coding 48)) }
{
    let zero = encode(coding, b'0');
    for _place in 0..count {
        field.push(zero)?;
    }
    Ok(())
}

/// Whether a field of so many bytes is spelled.
fn is_field_width(width: i128) -> bool
    ensures width { result ≡ width_of_field width }
{
    1 <= width && width <= WIDEST
}

/// How many characters of the number's text are its sign.
fn sign_len(v: i128) -> usize
    ensures sign { result ≡ sign_of v }
{
    if v < 0 { 1 } else { 0 }
}

/// A field of `size` bytes: the text, with zeros behind its sign.
fn zero_filled(
    alloc: Global,
    coding: Coding,
    size: usize,
    sign: usize,
    text: &[u8],
) -> Result<Bytes, Memory>
    requires sign { sign ≤ length text.now }
    requires room { length text.now ≤ size }
    ensures field { IfOk result (λ f. f ≡ filled coding size sign text.now) }
{
    let (front, digits) = text.split_at(sign);
    let mut field = Bytes::new(alloc);
    push_text(&mut field, coding, front)?;
    push_zeros(&mut field, coding, size - text.len())?;
    push_text(&mut field, coding, digits)?;
    Ok(field)
}

/// The canonical spelling of a number in a field of `width` bytes: `-` in front of a negative one, then
/// zeros, then the digits. `None` exactly where the kind doesn't have the number, it doesn't fit, or the
/// width isn't from 1 to 16,777,216.
pub fn spell_int_fw(
    alloc: Global,
    kind: Kind,
    coding: Coding,
    width: i128,
    v: i128,
) -> Result<Option<Bytes>, Memory>
    ensures spelling { IfOk result (λ s. s ≡ int_fw_spelling kind coding width v) }
{
    if !is_field_width(width) {
        return Ok(None);
    }
    if !kind.contains(v) {
        return Ok(None);
    }
    let mut buffer = Buffer::new();
    let text = buffer.format(v).as_bytes();
    let size = width as usize;
    if size < text.len() {
        return Ok(None);
    }
    Ok(Some(zero_filled(alloc, coding, size, sign_len(v), text)?))
}
