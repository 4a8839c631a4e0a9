ghost use Rattle.std.specs.Prelude.{◌≡◌, ◌≤◌, ◌<◌, ◌^◌, ◌∷◌, ◌++◌, [], length, option_map, IfSome, slice_index, not, ◌&&◌, ◌==◌};
ghost use Rattle.pads_decimal.specs.HalfBytes.{halves, joined};
ghost use Rattle.pads_decimal.specs.Digits.{last_digits};
ghost use Rattle.pads_decimal.specs.Numbers.{number_of, pair_of};
ghost use Rattle.pads_decimal.specs.Packed.{packed_field as field_reading, packed_reading, packed_spelling, pad, is_padded};

use crate::digits::{digit_at, digit_count, fits};
use crate::sign::{is_sign, sign_of, with_sign};
use arrayvec::ArrayVec;
use pads_value::{Cause, Read};

/// The number of the two digits in a byte. `None` where one of its half bytes is no digit.
fn pair(byte: u8) -> Option<u8>
    ensures pair { result ≡ pair_of byte }
    ensures small { IfSome result (λ n. n < 100) }
{
    let high = byte / 16;
    let low = byte % 16;
    if high < 10 && low < 10 {
        Some(high * 10 + low)
    } else {
        None
    }
}

/// The number of the digits in whole bytes. `None` where a half byte is no digit.
fn pairs(bytes: &[u8]) -> Option<u64>
    requires { length bytes.now ≤ 9 }
    ensures number { result ≡ number_of (halves bytes.now) }
    ensures small { IfSome result (λ n. n < 10 ^ 18) }
{
    let mut number: u64 = 0;
    for byte in bytes {
        match pair(*byte) {
            None => return None,
            Some(pair) => number = number * 100 + u64::from(pair),
        }
    }
    Some(number)
}

/// The number of the digits in whole bytes, and of one digit more. `None` where a half byte is no digit.
fn pairs_and_digit(bytes: &[u8], digit: u8) -> Option<u64>
    requires { length bytes.now ≤ 9 }
    ensures number { result ≡ number_of (halves bytes.now ++ digit ∷ []) }
{
    match pairs(bytes) {
        None => None,
        Some(number) => {
            if digit < 10 {
                Some(number * 10 + u64::from(digit))
            } else {
                None
            }
        }
    }
}

/// Whether the half byte in front that must be 0 is another digit.
fn pad_is_used(padded: bool, field: &[u8]) -> bool
    ensures used { result ≡ (padded && not (slice_index (halves field.now) 0 == 0)) }
{
    match field.first() {
        None => false,
        Some(byte) => padded && 16 <= *byte,
    }
}

/// Reads a whole field: digits, and the sign in its last half byte.
fn packed_field(padded: bool, signed: bool, field: &[u8]) -> Read<i128>
    requires { length field.now ≤ 10 }
    ensures reading { result ≡ field_reading padded signed field.now }
{
    let width = field.len() as u64;
    let Some((last, front)) = field.split_last() else {
        return Read::Soft(0, Cause::Invalid);
    };
    let Some(number) = pairs_and_digit(front, *last / 16) else {
        return Read::Soft(width, Cause::Invalid);
    };
    let sign = *last % 16;
    if !is_sign(signed, sign) {
        return Read::Soft(width, Cause::Invalid);
    }
    if pad_is_used(padded, field) {
        return Read::Soft(width, Cause::Range);
    }
    Read::Good(width, with_sign(sign, number))
}

/// Reads a packed decimal of so many digits: two in each byte, and in the last byte one and the sign, C for
/// plus, D for minus, F for none.
///
/// A number of digits that isn't from 1 to 18 is hard `BadParam`, fewer bytes than the field has hard
/// `Width`. A half byte that is no digit, or no sign, is soft `Invalid` over the field; `signed` allows the
/// sign D. An even number of digits has a 0 in front: another digit there is soft `Range` over the field.
pub fn read_packed(digits: i128, signed: bool, bytes: &[u8]) -> Read<i128>
    ensures reading { result ≡ packed_reading digits signed bytes.now }
{
    let Some(count) = digit_count(digits) else {
        return Read::Hard(Cause::BadParam);
    };
    let width = count / 2 + 1;
    if bytes.len() < width {
        return Read::Hard(Cause::Width);
    }
    let (field, _) = bytes.split_at(width);
    packed_field(count % 2 == 0, signed, field)
}

/// The bytes of a number's digits and a sign. In front of an even number of digits there is a 0.
fn packed_bytes(count: usize, number: u64, sign: u8) -> ArrayVec<u8, 10>
    requires digits { count ≤ 18 }
    requires fits { number < 10 ^ count }
    requires half { sign < 16 }
    ensures bytes { result.items ≡ joined (pad (is_padded count) ++ (last_digits count number ++ sign ∷ [])) }
{
    let pairs = count / 2;
    let mut bytes = ArrayVec::new();
    for done in 0..pairs {
        let place = 2 * (pairs - done);
        bytes.push(digit_at(number, place) * 16 + digit_at(number, place - 1));
    }
    bytes.push(digit_at(number, 0) * 16 + sign);
    bytes
}

/// The canonical packed spelling of a number: so many digits and the sign C, or D for a negative number,
/// where it is `signed`, and else F. `None` exactly where the number of digits isn't from 1 to 18, they
/// don't write the number, or a number without sign is negative.
pub fn spell_packed(digits: i128, signed: bool, v: i128) -> Option<ArrayVec<u8, 10>>
    ensures spelling { option_map (λ s. s.items) result ≡ packed_spelling digits signed v }
{
    let count = match digit_count(digits) {
        None => return None,
        Some(count) => count,
    };
    if !fits(count, signed, v) {
        return None;
    }
    let number = v.unsigned_abs() as u64;
    Some(packed_bytes(count, number, sign_of(signed, v)))
}
