ghost use Rattle.std.specs.Prelude.{◌≡◌, ◌≤◌, ◌<◌, ◌^◌, length, option_map, IfSome};
ghost use Rattle.pads_decimal.specs.Digits.{last_digits};
ghost use Rattle.pads_decimal.specs.Numbers.{zoned_digit_of, zoned_number_of};
ghost use Rattle.pads_decimal.specs.Zoned.{zoned_field as field_reading, zoned_reading, zoned_spelling, in_zones, zones};

use crate::digits::{digit_at, digit_count, fits};
use crate::sign::{is_sign, sign_of, with_sign};
use arrayvec::ArrayVec;
use pads_value::{Cause, Read};

/// The high half of the byte of a digit, where the sign isn't there.
const ZONE: u8 = 0xF;

/// The digit in a byte with the zone F. `None` where it has another zone, or no digit.
fn zoned_digit(byte: u8) -> Option<u8>
    ensures digit { result ≡ zoned_digit_of byte }
    ensures small { IfSome result (λ d. d < 10) }
{
    let zone = byte / 16;
    let digit = byte % 16;
    if zone == ZONE && digit < 10 {
        Some(digit)
    } else {
        None
    }
}

/// The number of digits in their zones. `None` where a byte is no digit in the zone F.
fn zoned_number(bytes: &[u8]) -> Option<u64>
    requires { length bytes.now ≤ 17 }
    ensures number { result ≡ zoned_number_of bytes.now }
    ensures small { IfSome result (λ n. n < 10 ^ 17) }
{
    let mut number: u64 = 0;
    for byte in bytes {
        match zoned_digit(*byte) {
            None => return None,
            Some(digit) => number = number * 10 + u64::from(digit),
        }
    }
    Some(number)
}

/// Reads a whole field: digits in their zones, and in the last byte a digit and the sign.
fn zoned_field(signed: bool, field: &[u8]) -> Read<i128>
    requires { length field.now ≤ 18 }
    ensures reading { result ≡ field_reading signed field.now }
{
    let width = field.len() as u64;
    let Some((last, front)) = field.split_last() else {
        return Read::Soft(0, Cause::Invalid);
    };
    let Some(number) = zoned_number(front) else {
        return Read::Soft(width, Cause::Invalid);
    };
    let sign = *last / 16;
    let digit = *last % 16;
    if 10 <= digit {
        return Read::Soft(width, Cause::Invalid);
    }
    if !is_sign(signed, sign) {
        return Read::Soft(width, Cause::Invalid);
    }
    Read::Good(width, with_sign(sign, number * 10 + u64::from(digit)))
}

/// Reads a zoned decimal of so many digits: one in the low half of each byte, with the zone F in the high
/// half, and in the last byte the sign, C for plus, D for minus, F for none.
///
/// A number of digits that isn't from 1 to 18 is hard `BadParam`, fewer bytes than digits hard `Width`. A
/// half byte that is no digit, no zone or no sign is soft `Invalid` over the field; `signed` allows the sign
/// D.
pub fn read_zoned(digits: i128, signed: bool, bytes: &[u8]) -> Read<i128>
    ensures reading { result ≡ zoned_reading digits signed bytes.now }
{
    let Some(count) = digit_count(digits) else {
        return Read::Hard(Cause::BadParam);
    };
    if bytes.len() < count {
        return Read::Hard(Cause::Width);
    }
    let (field, _) = bytes.split_at(count);
    zoned_field(signed, field)
}

/// The bytes of a number's digits in the zone F, and in the last byte in that of the sign.
fn zoned_bytes(count: usize, number: u64, sign: u8) -> ArrayVec<u8, 18>
    requires some { 1 ≤ count }
    requires few { count ≤ 18 }
    requires half { sign < 16 }
    ensures bytes { result.items ≡ in_zones (zones count sign) (last_digits count number) }
{
    let last = count - 1;
    let mut bytes = ArrayVec::new();
    for done in 0..last {
        bytes.push(ZONE * 16 + digit_at(number, last - done));
    }
    bytes.push(sign * 16 + digit_at(number, 0));
    bytes
}

/// The canonical zoned spelling of a number: so many digits and the sign C, or D for a negative number,
/// where it is `signed`, and else F. `None` exactly where the number of digits isn't from 1 to 18, they
/// don't write the number, or a number without sign is negative.
pub fn spell_zoned(digits: i128, signed: bool, v: i128) -> Option<ArrayVec<u8, 18>>
    ensures spelling { option_map (λ s. s.items) result ≡ zoned_spelling digits signed v }
{
    let count = match digit_count(digits) {
        None => return None,
        Some(count) => count,
    };
    if !fits(count, signed, v) {
        return None;
    }
    let number = v.unsigned_abs() as u64;
    Some(zoned_bytes(count, number, sign_of(signed, v)))
}
