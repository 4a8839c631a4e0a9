ghost use Rattle.std.specs.Prelude.{◌≡◌, ◌≤◌, ◌<◌, ◌+◌, ◌*◌, ◌^◌, length, min, option_map, IfSome};
ghost use Rattle.std.specs.Char.{is_ascii_digit};
ghost use Rattle.std.specs.List.{prefix_len};
ghost use Rattle.pads_code.specs.CodePage.{points_of};
ghost use Rattle.pads_code.specs.Numerals.{number};
ghost use Rattle.pads_bases.specs.Addresses.{octet, next_octet, behind_dot, address, ip_reading};
ghost use Rattle.pads_bases.specs.Seen.{seen};

use crate::class::class_run;
use pads_code::{Coding, decode};
use pads_value::{Cause, Read};

/// A number that was read, and the bytes behind it.
#[derive(Clone, Copy)]
struct Found<'a> {
    number: u32,
    rest: &'a [u8],
}

/// How many bytes the longest run of digits in front takes.
fn digit_run(coding: Coding, bytes: &[u8]) -> usize
    ensures run { result ≡ prefix_len is_ascii_digit (points_of coding bytes.now) }
    ensures within { result ≤ length bytes.now }
{
    class_run(coding, b"0-9", bytes)
}

/// The decimal number of the digits, or 256 where it is more.
fn number_of(coding: Coding, digits: &[u8]) -> u32
    ensures number { result ≡ min (number (points_of coding digits.now)) 256 }
{
    let mut number: u32 = 0;
    for byte in digits {
        let digit = decode(coding, *byte).saturating_sub(b'0');
        number = (number * 10 + u32::from(digit)).min(256);
    }
    number
}

/// The octet in front: a longest run of 1 to 3 digits, and at most 255.
fn read_octet(coding: Coding, bytes: &[u8]) -> Option<Found<'_>>
    ensures octet { option_map (seen coding) result ≡ octet (points_of coding bytes.now) }
    ensures small { IfSome result (λ found. found.number ≤ 255) }
    ensures within { IfSome result (λ found. length found.rest.now ≤ length bytes.now) }
{
    let (digits, rest) = bytes.split_at(digit_run(coding, bytes));
    if digits.is_empty() {
        return None;
    }
    let number = number_of(coding, digits);
    if digits.len() > 3 {
        return None;
    }
    if number > 255 {
        return None;
    }
    Some(Found { number, rest })
}

/// The bytes behind a `.` in front.
fn skip_dot(coding: Coding, bytes: &[u8]) -> Option<&[u8]>
    ensures dot { option_map (λ rest. points_of coding rest.now) result ≡ behind_dot (points_of coding bytes.now) }
    ensures within { IfSome result (λ rest. length rest.now ≤ length bytes.now) }
{
    let (first, rest) = bytes.split_first()?;
    if decode(coding, *first) == b'.' {
        Some(rest)
    } else {
        None
    }
}

/// The number `front` with one more octet, behind a `.` in front of the bytes.
fn read_next(coding: Coding, front: u32, bytes: &[u8]) -> Option<Found<'_>>
    requires { front < 2 ^ 24 }
    ensures next { option_map (seen coding) result ≡ next_octet (record { number = front; rest = points_of coding bytes.now }) }
    ensures small { IfSome result (λ found. found.number < (front + 1) * 256) }
    ensures within { IfSome result (λ found. length found.rest.now ≤ length bytes.now) }
{
    let rest = match skip_dot(coding, bytes) {
        None => return None,
        Some(rest) => rest,
    };
    match read_octet(coding, rest) {
        None => None,
        Some(octet) => Some(Found {
            number: front * 256 + octet.number,
            rest: octet.rest,
        }),
    }
}

/// Four octets with `.` between them.
fn read_address(coding: Coding, bytes: &[u8]) -> Option<Found<'_>>
    ensures address { option_map (seen coding) result ≡ address (points_of coding bytes.now) }
    ensures within { IfSome result (λ found. length found.rest.now ≤ length bytes.now) }
{
    let one = match read_octet(coding, bytes) {
        None => return None,
        Some(found) => found,
    };
    let two = match read_next(coding, one.number, one.rest) {
        None => return None,
        Some(found) => found,
    };
    match read_next(coding, two.number, two.rest) {
        None => None,
        Some(three) => read_next(coding, three.number, three.rest),
    }
}

/// Reads an IP address of version 4: four longest runs of digits with `.` between them, each of 1 to 3
/// digits and at most 255. Else it is hard `Invalid`.
pub fn read_ip(coding: Coding, bytes: &[u8]) -> Read<i128>
    ensures reading { result ≡ ip_reading coding bytes.now }
{
    match read_address(coding, bytes) {
        None => Read::Hard(Cause::Invalid),
        Some(found) => {
            let size = bytes.len() - found.rest.len();
            Read::Good(size as u64, i128::from(found.number))
        }
    }
}
