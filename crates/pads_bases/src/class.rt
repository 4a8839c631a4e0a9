ghost use Rattle.std.specs.Prelude.{◌≡◌, ◌<◌, ◌≤◌, [], ◌∷◌, length, IfOk, IfSome, IfNone};
ghost use Rattle.std.specs.List.{prefix_len, list_all, list_any};
ghost use Rattle.pads_code.specs.CodePage.{points_of};
ghost use Rattle.pads_bases.specs.Classes.{intervals, opens_interval, is_interval, lies_in, is_class as is_class_of, has_point as point_in, class_has, class_reading};

use crate::text::read_all;
use pads_code::{Coding, decode};
use pads_value::{Bytes, Cause, Memory, Read};
use std::alloc::Global;

/// Whether the class text begins with an interval such as `a-z`.
fn starts_interval(class: &[u8]) -> bool
    ensures interval { result ≡ opens_interval class.now }
{
    class.len() >= 3 && class[1] == b'-'
}

/// The first interval of a class text, and the text behind it.
fn next_interval(class: &[u8]) -> Option<(u8, u8, &[u8])>
    ensures first { IfSome result (λ i. intervals class.now ≡ record { low = i.0; high = i.1 } ∷ intervals i.2.now) }
    ensures shorter { IfSome result (λ i. length i.2.now < length class.now) }
    ensures empty { IfNone result (class.now ≡ []) }
{
    if starts_interval(class) {
        let (_, rest) = class.split_at(3);
        return Some((class[0], class[2], rest));
    }
    if class.is_empty() {
        return None;
    }
    let (_, rest) = class.split_at(1);
    Some((class[0], class[0], rest))
}

/// Whether the class text is well formed: not empty, and no interval ends before it begins.
fn is_class(class: &[u8]) -> bool
    ensures class { result ≡ is_class_of class.now }
{
    !class.is_empty() && intervals_are_ordered(class)
}

/// Whether no interval ends before it begins.
fn intervals_are_ordered(class: &[u8]) -> bool
    ensures ordered { result ≡ list_all is_interval (intervals class.now) }
{
    let mut left = class;
    'parts: while let Some((low, high, rest)) = next_interval(left) {
        if high < low {
            return false;
        }
        left = rest;
    }
    true
}

/// Whether the code point lies in one of the intervals.
fn has_point(class: &[u8], point: u8) -> bool
    ensures has { result ≡ point_in class.now point }
{
    let mut left = class;
    'parts: while let Some((low, high, rest)) = next_interval(left) {
        if low <= point && point <= high {
            return true;
        }
        left = rest;
    }
    false
}

/// Whether a class has a code point; `None` exactly where the class text is malformed or empty.
///
/// A class text is read from the left: three code points `a`, `-`, `b` are all from `a` to `b`, and any
/// other code point is itself. An interval that ends before it begins makes the text malformed.
pub fn in_class(class: &[u8], point: u8) -> Option<bool>
    ensures class { result ≡ class_has class.now point }
{
    if is_class(class) {
        Some(has_point(class, point))
    } else {
        None
    }
}

/// The length of the longest run of code points in the class.
pub(crate) fn class_run(coding: Coding, class: &[u8], bytes: &[u8]) -> usize
    ensures run { result ≡ prefix_len (point_in class.now) (points_of coding bytes.now) }
    ensures within { result ≤ length bytes.now }
{
    for (place, byte) in bytes.iter().enumerate() {
        if !has_point(class, decode(coding, *byte)) {
            return place;
        }
    }
    bytes.len()
}

/// Reads the longest run of code points in the class. A malformed or empty class is hard `BadParam`, no
/// code point in the class hard `Invalid`.
pub fn read_class(
    alloc: Global,
    coding: Coding,
    class: &[u8],
    bytes: &[u8],
) -> Result<Read<Bytes>, Memory>
    ensures reading { IfOk result (λ r. r ≡ class_reading coding class.now bytes.now) }
{
    if !is_class(class) {
        return Ok(Read::Hard(Cause::BadParam));
    }
    let (text, _) = bytes.split_at(class_run(coding, class, bytes));
    if text.is_empty() {
        return Ok(Read::Hard(Cause::Invalid));
    }
    read_all(alloc, coding, text)
}
