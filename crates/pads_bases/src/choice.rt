ghost use Rattle.std.specs.Prelude.{◌≡◌, ◌≤◌, ◌<◌, ◌+◌, if◌then◌else◌, length};
ghost use Rattle.pads_code.specs.CodePage.{points_of};
ghost use Rattle.pads_bases.specs.Enums.{begins, choice, merged, enum_reading};

use crate::enums::{Choice, Label, Labels};
use pads_code::{Coding, decode};
use pads_value::{Cause, Read};

/// Whether the text begins with the spelling.
fn begins_with(coding: Coding, spelling: &[u8], bytes: &[u8]) -> bool
    ensures begins { result ≡ begins spelling.now (points_of coding bytes.now) }
{
    if bytes.len() < spelling.len() {
        return false;
    }
    for (place, point) in spelling.iter().enumerate() {
        if decode(coding, bytes[place]) != *point {
            return false;
        }
    }
    true
}

/// The earlier of two choices, or the later where its spelling is longer.
fn better(best: Option<Choice>, later: Choice) -> Option<Choice>
    ensures better { result ≡ merged best (Some later) }
{
    match best {
        None => Some(later),
        Some(this) => {
            if this.size < later.size {
                Some(later)
            } else {
                Some(this)
            }
        }
    }
}

/// The choice so far, with one more label considered.
fn reconsidered(
    coding: Coding,
    best: Option<Choice>,
    number: u16,
    label: &Label,
    bytes: &[u8],
) -> Option<Choice>
    ensures choice { result ≡ (if begins label.now.spelling (points_of coding bytes.now)
        then merged best (Some (record { number = number; size = length label.now.spelling })) else best) }
{
    if begins_with(coding, label.spelling.as_slice(), bytes) {
        let size = label.spelling.len();
        better(best, Choice { number, size })
    } else {
        best
    }
}

/// The first label whose spelling is the longest that begins the text.
fn choose(coding: Coding, labels: &[Label], bytes: &[u8]) -> Option<Choice>
    requires { length labels.now ≤ 65535 }
    ensures choice { result ≡ choice 0 labels.now (points_of coding bytes.now) }
{
    let mut best = None;
    for (number, label) in labels.iter().enumerate() {
        best = reconsidered(coding, best, number as u16, label, bytes);
    }
    best
}

/// Reads the longest spelling that begins the text, as its label's number; of equal spellings the first
/// label's. Where no spelling begins it, it is hard `Enum`.
#[tactic(auto, unfolding(crate::specs::Enums::enum_reading))]
pub fn read_enum(coding: Coding, labels: &Labels, bytes: &[u8]) -> Read<u16>
    requires { length labels.now ≤ 65535 }
    ensures reading { result ≡ enum_reading coding labels.now bytes.now }
{
    match choose(coding, labels.as_slice(), bytes) {
        None => Read::Hard(Cause::Enum),
        Some(found) => Read::Good(found.size, found.number),
    }
}
