//! Numbers, in base 10 and in base 16 behind `0x`.

ghost use Rattle.std.specs.Prelude.{◌≡◌, ◌<◌, ◌≤◌, ◌^◌, length, IfSome};
ghost use Rattle.pads_lex.specs.Numbers.{value, in_range, number_limit, with_digit, hex_length, capped, number_size, word_value};
ghost use Rattle.pads_lex.specs.Cut.{goes_on};
ghost use Rattle.pads_lex.specs.Steps.{number_step};

use crate::byte::{digit_value, is_word_byte};
use crate::run::Class;
use crate::step::Step;
use crate::{LexKind, TokenKind};

/// The largest number that a token carries, 2^127 - 1.
const LIMIT: u128 = 0x7FFF_FFFF_FFFF_FFFF_FFFF_FFFF_FFFF_FFFF;

/// A digit more behind a number, where what they write is within the limit.
#[tactic(auto, unfolding(crate::specs::Numbers::capped))]
fn with_digit(base: u8, number: u128, digit: u8) -> Option<u128>
    ensures value { result ≡ capped (with_digit base number digit) }
{
    let Some(shifted) = number.checked_mul(u128::from(base)) else {
        return None;
    };
    let Some(sum) = shifted.checked_add(u128::from(digit_value(digit))) else {
        return None;
    };
    if sum <= LIMIT { Some(sum) } else { None }
}

/// The number that digits write, where it is within the limit.
fn value(base: u8, digits: &[u8]) -> Option<i128>
    requires positive { 0 < base }
    ensures value { result ≡ in_range (value base digits.now) }
{
    let mut number = 0;
    'digits: for digit in digits {
        let Some(more) = with_digit(base, number, *digit) else {
            return None;
        };
        number = more;
    }
    Some(number as i128)
}

/// How many bytes after a first `0` belong to it.
#[tactic(auto, unfolding(crate::specs::Numbers::hex_length))]
fn hex_length(after: &[u8]) -> usize
    ensures length { result ≡ hex_length after.now }
    ensures within { result ≤ length after.now }
{
    match after {
        [b'x', digits @ ..] => {
            let count = Class::Hex.run(digits);
            if count == 0 { 0 } else { count + 1 }
        }
        _ => 0,
    }
}

/// How many bytes the number at the front of a text has.
#[tactic(auto, unfolding(crate::specs::Numbers::number_size))]
fn number_size(text: &[u8]) -> usize
    ensures size { result ≡ number_size text.now }
    ensures within { result ≤ length text.now }
{
    match text {
        [b'0', after @ ..] => hex_length(after) + 1,
        _ => Class::Digit.run(text),
    }
}

/// The number that a whole word writes, where it is within the limit.
#[tactic(auto, unfolding(crate::specs::Numbers::word_value))]
fn word_value(word: &[u8]) -> Option<i128>
    ensures value { result ≡ in_range (word_value word.now) }
{
    match word {
        [b'0', b'x', digits @ ..] => value(16, digits),
        _ => value(10, word),
    }
}

/// Whether a letter, a digit or `_` stands at the front of a text.
fn goes_on(text: &[u8]) -> bool
    ensures found { result ≡ goes_on text.now }
{
    match text {
        [byte, ..] => is_word_byte(*byte),
        [] => false,
    }
}

/// The number at the front of a text that begins with a digit.
#[tactic(auto, unfolding(crate::specs::Steps::number_step))]
pub(crate) fn number_step(text: &[u8]) -> Step
    ensures found { result ≡ number_step text.now }
{
    let size = number_size(text);
    if goes_on(&text[size..]) {
        return Step::Fault(LexKind::BadNumber, 0);
    }
    match word_value(&text[..size]) {
        Some(number) => Step::Stands(size, TokenKind::Number(number)),
        None => Step::Fault(LexKind::NumberTooWide, 0),
    }
}
