//! Characters and texts between quotes.

ghost use Rattle.std.specs.Prelude.{◌≡◌, ◌<◌, ◌^◌, [], length, IfOk};
ghost use Rattle.pads_lex.specs.Steps.{closed_step, literal_step};
ghost use Rattle.pads_lex.specs.Literals.{IsWithin, escape, hex_character, escaped, character_at, literal_from};

use crate::byte::{digit_value, is_hex};
use crate::step::Step;
use crate::{LexKind, TokenKind};
use pads_value::{Bytes, Memory};
use std::alloc::Global;

/// What stands at one place inside a literal.
#[derive(Clone, Copy)]
enum Character {
    /// The closing quote.
    Close,
    /// A character: its code point, and how many bytes it is written with.
    Point(u8, usize),
    /// The end of the line or of the text.
    Open,
    /// No character.
    Fault(LexKind),
}

/// A literal, read from behind its opening quote.
#[derive(Drop)]
enum Literal {
    /// How many bytes it has, with its closing quote, and the code points of its characters.
    Closed(usize, Bytes),
    /// The line or the text ends before its closing quote.
    Open,
    /// What is no character, and how many bytes stand before it.
    Fault(LexKind, usize),
}

/// The code point of an escape of two bytes, by its second.
#[tactic(auto, unfolding(crate::specs::Literals::escape))]
fn escape(byte: u8) -> Option<u8>
    ensures found { result ≡ escape byte }
{
    match byte {
        b'n' => Some(b'\n'),
        b'r' => Some(b'\r'),
        b't' => Some(b'\t'),
        b'0' => Some(0),
        b'\\' => Some(b'\\'),
        b'\'' => Some(b'\''),
        b'"' => Some(b'"'),
        _ => None,
    }
}

/// The character that two digits of base 16 stand for.
#[tactic(auto, unfolding(crate::specs::Literals::hex_character))]
fn hex_character(high: u8, low: u8) -> Character
    ensures found { result ≡ hex_character high low }
{
    if is_hex(high) && is_hex(low) {
        Character::Point(digit_value(high) * 16 + digit_value(low), 4)
    } else {
        Character::Fault(LexKind::BadEscape)
    }
}

/// The character that a backslash and the bytes behind it stand for.
#[tactic(auto, unfolding(crate::specs::Literals::escaped))]
fn escaped(after: &[u8]) -> Character
    ensures found { result ≡ escaped after.now }
{
    match after {
        [b'x', high, low, ..] => hex_character(*high, *low),
        [byte, ..] => match escape(*byte) {
            Some(point) => Character::Point(point, 2),
            None => Character::Fault(LexKind::BadEscape),
        },
        [] => Character::Fault(LexKind::BadEscape),
    }
}

/// What stands at the front of a text inside a literal with this quote.
#[tactic(auto, unfolding(crate::specs::Literals::character_at))]
fn read_character(quote: u8, text: &[u8]) -> Character
    ensures found { result ≡ character_at quote text.now }
{
    let [first, after @ ..] = text else {
        return Character::Open;
    };
    let byte = *first;
    if byte == quote {
        return Character::Close;
    }
    if byte == b'\n' {
        return Character::Open;
    }
    if byte == b'\\' {
        return escaped(after);
    }
    if byte >= b' ' && byte <= b'~' {
        return Character::Point(byte, 1);
    }
    Character::Fault(LexKind::BadByte)
}

/// The literal whose bytes behind its opening quote these are.
fn read_literal(alloc: Global, quote: u8, text: &[u8]) -> Result<Literal, Memory>
    ensures found { IfOk result (λ found. found ≡ literal_from quote 0 0 [] text.now) }
    ensures within { IfOk result (λ found. IsWithin found (length text.now)) }
{
    let mut points = Bytes::new(alloc);
    let mut at = 0;
    'bytes: while at < text.len() {
        match read_character(quote, &text[at..]) {
            Character::Close => return Ok(Literal::Closed(at + 1, points)),
            Character::Open => return Ok(Literal::Open),
            Character::Fault(kind) => return Ok(Literal::Fault(kind, at)),
            Character::Point(point, length) => {
                points.push(point)?;
                at += length;
            }
        }
    }
    Ok(Literal::Open)
}

/// A literal that is closed, of so many bytes with its quotes.
#[tactic(auto, unfolding(crate::specs::Steps::closed_step))]
fn closed_step(quote: u8, size: usize, points: Bytes) -> Step
    ensures found { result ≡ closed_step quote size points }
{
    if quote == b'"' {
        return Step::Stands(size, TokenKind::Text(points));
    }
    match points.as_slice() {
        [point] => Step::Stands(size, TokenKind::Char(*point)),
        _ => Step::Fault(LexKind::BadChar, 0),
    }
}

/// The literal with this quote whose bytes behind its opening quote these are.
#[tactic(auto, unfolding(crate::specs::Steps::literal_step))]
pub(crate) fn literal_step(alloc: Global, quote: u8, after: &[u8]) -> Result<Step, Memory>
    ensures found { IfOk result (λ found. found ≡ literal_step quote after.now) }
{
    match read_literal(alloc, quote, after)? {
        Literal::Closed(size, points) => Ok(closed_step(quote, size + 1, points)),
        Literal::Open => Ok(Step::Fault(LexKind::OpenText, 0)),
        Literal::Fault(kind, at) => Ok(Step::Fault(kind, at + 1)),
    }
}
