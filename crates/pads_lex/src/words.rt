//! Keywords and marks.

ghost use Rattle.std.specs.Prelude.{◌≡◌};
ghost use Rattle.pads_lex.specs.Words.{declaration_words, part_words, expression_words, keyword_of, double_mark, single_mark};
ghost use Rattle.pads_value.specs.Words.{find_word};

use crate::{Keyword, Mark};
use pads_value::is_word;

fn declaration_word(word: &[u8]) -> Option<Keyword>
    ensures found { result ≡ find_word word.now declaration_words }
{
    if is_word(word, b"Pstruct") {
        return Some(Keyword::Pstruct);
    }
    if is_word(word, b"Punion") {
        return Some(Keyword::Punion);
    }
    if is_word(word, b"Parray") {
        return Some(Keyword::Parray);
    }
    if is_word(word, b"Penum") {
        return Some(Keyword::Penum);
    }
    if is_word(word, b"Popt") {
        return Some(Keyword::Popt);
    }
    if is_word(word, b"Ptypedef") {
        return Some(Keyword::Ptypedef);
    }
    if is_word(word, b"Precord") {
        return Some(Keyword::Precord);
    }
    if is_word(word, b"Psource") {
        return Some(Keyword::Psource);
    }
    if is_word(word, b"Precursive") {
        return Some(Keyword::Precursive);
    }
    None
}

fn part_word(word: &[u8]) -> Option<Keyword>
    ensures found { result ≡ find_word word.now part_words }
{
    if is_word(word, b"Pswitch") {
        return Some(Keyword::Pswitch);
    }
    if is_word(word, b"Pcase") {
        return Some(Keyword::Pcase);
    }
    if is_word(word, b"Pdefault") {
        return Some(Keyword::Pdefault);
    }
    if is_word(word, b"Pwhere") {
        return Some(Keyword::Pwhere);
    }
    if is_word(word, b"Psep") {
        return Some(Keyword::Psep);
    }
    if is_word(word, b"Pterm") {
        return Some(Keyword::Pterm);
    }
    if is_word(word, b"Plast") {
        return Some(Keyword::Plast);
    }
    if is_word(word, b"Peor") {
        return Some(Keyword::Peor);
    }
    None
}

fn expression_word(word: &[u8]) -> Option<Keyword>
    ensures found { result ≡ find_word word.now expression_words }
{
    if is_word(word, b"Pforall") {
        return Some(Keyword::Pforall);
    }
    if is_word(word, b"Pin") {
        return Some(Keyword::Pin);
    }
    if is_word(word, b"Pcompute") {
        return Some(Keyword::Pcompute);
    }
    if is_word(word, b"Pfrom") {
        return Some(Keyword::Pfrom);
    }
    if is_word(word, b"Pis") {
        return Some(Keyword::Pis);
    }
    if is_word(word, b"Plen") {
        return Some(Keyword::Plen);
    }
    if is_word(word, b"true") {
        return Some(Keyword::True);
    }
    if is_word(word, b"false") {
        return Some(Keyword::False);
    }
    None
}

/// The keyword that a word is.
#[tactic(auto, unfolding(crate::specs::Words::keyword_of))]
pub(crate) fn keyword(word: &[u8]) -> Option<Keyword>
    ensures found { result ≡ keyword_of word.now }
{
    if let Some(keyword) = declaration_word(word) {
        return Some(keyword);
    }
    if let Some(keyword) = part_word(word) {
        return Some(keyword);
    }
    expression_word(word)
}

/// The mark of two bytes that they spell.
#[tactic(auto, unfolding(crate::specs::Words::double_mark, pads_value::specs::Words::is_word))]
pub(crate) fn double_mark(first: u8, second: u8) -> Option<Mark>
    ensures found { result ≡ double_mark first second }
{
    match (first, second) {
        (b'(', b':') => Some(Mark::OpenParams),
        (b':', b')') => Some(Mark::CloseParams),
        (b'.', b'.') => Some(Mark::DotDot),
        (b'=', b'=') => Some(Mark::EqualTo),
        (b'=', b'>') => Some(Mark::Arrow),
        (b'!', b'=') => Some(Mark::NotEqualTo),
        (b'<', b'=') => Some(Mark::AtMost),
        (b'>', b'=') => Some(Mark::AtLeast),
        (b'&', b'&') => Some(Mark::And),
        (b'|', b'|') => Some(Mark::Or),
        _ => None,
    }
}

/// The mark of one byte.
#[tactic(auto, unfolding(crate::specs::Words::single_mark, pads_value::specs::Words::is_word))]
pub(crate) fn single_mark(byte: u8) -> Option<Mark>
    ensures found { result ≡ single_mark byte }
{
    match byte {
        b'{' => Some(Mark::OpenBrace),
        b'}' => Some(Mark::CloseBrace),
        b'[' => Some(Mark::OpenBracket),
        b']' => Some(Mark::CloseBracket),
        b'(' => Some(Mark::OpenParen),
        b')' => Some(Mark::CloseParen),
        b';' => Some(Mark::Semicolon),
        b',' => Some(Mark::Comma),
        b':' => Some(Mark::Colon),
        b'.' => Some(Mark::Dot),
        b'=' => Some(Mark::Equals),
        b'!' => Some(Mark::Not),
        b'<' => Some(Mark::LessThan),
        b'>' => Some(Mark::GreaterThan),
        b'+' => Some(Mark::Plus),
        b'-' => Some(Mark::Minus),
        b'*' => Some(Mark::Star),
        b'/' => Some(Mark::Slash),
        b'%' => Some(Mark::Percent),
        b'$' => Some(Mark::Dollar),
        _ => None,
    }
}
