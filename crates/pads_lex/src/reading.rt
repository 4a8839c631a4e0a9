//! What stands at the front of a text: a blank, a comment, a token, or what breaks the rules.

ghost use Rattle.std.specs.Prelude.{◌≡◌, IfOk};
ghost use Rattle.pads_lex.specs.Steps.{word_step, single_step, mark_step, token_step, step_of};

use crate::byte::{is_blank, is_digit, is_letter};
use crate::gap::comment;
use crate::literal::literal_step;
use crate::number::number_step;
use crate::run::Class;
use crate::step::Step;
use crate::words::{double_mark, keyword, single_mark};
use crate::{LexKind, TokenKind};
use pads_value::{Bytes, Memory};
use std::alloc::Global;

/// The name or keyword at the front.
#[tactic(auto, unfolding(crate::specs::Steps::word_step))]
fn word_step(alloc: Global, text: &[u8]) -> Result<Step, Memory>
    ensures found { IfOk result (λ found. found ≡ word_step text.now) }
{
    let size = Class::Word.run(text);
    let word = &text[..size];
    if let Some(keyword) = keyword(word) {
        return Ok(Step::Stands(size, TokenKind::Keyword(keyword)));
    }
    let name = Bytes::from_slice(alloc, word)?;
    Ok(Step::Stands(size, TokenKind::Name(name)))
}

/// The mark of one byte.
#[tactic(auto, unfolding(crate::specs::Steps::single_step))]
fn single_step(byte: u8) -> Step
    ensures found { result ≡ single_step byte }
{
    match single_mark(byte) {
        Some(mark) => Step::Stands(1, TokenKind::Mark(mark)),
        None => Step::Fault(LexKind::BadByte, 0),
    }
}

/// The longest mark at the front.
#[tactic(auto, unfolding(crate::specs::Steps::mark_step))]
fn mark_step(text: &[u8]) -> Step
    ensures found { result ≡ mark_step text.now }
{
    match text {
        [] => Step::Fault(LexKind::BadByte, 0),
        [first] => single_step(*first),
        [first, second, ..] => match double_mark(*first, *second) {
            Some(mark) => Step::Stands(2, TokenKind::Mark(mark)),
            None => single_step(*first),
        },
    }
}

/// The blank or the token at the front, where no comment begins.
#[tactic(auto, unfolding(crate::specs::Steps::token_step))]
fn token_step(alloc: Global, text: &[u8]) -> Result<Step, Memory>
    ensures found { IfOk result (λ found. found ≡ token_step text.now) }
{
    let [first, after @ ..] = text else {
        return Ok(Step::Fault(LexKind::BadByte, 0));
    };
    let byte = *first;
    if is_blank(byte) {
        return Ok(Step::Gap(1));
    }
    if is_letter(byte) {
        return word_step(alloc, text);
    }
    if is_digit(byte) {
        return Ok(number_step(text));
    }
    if byte == b'\'' || byte == b'"' {
        return literal_step(alloc, byte, after);
    }
    Ok(mark_step(text))
}

/// What stands at the front of a text that is not empty.
#[tactic(auto, unfolding(crate::specs::Steps::step_of))]
pub(crate) fn read_step(alloc: Global, text: &[u8]) -> Result<Step, Memory>
    ensures found { IfOk result (λ found. found ≡ step_of text.now) }
{
    if let Some(found) = comment(text) {
        return Ok(found);
    }
    token_step(alloc, text)
}
