//! The translation of arrays.
ghost use Rattle.std.specs.Prelude.{◌≡◌, IfOk};
ghost use Rattle.std.specs.Option.{option_copied, option_map};
ghost use Rattle.pads_trans.specs.Terms.{separator, terminator, last, first, separator_of, terminator_of, seq_of, array_of};
ghost use Rattle.pads_trans.specs.Expressions.{option_of};

use crate::types::{constrained, literal, text, type_term};
use crate::{Numbering, translate_expr, translate_option};
use pads_calc::{Seq, Term};
use pads_code::Coding;
use pads_expr::Expr;
use pads_resolution::{Array, ArrayOption, Expr as Tree, Literal};
use pads_value::{Boxed, Bytes, Memory};
use std::alloc::Global;

fn as_separator(option: &ArrayOption) -> Option<&Bytes>
    ensures separator { option_copied result ≡ separator option.now }
{
    match option {
        ArrayOption::Psep(points) => Some(points),
        ArrayOption::Pterm(_) => None,
        ArrayOption::Plast(_) => None,
    }
}

fn as_terminator(option: &ArrayOption) -> Option<&Literal>
    ensures terminator { option_copied result ≡ terminator option.now }
{
    match option {
        ArrayOption::Psep(_) => None,
        ArrayOption::Pterm(literal) => Some(literal),
        ArrayOption::Plast(_) => None,
    }
}

fn as_last(option: &ArrayOption) -> Option<&Tree>
    ensures last { option_copied result ≡ last option.now }
{
    match option {
        ArrayOption::Psep(_) => None,
        ArrayOption::Pterm(_) => None,
        ArrayOption::Plast(condition) => Some(condition),
    }
}

/// The first separator.
fn first_separator(options: &[ArrayOption]) -> Option<&Bytes>
    ensures first { option_copied result ≡ first separator options.now }
{
    for option in options {
        if let Some(points) = as_separator(option) {
            return Some(points);
        }
    }
    None
}

/// The first terminator.
fn first_terminator(options: &[ArrayOption]) -> Option<&Literal>
    ensures first { option_copied result ≡ first terminator options.now }
{
    for option in options {
        if let Some(literal) = as_terminator(option) {
            return Some(literal);
        }
    }
    None
}

/// The first condition of the last element.
fn first_last(options: &[ArrayOption]) -> Option<&Tree>
    ensures first { option_copied result ≡ first last options.now }
{
    for option in options {
        if let Some(condition) = as_last(option) {
            return Some(condition);
        }
    }
    None
}

/// A separator, whose value isn't kept.
fn separator_term(
    alloc: Global,
    ambient: Coding,
    options: &[ArrayOption],
) -> Result<Option<Term>, Memory>
    ensures separator { IfOk result (λ made. made ≡ separator_of ambient options.now) }
{
    let Some(points) = first_separator(options) else {
        return Ok(None);
    };
    let literal = Boxed::new(alloc, text(alloc, ambient, points)?)?;
    Ok(Some(Term::Absorb(literal)))
}

fn terminator_term(
    alloc: Global,
    ambient: Coding,
    options: &[ArrayOption],
) -> Result<Option<Term>, Memory>
    ensures terminator { IfOk result (λ made. made ≡ terminator_of ambient options.now) }
{
    match first_terminator(options) {
        None => Ok(None),
        Some(of) => Ok(Some(literal(alloc, ambient, of)?)),
    }
}

fn last_condition(
    alloc: Global,
    names: &Numbering,
    options: &[ArrayOption],
) -> Result<Option<Expr>, Memory>
    ensures last { IfOk result (λ made. made ≡ option_of names.now (first last options.now)) }
{
    match first_last(options) {
        None => Ok(None),
        Some(condition) => Ok(Some(translate_expr(alloc, names, condition)?)),
    }
}

#[tactic(auto, unfolding(crate::specs::Terms::seq_of))]
fn sequence(alloc: Global, names: &Numbering, ambient: Coding, body: &Array) -> Result<Seq, Memory>
    ensures made { IfOk result (λ made. made ≡ seq_of names.now ambient body.now) }
{
    let options = body.options.as_slice();
    Ok(Seq {
        elem: type_term(alloc, names, ambient, &body.of)?,
        sep: separator_term(alloc, ambient, options)?,
        size: translate_option(alloc, names, &body.size)?,
        last: last_condition(alloc, names, options)?,
        stop: terminator_term(alloc, ambient, options)?,
        elts: names.number(b"@"),
    })
}

#[tactic(auto, unfolding(crate::specs::Terms::array_of))]
pub(crate) fn array(
    alloc: Global,
    names: &Numbering,
    ambient: Coding,
    body: &Array,
) -> Result<Term, Memory>
    ensures made { IfOk result (λ made. made ≡ array_of names.now ambient body.now) }
{
    let elements = Boxed::new(alloc, sequence(alloc, names, ambient, body)?)?;
    constrained(alloc, names, Term::Seq(elements), b"@", &body.condition)
}
