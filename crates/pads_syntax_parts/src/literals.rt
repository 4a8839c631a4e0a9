ghost use Rattle.std.specs.Prelude.{◌≡◌};
ghost use Rattle.pads_lex.specs.declared.token.Keyword.TheVariants.{Peor};
ghost use Rattle.pads_grammar.specs.declared.kind.Kind.TheVariants as kind;
ghost use Rattle.pads_grammar.specs.Grammar.{reads, begins, apply, token};
ghost use Rattle.pads_grammar.specs.Reads.{Reads};
ghost use Rattle.pads_ast.specs.declared.types.Literal.TheVariants as literal_form;
ghost use Rattle.pads_ast.specs.declared.types.Const.TheVariants as const_form;
ghost use Rattle.pads_syntax_expr.specs.Leaves.{word};
ghost use Rattle.pads_syntax_parts.specs.Types.{literal, number_const, constant, is_negative, first_place};

use crate::marks::optional_mark;
use pads_ast::{Const, Literal};
use pads_grammar::{Cursor, Kind, Reading};
use pads_lex::{Keyword, Mark};
use pads_syntax_expr::{number, word};
use std::alloc::Global;

/// A text, a character or the end of a record.
#[tactic(auto, unfolding(crate::specs::Types::literal))]
pub fn literal(alloc: Global, cursor: &mut Cursor<'_>) -> Reading<Literal>
    ensures reads { Reads (reads literal cursor.old) result cursor.new }
{
    let next = cursor.peek();
    if Kind::Char.is(next) || Kind::Text.is(next) {
        Ok(Literal::Word(word(alloc, cursor)?))
    } else {
        record_end(cursor)
    }
}

fn record_end(cursor: &mut Cursor<'_>) -> Reading<Literal>
    ensures reads { Reads (reads (token (kind.Keyword Peor) (λ t. literal_form.Peor t.begin)) cursor.old) result cursor.new }
{
    let at = cursor.keyword(Keyword::Peor)?;
    Ok(Literal::Peor { at })
}

/// A number, maybe behind a sign.
fn number_const(cursor: &mut Cursor<'_>) -> Reading<Const>
    ensures reads { Reads (reads number_const cursor.old) result cursor.new }
{
    let sign = optional_mark(cursor, Mark::Minus)?;
    let (value, place) = number(cursor)?;
    Ok(Const::Number {
        negative: is_negative(sign),
        value,
        at: first_place(sign, place),
    })
}

fn is_negative(sign: Option<u64>) -> bool
    ensures negative { result ≡ is_negative sign }
{
    sign.is_some()
}

/// Where a number with its sign begins.
fn first_place(sign: Option<u64>, place: u64) -> u64
    ensures place { result ≡ first_place sign place }
{
    match sign {
        Some(at) => at,
        None => place,
    }
}

fn word_const(alloc: Global, cursor: &mut Cursor<'_>) -> Reading<Const>
    ensures reads { Reads (reads (apply const_form.Word word) cursor.old) result cursor.new }
{
    Ok(Const::Word(word(alloc, cursor)?))
}

/// What a case compares with.
#[tactic(auto, unfolding(crate::specs::Types::constant))]
pub fn constant(alloc: Global, cursor: &mut Cursor<'_>) -> Reading<Const>
    ensures reads { Reads (reads constant cursor.old) result cursor.new }
{
    let next = cursor.peek();
    if next.is_mark(Mark::Minus) || Kind::Number.is(next) {
        number_const(cursor)
    } else {
        word_const(alloc, cursor)
    }
}
