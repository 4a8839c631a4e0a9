ghost use Rattle.std.specs.Prelude.{◌≡◌, true, false};
ghost use Rattle.pads_lex.specs.declared.token.Keyword.TheVariants.{False, True};
ghost use Rattle.pads_grammar.specs.declared.kind.Kind.TheVariants as kind;
ghost use Rattle.pads_grammar.specs.Grammar.{reads, token, apply};
ghost use Rattle.pads_grammar.specs.Reads.{Reads};
ghost use Rattle.pads_ast.specs.declared.name.Word.TheVariants as word_form;
ghost use Rattle.pads_ast.specs.declared.expr.Expr.TheVariants as expr_form;
ghost use Rattle.pads_syntax_expr.specs.Leaves.{name, number, word, point_of, text_of};
ghost use Rattle.pads_syntax_expr.specs.Expressions.{plain};

use pads_ast::{Expr, Name, Number, Word};
use pads_grammar::{Cursor, Kind, Reading, Unexpected};
use pads_lex::{Keyword, TokenKind};
use pads_value::{Items, Refusal};
use std::alloc::Global;

/// A name and its place.
#[tactic(auto, using(pads_grammar::proofs::Leaves::leaves))]
pub fn name(alloc: Global, cursor: &mut Cursor<'_>) -> Reading<Name>
    ensures reads { Reads (reads name cursor.old) result cursor.new }
{
    match cursor.take(Kind::Name) {
        Some(token) => match &token.kind {
            TokenKind::Name(text) => Ok(Name {
                text: Items::from_slice(alloc, text.as_slice())?,
                at: token.begin,
            }),
            _ => Err(Refusal::Fault(Unexpected)),
        },
        None => Err(Refusal::Fault(Unexpected)),
    }
}

#[tactic(auto, using(pads_grammar::proofs::Leaves::leaves))]
fn character(cursor: &mut Cursor<'_>) -> Reading<Word>
    ensures reads { Reads (reads (token kind.Char (λ t. word_form.Char (point_of t.kind) t.begin)) cursor.old) result cursor.new }
{
    match cursor.take(Kind::Char) {
        Some(token) => match &token.kind {
            TokenKind::Char(point) => Ok(Word::Char {
                point: *point,
                at: token.begin,
            }),
            _ => Err(Refusal::Fault(Unexpected)),
        },
        None => Err(Refusal::Fault(Unexpected)),
    }
}

#[tactic(auto, using(pads_grammar::proofs::Leaves::leaves))]
fn text(alloc: Global, cursor: &mut Cursor<'_>) -> Reading<Word>
    ensures reads { Reads (reads (token kind.Text (λ t. word_form.Text (text_of t.kind) t.begin)) cursor.old) result cursor.new }
{
    match cursor.take(Kind::Text) {
        Some(token) => match &token.kind {
            TokenKind::Text(points) => Ok(Word::Text {
                points: Items::from_slice(alloc, points.as_slice())?,
                at: token.begin,
            }),
            _ => Err(Refusal::Fault(Unexpected)),
        },
        None => Err(Refusal::Fault(Unexpected)),
    }
}

/// A character or a text, and its place.
pub fn word(alloc: Global, cursor: &mut Cursor<'_>) -> Reading<Word>
    ensures reads { Reads (reads word cursor.old) result cursor.new }
{
    if Kind::Char.is(cursor.peek()) {
        character(cursor)
    } else {
        text(alloc, cursor)
    }
}

/// A number and its place.
#[tactic(auto, using(pads_grammar::proofs::Leaves::leaves))]
pub fn number(cursor: &mut Cursor<'_>) -> Reading<(Number, u64)>
    ensures reads { Reads (reads number cursor.old) result cursor.new }
{
    match cursor.take(Kind::Number) {
        Some(token) => match &token.kind {
            TokenKind::Number(value) if *value >= 0 => Ok((Number::new(*value), token.begin)),
            _ => Err(Refusal::Fault(Unexpected)),
        },
        None => Err(Refusal::Fault(Unexpected)),
    }
}

fn number_expr(cursor: &mut Cursor<'_>) -> Reading<Expr>
    ensures reads { Reads (reads (apply (λ found. expr_form.Number found.0 found.1) number) cursor.old) result cursor.new }
{
    let (value, at) = number(cursor)?;
    Ok(Expr::Number { value, at })
}

fn truth(cursor: &mut Cursor<'_>) -> Reading<Expr>
    ensures reads { Reads (reads (token (kind.Keyword True) (λ t. expr_form.Truth true t.begin)) cursor.old) result cursor.new }
{
    let at = cursor.keyword(Keyword::True)?;
    Ok(Expr::Truth { value: true, at })
}

fn falsehood(cursor: &mut Cursor<'_>) -> Reading<Expr>
    ensures reads { Reads (reads (token (kind.Keyword False) (λ t. expr_form.Truth false t.begin)) cursor.old) result cursor.new }
{
    let at = cursor.keyword(Keyword::False)?;
    Ok(Expr::Truth { value: false, at })
}

fn word_expr(alloc: Global, cursor: &mut Cursor<'_>) -> Reading<Expr>
    ensures reads { Reads (reads (apply expr_form.Word word) cursor.old) result cursor.new }
{
    Ok(Expr::Word(word(alloc, cursor)?))
}

fn name_expr(alloc: Global, cursor: &mut Cursor<'_>) -> Reading<Expr>
    ensures reads { Reads (reads (apply expr_form.Name name) cursor.old) result cursor.new }
{
    Ok(Expr::Name(name(alloc, cursor)?))
}

/// An atom that opens no level of nesting.
pub fn plain(alloc: Global, cursor: &mut Cursor<'_>) -> Reading<Expr>
    ensures reads { Reads (reads plain cursor.old) result cursor.new }
{
    let next = cursor.peek();
    if Kind::Number.is(next) {
        number_expr(cursor)
    } else if Kind::Char.is(next) || Kind::Text.is(next) {
        word_expr(alloc, cursor)
    } else if next.is_keyword(Keyword::True) {
        truth(cursor)
    } else if next.is_keyword(Keyword::False) {
        falsehood(cursor)
    } else {
        name_expr(alloc, cursor)
    }
}
