ghost use Rattle.std.specs.Prelude.{◌≡◌, ◌||◌};
ghost use Rattle.pads_grammar.specs.declared.kind.Kind.TheVariants as kind;
ghost use Rattle.pads_grammar.specs.Grammar.{reads, token, begins};
ghost use Rattle.pads_grammar.specs.Kinds.{is};
ghost use Rattle.pads_grammar.specs.Reads.{Reads};
ghost use Rattle.pads_syntax_expr.specs.declared.level.Level.TheVariants as level_form;
ghost use Rattle.pads_syntax_expr.specs.Expressions.{means, operators, sign};

use crate::Level;
use pads_ast::UnaryOperator;
use pads_expr::BinOp;
use pads_grammar::{Cursor, Kind, Reading, Unexpected};
use pads_lex::Mark;
use pads_value::Refusal;

#[tactic(auto, using(pads_grammar::proofs::Leaves::leaves))]
fn one(cursor: &mut Cursor<'_>, mark: Mark, operator: BinOp) -> Reading<BinOp>
    ensures reads { Reads (reads (means mark operator) cursor.old) result cursor.new }
{
    match cursor.take(Kind::Mark(mark)) {
        Some(_) => Ok(operator),
        None => Err(Refusal::Fault(Unexpected)),
    }
}

fn product(cursor: &mut Cursor<'_>) -> Reading<BinOp>
    ensures reads { Reads (reads (operators level_form.Prod) cursor.old) result cursor.new }
{
    let next = cursor.peek();
    if next.is_mark(Mark::Star) {
        one(cursor, Mark::Star, BinOp::Mul)
    } else if next.is_mark(Mark::Slash) {
        one(cursor, Mark::Slash, BinOp::Div)
    } else {
        one(cursor, Mark::Percent, BinOp::Rem)
    }
}

fn summand(cursor: &mut Cursor<'_>) -> Reading<BinOp>
    ensures reads { Reads (reads (operators level_form.Sum) cursor.old) result cursor.new }
{
    if cursor.peek().is_mark(Mark::Plus) {
        one(cursor, Mark::Plus, BinOp::Add)
    } else {
        one(cursor, Mark::Minus, BinOp::Sub)
    }
}

fn relation(cursor: &mut Cursor<'_>) -> Reading<BinOp>
    ensures reads { Reads (reads (operators level_form.Rel) cursor.old) result cursor.new }
{
    let next = cursor.peek();
    if next.is_mark(Mark::LessThan) {
        one(cursor, Mark::LessThan, BinOp::Lt)
    } else if next.is_mark(Mark::AtMost) {
        one(cursor, Mark::AtMost, BinOp::Le)
    } else if next.is_mark(Mark::GreaterThan) {
        one(cursor, Mark::GreaterThan, BinOp::Gt)
    } else {
        one(cursor, Mark::AtLeast, BinOp::Ge)
    }
}

fn equation(cursor: &mut Cursor<'_>) -> Reading<BinOp>
    ensures reads { Reads (reads (operators level_form.Eq) cursor.old) result cursor.new }
{
    if cursor.peek().is_mark(Mark::EqualTo) {
        one(cursor, Mark::EqualTo, BinOp::Eq)
    } else {
        one(cursor, Mark::NotEqualTo, BinOp::Ne)
    }
}

/// An operator of the level.
pub fn operator(cursor: &mut Cursor<'_>, level: Level) -> Reading<BinOp>
    ensures reads { Reads (reads (operators level) cursor.old) result cursor.new }
{
    match level {
        Level::Unary | Level::Prod => product(cursor),
        Level::Sum => summand(cursor),
        Level::Rel => relation(cursor),
        Level::Eq => equation(cursor),
        Level::And => one(cursor, Mark::And, BinOp::And),
        Level::Or => one(cursor, Mark::Or, BinOp::Or),
    }
}

/// Whether a token of that kind is an operator of the level.
pub fn joins(kind: Kind, level: Level) -> bool
    ensures begins { result ≡ begins (operators level) kind }
{
    match level {
        Level::Unary | Level::Prod => {
            kind.is_mark(Mark::Star) || kind.is_mark(Mark::Slash) || kind.is_mark(Mark::Percent)
        }
        Level::Sum => kind.is_mark(Mark::Plus) || kind.is_mark(Mark::Minus),
        Level::Rel => {
            kind.is_mark(Mark::LessThan)
                || kind.is_mark(Mark::AtMost)
                || kind.is_mark(Mark::GreaterThan)
                || kind.is_mark(Mark::AtLeast)
        }
        Level::Eq => kind.is_mark(Mark::EqualTo) || kind.is_mark(Mark::NotEqualTo),
        Level::And => kind.is_mark(Mark::And),
        Level::Or => kind.is_mark(Mark::Or),
    }
}

#[tactic(auto, using(pads_grammar::proofs::Leaves::leaves))]
fn one_sign(
    cursor: &mut Cursor<'_>,
    mark: Mark,
    operator: UnaryOperator,
) -> Reading<(UnaryOperator, u64)>
    ensures reads { Reads (reads (token (kind.Mark mark) (λ t. (operator, t.begin))) cursor.old) result cursor.new }
{
    match cursor.take(Kind::Mark(mark)) {
        Some(token) => Ok((operator, token.begin)),
        None => Err(Refusal::Fault(Unexpected)),
    }
}

/// A sign, and its place.
pub fn sign(cursor: &mut Cursor<'_>) -> Reading<(UnaryOperator, u64)>
    ensures reads { Reads (reads sign cursor.old) result cursor.new }
{
    if cursor.peek().is_mark(Mark::Minus) {
        one_sign(cursor, Mark::Minus, UnaryOperator::Minus)
    } else {
        one_sign(cursor, Mark::Not, UnaryOperator::Not)
    }
}

/// Whether a token of that kind is a sign.
pub fn is_sign(kind: Kind) -> bool
    ensures begins { result ≡ begins sign kind }
{
    kind.is_mark(Mark::Minus) || kind.is_mark(Mark::Not)
}
