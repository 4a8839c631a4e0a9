ghost use Rattle.std.specs.Prelude.{◌≡◌};
ghost use Rattle.pads_grammar.specs.Grammar.{reads, begins, many};
ghost use Rattle.pads_grammar.specs.Reads.{Reads};
ghost use Rattle.pads_syntax_expr.specs.Expressions.{begins_expr, below, expr, level, unary, signed, posted, step, atom, field, index, paren, pis, plen, pforall, body, opened, branch_name, quantifier, link, operators};

use crate::Level;
use crate::leaf::{name, plain};
use crate::operator::{is_sign, joins, operator, sign};
use pads_ast::{Expr, Link, Links, Name, Step, Steps};
use pads_grammar::{Cursor, Kind, Reading};
use pads_lex::{Keyword, Mark};
use pads_value::Items;
use std::alloc::Global;

/// The levels of nesting that are left inside of what opens one; None where there is none to open.
fn below(depth: u64) -> Option<u64>
    ensures below { result ≡ below depth }
{
    depth.checked_sub(1)
}

/// An expression with at most that many levels of nesting.
pub fn expr(alloc: Global, cursor: &mut Cursor<'_>, depth: u64) -> Reading<Expr>
    ensures reads { Reads (reads (expr depth) cursor.old) result cursor.new }
{
    level(alloc, cursor, depth, Level::Or)
}

/// Whether a token of that kind begins an expression with a level of nesting.
pub fn begins_expr(kind: Kind) -> bool
    ensures begins { result ≡ begins_expr kind }
{
    is_sign(kind)
        || kind.is_mark(Mark::OpenParen)
        || kind.is_keyword(Keyword::Pis)
        || kind.is_keyword(Keyword::Plen)
        || kind.is_keyword(Keyword::Pforall)
        || Kind::Number.is(kind)
        || Kind::Char.is(kind)
        || Kind::Text.is(kind)
        || kind.is_keyword(Keyword::True)
        || kind.is_keyword(Keyword::False)
        || Kind::Name.is(kind)
}

/// An expression of that level.
#[cycle(expr)]
#[tactic(auto, using(crate::proofs::LevelLaws::levels))]
fn level(alloc: Global, cursor: &mut Cursor<'_>, depth: u64, of: Level) -> Reading<Expr>
    ensures reads { Reads (reads (level of (unary depth)) cursor.old) result cursor.new }
{
    let Some(part) = of.part() else {
        return unary(alloc, cursor, depth);
    };
    let first = level(alloc, cursor, depth, part)?;
    let rest = links(alloc, cursor, depth, of, part)?;
    Ok(Expr::chain(alloc, first, rest)?)
}

/// Any number of operators, each with its operand.
#[cycle(expr)]
#[tactic(auto, using(crate::proofs::LevelLaws::link_loop))]
fn links(
    alloc: Global,
    cursor: &mut Cursor<'_>,
    depth: u64,
    of: Level,
    part: Level,
) -> Reading<Links>
    ensures reads { Reads (reads (many (link (operators of) (level part (unary depth)))) cursor.old) result cursor.new }
{
    let mut rest = Items::new(alloc);
    'links: while joins(cursor.peek(), of) {
        rest.push(joined(alloc, cursor, depth, of, part)?)?;
    }
    Ok(rest)
}

/// An operator and its operand.
#[cycle(expr)]
fn joined(
    alloc: Global,
    cursor: &mut Cursor<'_>,
    depth: u64,
    of: Level,
    part: Level,
) -> Reading<Link<Expr>>
    ensures reads { Reads (reads (link (operators of) (level part (unary depth))) cursor.old) result cursor.new }
{
    let operator = operator(cursor, of)?;
    let operand = level(alloc, cursor, depth, part)?;
    Ok(Link { operator, operand })
}

#[cycle(expr)]
#[tactic(auto, using(crate::proofs::LevelLaws::unaries))]
fn unary(alloc: Global, cursor: &mut Cursor<'_>, depth: u64) -> Reading<Expr>
    ensures reads { Reads (reads (unary depth) cursor.old) result cursor.new }
{
    let Some(inner) = below(depth) else {
        return posted(alloc, cursor, None);
    };
    if is_sign(cursor.peek()) {
        signed(alloc, cursor, inner)
    } else {
        posted(alloc, cursor, Some(inner))
    }
}

#[cycle(expr)]
fn signed(alloc: Global, cursor: &mut Cursor<'_>, inner: u64) -> Reading<Expr>
    ensures reads { Reads (reads (signed (unary inner)) cursor.old) result cursor.new }
{
    let (operator, at) = sign(cursor)?;
    let operand = unary(alloc, cursor, inner)?;
    Ok(Expr::unary(alloc, operator, at, operand)?)
}

/// An atom and what stands behind it.
#[cycle(expr)]
fn posted(alloc: Global, cursor: &mut Cursor<'_>, inner: Option<u64>) -> Reading<Expr>
    ensures reads { Reads (reads (posted inner) cursor.old) result cursor.new }
{
    let base = atom(alloc, cursor, inner)?;
    let steps = steps(alloc, cursor, inner)?;
    Ok(Expr::post(alloc, base, steps)?)
}

/// Any number of steps.
#[cycle(expr)]
#[tactic(auto, using(crate::proofs::LevelLaws::step_loop))]
fn steps(alloc: Global, cursor: &mut Cursor<'_>, inner: Option<u64>) -> Reading<Steps>
    ensures reads { Reads (reads (many (step inner)) cursor.old) result cursor.new }
{
    let mut steps = Items::new(alloc);
    'steps: while begins_step(cursor.peek(), inner) {
        steps.push(step(alloc, cursor, inner)?)?;
    }
    Ok(steps)
}

/// Whether a token of that kind begins a step.
fn begins_step(kind: Kind, inner: Option<u64>) -> bool
    ensures begins { result ≡ begins (step inner) kind }
{
    match inner {
        Some(_) => kind.is_mark(Mark::OpenBracket) || kind.is_mark(Mark::Dot),
        None => kind.is_mark(Mark::Dot),
    }
}

#[cycle(expr)]
fn step(alloc: Global, cursor: &mut Cursor<'_>, inner: Option<u64>) -> Reading<Step<Expr>>
    ensures reads { Reads (reads (step inner) cursor.old) result cursor.new }
{
    let Some(inner) = inner else {
        return field(alloc, cursor);
    };
    if !cursor.peek().is_mark(Mark::OpenBracket) {
        return field(alloc, cursor);
    }
    let at = cursor.mark(Mark::OpenBracket)?;
    let index = level(alloc, cursor, inner, Level::Or)?;
    let _close = cursor.mark(Mark::CloseBracket)?;
    Ok(Step::Index { at, index })
}

/// `.` and a name.
fn field(alloc: Global, cursor: &mut Cursor<'_>) -> Reading<Step<Expr>>
    ensures reads { Reads (reads field cursor.old) result cursor.new }
{
    let _dot = cursor.mark(Mark::Dot)?;
    Ok(Step::Name(name(alloc, cursor)?))
}

#[cycle(expr)]
fn atom(alloc: Global, cursor: &mut Cursor<'_>, inner: Option<u64>) -> Reading<Expr>
    ensures reads { Reads (reads (atom inner) cursor.old) result cursor.new }
{
    let Some(inner) = inner else {
        return plain(alloc, cursor);
    };
    let next = cursor.peek();
    if next.is_mark(Mark::OpenParen) {
        paren(alloc, cursor, inner)
    } else if next.is_keyword(Keyword::Pis) {
        pis(alloc, cursor, inner)
    } else if next.is_keyword(Keyword::Plen) {
        plen(alloc, cursor, inner)
    } else if next.is_keyword(Keyword::Pforall) {
        pforall(alloc, cursor, inner)
    } else {
        plain(alloc, cursor)
    }
}

#[cycle(expr)]
fn paren(alloc: Global, cursor: &mut Cursor<'_>, inner: u64) -> Reading<Expr>
    ensures reads { Reads (reads (paren (expr inner)) cursor.old) result cursor.new }
{
    let at = cursor.mark(Mark::OpenParen)?;
    let value = level(alloc, cursor, inner, Level::Or)?;
    let _close = cursor.mark(Mark::CloseParen)?;
    Ok(Expr::paren(alloc, at, value)?)
}

#[cycle(expr)]
fn pis(alloc: Global, cursor: &mut Cursor<'_>, inner: u64) -> Reading<Expr>
    ensures reads { Reads (reads (pis (expr inner)) cursor.old) result cursor.new }
{
    let at = opened(cursor, Keyword::Pis)?;
    let value = level(alloc, cursor, inner, Level::Or)?;
    let name = branch_name(alloc, cursor)?;
    Ok(Expr::pis(alloc, at, value, name)?)
}

#[cycle(expr)]
fn plen(alloc: Global, cursor: &mut Cursor<'_>, inner: u64) -> Reading<Expr>
    ensures reads { Reads (reads (plen (expr inner)) cursor.old) result cursor.new }
{
    let at = opened(cursor, Keyword::Plen)?;
    let value = level(alloc, cursor, inner, Level::Or)?;
    let _close = cursor.mark(Mark::CloseParen)?;
    Ok(Expr::plen(alloc, at, value)?)
}

#[cycle(expr)]
fn pforall(alloc: Global, cursor: &mut Cursor<'_>, inner: u64) -> Reading<Expr>
    ensures reads { Reads (reads (pforall (expr inner)) cursor.old) result cursor.new }
{
    let (at, variable) = quantifier(alloc, cursor)?;
    let low = level(alloc, cursor, inner, Level::Or)?;
    let _dots = cursor.mark(Mark::DotDot)?;
    let high = level(alloc, cursor, inner, Level::Or)?;
    let body = body(alloc, cursor, inner)?;
    Ok(Expr::pforall(alloc, at, variable, low, high, body)?)
}

#[cycle(expr)]
fn body(alloc: Global, cursor: &mut Cursor<'_>, inner: u64) -> Reading<Expr>
    ensures reads { Reads (reads (body (expr inner)) cursor.old) result cursor.new }
{
    let _close = cursor.mark(Mark::CloseBracket)?;
    let _colon = cursor.mark(Mark::Colon)?;
    let body = level(alloc, cursor, inner, Level::Or)?;
    let _end = cursor.mark(Mark::CloseParen)?;
    Ok(body)
}

/// A keyword and the bracket behind it, by the place of the keyword.
pub fn opened(cursor: &mut Cursor<'_>, keyword: Keyword) -> Reading<u64>
    ensures reads { Reads (reads (opened keyword) cursor.old) result cursor.new }
{
    let at = cursor.keyword(keyword)?;
    let _open = cursor.mark(Mark::OpenParen)?;
    Ok(at)
}

/// `,` and a name, and the closing bracket.
fn branch_name(alloc: Global, cursor: &mut Cursor<'_>) -> Reading<Name>
    ensures reads { Reads (reads branch_name cursor.old) result cursor.new }
{
    let _comma = cursor.mark(Mark::Comma)?;
    let name = name(alloc, cursor)?;
    let _close = cursor.mark(Mark::CloseParen)?;
    Ok(name)
}

/// What stands before the bounds of a `Pforall`.
fn quantifier(alloc: Global, cursor: &mut Cursor<'_>) -> Reading<(u64, Name)>
    ensures reads { Reads (reads quantifier cursor.old) result cursor.new }
{
    let at = opened(cursor, Keyword::Pforall)?;
    let variable = name(alloc, cursor)?;
    let _in = cursor.keyword(Keyword::Pin)?;
    let _open = cursor.mark(Mark::OpenBracket)?;
    Ok((at, variable))
}
