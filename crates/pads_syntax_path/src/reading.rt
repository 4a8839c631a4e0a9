ghost use Rattle.std.specs.Prelude.{◌≡◌, ◌++◌, Ok};
ghost use Rattle.pads_grammar.specs.Grammar.{reads, begins, many, either, then_read};
ghost use Rattle.pads_grammar.specs.Reads.{Reads};
ghost use Rattle.pads_syntax_path.specs.Paths.{start, index, each, named, bracketed, step, path};

use crate::index::index_of;
use crate::{Path, PathStep, PathSteps};
use pads_grammar::{Cursor, Kind, Reading, Unexpected};
use pads_lex::Mark;
use pads_syntax_expr::name;
use pads_value::{Items, Refusal};
use std::alloc::Global;

/// `$`, or the first step.
#[tactic(auto, unfolding(crate::specs::Paths::start))]
fn start(alloc: Global, cursor: &mut Cursor<'_>) -> Reading<Path>
    ensures reads { Reads (reads start cursor.old) result cursor.new }
{
    let mut steps = Items::new(alloc);
    if cursor.peek().is_mark(Mark::Dollar) {
        let _dollar = cursor.mark(Mark::Dollar)?;
        return Ok(Path { root: true, steps });
    }
    let first = name(alloc, cursor)?;
    steps.push(PathStep::Name(first.text))?;
    Ok(Path { root: false, steps })
}

/// The number of an element.
#[tactic(auto, using(pads_grammar::proofs::Leaves::leaves))]
fn index(cursor: &mut Cursor<'_>) -> Reading<PathStep>
    ensures reads { Reads (reads index cursor.old) result cursor.new }
{
    match cursor.take(Kind::Number) {
        Some(token) => Ok(PathStep::Index(index_of(&token.kind))),
        None => Err(Refusal::Fault(Unexpected)),
    }
}

/// `*`
fn each(cursor: &mut Cursor<'_>) -> Reading<PathStep>
    ensures reads { Reads (reads each cursor.old) result cursor.new }
{
    let _star = cursor.mark(Mark::Star)?;
    Ok(PathStep::Each)
}

/// An index, or `*`.
fn elements(cursor: &mut Cursor<'_>) -> Reading<PathStep>
    ensures reads { Reads (reads (either index each) cursor.old) result cursor.new }
{
    if Kind::Number.is(cursor.peek()) {
        index(cursor)
    } else {
        each(cursor)
    }
}

/// Elements, between brackets.
fn bracketed(cursor: &mut Cursor<'_>) -> Reading<PathStep>
    ensures reads { Reads (reads bracketed cursor.old) result cursor.new }
{
    let _open = cursor.mark(Mark::OpenBracket)?;
    let elements = elements(cursor)?;
    let _close = cursor.mark(Mark::CloseBracket)?;
    Ok(elements)
}

/// `.` and a name.
fn named(alloc: Global, cursor: &mut Cursor<'_>) -> Reading<PathStep>
    ensures reads { Reads (reads named cursor.old) result cursor.new }
{
    let _dot = cursor.mark(Mark::Dot)?;
    let name = name(alloc, cursor)?;
    Ok(PathStep::Name(name.text))
}

#[tactic(auto, unfolding(crate::specs::Paths::step))]
fn step(alloc: Global, cursor: &mut Cursor<'_>) -> Reading<PathStep>
    ensures reads { Reads (reads step cursor.old) result cursor.new }
{
    if cursor.peek().is_mark(Mark::Dot) {
        named(alloc, cursor)
    } else {
        bracketed(cursor)
    }
}

/// Whether a token of that kind begins a step.
#[tactic(auto, using(crate::proofs::PathLoops::begins_step))]
fn begins_step(kind: Kind) -> bool
    ensures begins { result ≡ begins step kind }
{
    kind.is_mark(Mark::Dot) || kind.is_mark(Mark::OpenBracket)
}

/// Some steps, and any number of steps behind them.
#[tactic(auto, using(crate::proofs::PathLoops::step_loop))]
fn steps(alloc: Global, cursor: &mut Cursor<'_>, first: PathSteps) -> Reading<PathSteps>
    ensures reads { Reads (then_read (reads (many step) cursor.old) (λ more rest. Ok (first ++ more, rest))) result cursor.new }
{
    let mut steps = first;
    'steps: while begins_step(cursor.peek()) {
        steps.push(step(alloc, cursor)?)?;
    }
    Ok(steps)
}

/// A path.
pub(crate) fn path(alloc: Global, cursor: &mut Cursor<'_>) -> Reading<Path>
    ensures reads { Reads (reads path cursor.old) result cursor.new }
{
    let Path { root, steps: first } = start(alloc, cursor)?;
    let steps = steps(alloc, cursor, first)?;
    Ok(Path { root, steps })
}
