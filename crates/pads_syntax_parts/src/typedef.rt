ghost use Rattle.std.specs.Prelude.{◌≡◌};
ghost use Rattle.pads_grammar.specs.Grammar.{reads, begins, optional};
ghost use Rattle.pads_grammar.specs.Reads.{Reads};
ghost use Rattle.pads_syntax_parts.specs.Parts.{refined_names, refinement};

use crate::expressions::expression;
use crate::marks::with_mark;
use pads_ast::{Constraint, Name};
use pads_grammar::{Cursor, Reading};
use pads_lex::Mark;
use pads_syntax_expr::name;
use std::alloc::Global;

/// The names before the condition of a typedef's constraint, and what stands round them.
fn refined_names(alloc: Global, cursor: &mut Cursor<'_>) -> Reading<(Name, Name)>
    ensures reads { Reads (reads refined_names cursor.old) result cursor.new }
{
    let _colon = cursor.mark(Mark::Colon)?;
    let of = name(alloc, cursor)?;
    let variable = name(alloc, cursor)?;
    let _arrow = cursor.mark(Mark::Arrow)?;
    let _open = cursor.mark(Mark::OpenBrace)?;
    Ok((of, variable))
}

#[tactic(auto, unfolding(crate::specs::Parts::refinement))]
fn refinement(alloc: Global, cursor: &mut Cursor<'_>) -> Reading<Constraint>
    ensures reads { Reads (reads refinement cursor.old) result cursor.new }
{
    let (name, variable) = refined_names(alloc, cursor)?;
    let condition = expression(alloc, cursor)?;
    let (condition, _close) = with_mark(condition, cursor, Mark::CloseBrace)?;
    Ok(Constraint {
        name,
        variable,
        condition,
    })
}

/// The constraint of a typedef, where one is written.
#[tactic(auto, using(crate::proofs::Firsts::firsts))]
pub fn optional_refinement(alloc: Global, cursor: &mut Cursor<'_>) -> Reading<Option<Constraint>>
    ensures reads { Reads (reads (optional refinement) cursor.old) result cursor.new }
{
    if !cursor.peek().is_mark(Mark::Colon) {
        return Ok(None);
    }
    Ok(Some(refinement(alloc, cursor)?))
}
