ghost use Rattle.std.specs.Prelude.{◌≡◌};
ghost use Rattle.pads_grammar.specs.Grammar.{reads, begins, optional};
ghost use Rattle.pads_grammar.specs.Reads.{Reads};
ghost use Rattle.pads_syntax.specs.Declarations.{sized, array_decl, array_body};

use crate::structure::heading;
use pads_ast::{Array, ArrayOption, Expr, Type};
use pads_grammar::{Cursor, Reading};
use pads_lex::{Keyword, Mark};
use pads_syntax_parts::{
    array_options, optional_condition, optional_expression, type_use, with_mark,
};
use pads_value::Items;
use std::alloc::Global;

/// The type of the elements, and the size between brackets.
#[tactic(auto, unfolding(crate::specs::Declarations::sized))]
fn sized(alloc: Global, cursor: &mut Cursor<'_>) -> Reading<(Type, Option<Expr>)>
    ensures reads { Reads (reads sized cursor.old) result cursor.new }
{
    let of = type_use(alloc, cursor)?;
    let _open = cursor.mark(Mark::OpenBracket)?;
    let size = optional_expression(alloc, cursor)?;
    let (size, _close) = with_mark(size, cursor, Mark::CloseBracket)?;
    Ok((of, size))
}

/// What the options are, and what ends the body behind them.
#[tactic(auto, unfolding(crate::specs::Declarations::array_body))]
fn array_body(alloc: Global, cursor: &mut Cursor<'_>) -> Reading<Items<ArrayOption>>
    ensures reads { Reads (reads array_body cursor.old) result cursor.new }
{
    let options = array_options(alloc, cursor)?;
    let _end = cursor.mark(Mark::Semicolon)?;
    let _close = cursor.mark(Mark::CloseBrace)?;
    Ok(options)
}

#[tactic(auto, unfolding(crate::specs::Declarations::array_decl))]
pub fn array_decl(alloc: Global, cursor: &mut Cursor<'_>) -> Reading<Array>
    ensures reads { Reads (reads array_decl cursor.old) result cursor.new }
{
    let (name, params) = heading(alloc, cursor, Keyword::Parray)?;
    let (of, size) = sized(alloc, cursor)?;
    let options = array_body(alloc, cursor)?;
    let condition = optional_condition(alloc, cursor)?;
    Ok(Array {
        name,
        params,
        of,
        size,
        options,
        condition,
    })
}
