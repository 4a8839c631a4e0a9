ghost use Rattle.std.specs.Prelude.{◌≡◌};
ghost use Rattle.pads_lex.specs.declared.token.Mark.TheVariants.{And};
ghost use Rattle.pads_grammar.specs.Grammar.{reads, begins, optional, many, apply, ◌*>◌, mark};
ghost use Rattle.pads_grammar.specs.Lists.{listed};
ghost use Rattle.pads_grammar.specs.Reads.{Reads};
ghost use Rattle.pads_syntax_parts.specs.Parts.{separator, terminator, last_test, array_option, array_options};

use crate::expressions::expression;
use crate::literals::literal;
use crate::marks::with_mark;
use pads_ast::ArrayOption;
use pads_grammar::{Cursor, Reading};
use pads_lex::{Keyword, Mark};
use pads_syntax_expr::{opened, word};
use pads_value::Items;
use std::alloc::Global;

/// `Psep` with what stands between two elements.
fn separator(alloc: Global, cursor: &mut Cursor<'_>) -> Reading<ArrayOption>
    ensures reads { Reads (reads separator cursor.old) result cursor.new }
{
    let at = opened(cursor, Keyword::Psep)?;
    let separator = word(alloc, cursor)?;
    let _close = cursor.mark(Mark::CloseParen)?;
    Ok(ArrayOption::Psep { at, separator })
}

/// `Pterm` with what ends the array.
fn terminator(alloc: Global, cursor: &mut Cursor<'_>) -> Reading<ArrayOption>
    ensures reads { Reads (reads terminator cursor.old) result cursor.new }
{
    let at = opened(cursor, Keyword::Pterm)?;
    let terminator = literal(alloc, cursor)?;
    let _close = cursor.mark(Mark::CloseParen)?;
    Ok(ArrayOption::Pterm { at, terminator })
}

/// `Plast` with what is true of the last element.
fn last_test(alloc: Global, cursor: &mut Cursor<'_>) -> Reading<ArrayOption>
    ensures reads { Reads (reads last_test cursor.old) result cursor.new }
{
    let at = opened(cursor, Keyword::Plast)?;
    let condition = expression(alloc, cursor)?;
    let (condition, _close) = with_mark(condition, cursor, Mark::CloseParen)?;
    Ok(ArrayOption::Plast { at, condition })
}

#[tactic(auto, unfolding(crate::specs::Parts::array_option))]
fn array_option(alloc: Global, cursor: &mut Cursor<'_>) -> Reading<ArrayOption>
    ensures reads { Reads (reads array_option cursor.old) result cursor.new }
{
    let next = cursor.peek();
    if next.is_keyword(Keyword::Psep) {
        separator(alloc, cursor)
    } else if next.is_keyword(Keyword::Pterm) {
        terminator(alloc, cursor)
    } else {
        last_test(alloc, cursor)
    }
}

/// `&&`, and an option behind it.
fn next_option(alloc: Global, cursor: &mut Cursor<'_>) -> Reading<ArrayOption>
    ensures reads { Reads (reads (mark And *> array_option) cursor.old) result cursor.new }
{
    let _and = cursor.mark(Mark::And)?;
    array_option(alloc, cursor)
}

/// One option or more.
#[tactic(auto, using(crate::proofs::PartLoops::option_loop))]
fn option_list(alloc: Global, cursor: &mut Cursor<'_>) -> Reading<Items<ArrayOption>>
    ensures reads { Reads (reads (listed And array_option) cursor.old) result cursor.new }
{
    let mut options = Items::new(alloc);
    options.push(array_option(alloc, cursor)?)?;
    'more: while cursor.peek().is_mark(Mark::And) {
        options.push(next_option(alloc, cursor)?)?;
    }
    Ok(options)
}

/// The options of an array, of which there may be none.
pub fn array_options(alloc: Global, cursor: &mut Cursor<'_>) -> Reading<Items<ArrayOption>>
    ensures reads { Reads (reads array_options cursor.old) result cursor.new }
{
    if !cursor.peek().is_mark(Mark::Colon) {
        return Ok(Items::new(alloc));
    }
    let _colon = cursor.mark(Mark::Colon)?;
    option_list(alloc, cursor)
}
