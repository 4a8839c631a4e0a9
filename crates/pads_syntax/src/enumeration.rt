ghost use Rattle.std.specs.Prelude.{◌≡◌};
ghost use Rattle.pads_grammar.specs.Grammar.{reads, begins};
ghost use Rattle.pads_grammar.specs.Reads.{Reads};
ghost use Rattle.pads_syntax.specs.Declarations.{enum_heading, enum_decl};

use pads_ast::{Enum, Name};
use pads_grammar::{Cursor, Reading};
use pads_lex::{Keyword, Mark};
use pads_syntax_expr::name;
use pads_syntax_parts::labels;
use std::alloc::Global;

/// What stands before the labels.
fn enum_heading(alloc: Global, cursor: &mut Cursor<'_>) -> Reading<Name>
    ensures reads { Reads (reads enum_heading cursor.old) result cursor.new }
{
    let _keyword = cursor.keyword(Keyword::Penum)?;
    let name = name(alloc, cursor)?;
    let _open = cursor.mark(Mark::OpenBrace)?;
    Ok(name)
}

#[tactic(auto, unfolding(crate::specs::Declarations::enum_decl))]
pub fn enum_decl(alloc: Global, cursor: &mut Cursor<'_>) -> Reading<Enum>
    ensures reads { Reads (reads enum_decl cursor.old) result cursor.new }
{
    let name = enum_heading(alloc, cursor)?;
    let labels = labels(alloc, cursor)?;
    let _close = cursor.mark(Mark::CloseBrace)?;
    Ok(Enum { name, labels })
}
