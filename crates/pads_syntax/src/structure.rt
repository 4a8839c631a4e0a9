ghost use Rattle.std.specs.Prelude.{◌≡◌};
ghost use Rattle.pads_grammar.specs.Grammar.{reads, begins, optional, many};
ghost use Rattle.pads_grammar.specs.Reads.{Reads};
ghost use Rattle.pads_syntax.specs.Declarations.{signature, heading, struct_decl};

use pads_ast::{Name, Params, Struct};
use pads_grammar::{Cursor, Reading};
use pads_lex::{Keyword, Mark};
use pads_syntax_expr::name;
use pads_syntax_parts::{optional_condition, params, parts};
use std::alloc::Global;

/// A name and the parameters behind it.
#[tactic(auto, unfolding(crate::specs::Declarations::signature))]
pub fn signature(alloc: Global, cursor: &mut Cursor<'_>) -> Reading<(Name, Params)>
    ensures reads { Reads (reads signature cursor.old) result cursor.new }
{
    let name = name(alloc, cursor)?;
    let params = params(alloc, cursor)?;
    Ok((name, params))
}

/// What stands before a body in braces.
pub fn heading(alloc: Global, cursor: &mut Cursor<'_>, keyword: Keyword) -> Reading<(Name, Params)>
    ensures reads { Reads (reads (heading keyword) cursor.old) result cursor.new }
{
    let _keyword = cursor.keyword(keyword)?;
    let signature = signature(alloc, cursor)?;
    let _open = cursor.mark(Mark::OpenBrace)?;
    Ok(signature)
}

#[tactic(auto, unfolding(crate::specs::Declarations::struct_decl))]
pub fn struct_decl(alloc: Global, cursor: &mut Cursor<'_>) -> Reading<Struct>
    ensures reads { Reads (reads struct_decl cursor.old) result cursor.new }
{
    let (name, params) = heading(alloc, cursor, Keyword::Pstruct)?;
    let parts = parts(alloc, cursor)?;
    let _close = cursor.mark(Mark::CloseBrace)?;
    let condition = optional_condition(alloc, cursor)?;
    Ok(Struct {
        name,
        params,
        parts,
        condition,
    })
}
