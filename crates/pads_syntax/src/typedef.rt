ghost use Rattle.std.specs.Prelude.{◌≡◌};
ghost use Rattle.pads_grammar.specs.Grammar.{reads, begins, optional};
ghost use Rattle.pads_grammar.specs.Reads.{Reads};
ghost use Rattle.pads_syntax.specs.Declarations.{typedef_decl, opt_decl};

use crate::structure::signature;
use pads_ast::{Opt, Typedef};
use pads_grammar::{Cursor, Reading};
use pads_lex::Keyword;
use pads_syntax_parts::{optional_refinement, type_use};
use std::alloc::Global;

#[tactic(auto, unfolding(crate::specs::Declarations::typedef_decl))]
pub fn typedef_decl(alloc: Global, cursor: &mut Cursor<'_>) -> Reading<Typedef>
    ensures reads { Reads (reads typedef_decl cursor.old) result cursor.new }
{
    let _keyword = cursor.keyword(Keyword::Ptypedef)?;
    let of = type_use(alloc, cursor)?;
    let (name, params) = signature(alloc, cursor)?;
    let constraint = optional_refinement(alloc, cursor)?;
    Ok(Typedef {
        of,
        name,
        params,
        constraint,
    })
}

#[tactic(auto, unfolding(crate::specs::Declarations::opt_decl))]
pub fn opt_decl(alloc: Global, cursor: &mut Cursor<'_>) -> Reading<Opt>
    ensures reads { Reads (reads opt_decl cursor.old) result cursor.new }
{
    let _keyword = cursor.keyword(Keyword::Popt)?;
    let of = type_use(alloc, cursor)?;
    let (name, params) = signature(alloc, cursor)?;
    Ok(Opt { of, name, params })
}
