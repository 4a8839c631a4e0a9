ghost use Rattle.std.specs.Prelude.{◌≡◌};
ghost use Rattle.pads_grammar.specs.Grammar.{reads, begins, many};
ghost use Rattle.pads_grammar.specs.Reads.{Reads};
ghost use Rattle.pads_syntax_parts.specs.Types.{branch};

use crate::types::branch;
use pads_ast::Branch;
use pads_grammar::{Cursor, Kind, Reading};
use pads_lex::Keyword;
use pads_value::Items;
use std::alloc::Global;

/// Whether a token of that kind begins a branch.
#[tactic(auto, using(crate::proofs::Firsts::begins_branch))]
fn begins_branch(kind: Kind) -> bool
    ensures begins { result ≡ begins branch kind }
{
    kind.is_keyword(Keyword::Popt) || Kind::Name.is(kind)
}

/// Any number of branches.
#[tactic(auto, using(crate::proofs::PartLoops::branch_loop))]
pub fn branches(alloc: Global, cursor: &mut Cursor<'_>) -> Reading<Items<Branch>>
    ensures reads { Reads (reads (many branch) cursor.old) result cursor.new }
{
    let mut branches = Items::new(alloc);
    'branches: while begins_branch(cursor.peek()) {
        branches.push(branch(alloc, cursor)?)?;
    }
    Ok(branches)
}
