ghost use Rattle.std.specs.Prelude.{◌≡◌};
ghost use Rattle.pads_grammar.specs.Grammar.{reads, begins, optional, token};
ghost use Rattle.pads_grammar.specs.Reads.{Reads};
ghost use Rattle.pads_syntax_parts.specs.Types.{expression, constraint};

use pads_ast::Expr;
use pads_grammar::{Cursor, Kind, Reading};
use pads_lex::Mark;
use pads_syntax_expr::{begins_expr, expr};
use std::alloc::Global;

/// An expression that stands in no other.
#[tactic(auto, unfolding(crate::specs::Types::expression))]
pub fn expression(alloc: Global, cursor: &mut Cursor<'_>) -> Reading<Expr>
    ensures reads { Reads (reads expression cursor.old) result cursor.new }
{
    expr(alloc, cursor, 64)
}

/// Whether a token of that kind begins an expression.
#[tactic(auto, using(crate::proofs::Outermost::begins_expression))]
fn begins_expression(kind: Kind) -> bool
    ensures begins { result ≡ begins expression kind }
{
    begins_expr(kind)
}

/// An expression, where one begins there.
pub fn optional_expression(alloc: Global, cursor: &mut Cursor<'_>) -> Reading<Option<Expr>>
    ensures reads { Reads (reads (optional expression) cursor.old) result cursor.new }
{
    if !begins_expression(cursor.peek()) {
        return Ok(None);
    }
    Ok(Some(expression(alloc, cursor)?))
}

/// What must be true of a field or branch, where anything is asked.
pub fn constraint(alloc: Global, cursor: &mut Cursor<'_>) -> Reading<Option<Expr>>
    ensures reads { Reads (reads constraint cursor.old) result cursor.new }
{
    if !cursor.peek().is_mark(Mark::Colon) {
        return Ok(None);
    }
    let _colon = cursor.mark(Mark::Colon)?;
    Ok(Some(expression(alloc, cursor)?))
}
