ghost use Rattle.std.specs.Prelude.{◌≡◌};
ghost use Rattle.pads_lex.specs.declared.token.Mark.TheVariants.{Comma};
ghost use Rattle.pads_grammar.specs.Grammar.{reads, begins, optional, token, apply, ◌*>◌, mark};
ghost use Rattle.pads_grammar.specs.Lists.{listed};
ghost use Rattle.pads_grammar.specs.Reads.{Reads};
ghost use Rattle.pads_ast.specs.declared.types.Arg.TheVariants as arg_form;
ghost use Rattle.pads_syntax_parts.specs.Types.{arg, args, type_use, param, params, branch};

use crate::expressions::{constraint, expression};
use crate::marks::{optional_keyword, with_mark};
use pads_ast::{Arg, Branch, Param, Params, Type};
use pads_grammar::{Cursor, Reading};
use pads_lex::{Keyword, Mark};
use pads_syntax_expr::name;
use pads_value::Items;
use std::alloc::Global;

#[tactic(auto, unfolding(crate::specs::Types::arg))]
fn arg(alloc: Global, cursor: &mut Cursor<'_>) -> Reading<Arg>
    ensures reads { Reads (reads arg cursor.old) result cursor.new }
{
    if cursor.peek().is_keyword(Keyword::Peor) {
        let at = cursor.keyword(Keyword::Peor)?;
        return Ok(Arg::Peor { at });
    }
    Ok(Arg::Expr(expression(alloc, cursor)?))
}

/// A comma, and an argument behind it.
fn next_arg(alloc: Global, cursor: &mut Cursor<'_>) -> Reading<Arg>
    ensures reads { Reads (reads (mark Comma *> arg) cursor.old) result cursor.new }
{
    let _comma = cursor.mark(Mark::Comma)?;
    arg(alloc, cursor)
}

/// One argument or more.
#[tactic(auto, using(crate::proofs::TypeLoops::arg_loop))]
fn arg_list(alloc: Global, cursor: &mut Cursor<'_>) -> Reading<Items<Arg>>
    ensures reads { Reads (reads (listed Comma arg) cursor.old) result cursor.new }
{
    let mut args = Items::new(alloc);
    args.push(arg(alloc, cursor)?)?;
    'more: while cursor.peek().is_mark(Mark::Comma) {
        args.push(next_arg(alloc, cursor)?)?;
    }
    Ok(args)
}

/// The arguments of a type, where any are written.
fn args(alloc: Global, cursor: &mut Cursor<'_>) -> Reading<Option<Items<Arg>>>
    ensures reads { Reads (reads (optional args) cursor.old) result cursor.new }
{
    if !cursor.peek().is_mark(Mark::OpenParams) {
        return Ok(None);
    }
    let _open = cursor.mark(Mark::OpenParams)?;
    let args = arg_list(alloc, cursor)?;
    let _close = cursor.mark(Mark::CloseParams)?;
    Ok(Some(args))
}

/// A type where it is used.
#[tactic(auto, unfolding(crate::specs::Types::type_use))]
pub fn type_use(alloc: Global, cursor: &mut Cursor<'_>) -> Reading<Type>
    ensures reads { Reads (reads type_use cursor.old) result cursor.new }
{
    let optional = optional_keyword(cursor, Keyword::Popt)?;
    let name = name(alloc, cursor)?;
    let args = args(alloc, cursor)?;
    Ok(Type {
        optional,
        name,
        args,
    })
}

#[tactic(auto, unfolding(crate::specs::Types::param))]
fn param(alloc: Global, cursor: &mut Cursor<'_>) -> Reading<Param>
    ensures reads { Reads (reads param cursor.old) result cursor.new }
{
    let of = type_use(alloc, cursor)?;
    let name = name(alloc, cursor)?;
    Ok(Param { of, name })
}

/// A comma, and a parameter behind it.
fn next_param(alloc: Global, cursor: &mut Cursor<'_>) -> Reading<Param>
    ensures reads { Reads (reads (mark Comma *> param) cursor.old) result cursor.new }
{
    let _comma = cursor.mark(Mark::Comma)?;
    param(alloc, cursor)
}

/// One parameter or more.
#[tactic(auto, using(crate::proofs::TypeLoops::param_loop))]
fn param_list(alloc: Global, cursor: &mut Cursor<'_>) -> Reading<Items<Param>>
    ensures reads { Reads (reads (listed Comma param) cursor.old) result cursor.new }
{
    let mut params = Items::new(alloc);
    params.push(param(alloc, cursor)?)?;
    'more: while cursor.peek().is_mark(Mark::Comma) {
        params.push(next_param(alloc, cursor)?)?;
    }
    Ok(params)
}

/// The parameters of a declaration, where any are written.
pub fn params(alloc: Global, cursor: &mut Cursor<'_>) -> Reading<Params>
    ensures reads { Reads (reads (optional params) cursor.old) result cursor.new }
{
    if !cursor.peek().is_mark(Mark::OpenParams) {
        return Ok(None);
    }
    let _open = cursor.mark(Mark::OpenParams)?;
    let params = param_list(alloc, cursor)?;
    let _close = cursor.mark(Mark::CloseParams)?;
    Ok(Some(params))
}

/// A field of a struct or a branch of a union.
#[tactic(auto, unfolding(crate::specs::Types::branch))]
pub fn branch(alloc: Global, cursor: &mut Cursor<'_>) -> Reading<Branch>
    ensures reads { Reads (reads branch cursor.old) result cursor.new }
{
    let of = type_use(alloc, cursor)?;
    let name = name(alloc, cursor)?;
    let constraint = constraint(alloc, cursor)?;
    let (constraint, _end) = with_mark(constraint, cursor, Mark::Semicolon)?;
    Ok(Branch {
        of,
        name,
        constraint,
    })
}
