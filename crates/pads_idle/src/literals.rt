//! Arguments of base types that stand in the code as literals.
ghost use Rattle.std.specs.Prelude.{◌≡◌, IfOk, IsTrue, Some, length};
ghost use Rattle.pads_calc.specs.Arguments.{argument as argument_of, arguments as arguments_of};
ghost use Rattle.pads_expr.specs.Value.{Pairs};
ghost use Rattle.pads_idle.specs.LiteralArgs.{literal_arg, literal_args};

use pads_dispatch::{Arg, Args};
use pads_expr::Expr;
use pads_value::{Items, Memory};
use std::alloc::Global;

/// The argument that a literal stands for.
fn literal(alloc: Global, e: &Expr) -> Result<Option<Arg>, Memory>
    ensures literal { IfOk result (λ found. found ≡ literal_arg e.now) }
{
    Ok(match e {
        Expr::Num(number) => Some(Arg::Num(*number)),
        Expr::Text(text) => Some(Arg::Text(Items::from_slice(alloc, text.as_slice())?)),
        _ => None,
    })
}

/// The argument that a single expression stands for, where it is a literal.
pub fn literal_in(alloc: Global, es: &[Expr]) -> Result<Args, Memory>
    ensures literals { IfOk result (λ args. args ≡ literal_args es.now) }
{
    let mut args = Items::new(alloc);
    if let [e] = es {
        if let Some(arg) = literal(alloc, e)? {
            args.push(arg)?;
        }
    }
    Ok(args)
}

/// Whether two numbers are the same.
fn is_number(number: &i128, other: &i128) -> bool
    ensures same { IsTrue result → number.now ≡ other.now }
    ensures seen { number.now ≡ other.now → IsTrue result }
{
    *number == *other
}

/// Whether two texts are the same.
fn is_text(text: &[u8], other: &[u8]) -> bool
    ensures same { IsTrue result → text.now ≡ other.now }
    ensures seen { text.now ≡ other.now → IsTrue result }
{
    text == other
}

/// Whether an expression is a literal that stands for an argument.
fn is_literal(e: &Expr, arg: &Arg) -> bool
    ensures literal { IsTrue result → (env : Pairs) → argument_of e.now env ≡ Some arg.now }
    ensures seen { literal_arg e.now ≡ Some arg.now → IsTrue result }
{
    match (e, arg) {
        (Expr::Num(number), Arg::Num(kept)) => is_number(number, kept),
        (Expr::Text(text), Arg::Text(kept)) => is_text(text.as_slice(), kept.as_slice()),
        _ => false,
    }
}

/// Whether expressions are just these arguments: none, or one literal.
pub fn are_literals(es: &[Expr], args: &[Arg]) -> bool
    ensures literals { IsTrue result → (env : Pairs) → arguments_of es.now env ≡ Some args.now }
    ensures seen { args.now ≡ literal_args es.now → length args.now ≡ length es.now → IsTrue result }
{
    match (es, args) {
        ([], []) => true,
        ([e], [arg]) => is_literal(e, arg),
        _ => false,
    }
}
