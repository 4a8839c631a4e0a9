ghost use Rattle.std.specs.Prelude.{◌≡◌, ◌∷◌, [], reverse, IfOk};
ghost use Rattle.pads_calc.specs.Arguments.{arg_told, argument as argument_of, arguments as arguments_of, is_true as is_true_by, is_true_told, value_of_arg, bound_to};
ghost use Rattle.pads_expr.specs.Seen.{seen};
ghost use Rattle.std.specs.Option.{option_map};

use pads_dispatch::{Arg, Args};
use pads_expr::{Binding, Env, Expr, Lent, Res, eval_in, eval_lent, eval_with};
use pads_value::{Items, Memory, Val};
use std::alloc::Global;

/// A number or a text as an argument; nothing else is one.
fn arg_of(alloc: Global, found: Option<Res>) -> Result<Option<Arg>, Memory>
    ensures arg { IfOk result (λ arg. arg ≡ arg_told (option_map seen found.entry)) }
{
    Ok(match found {
        Some(Res::Num(number)) => Some(Arg::Num(number)),
        Some(Res::Text(text)) => Some(Arg::Text(Items::from_slice(alloc, text)?)),
        _ => None,
    })
}

/// The argument that an expression stands for over bindings of which the last counts, if it stands for
/// one.
pub fn argument_in(alloc: Global, e: &Expr, bindings: &[Binding]) -> Result<Option<Arg>, Memory>
    ensures argument { IfOk result (λ arg. arg ≡ argument_of e.now (reverse bindings.now)) }
{
    arg_of(alloc, eval_in(e, bindings))
}

/// The arguments that expressions stand for over bindings; none where one of them stands for none.
pub fn arguments_in(
    alloc: Global,
    es: &[Expr],
    bindings: &[Binding],
) -> Result<Option<Args>, Memory>
    ensures arguments { IfOk result (λ args. args ≡ arguments_of es.now (reverse bindings.now)) }
{
    let mut args = Items::new(alloc);
    for e in es {
        match argument_in(alloc, e, bindings)? {
            Some(arg) => args.push(arg)?,
            None => return Ok(None),
        }
    }
    Ok(Some(args))
}

/// The same in an environment.
pub fn arguments(alloc: Global, es: &[Expr], env: &Env) -> Result<Option<Args>, Memory>
    ensures arguments { IfOk result (λ args. args ≡ arguments_of es.now env.now.pairs) }
{
    arguments_in(alloc, es, env.as_slice())
}

/// The same over bindings whose values are lent.
pub fn arguments_lent<'x>(
    alloc: Global,
    es: &'x [Expr],
    bindings: &'x [Lent<'x>],
) -> Result<Option<Args>, Memory>
    ensures arguments { IfOk result (λ args. args ≡ arguments_of es.now (reverse bindings.now)) }
{
    let mut args = Items::new(alloc);
    for e in es {
        let Some(arg) = arg_of(alloc, eval_lent(e, bindings))? else {
            return Ok(None);
        };
        args.push(arg)?;
    }
    Ok(Some(args))
}

/// Whether what an expression is worth is that it is true. Without a value it isn't.
fn is_truth(found: Option<Res>) -> bool
    ensures truth { result ≡ is_true_told (option_map seen found.entry) }
{
    match found {
        Some(Res::Truth(truth)) => truth,
        _ => false,
    }
}

/// Whether an expression is true over bindings. One without a value isn't.
pub fn is_true_in(e: &Expr, bindings: &[Binding]) -> bool
    ensures truth { result ≡ is_true_by e.now (reverse bindings.now) }
{
    is_truth(eval_in(e, bindings))
}

/// Whether a condition is true over bindings of a value that goes by a name in it.
pub fn is_true_of(condition: &Expr, name: u16, value: &Val, bindings: &[Binding]) -> bool
    ensures truth { result ≡ is_true_by condition.now ((name, value.now) ∷ reverse bindings.now) }
{
    is_truth(eval_with(condition, name, value, bindings))
}

/// What an argument is as a value.
fn value_of(alloc: Global, arg: &Arg) -> Result<Val, Memory>
    ensures value { IfOk result (λ value. value ≡ value_of_arg arg.now) }
{
    Ok(match arg {
        Arg::Num(number) => Val::Num(*number),
        Arg::Text(text) => Val::Text(Items::from_slice(alloc, text.as_slice())?),
    })
}

/// The environment of a declaration's body: its parameters, bound to the arguments.
pub fn bound(alloc: Global, names: &[u16], args: &Args) -> Result<Env, Memory>
    ensures bound { IfOk result (λ env. env.pairs ≡ bound_to names.now args.now []) }
{
    let mut env = Env::new(alloc, 0)?;
    for (i, name) in names.iter().enumerate() {
        let Some(arg) = args.get(i as u64) else {
            return Ok(env);
        };
        env.bind(*name, value_of(alloc, arg)?)?;
    }
    Ok(env)
}
