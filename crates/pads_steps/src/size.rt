//! How many elements an array is to have, and whether it has them.
ghost use Rattle.std.specs.Prelude.{◌≡◌, reverse};
ghost use Rattle.std.specs.Option.{option_map, option_copied};
ghost use Rattle.pads_calc.specs.Arguments.{arg_told};
ghost use Rattle.pads_calc.specs.Arrays.{size_of_arg, size_at as size_of, is_full as is_full_at, below_size};
ghost use Rattle.pads_expr.specs.Seen.{seen};

use pads_expr::{Binding, Env, Expr, Res, eval_in};
use pads_value::Cause;

/// A number of elements that an expression is worth, if it is one.
fn size_of_worth(found: Option<Res>) -> Option<u128>
    ensures size { result ≡ size_of_arg (arg_told (option_map seen found.entry)) }
{
    match found {
        Some(Res::Num(number)) => {
            if number < 0 {
                None
            } else {
                Some(number as u128)
            }
        }
        _ => None,
    }
}

/// The size that an array is to have over bindings of which the last counts, or that none is asked for;
/// none where the expression has no value that is a size.
pub fn size_in(size: Option<&Expr>, bindings: &[Binding]) -> Option<Option<u128>>
    ensures size { result ≡ size_of (option_copied size.entry) (reverse bindings.now) }
{
    match size {
        None => Some(None),
        Some(e) => Some(Some(size_of_worth(eval_in(e, bindings))?)),
    }
}

/// The same in an environment.
pub fn size_at(size: Option<&Expr>, env: &Env) -> Option<Option<u128>>
    ensures size { result ≡ size_of (option_copied size.entry) env.now.pairs }
{
    size_in(size, env.as_slice())
}

/// Whether so many elements reach the size.
pub fn is_full(size: Option<u128>, count: u64) -> bool
    ensures full { result ≡ is_full_at size count }
{
    match size {
        None => false,
        Some(size) => size <= u128::from(count),
    }
}

/// The cause of an array that ends before its size is reached.
pub fn short_of(size: Option<u128>) -> Option<Cause>
    ensures cause { result ≡ below_size size }
{
    match size {
        None => None,
        Some(_) => Some(Cause::ArraySize),
    }
}
