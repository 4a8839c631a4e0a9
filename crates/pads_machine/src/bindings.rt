//! Bindings, and where their values are at home: the value of a named part is moved to its binding, and
//! goes home when the binding goes, so that it isn't copied.
ghost use Rattle.std.specs.Prelude.{◌≡◌, ◌+◌, ◌<◌, ◌≤◌, pos, Some, length, min, reverse, slice_get, slice_set, vec_len, vec_capacity};
ghost use Rattle.pads_calc.specs.Arguments.{bound_to, value_of_arg};
ghost use Rattle.pads_calc.specs.Structs.{bind as bound};
ghost use Rattle.pads_dispatch.specs.declared.base.Arg.TheVariants as argument;
ghost use Rattle.pads_image.specs.Blocks.{bindings_of};
ghost use Rattle.pads_machine.specs.Shown.{TakenOne, above, below, home_of, homeless, put_back, put_home, stand_in};

use pads_dispatch::{Arg, Args};
use pads_expr::Binding;
use pads_value::Val;
use std::mem;

/// What an argument is as a value.
fn value_of(arg: Arg) -> Val
    ensures value { result ≡ value_of_arg arg }
{
    match arg {
        Arg::Num(number) => Val::Num(number),
        Arg::Text(text) => Val::Text(text),
    }
}

/// Takes the argument at a place out.
fn take(args: &mut Vec<Arg>, at: usize) -> Arg
    requires { at < vec_len args.old }
    ensures value { slice_get args.old.items at ≡ Some result }
    ensures rest { args.new.items ≡ slice_set args.old.items at (argument.Num (pos 0)) }
    ensures len { vec_len args.new ≡ vec_len args.old }
{
    mem::replace(&mut args[at], Arg::Num(0))
}

/// Binds parameters to arguments. Their values have no home.
pub(crate) fn bind(
    bindings: &mut Vec<Binding>,
    homes: &mut Vec<Option<usize>>,
    params: &[u16],
    args: Args,
)
    requires bindings_room { min (length params.now) (length args) + vec_len bindings.old ≤ vec_capacity bindings.old }
    requires homes_room { min (length params.now) (length args) + vec_len homes.old ≤ vec_capacity homes.old }
    ensures bindings { reverse bindings.new.items ≡ bound_to params.now args (reverse bindings.old.items) }
    ensures homes { reverse homes.new.items ≡ homeless params.now args (reverse homes.old.items) }
    ensures bindings_kept { vec_capacity bindings.new ≡ vec_capacity bindings.old }
    ensures homes_kept { vec_capacity homes.new ≡ vec_capacity homes.old }
{
    let mut args = args.into_vec();
    let count = params.len().min(args.len());
    'each: for at in 0..count {
        let arg = take(&mut args, at);
        bindings.push_reserved((params[at], value_of(arg)));
        homes.push_reserved(None);
    }
}

/// Puts a value at its home, if it has one.
#[tactic(auto, using(std::proofs::lemmas::List::set_past))]
fn put(values: &mut Vec<Val>, home: Option<usize>, value: Val)
    ensures put { values.new.items ≡ put_home home value values.old.items }
{
    let Some(at) = home else {
        return;
    };
    if at < values.len() {
        values[at] = value;
    }
}

/// Takes the latest binding back, and puts its value at its home.
fn take_one(bindings: &mut Vec<Binding>, homes: &mut Vec<Option<usize>>, values: &mut Vec<Val>)
    requires each_home { length homes.old.items ≡ length bindings.old.items }
    requires some { 0 < vec_len bindings.old }
    ensures one { TakenOne bindings.old.items homes.old.items values.old.items bindings.new.items homes.new.items values.new.items }
    ensures fewer { vec_len bindings.new + 1 ≡ vec_len bindings.old }
    ensures bindings_kept { vec_capacity bindings.new ≡ vec_capacity bindings.old }
    ensures homes_kept { vec_capacity homes.new ≡ vec_capacity homes.old }
{
    let Some((_, value)) = bindings.pop() else {
        unreachable!()
    };
    let Some(home) = homes.pop() else {
        unreachable!()
    };
    put(values, home, value);
}

/// Takes the bindings above the first so many back, and puts each value at its home.
pub(crate) fn take_back(
    bindings: &mut Vec<Binding>,
    homes: &mut Vec<Option<usize>>,
    base: usize,
    values: &mut Vec<Val>,
)
    requires each_home { length homes.old.items ≡ length bindings.old.items }
    ensures values { values.new.items ≡ put_back (above base (reverse homes.old.items)) (above base (reverse bindings.old.items)) values.old.items }
    ensures bindings { reverse bindings.new.items ≡ below base (reverse bindings.old.items) }
    ensures homes { reverse homes.new.items ≡ below base (reverse homes.old.items) }
    ensures bindings_kept { vec_capacity bindings.new ≡ vec_capacity bindings.old }
    ensures homes_kept { vec_capacity homes.new ≡ vec_capacity homes.old }
{
    'back: while bindings.len() > base {
        take_one(bindings, homes, values);
    }
}
