//! The terms without a term in them, each read in a frame of its own.
ghost use Rattle.std.specs.Prelude.{◌≡◌, ◌≤◌, true, length, IfOk};
ghost use Rattle.pads_calc.specs.Arguments.{arguments};
ghost use Rattle.pads_calc.specs.Leaves.{base_of, compute_of, eor_of, lit_of, unit_of};
ghost use Rattle.pads_calc.specs.Places.{EndsWithin};
ghost use Rattle.pads_steps.specs.Records.{subject_of};
ghost use Rattle.pads_dispatch.specs.Labels.{labels_fit};
ghost use Rattle.pads_expr.specs.Value.{value};
ghost use Rattle.pads_expr.specs.Worth.{worth_or_none};

use pads_calc::{Base, ComputedForm, Exprs, Reading};
use pads_expr::{Env, Expr};
use pads_steps::Record;
use pads_value::Memory;
use std::alloc::Global;

/// A base type with its arguments.
#[inline(never)]
pub(crate) fn base(
    alloc: Global,
    from: &Record,
    base: &Base,
    args: &Exprs,
    env: &Env,
    place: u64,
) -> Result<Reading, Memory>
    requires labels { labels_fit base.now ≡ true }
    requires place { place ≤ length from.now.bytes.now }
    ensures base { IfOk result (λ r. r ≡ base_of (subject_of from.now) base.now (arguments args.now env.now.pairs) place) }
    ensures within { IfOk result (λ r. EndsWithin from.now.bytes.now place r) }
{
    from.base(alloc, base, args.as_slice(), env, place)
}

/// The value of an expression, over no bytes.
#[inline(never)]
pub(crate) fn computed(
    alloc: Global,
    from: &Record,
    e: &Expr,
    form: &ComputedForm,
    env: &Env,
    place: u64,
) -> Result<Reading, Memory>
    requires { place ≤ length from.now.bytes.now }
    ensures computed { IfOk result (λ r. r ≡ compute_of from.now.origin form.now (worth_or_none (value e.now env.now.pairs)) place) }
    ensures within { IfOk result (λ r. EndsWithin from.now.bytes.now place r) }
{
    from.computed(alloc, e, form, env, place)
}

/// Nothing, which takes no byte.
#[inline(never)]
pub(crate) fn unit(alloc: Global, from: &Record, place: u64) -> Result<Reading, Memory>
    requires { place ≤ length from.now.bytes.now }
    ensures unit { IfOk result (λ r. r ≡ unit_of from.now.origin place) }
    ensures within { IfOk result (λ r. EndsWithin from.now.bytes.now place r) }
{
    Ok(from.unit(alloc, place))
}

/// A literal, where its bytes stand at the place.
#[inline(never)]
pub(crate) fn literal(
    alloc: Global,
    from: &Record,
    literal: &[u8],
    place: u64,
) -> Result<Reading, Memory>
    requires { place ≤ length from.now.bytes.now }
    ensures literal { IfOk result (λ r. r ≡ lit_of (subject_of from.now) literal.now place) }
    ensures within { IfOk result (λ r. EndsWithin from.now.bytes.now place r) }
{
    Ok(from.literal(alloc, literal, place))
}

/// The end of the record.
#[inline(never)]
pub(crate) fn end(alloc: Global, from: &Record, place: u64) -> Result<Reading, Memory>
    requires { place ≤ length from.now.bytes.now }
    ensures end { IfOk result (λ r. r ≡ eor_of (subject_of from.now) place) }
    ensures within { IfOk result (λ r. EndsWithin from.now.bytes.now place r) }
{
    Ok(from.end(alloc, place))
}
