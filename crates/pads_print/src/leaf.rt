//! The bytes of terms without a term in them.
ghost use Rattle.std.specs.Prelude.{◌≡◌, [], Some, reverse, IfOk};
ghost use Rattle.pads_calc.specs.Arguments.{arguments};
ghost use Rattle.law_canonical.specs.Canonical.{is_unit as is_unit_of, of_base, of_computed, of_unit};
ghost use Rattle.pads_print.specs.Writes.{behind, filled};
ghost use Rattle.pads_value.specs.declared.value.Val.{out-Val};

use pads_calc::{Base, ComputedForm};
use pads_dispatch::spell_base;
use pads_expr::{Expr, Lent};
use pads_steps::arguments_lent;
use pads_value::{Bytes, Memory, Val};
use std::alloc::Global;

/// Whether a value is that of a literal, which stands for nothing.
pub(crate) fn is_unit(value: &Val) -> bool
    ensures unit { result ≡ is_unit_of (out-Val value.now) }
{
    matches!(value, Val::Unit)
}

/// No bytes, for the value of nothing.
pub(crate) fn unit(value: &Val, out: &mut Bytes) -> Result<bool, Memory>
    ensures written { IfOk result (λ there. filled there out.new ≡ behind out.old (of_unit (Some []) value.now)) }
{
    Ok(is_unit(value))
}

/// A literal's bytes, for the value of a literal.
pub(crate) fn literal(literal: &[u8], value: &Val, out: &mut Bytes) -> Result<bool, Memory>
    ensures written { IfOk result (λ there. filled there out.new ≡ behind out.old (of_unit (Some literal.now) value.now)) }
{
    if !is_unit(value) {
        return Ok(false);
    }
    out.extend_from_slice(literal)?;
    Ok(true)
}

/// A base type's spelling of a value.
pub(crate) fn base<'x>(
    alloc: Global,
    base: &Base,
    args: &'x [Expr],
    value: &Val,
    env: &'x [Lent<'x>],
    out: &mut Bytes,
) -> Result<bool, Memory>
    ensures written { IfOk result (λ there. filled there out.new ≡ behind out.old (of_base base.now (arguments args.now (reverse env.now)) value.now)) }
{
    let Some(args) = arguments_lent(alloc, args, env)? else {
        return Ok(false);
    };
    let Some(bytes) = spell_base(alloc, base, &args, value)? else {
        return Ok(false);
    };
    out.extend_from_slice(bytes.as_slice())?;
    Ok(true)
}

/// No bytes, for a value that a computed field can have.
pub(crate) fn computed(form: &ComputedForm, value: &Val, out: &mut Bytes) -> Result<bool, Memory>
    ensures written { IfOk result (λ there. filled there out.new ≡ behind out.old (of_computed form.now value.now)) }
{
    Ok(match (form, value) {
        (ComputedForm::Range(least, greatest), Val::Num(number)) => {
            *least <= *number && *number <= *greatest
        }
        (ComputedForm::Text, Val::Text(_)) => true,
        _ => false,
    })
}
