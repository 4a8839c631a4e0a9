//! The instructions of terms without terms in them.
ghost use Rattle.std.specs.Prelude.{◌≡◌, ◌∷◌, ◌++◌, [], IfOk, OnOk};
ghost use Rattle.pads_image.specs.declared.op.Op.TheVariants as op;

use pads_calc::{ComputedForm, Exprs, Key};
use pads_dispatch::Base;
use pads_expr::Expr;
use pads_image::{Op, Ops};
use pads_value::{Bytes, Items, Memory};
use std::alloc::Global;

/// Expressions equal to these.
fn copy_exprs(alloc: Global, exprs: &[Expr]) -> Result<Exprs, Memory>
    ensures equal { IfOk result (λ copied. copied ≡ exprs.now) }
{
    let mut copied = Items::new(alloc);
    for expr in exprs {
        copied.push(expr.copy(alloc)?)?;
    }
    Ok(copied)
}

/// An expression equal to this one, where there is one.
pub(crate) fn copy_option(alloc: Global, e: &Option<Expr>) -> Result<Option<Expr>, Memory>
    ensures equal { IfOk result (λ copied. copied ≡ e.now) }
{
    match e {
        None => Ok(None),
        Some(e) => Ok(Some(e.copy(alloc)?)),
    }
}

/// A key equal to this one, where there is one.
pub(crate) fn copy_key(alloc: Global, key: &Option<Key>) -> Result<Option<Key>, Memory>
    ensures equal { IfOk result (λ copied. copied ≡ key.now) }
{
    match key {
        None => Ok(None),
        Some(Key::Num(number)) => Ok(Some(Key::Num(*number))),
        Some(Key::Text(text)) => Ok(Some(Key::Text(Bytes::from_slice(alloc, text.as_slice())?))),
    }
}

/// The instruction of a literal.
pub(crate) fn emit_literal(alloc: Global, literal: &[u8], code: &mut Ops) -> Result<(), Memory>
    ensures code { OnOk result (code.new ≡ code.old ++ op.Lit literal.now ∷ []) }
{
    code.push(Op::Lit(Bytes::from_slice(alloc, literal)?))
}

/// The instruction of a base type.
pub(crate) fn emit_base(
    alloc: Global,
    base: &Base,
    args: &[Expr],
    code: &mut Ops,
) -> Result<(), Memory>
    ensures code { OnOk result (code.new ≡ code.old ++ op.Base base.now args.now ∷ []) }
{
    let args = copy_exprs(alloc, args)?;
    code.push(Op::Base(base.copy(alloc)?, args))
}

/// The instruction of a call.
pub(crate) fn emit_call(
    alloc: Global,
    number: u16,
    args: &[Expr],
    code: &mut Ops,
) -> Result<(), Memory>
    ensures code { OnOk result (code.new ≡ code.old ++ op.Call number args.now ∷ []) }
{
    code.push(Op::Call(number, copy_exprs(alloc, args)?))
}

/// The instruction of a computed value.
pub(crate) fn emit_computed(
    alloc: Global,
    e: &Expr,
    form: ComputedForm,
    code: &mut Ops,
) -> Result<(), Memory>
    ensures code { OnOk result (code.new ≡ code.old ++ op.Compute e.now form ∷ []) }
{
    code.push(Op::Compute(e.copy(alloc)?, form))
}
