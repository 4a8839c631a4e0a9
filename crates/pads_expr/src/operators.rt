ghost use Rattle.std.specs.Prelude.{◌≡◌, ◌↔◌, IsSome, IsTrue, option_map};
ghost use Rattle.std.specs.declared.cmp.Ordering.{Ordering};
ghost use Rattle.pads_expr.specs.Operators.{holds, on_numbers, on_texts, on_truths, operate, decides};
ghost use Rattle.pads_expr.specs.Worth.{worth_or_none, number_or_absent, truth_or_ill};
ghost use Rattle.pads_expr.specs.Seen.{seen};
ghost use Rattle.pads_expr.specs.Unary.{operate_one};

use crate::{BinOp, Res, numbers};
use std::cmp::Ordering;

/// An operator on one operand.
#[derive(Clone, Copy)]
pub(crate) enum Unary {
    Part(u16),
    Arm(u16),
    IsArm(u16),
    Len,
    Neg,
    Not,
}

/// What a comparison says of two things in that order; `None` for an operator that compares nothing.
pub(crate) fn holds_for(op: BinOp, order: Ordering) -> Option<bool>
    ensures comparison { result ≡ holds op order }
{
    match op {
        BinOp::Eq => Some(order.is_eq()),
        BinOp::Ne => Some(order.is_ne()),
        BinOp::Lt => Some(order.is_lt()),
        BinOp::Le => Some(order.is_le()),
        BinOp::Gt => Some(order.is_gt()),
        BinOp::Ge => Some(order.is_ge()),
        BinOp::Or | BinOp::And => None,
        BinOp::Add | BinOp::Sub | BinOp::Mul | BinOp::Div | BinOp::Rem => None,
    }
}

/// Whether an operator is a comparison.
pub(crate) fn compares(op: BinOp) -> bool
    ensures compares { (order : Ordering) → IsTrue result ↔ IsSome (holds op order) }
{
    match op {
        BinOp::Eq | BinOp::Ne | BinOp::Lt | BinOp::Le | BinOp::Gt | BinOp::Ge => true,
        BinOp::Or | BinOp::And => false,
        BinOp::Add | BinOp::Sub | BinOp::Mul | BinOp::Div | BinOp::Rem => false,
    }
}

/// A number as what an expression is worth.
fn number<'a>(number: Option<i128>) -> Option<Res<'a>>
    ensures value { option_map seen result ≡ worth_or_none (number_or_absent number) }
{
    Some(Res::Num(number?))
}

/// A truth value as what an expression is worth.
fn truth<'a>(truth: Option<bool>) -> Option<Res<'a>>
    ensures value { option_map seen result ≡ worth_or_none (truth_or_ill truth) }
{
    Some(Res::Truth(truth?))
}

/// An operator between two numbers.
fn between_numbers<'a>(op: BinOp, a: i128, b: i128) -> Option<Res<'a>>
    ensures value { option_map seen result ≡ worth_or_none (on_numbers op a b) }
{
    match op {
        BinOp::Add => number(numbers::add(a, b)),
        BinOp::Sub => number(numbers::subtract(a, b)),
        BinOp::Mul => number(numbers::multiply(a, b)),
        BinOp::Div => number(numbers::divide(a, b)),
        BinOp::Rem => number(numbers::remainder(a, b)),
        _ => truth(holds_for(op, a.cmp(&b))),
    }
}

/// An operator between two texts.
fn between_texts<'a>(op: BinOp, a: &[u8], b: &[u8]) -> Option<Res<'a>>
    ensures value { option_map seen result ≡ worth_or_none (on_texts op a.now b.now) }
{
    truth(holds_for(op, a.cmp(b)))
}

/// An operator between two truth values.
fn between_truths<'a>(op: BinOp, a: bool, b: bool) -> Option<Res<'a>>
    ensures value { option_map seen result ≡ worth_or_none (on_truths op a b) }
{
    match op {
        BinOp::Or => Some(Res::Truth(a || b)),
        BinOp::And => Some(Res::Truth(a && b)),
        BinOp::Eq => Some(Res::Truth(a == b)),
        BinOp::Ne => Some(Res::Truth(a != b)),
        _ => None,
    }
}

/// An operator between what its two operands are worth.
pub(crate) fn apply<'a>(op: BinOp, a: Res<'a>, b: Res<'a>) -> Option<Res<'a>>
    ensures value { option_map seen result ≡ worth_or_none (operate op (seen a.entry) (seen b.entry)) }
{
    match (a, b) {
        (Res::Num(a), Res::Num(b)) => between_numbers(op, a, b),
        (Res::Text(a), Res::Text(b)) => between_texts(op, a, b),
        (Res::Truth(a), Res::Truth(b)) => between_truths(op, a, b),
        _ => None,
    }
}

/// Whether the left operand alone decides.
pub(crate) fn is_decided(op: BinOp, left: Res) -> bool
    ensures decided { result ≡ decides op (seen left.entry) }
{
    match (op, left) {
        (BinOp::And, Res::Truth(left)) => !left,
        (BinOp::Or, Res::Truth(left)) => left,
        _ => false,
    }
}

/// An operator on what its operand is worth.
pub(crate) fn apply_one<'a>(op: Unary, operand: Res<'a>) -> Option<Res<'a>>
    ensures value { option_map seen result ≡ worth_or_none (operate_one op (seen operand.entry)) }
{
    match op {
        Unary::Part(number) => operand.part(number),
        Unary::Arm(number) => operand.arm(number),
        Unary::IsArm(number) => operand.is_arm(number),
        Unary::Len => operand.length(),
        Unary::Neg => operand.minus(),
        Unary::Not => operand.negation(),
    }
}
