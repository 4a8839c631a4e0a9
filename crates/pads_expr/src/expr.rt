ghost use Rattle.std.specs.Prelude.{◌≡◌, IfOk};

use pads_value::{Boxed, Bytes, Memory};
use std::alloc::Global;

/// An operator between two operands.
#[derive(Clone, Copy, Debug, PartialEq, Eq)]
pub enum BinOp {
    Or,
    And,
    Eq,
    Ne,
    Lt,
    Le,
    Gt,
    Ge,
    Add,
    Sub,
    Mul,
    Div,
    Rem,
}

/// An expression, with names and parts as numbers.
#[derive(Debug, Drop)]
pub enum Expr {
    Num(i128),
    Text(Bytes),
    Truth(bool),
    Var(u16),
    Part(Boxed<Expr>, u16),
    Arm(Boxed<Expr>, u16),
    Elem(Boxed<Expr>, Boxed<Expr>),
    IsArm(Boxed<Expr>, u16),
    Len(Boxed<Expr>),
    Neg(Boxed<Expr>),
    Not(Boxed<Expr>),
    Bin(BinOp, Boxed<Expr>, Boxed<Expr>),
    Forall(u16, Boxed<Expr>, Boxed<Expr>, Boxed<Expr>),
}

impl Expr {
    /// An expression equal to this one.
    #[cycle(copy)]
    pub fn copy(&self, alloc: Global) -> Result<Expr, Memory>
        ensures equal { IfOk result (λ copied. copied ≡ self.now) }
    {
        Ok(match self {
            Expr::Num(number) => Expr::Num(*number),
            Expr::Text(text) => Expr::Text(Bytes::from_slice(alloc, text.as_slice())?),
            Expr::Truth(truth) => Expr::Truth(*truth),
            Expr::Var(name) => Expr::Var(*name),
            Expr::Part(whole, number) => Expr::Part(copy_boxed(alloc, whole)?, *number),
            Expr::Arm(whole, number) => Expr::Arm(copy_boxed(alloc, whole)?, *number),
            Expr::Elem(whole, index) => Expr::Elem(
                copy_boxed(alloc, whole)?,
                copy_boxed(alloc, index)?,
            ),
            Expr::IsArm(whole, number) => Expr::IsArm(copy_boxed(alloc, whole)?, *number),
            Expr::Len(whole) => Expr::Len(copy_boxed(alloc, whole)?),
            Expr::Neg(operand) => Expr::Neg(copy_boxed(alloc, operand)?),
            Expr::Not(operand) => Expr::Not(copy_boxed(alloc, operand)?),
            Expr::Bin(op, left, right) => Expr::Bin(
                *op,
                copy_boxed(alloc, left)?,
                copy_boxed(alloc, right)?,
            ),
            Expr::Forall(name, first, last, body) => {
                let first = copy_boxed(alloc, first)?;
                let last = copy_boxed(alloc, last)?;
                Expr::Forall(*name, first, last, copy_boxed(alloc, body)?)
            }
        })
    }
}

#[cycle(copy)]
fn copy_boxed(alloc: Global, e: &Boxed<Expr>) -> Result<Boxed<Expr>, Memory>
    ensures equal { IfOk result (λ copied. copied ≡ e.now) }
{
    Boxed::new(alloc, e.get().copy(alloc)?)
}
