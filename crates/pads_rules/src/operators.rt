//! What an operator gives, whatever its operands are.

ghost use Rattle.std.specs.Prelude.{◌≡◌};
ghost use Rattle.pads_rules.specs.Judging as judging;

use crate::ExprSort;
use crate::sort::Form;
use pads_ast::UnaryOperator;
use pads_expr::BinOp;

/// The sort that an operator between two operands gives.
pub fn result_of(operator: BinOp) -> ExprSort
    ensures given { result ≡ judging.result_of operator }
{
    match operator {
        BinOp::Add | BinOp::Sub | BinOp::Mul | BinOp::Div | BinOp::Rem => {
            ExprSort::plain(Form::Num)
        }
        _ => ExprSort::plain(Form::Truth),
    }
}

/// The sort that an operator before its operand gives.
pub fn unary_gives(operator: UnaryOperator) -> ExprSort
    ensures given { result ≡ judging.unary_gives operator }
{
    match operator {
        UnaryOperator::Minus => ExprSort::plain(Form::Num),
        UnaryOperator::Not => ExprSort::plain(Form::Truth),
    }
}
