//! The translation of expressions.
ghost use Rattle.std.specs.Prelude.{◌≡◌, map, IfOk};
ghost use Rattle.pads_expr.specs.declared.expr.Expr.TheVariants as expr_form;
ghost use Rattle.pads_trans.specs.Expressions.{variable as variable_of, meaning_of, expr_of, option_of};

use crate::numbering::Numbering;
use pads_expr::Expr;
use pads_resolution::{Expr as Tree, NameUse};
use pads_value::{Boxed, Bytes, Items, Memory};
use std::alloc::Global;

/// A variable by its name's number.
fn variable(names: &Numbering, name: &[u8]) -> Expr
    ensures variable { result ≡ variable_of names.now name.now }
{
    Expr::Var(names.number(name))
}

/// What a name stands for.
#[tactic(auto, unfolding(crate::specs::Expressions::meaning_of))]
fn meaning(alloc: Global, names: &Numbering, meaning: &NameUse) -> Result<Expr, Memory>
    ensures meaning { IfOk result (λ made. made ≡ meaning_of names.now meaning.now) }
{
    Ok(match meaning {
        NameUse::Variable(name) => variable(names, name.as_slice()),
        NameUse::Elts => variable(names, b"@"),
        NameUse::Length => Expr::Len(Boxed::new(alloc, variable(names, b"@"))?),
        NameUse::Field(number) => { Expr::Part(Boxed::new(alloc, variable(names, b"@"))?, *number) }
    })
}

fn word(alloc: Global, points: &Bytes) -> Result<Expr, Memory>
    ensures text { IfOk result (λ made. made ≡ expr_form.Text points.now) }
{
    Ok(Expr::Text(Bytes::from_slice(alloc, points.as_slice())?))
}

/// The expression that a resolved one is translated into, its variables by their names' numbers.
#[cycle(expr)]
#[tactic(auto, using(std::proofs::lemmas::Grind::common_steps, crate::proofs::ExprRolls::expr_rules))]
pub fn translate_expr(alloc: Global, names: &Numbering, e: &Tree) -> Result<Expr, Memory>
    ensures expr { IfOk result (λ made. made ≡ expr_of names.now e.now) }
{
    match e {
        Tree::Number(number) => Ok(Expr::Num(*number)),
        Tree::Word(points) => word(alloc, points),
        Tree::Truth(truth) => Ok(Expr::Truth(*truth)),
        Tree::Name { meaning: means, .. } => meaning(alloc, names, means),
        Tree::Part { whole, number, .. } => Ok(Expr::Part(boxed(alloc, names, whole)?, *number)),
        Tree::Branch { whole, number, .. } => Ok(Expr::Arm(boxed(alloc, names, whole)?, *number)),
        Tree::Index { array, index, .. } => {
            let array = boxed(alloc, names, array)?;
            Ok(Expr::Elem(array, boxed(alloc, names, index)?))
        }
        Tree::Pis { value, number } => Ok(Expr::IsArm(boxed(alloc, names, value)?, *number)),
        Tree::Plen(value) => Ok(Expr::Len(boxed(alloc, names, value)?)),
        Tree::Minus(operand) => Ok(Expr::Neg(boxed(alloc, names, operand)?)),
        Tree::Not(operand) => Ok(Expr::Not(boxed(alloc, names, operand)?)),
        Tree::Binary {
            operator: op,
            left,
            right,
        } => {
            let left = boxed(alloc, names, left)?;
            Ok(Expr::Bin(*op, left, boxed(alloc, names, right)?))
        }
        Tree::Pforall {
            variable,
            low,
            high,
            body,
        } => {
            let number = names.number(variable.as_slice());
            let low = boxed(alloc, names, low)?;
            let high = boxed(alloc, names, high)?;
            Ok(Expr::Forall(number, low, high, boxed(alloc, names, body)?))
        }
    }
}

#[cycle(expr)]
fn boxed(alloc: Global, names: &Numbering, e: &Boxed<Tree>) -> Result<Boxed<Expr>, Memory>
    ensures expr { IfOk result (λ made. made ≡ expr_of names.now e.now) }
{
    Boxed::new(alloc, translate_expr(alloc, names, e.get())?)
}

/// The translation of an expression, if there is one.
pub fn translate_option(
    alloc: Global,
    names: &Numbering,
    e: &Option<Tree>,
) -> Result<Option<Expr>, Memory>
    ensures expr { IfOk result (λ made. made ≡ option_of names.now e.now) }
{
    match e {
        None => Ok(None),
        Some(e) => Ok(Some(translate_expr(alloc, names, e)?)),
    }
}

/// The translations of expressions in their order.
pub fn translate_exprs(alloc: Global, names: &Numbering, es: &[Tree]) -> Result<Items<Expr>, Memory>
    ensures exprs { IfOk result (λ made. made ≡ map (expr_of names.now) es.now) }
{
    let mut made = Items::new(alloc);
    for e in es {
        made.push(translate_expr(alloc, names, e)?)?;
    }
    Ok(made)
}
