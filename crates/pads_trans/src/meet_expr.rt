//! The names that an expression gives, met from the left.
ghost use Rattle.std.specs.Prelude.{◌≡◌, ◌++◌, ◌∷◌, OnOk};
ghost use Rattle.std.specs.List.{flat_map};
ghost use Rattle.pads_trans.specs.Met.{in_expr, in_option};
ghost use Rattle.pads_trans.specs.Names.{with_names};

use crate::names::Names;
use pads_resolution::Expr;
use pads_value::Memory;

/// The names of an expression.
#[tactic(auto, using(std::proofs::lemmas::Grind::common_steps, crate::proofs::MetRolls::met_rules))]
pub(crate) fn meet_expr(names: &mut Names, e: &Expr) -> Result<(), Memory>
    ensures met { OnOk result (names.new ≡ with_names names.old (in_expr e.now)) }
{
    match e {
        Expr::Number(_) | Expr::Word(_) | Expr::Truth(_) | Expr::Name { .. } => Ok(()),
        Expr::Part { whole, .. } | Expr::Branch { whole, .. } => meet_expr(names, whole.get()),
        Expr::Index { array, index, .. } => {
            meet_expr(names, array.get())?;
            meet_expr(names, index.get())
        }
        Expr::Pis { value, .. } | Expr::Plen(value) => meet_expr(names, value.get()),
        Expr::Minus(operand) | Expr::Not(operand) => meet_expr(names, operand.get()),
        Expr::Binary { left, right, .. } => {
            meet_expr(names, left.get())?;
            meet_expr(names, right.get())
        }
        Expr::Pforall {
            variable,
            low,
            high,
            body,
        } => {
            names.add(variable.as_slice())?;
            meet_expr(names, low.get())?;
            meet_expr(names, high.get())?;
            meet_expr(names, body.get())
        }
    }
}

/// The names of an expression, if there is one.
#[tactic(auto, unfolding(crate::specs::Met::in_option))]
pub(crate) fn meet_option(names: &mut Names, e: &Option<Expr>) -> Result<(), Memory>
    ensures met { OnOk result (names.new ≡ with_names names.old (in_option e.now)) }
{
    match e {
        None => Ok(()),
        Some(e) => meet_expr(names, e),
    }
}

/// The names of expressions in their order.
pub(crate) fn meet_exprs(names: &mut Names, es: &[Expr]) -> Result<(), Memory>
    ensures met { OnOk result (names.new ≡ with_names names.old (flat_map in_expr es.now)) }
{
    for e in es {
        meet_expr(names, e)?;
    }
    Ok(())
}
