//! The names of expressions.

ghost use Rattle.std.specs.Prelude.{◌≡◌, flat_map, OnOk};
ghost use Rattle.pads_ast.specs.NameTokens as tokens;
ghost use Rattle.pads_counts.specs.Met.{met, met_name, names_behind};

use pads_ast::{Expr, Link, Name, Step};
use pads_declared::NameSet;
use pads_value::Memory;

/// One name.
#[tactic(auto, unfolding(crate::specs::Met::met_name))]
pub(crate) fn meet_name(names: &mut NameSet, name: &Name) -> Result<(), Memory>
    ensures met { OnOk result (names.new ≡ met_name names.old name.now.text) }
{
    names.add(name.text.as_slice())?;
    Ok(())
}

/// The names of an expression.
#[cycle(meet)]
pub(crate) fn meet_expr(names: &mut NameSet, e: &Expr) -> Result<(), Memory>
    ensures met { OnOk result (names.new ≡ met names.old (tokens.names_in_expr e.now)) }
{
    match e {
        Expr::Chain { first, rest } => {
            meet_expr(names, first.get())?;
            meet_links(names, rest.as_slice())
        }
        Expr::Unary { operand, .. } => meet_expr(names, operand.get()),
        Expr::Post { base, steps } => {
            meet_expr(names, base.get())?;
            meet_steps(names, steps.as_slice())
        }
        Expr::Number { .. } | Expr::Word(_) | Expr::Truth { .. } => Ok(()),
        Expr::Name(name) => meet_name(names, name),
        Expr::Paren { inner, .. } => meet_expr(names, inner.get()),
        Expr::Pis { value, name, .. } => {
            meet_expr(names, value.get())?;
            meet_name(names, name)
        }
        Expr::Plen { value, .. } => meet_expr(names, value.get()),
        Expr::Pforall {
            variable,
            low,
            high,
            body,
            ..
        } => {
            meet_name(names, variable)?;
            meet_expr(names, low.get())?;
            meet_expr(names, high.get())?;
            meet_expr(names, body.get())
        }
    }
}

/// The names of operands behind a first one.
#[cycle(meet)]
fn meet_links(names: &mut NameSet, links: &[Link<Expr>]) -> Result<(), Memory>
    ensures met { OnOk result (names.new ≡ met names.old (flat_map (λ link. tokens.names_in_expr link.operand) links.now)) }
{
    for link in links {
        meet_expr(names, &link.operand)?;
    }
    Ok(())
}

/// The names of what stands behind an atom.
#[cycle(meet)]
fn meet_steps(names: &mut NameSet, steps: &[Step<Expr>]) -> Result<(), Memory>
    ensures met { OnOk result (names.new ≡ met names.old (flat_map names_behind steps.now)) }
{
    for next in steps {
        match next {
            Step::Name(name) => meet_name(names, name)?,
            Step::Index { index, .. } => meet_expr(names, index)?,
        }
    }
    Ok(())
}
