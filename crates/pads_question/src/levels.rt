//! Resolved expressions as those of filters.

ghost use Rattle.std.specs.Prelude.{◌≡◌, ◌∷◌, length, IfOk};
ghost use Rattle.pads_resolution.specs.Numbers.{short};
ghost use Rattle.pads_expr.specs.declared.expr.Expr.TheVariants as expr_form;
ghost use Rattle.pads_question.specs.Levels as levels;
ghost use Rattle.pads_question.specs.LevelScopes.{names_of};

use pads_declared::same_text;
use pads_expr::Expr;
use pads_resolution::{Expr as Tree, NameUse};
use pads_value::{Boxed, Bytes, Memory};
use std::alloc::Global;

/// The names in scope, on the stack.
#[derive(Clone, Copy)]
pub(crate) enum Levels<'s, 'a> {
    /// `it` alone.
    It,
    /// The variable of a `Pforall` inside others.
    Inside(&'a [u8], &'s Levels<'s, 'a>),
}

/// How many names are in scope.
fn count(scope: &Levels<'_, '_>) -> u16
    ensures count { result ≡ short (length (names_of scope.now)) }
{
    match scope {
        Levels::It => 1,
        Levels::Inside(_, outer) => count(*outer).saturating_add(1),
    }
}

/// The number of a name.
fn level(scope: &Levels<'_, '_>, name: &[u8]) -> u16
    ensures level { result ≡ levels.level_of (names_of scope.now) name.now }
{
    match scope {
        Levels::It => 0,
        Levels::Inside(inner, outer) => {
            if same_text(inner, name) {
                count(*outer)
            } else {
                level(*outer, name)
            }
        }
    }
}

/// What a name stands for.
#[tactic(auto, unfolding(crate::specs::Levels::level_of_use))]
fn meaning(scope: &Levels<'_, '_>, meaning: &NameUse) -> Expr
    ensures meaning { result ≡ levels.level_of_use (names_of scope.now) meaning.now }
{
    match meaning {
        NameUse::Variable(name) => Expr::Var(level(scope, name.as_slice())),
        NameUse::Elts | NameUse::Length | NameUse::Field(_) => Expr::Var(0),
    }
}

fn word(alloc: Global, points: &Bytes) -> Result<Expr, Memory>
    ensures text { IfOk result (λ made. made ≡ expr_form.Text points.now) }
{
    Ok(Expr::Text(Bytes::from_slice(alloc, points.as_slice())?))
}

/// A resolved expression as one of a filter, with these names in scope.
#[cycle(tree)]
#[tactic(auto, using(std::proofs::lemmas::Grind::common_steps, crate::proofs::LevelRolls::level_rules))]
pub(crate) fn levelled(alloc: Global, e: &Tree, scope: &Levels<'_, '_>) -> Result<Expr, Memory>
    ensures expr { IfOk result (λ made. made ≡ levels.levelled e.now (names_of scope.now)) }
{
    match e {
        Tree::Number(number) => Ok(Expr::Num(*number)),
        Tree::Word(points) => word(alloc, points),
        Tree::Truth(truth) => Ok(Expr::Truth(*truth)),
        Tree::Name { meaning: means, .. } => Ok(meaning(scope, means)),
        Tree::Part { whole, number, .. } => Ok(Expr::Part(boxed(alloc, whole, scope)?, *number)),
        Tree::Branch { whole, number, .. } => Ok(Expr::Arm(boxed(alloc, whole, scope)?, *number)),
        Tree::Index { array, index, .. } => {
            let array = boxed(alloc, array, scope)?;
            Ok(Expr::Elem(array, boxed(alloc, index, scope)?))
        }
        Tree::Pis { value, number } => Ok(Expr::IsArm(boxed(alloc, value, scope)?, *number)),
        Tree::Plen(value) => Ok(Expr::Len(boxed(alloc, value, scope)?)),
        Tree::Minus(operand) => Ok(Expr::Neg(boxed(alloc, operand, scope)?)),
        Tree::Not(operand) => Ok(Expr::Not(boxed(alloc, operand, scope)?)),
        Tree::Binary {
            operator: op,
            left,
            right,
        } => {
            let left = boxed(alloc, left, scope)?;
            Ok(Expr::Bin(*op, left, boxed(alloc, right, scope)?))
        }
        Tree::Pforall {
            variable,
            low,
            high,
            body,
        } => {
            let number = count(scope);
            let low = boxed(alloc, low, scope)?;
            let high = boxed(alloc, high, scope)?;
            let body = boxed_inside(alloc, body, variable, scope)?;
            Ok(Expr::Forall(number, low, high, body))
        }
    }
}

#[cycle(tree)]
fn boxed(alloc: Global, e: &Boxed<Tree>, scope: &Levels<'_, '_>) -> Result<Boxed<Expr>, Memory>
    ensures expr { IfOk result (λ made. made ≡ levels.levelled e.now (names_of scope.now)) }
{
    Boxed::new(alloc, levelled(alloc, e.get(), scope)?)
}

/// The body of a `Pforall`, in which its variable is one name more.
#[cycle(tree)]
#[tactic(auto, using(std::proofs::lemmas::Grind::common_steps, crate::proofs::LevelRolls::scope_rules))]
fn boxed_inside(
    alloc: Global,
    e: &Boxed<Tree>,
    variable: &Bytes,
    scope: &Levels<'_, '_>,
) -> Result<Boxed<Expr>, Memory>
    ensures expr { IfOk result (λ made. made ≡ levels.levelled e.now (variable.now ∷ names_of scope.now)) }
{
    boxed(alloc, e, &Levels::Inside(variable.as_slice(), &*scope))
}
