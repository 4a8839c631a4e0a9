//! Expressions.

ghost use Rattle.std.specs.Prelude.{◌≡◌, IfOk, fold};
ghost use Rattle.pads_rules.specs.Sorts as sorts;
ghost use Rattle.pads_resolution.specs.declared.visible.Stands.TheVariants as stands_form;
ghost use Rattle.pads_resolution.specs.Expressions as expressions;
ghost use Rattle.pads_resolution.specs.Expressions.{expression};
ghost use Rattle.pads_resolution.specs.Chains.{linked, stepped};
ghost use Rattle.pads_resolution.specs.Scopes.{hiding};
ghost use Rattle.pads_resolve_expr.specs.Scopes.{names_in_scope};

use crate::names::name_in;
use crate::nodes::{binary, indexed, member_of, number, pforall, pis, plen, truth, unary, word};
use crate::{NameScope, Types};
use pads_ast::{Expr, Link, Name, Step, UnaryOperator};
use pads_expr::BinOp;
use pads_resolution::{ResolvedExpr, Stands};
use pads_rules::{ExprSort, Form};
use pads_value::Memory;
use std::alloc::Global;

/// What an expression resolves to with the declarations of its description, in a scope.
#[cycle(resolve)]
#[tactic(auto, using(std::proofs::lemmas::Grind::common_steps, pads_resolution::proofs::Forms::forms))]
pub fn resolve_expr(
    alloc: Global,
    types: &Types<'_>,
    e: &Expr,
    scope: &NameScope<'_, '_>,
) -> Result<ResolvedExpr, Memory>
    ensures resolved { IfOk result (λ made. made ≡ expression types.now.decls.now types.now.env.now e.now (names_in_scope scope.now)) }
{
    match e {
        Expr::Chain { first, rest } => {
            let first = resolve_expr(alloc, types, first.get(), scope)?;
            chain(alloc, types, rest.as_slice(), first, scope)
        }
        Expr::Unary {
            operator,
            operand,
            ..
        } => signed(alloc, types, *operator, operand.get(), scope),
        Expr::Post { base, steps } => {
            let base = resolve_expr(alloc, types, base.get(), scope)?;
            post(alloc, types, steps.as_slice(), base, scope)
        }
        Expr::Number { value, .. } => Ok(number(value)),
        Expr::Word(written) => word(alloc, written),
        Expr::Truth { value, .. } => Ok(truth(*value)),
        Expr::Name(name) => name_in(alloc, scope, name.text.as_slice()),
        Expr::Paren { inner, .. } => resolve_expr(alloc, types, inner.get(), scope),
        Expr::Pis { value, name, .. } => choice(alloc, types, value.get(), name, scope),
        Expr::Plen { value, .. } => length(alloc, types, value.get(), scope),
        Expr::Pforall {
            variable,
            low,
            high,
            body,
            ..
        } => {
            let low = resolve_expr(alloc, types, low.get(), scope)?;
            let high = resolve_expr(alloc, types, high.get(), scope)?;
            let body = in_variable(alloc, types, variable, body.get(), scope)?;
            pforall(alloc, variable.text.as_slice(), low, high, body)
        }
    }
}

/// Operators with their operands behind a first operand, nested to the left.
#[cycle(resolve)]
#[tactic(auto, unfolding(pads_resolution::specs::Chains::linked))]
fn chain(
    alloc: Global,
    types: &Types<'_>,
    links: &[Link<Expr>],
    first: ResolvedExpr,
    scope: &NameScope<'_, '_>,
) -> Result<ResolvedExpr, Memory>
    ensures links { IfOk result (λ made. made ≡ fold (linked types.now.decls.now types.now.env.now (names_in_scope scope.now)) first links.now) }
{
    let mut left = first;
    for link in links {
        left = link_behind(alloc, types, link.operator, &link.operand, left, scope)?;
    }
    Ok(left)
}

/// An operator and its right operand behind a left one.
#[cycle(resolve)]
fn link_behind(
    alloc: Global,
    types: &Types<'_>,
    operator: BinOp,
    operand: &Expr,
    left: ResolvedExpr,
    scope: &NameScope<'_, '_>,
) -> Result<ResolvedExpr, Memory>
    ensures made { IfOk result (λ made. made ≡ expressions.binary operator left (expression types.now.decls.now types.now.env.now operand.now (names_in_scope scope.now))) }
{
    let right = resolve_expr(alloc, types, operand, scope)?;
    binary(alloc, operator, left, right)
}

/// A sign before an operand.
#[cycle(resolve)]
#[tactic(auto, using(std::proofs::lemmas::Grind::common_steps, pads_resolution::proofs::Forms::forms))]
fn signed(
    alloc: Global,
    types: &Types<'_>,
    operator: UnaryOperator,
    operand: &Expr,
    scope: &NameScope<'_, '_>,
) -> Result<ResolvedExpr, Memory>
    ensures made { IfOk result (λ made. made ≡ expressions.unary operator (expression types.now.decls.now types.now.env.now operand.now (names_in_scope scope.now))) }
{
    let operand = resolve_expr(alloc, types, operand, scope)?;
    unary(alloc, operator, operand)
}

/// Names and indexes behind an atom, nested to the left.
#[cycle(resolve)]
#[tactic(auto, unfolding(pads_resolution::specs::Chains::stepped))]
fn post(
    alloc: Global,
    types: &Types<'_>,
    steps: &[Step<Expr>],
    base: ResolvedExpr,
    scope: &NameScope<'_, '_>,
) -> Result<ResolvedExpr, Memory>
    ensures steps { IfOk result (λ made. made ≡ fold (stepped types.now.decls.now types.now.env.now (names_in_scope scope.now)) base steps.now) }
{
    let mut whole = base;
    for next in steps {
        whole = match next {
            Step::Name(name) => member_of(alloc, types, whole, name.text.as_slice())?,
            Step::Index { index, .. } => index_behind(alloc, types, index, whole, scope)?,
        };
    }
    Ok(whole)
}

/// An index behind something.
#[cycle(resolve)]
fn index_behind(
    alloc: Global,
    types: &Types<'_>,
    index: &Expr,
    whole: ResolvedExpr,
    scope: &NameScope<'_, '_>,
) -> Result<ResolvedExpr, Memory>
    ensures made { IfOk result (λ made. made ≡ expressions.indexed types.now.env.now whole (expression types.now.decls.now types.now.env.now index.now (names_in_scope scope.now))) }
{
    let index = resolve_expr(alloc, types, index, scope)?;
    indexed(alloc, types.env, whole, index)
}

/// `Pis` of a value and a name.
#[cycle(resolve)]
fn choice(
    alloc: Global,
    types: &Types<'_>,
    value: &Expr,
    name: &Name,
    scope: &NameScope<'_, '_>,
) -> Result<ResolvedExpr, Memory>
    ensures made { IfOk result (λ made. made ≡ expressions.pis types.now.env.now (expression types.now.decls.now types.now.env.now value.now (names_in_scope scope.now)) name.now.text) }
{
    let value = resolve_expr(alloc, types, value, scope)?;
    pis(alloc, types.env, value, name.text.as_slice())
}

/// `Plen` of a value.
#[cycle(resolve)]
fn length(
    alloc: Global,
    types: &Types<'_>,
    value: &Expr,
    scope: &NameScope<'_, '_>,
) -> Result<ResolvedExpr, Memory>
    ensures made { IfOk result (λ made. made ≡ expressions.plen (expression types.now.decls.now types.now.env.now value.now (names_in_scope scope.now))) }
{
    let value = resolve_expr(alloc, types, value, scope)?;
    plen(alloc, value)
}

/// The body of a `Pforall`, in which its variable hides other names.
#[cycle(resolve)]
#[tactic(auto, using(std::proofs::lemmas::Grind::common_steps, crate::proofs::ScopeLemmas::scope_rules))]
fn in_variable(
    alloc: Global,
    types: &Types<'_>,
    variable: &Name,
    body: &Expr,
    scope: &NameScope<'_, '_>,
) -> Result<ResolvedExpr, Memory>
    ensures made { IfOk result (λ made. made ≡ expression types.now.decls.now types.now.env.now body.now (hiding variable.now.text stands_form.Variable sorts.num (names_in_scope scope.now))) }
{
    let name = variable.text.as_slice();
    let num = ExprSort::plain(Form::Num);
    resolve_expr(
        alloc,
        types,
        body,
        &NameScope::Hiding(name, Stands::Variable, num, &*scope),
    )
}
