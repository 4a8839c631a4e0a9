//! Expressions in declarations.

ghost use Rattle.std.specs.Prelude.{◌≡◌, IfOk};
ghost use Rattle.pads_resolve.specs.Borrowed.{stands};
ghost use Rattle.pads_resolution.specs.Bodies as bodies;
ghost use Rattle.pads_resolve_expr.specs.Scopes.{names_in_scope};

use crate::site::ResolvingSite;
use pads_ast::Expr as Tree;
use pads_resolution::{Expr, ResolvedExpr};
use pads_resolve_expr::{NameScope, Types, resolve_expr};
use pads_value::Memory;
use std::alloc::Global;

/// An expression of a declaration, in a scope.
#[tactic(auto, unfolding(pads_resolution::specs::Bodies::expr_at, pads_resolution::specs::Expressions::expr_of))]
pub fn expr_at(
    alloc: Global,
    site: &ResolvingSite<'_>,
    scope: &NameScope<'_, '_>,
    e: &Tree,
) -> Result<Expr, Memory>
    ensures made { IfOk result (λ made. made ≡ bodies.expr_at (stands site.now) (names_in_scope scope.now) e.now) }
{
    let types = Types {
        decls: site.decls,
        env: site.env,
    };
    let ResolvedExpr { expr, sort: _ } = resolve_expr(alloc, &types, e, scope)?;
    Ok(expr)
}

/// An expression, where one is written.
pub fn option_at(
    alloc: Global,
    site: &ResolvingSite<'_>,
    scope: &NameScope<'_, '_>,
    e: &Option<Tree>,
) -> Result<Option<Expr>, Memory>
    ensures made { IfOk result (λ made. made ≡ bodies.option_at (stands site.now) (names_in_scope scope.now) e.now) }
{
    match e {
        None => Ok(None),
        Some(e) => Ok(Some(expr_at(alloc, site, scope, e)?)),
    }
}
