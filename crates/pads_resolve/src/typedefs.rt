//! Typedefs.

ghost use Rattle.std.specs.Prelude.{◌≡◌, option_map, IfOk};
ghost use Rattle.pads_resolve.specs.Borrowed.{stands};
ghost use Rattle.pads_resolution.specs.Bodies as bodies;

use crate::{ResolvingSite, expr_at, seen_types, type_at};
use pads_ast::{Constraint as WrittenConstraint, Typedef as WrittenTypedef};
use pads_declared::type_sort;
use pads_resolution::{Constraint, Stands, Typedef, Visible};
use pads_resolve_expr::{NameScope, text};
use pads_value::Memory;
use std::alloc::Global;

/// The constraint of a typedef, in which its variable hides other names.
#[tactic(auto, unfolding(pads_resolution::specs::Bodies::constraint_at), using(pads_resolve_expr::proofs::ScopeLemmas::scope_rules))]
fn constraint_at(
    alloc: Global,
    site: &ResolvingSite<'_>,
    params: &[Visible],
    d: &WrittenTypedef,
    c: &WrittenConstraint,
) -> Result<Constraint, Memory>
    ensures made { IfOk result (λ made. made ≡ bodies.constraint_at (stands site.now) params.now d.now c.now) }
{
    let name = c.variable.text.as_slice();
    let sort = type_sort(&seen_types(site), &d.of);
    let outside = NameScope::Names(params);
    let scope = NameScope::Hiding(name, Stands::Variable, sort, &outside);
    let condition = expr_at(alloc, site, &scope, &c.condition)?;
    Ok(Constraint {
        variable: text(alloc, name)?,
        condition,
    })
}

/// The constraint of a typedef, where it has one.
fn optional_constraint_at(
    alloc: Global,
    site: &ResolvingSite<'_>,
    params: &[Visible],
    d: &WrittenTypedef,
) -> Result<Option<Constraint>, Memory>
    ensures made { IfOk result (λ made. made ≡ option_map (bodies.constraint_at (stands site.now) params.now d.now) d.now.constraint) }
{
    match &d.constraint {
        None => Ok(None),
        Some(c) => Ok(Some(constraint_at(alloc, site, params, d, c)?)),
    }
}

/// A typedef behind its parameters.
#[tactic(auto, unfolding(pads_resolution::specs::Bodies::typedef_at), using(pads_resolve_expr::proofs::ScopeLemmas::scope_rules))]
pub(crate) fn typedef_at(
    alloc: Global,
    site: &ResolvingSite<'_>,
    params: &[Visible],
    d: &WrittenTypedef,
) -> Result<Typedef, Memory>
    ensures made { IfOk result (λ made. made ≡ bodies.typedef_at (stands site.now) params.now d.now) }
{
    let of = type_at(alloc, site, &NameScope::Names(params), &d.of)?;
    let constraint = optional_constraint_at(alloc, site, params, d)?;
    Ok(Typedef { of, constraint })
}
