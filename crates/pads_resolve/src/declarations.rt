//! Declarations.

ghost use Rattle.std.specs.Prelude.{◌≡◌, map, IfOk};
ghost use Rattle.pads_resolve.specs.Borrowed.{stands};
ghost use Rattle.pads_resolution.specs.Resolution as resolution;
ghost use Rattle.pads_resolve.specs.Places.{sites_among};

use crate::bodies::body_at;
use crate::sources::role_of;
use crate::{ResolvingSite, params_of, seen_types, variables};
use pads_declared::{TypeTable, name_of, params_of as params_in};
use pads_resolution::{Decl, Visible};
use pads_resolve_expr::{PartTable, text};
use pads_value::{Items, Memory};
use std::alloc::Global;

/// The parameters of a declaration as variables.
#[tactic(auto, unfolding(pads_resolution::specs::Resolution::params_scope))]
fn params_scope(alloc: Global, site: &ResolvingSite<'_>) -> Result<Items<Visible>, Memory>
    ensures made { IfOk result (λ made. made ≡ resolution.params_scope (stands site.now)) }
{
    variables(alloc, &seen_types(site), params_in(&site.decl.body))
}

/// A declaration.
#[tactic(auto, unfolding(pads_resolution::specs::Resolution::decl_at))]
fn decl_at(alloc: Global, site: &ResolvingSite<'_>) -> Result<Decl, Memory>
    ensures made { IfOk result (λ made. made ≡ resolution.decl_at (stands site.now)) }
{
    let name = text(alloc, name_of(&site.decl.body).text.as_slice())?;
    let params = params_of(alloc, &seen_types(site), params_in(&site.decl.body))?;
    let scope = params_scope(alloc, site)?;
    let body = body_at(alloc, site, scope, &site.decl.body)?;
    Ok(Decl {
        role: role_of(site),
        name,
        params,
        body,
    })
}

/// The declarations of a description, in order.
pub(crate) fn decls_of<'a>(
    alloc: Global,
    table: &'a PartTable<'a>,
    env: &'a TypeTable,
) -> Result<Items<Decl>, Memory>
    ensures made { IfOk result (λ made. made ≡ map resolution.decl_at (sites_among table.now env.now)) }
{
    let decls = table.as_slice();
    let mut made = Items::new(alloc);
    for number in 0..decls.len() {
        let site = ResolvingSite {
            decls: table,
            env,
            number,
            decl: &decls[number],
        };
        made.push(decl_at(alloc, &site)?)?;
    }
    Ok(made)
}
