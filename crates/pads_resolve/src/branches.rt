//! Fields of structs and branches of unions.

ghost use Rattle.std.specs.Prelude.{◌≡◌, ◌++◌, ◌∷◌, [], IfOk, OnOk};
ghost use Rattle.pads_resolve.specs.Borrowed.{stands};
ghost use Rattle.pads_resolution.specs.Bodies as bodies;
ghost use Rattle.pads_resolution.specs.Scopes.{variable};
ghost use Rattle.pads_rules.specs.Pieces as pieces;
ghost use Rattle.pads_rules.specs.Resolving.{branch_named};

use crate::{ResolvingSite, add_variable, option_at, seen_types, type_at};
use pads_ast::Branch as WrittenBranch;
use pads_resolution::{Branch, Visible};
use pads_resolve_expr::{NameScope, text};
use pads_value::{Items, Memory};
use std::alloc::Global;

/// A field or branch, which puts its name behind those in scope: its type doesn't see it, its constraint does.
#[tactic(auto, unfolding(pads_resolution::specs::Bodies::branch_at), using(pads_resolve_expr::proofs::ScopeLemmas::scope_rules))]
pub(crate) fn branch_in(
    alloc: Global,
    site: &ResolvingSite<'_>,
    names: &mut Items<Visible>,
    f: &WrittenBranch,
) -> Result<Branch, Memory>
    ensures made { IfOk result (λ made. made ≡ bodies.branch_at (stands site.now) names.old f.now) }
    ensures names { OnOk result (names.new ≡ names.old ++ variable (branch_named (pieces.sight (stands site.now)) f.now) ∷ []) }
{
    let of = type_at(alloc, site, &NameScope::Names(names.as_slice()), &f.of)?;
    add_variable(alloc, &seen_types(site), names, &f.name, &f.of)?;
    let scope = NameScope::Names(names.as_slice());
    let constraint = option_at(alloc, site, &scope, &f.constraint)?;
    let name = text(alloc, f.name.text.as_slice())?;
    Ok(Branch {
        of,
        name,
        constraint,
    })
}
