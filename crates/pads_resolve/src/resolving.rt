//! The resolving of a description.

ghost use Rattle.std.specs.Prelude.{◌≡◌, IfOk};
ghost use Rattle.pads_resolution.specs.Resolution.{resolved};

use crate::declarations::decls_of;
use crate::sources::source_of;
use pads_ast::Ast;
use pads_declared::declared;
use pads_resolution::Description;
use pads_resolve_expr::PartTable;
use pads_value::Memory;
use std::alloc::Global;

/// What a description resolves to. Of one that breaks no rule it is the tree that records are read by; what breaks a
/// rule has a default in its place.
#[tactic(auto, unfolding(pads_resolution::specs::Resolution::resolved))]
pub fn resolve(alloc: Global, tree: &Ast) -> Result<Description, Memory>
    ensures resolved { IfOk result (λ description. description ≡ resolved tree.now) }
{
    let decls = tree.decls.as_slice();
    let types = declared(alloc, decls)?;
    let table = PartTable::new(alloc, decls)?;
    let source = source_of(&table, &types);
    let decls = decls_of(alloc, &table, &types)?;
    Ok(Description { decls, source })
}
