//! The bodies of declarations.

ghost use Rattle.std.specs.Prelude.{◌≡◌, IfOk};
ghost use Rattle.pads_resolve.specs.Borrowed.{stands};
ghost use Rattle.pads_resolution.specs.Bodies as bodies;
ghost use Rattle.pads_resolution.specs.Types as types;

use crate::arrays::array_at;
use crate::structs::struct_at;
use crate::typedefs::typedef_at;
use crate::unions::union_at;
use crate::{ResolvingSite, labels_of, type_at};
use pads_ast::{DeclBody as WrittenBody, Type as WrittenType};
use pads_resolution::{DeclBody, Type, Visible};
use pads_resolve_expr::NameScope;
use pads_value::{Items, Memory};
use std::alloc::Global;

/// The type of an optional behind its parameters.
#[tactic(auto, using(pads_resolve_expr::proofs::ScopeLemmas::scope_rules))]
fn opt_at(
    alloc: Global,
    site: &ResolvingSite<'_>,
    params: &[Visible],
    of: &WrittenType,
) -> Result<Type, Memory>
    ensures made { IfOk result (λ made. made ≡ types.type_at (stands site.now) params.now of.now) }
{
    type_at(alloc, site, &NameScope::Names(params), of)
}

/// The body of a declaration behind its parameters.
#[tactic(auto, unfolding(pads_resolution::specs::Bodies::body_at))]
pub(crate) fn body_at(
    alloc: Global,
    site: &ResolvingSite<'_>,
    params: Items<Visible>,
    body: &WrittenBody,
) -> Result<DeclBody, Memory>
    ensures made { IfOk result (λ made. made ≡ bodies.body_at (stands site.now) params body.now) }
{
    match body {
        WrittenBody::Struct(d) => Ok(DeclBody::Struct(struct_at(alloc, site, params, d)?)),
        WrittenBody::Union(d) => Ok(DeclBody::Union(union_at(alloc, site, params, &d.body)?)),
        WrittenBody::Array(d) => {
            let made = array_at(alloc, site, params.as_slice(), d)?;
            Ok(DeclBody::Array(made))
        }
        WrittenBody::Enum(d) => Ok(DeclBody::Enum(labels_of(alloc, d.labels.as_slice())?)),
        WrittenBody::Typedef(d) => {
            let made = typedef_at(alloc, site, params.as_slice(), d)?;
            Ok(DeclBody::Typedef(made))
        }
        WrittenBody::Opt(d) => Ok(DeclBody::Opt(opt_at(alloc, site, params.as_slice(), &d.of)?)),
    }
}
