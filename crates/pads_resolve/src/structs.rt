//! Structs.

ghost use Rattle.std.specs.Prelude.{◌≡◌, IfOk, OnOk};
ghost use Rattle.pads_resolve.specs.Borrowed.{stands};
ghost use Rattle.pads_resolution.specs.Bodies as bodies;
ghost use Rattle.pads_resolution.specs.Scopes as scopes;
ghost use Rattle.pads_resolution.specs.declared.decl.Part.TheVariants as part_form;
ghost use Rattle.pads_resolution.specs.Types as types;
ghost use Rattle.pads_rules.specs.Pieces as pieces;

use crate::branches::branch_in;
use crate::{
    ResolvingSite, add_variable, computed_of, expr_at, literal_of, seen_types, with_fields,
};
use pads_ast::{
    Expr as Tree, Name, Part as WrittenPart, Struct as WrittenStruct, Type as WrittenType,
};
use pads_resolution::{Expr, Part, Struct, Visible};
use pads_resolve_expr::{NameScope, text};
use pads_value::{Items, Memory};
use std::alloc::Global;

/// A computed field behind some names.
#[tactic(auto, using(pads_resolve_expr::proofs::ScopeLemmas::scope_rules))]
fn computed_at(
    alloc: Global,
    site: &ResolvingSite<'_>,
    names: &[Visible],
    of: &WrittenType,
    name: &Name,
    value: &Tree,
) -> Result<Part, Memory>
    ensures made { IfOk result (λ made. made ≡ part_form.Pcompute (types.computed_of of.now) name.now.text (bodies.expr_at (stands site.now) names.now value.now)) }
{
    let value = expr_at(alloc, site, &NameScope::Names(names), value)?;
    Ok(Part::Pcompute {
        of: computed_of(of),
        name: text(alloc, name.text.as_slice())?,
        value,
    })
}

/// A part of a struct, which puts its name behind those in scope, where it has one.
#[tactic(auto, unfolding(pads_resolution::specs::Bodies::part_at), using(crate::proofs::Steps::nothing_more))]
fn part_in(
    alloc: Global,
    site: &ResolvingSite<'_>,
    names: &mut Items<Visible>,
    part: &WrittenPart,
) -> Result<Part, Memory>
    ensures made { IfOk result (λ made. made ≡ bodies.part_at (stands site.now) names.old part.now) }
    ensures names { OnOk result (names.new ≡ scopes.names_after (pieces.sight (stands site.now)) names.old part.now) }
{
    match part {
        WrittenPart::Literal(literal) => Ok(Part::Literal(literal_of(alloc, literal)?)),
        WrittenPart::Pcompute { of, name, value } => {
            let made = computed_at(alloc, site, names.as_slice(), of, name, value)?;
            add_variable(alloc, &seen_types(site), names, name, of)?;
            Ok(made)
        }
        WrittenPart::Field(f) => Ok(Part::Field(branch_in(alloc, site, names, f)?)),
    }
}

/// The parts of a struct behind some names.
fn parts_at(
    alloc: Global,
    site: &ResolvingSite<'_>,
    params: Items<Visible>,
    parts: &[WrittenPart],
) -> Result<Items<Part>, Memory>
    ensures made { IfOk result (λ made. made ≡ bodies.parts_at (stands site.now) params parts.now) }
{
    let mut names = params;
    let mut made = Items::new(alloc);
    for part in parts {
        made.push(part_in(alloc, site, &mut names, part)?)?;
    }
    Ok(made)
}

/// The `Pwhere` of a struct, where it has one.
#[tactic(auto, using(pads_resolve_expr::proofs::ScopeLemmas::scope_rules))]
fn condition_at(
    alloc: Global,
    site: &ResolvingSite<'_>,
    params: &[Visible],
    d: &WrittenStruct,
) -> Result<Option<Expr>, Memory>
    ensures made { IfOk result (λ made. made ≡ bodies.option_at (stands site.now) (scopes.fields_after (pieces.sight (stands site.now)) params.now 0 d.now.parts) d.now.condition) }
{
    let Some(condition) = &d.condition else {
        return Ok(None);
    };
    let names = with_fields(alloc, &seen_types(site), params, d.parts.as_slice())?;
    let scope = NameScope::Names(names.as_slice());
    Ok(Some(expr_at(alloc, site, &scope, condition)?))
}

/// A struct behind its parameters.
#[tactic(auto, unfolding(pads_resolution::specs::Bodies::struct_at))]
pub(crate) fn struct_at(
    alloc: Global,
    site: &ResolvingSite<'_>,
    params: Items<Visible>,
    d: &WrittenStruct,
) -> Result<Struct, Memory>
    ensures made { IfOk result (λ made. made ≡ bodies.struct_at (stands site.now) params d.now) }
{
    let condition = condition_at(alloc, site, params.as_slice(), d)?;
    let parts = parts_at(alloc, site, params, d.parts.as_slice())?;
    Ok(Struct { parts, condition })
}
