//! The declared types of a description.

ghost use Rattle.std.specs.Prelude.{◌≡◌, IfOk};
ghost use Rattle.pads_ast.specs.declared.decl.DeclBody.TheVariants as decl_body;
ghost use Rattle.pads_rules.specs.Resolving as resolving;
ghost use Rattle.pads_declared.specs.Leads as ways;

use crate::copies::{add_parts, branch_names, label_names, param_sorts};
use crate::leads::{jumped, lead_in, onward, settled};
use crate::records::is_record_list;
use crate::trees::{branches_of, name_of, params_of};
use crate::types::type_sort;
use crate::{Sight, TypeTable};
use pads_ast::{Decl, DeclBody, Part, Union};
use pads_rules::{Content, Declared, ExprSort, Form, Lead, Named};
use pads_value::{Items, Memory};
use std::alloc::Global;

/// The named parts of a struct.
fn fields(alloc: Global, sight: &Sight<'_>, parts: &[Part]) -> Result<Items<Named>, Memory>
    ensures fields { IfOk result (λ fields. fields ≡ resolving.fields sight.now parts.now) }
{
    let mut fields = Items::new(alloc);
    add_parts(alloc, sight, &mut fields, parts)?;
    Ok(fields)
}

/// The branches of a union.
#[tactic(auto, using(std::proofs::lemmas::Grind::common_steps, crate::proofs::Lists::lists))]
fn branches(alloc: Global, sight: &Sight<'_>, union: &Union) -> Result<Content, Memory>
    ensures branches { IfOk result (λ content. content ≡ resolving.content_in sight.now (decl_body.Union union.now)) }
{
    let branches = branches_of(alloc, &union.body)?;
    let names = branch_names(alloc, sight, branches.as_slice())?;
    Ok(Content::Branches(names))
}

/// What a declared type is made of.
fn content_in(alloc: Global, sight: &Sight<'_>, body: &DeclBody) -> Result<Content, Memory>
    ensures content { IfOk result (λ content. content ≡ resolving.content_in sight.now body.now) }
{
    match body {
        DeclBody::Struct(d) => Ok(Content::Fields(fields(alloc, sight, d.parts.as_slice())?)),
        DeclBody::Union(d) => branches(alloc, sight, d),
        DeclBody::Array(d) => Ok(Content::Element(type_sort(sight, &d.of))),
        DeclBody::Enum(d) => Ok(Content::Labels(label_names(alloc, d.labels.as_slice())?)),
        DeclBody::Typedef(_) | DeclBody::Opt(_) => Ok(Content::Inner),
    }
}

/// The sort of the type that a declaration declares.
fn sort_in(sight: &Sight<'_>, body: &DeclBody) -> ExprSort
    ensures sort { result ≡ resolving.sort_in sight.now body.now }
{
    let number = sight.number() as u64;
    match body {
        DeclBody::Struct(_) => ExprSort::plain(Form::Struct(number)),
        DeclBody::Union(_) => ExprSort::plain(Form::Union(number)),
        DeclBody::Array(_) => ExprSort::plain(Form::Array(number)),
        DeclBody::Enum(_) => ExprSort::plain(Form::Enum(number)),
        DeclBody::Typedef(d) => type_sort(sight, &d.of),
        DeclBody::Opt(d) => type_sort(sight, &d.of).optional(),
    }
}

/// The type that a declaration declares.
pub fn declare(alloc: Global, sight: &Sight<'_>, decl: &Decl) -> Result<Declared, Memory>
    ensures declared { IfOk result (λ declared. declared ≡ resolving.declare sight.now decl.now) }
{
    let name = Items::from_slice(alloc, name_of(&decl.body).text.as_slice())?;
    let params = param_sorts(alloc, sight, params_of(&decl.body))?;
    let content = content_in(alloc, sight, &decl.body)?;
    Ok(Declared {
        name,
        mark: decl.mark,
        record_list: is_record_list(sight, decl),
        params,
        sort: sort_in(sight, &decl.body),
        content,
    })
}

/// A declared type as far as the type names of others ask for it.
fn outline(alloc: Global, sort: ExprSort, decl: &Decl) -> Result<Declared, Memory>
    ensures outline { IfOk result (λ declared. declared ≡ resolving.outline sort decl.now) }
{
    let name = Items::from_slice(alloc, name_of(&decl.body).text.as_slice())?;
    Ok(Declared {
        name,
        mark: decl.mark,
        record_list: false,
        params: Items::new(alloc),
        sort,
        content: Content::Inner,
    })
}

/// The types before any sort is known.
#[tactic(auto, unfolding(pads_rules::specs::Resolving::unsorted))]
fn unsorted(alloc: Global, decls: &[Decl]) -> Result<TypeTable, Memory>
    ensures types { IfOk result (λ types. types ≡ resolving.unsorted decls.now) }
{
    let mut types = TypeTable::new(alloc);
    for decl in decls {
        types = types.with(alloc, outline(alloc, ExprSort::Unknown, decl)?)?;
    }
    Ok(types)
}

/// What the sorts of the types come from, in order.
fn leads(alloc: Global, types: &TypeTable, decls: &[Decl]) -> Result<Items<Lead>, Memory>
    ensures leads { IfOk result (λ leads. leads ≡ ways.leads_among types.now decls.now) }
{
    let mut leads = Items::new(alloc);
    for decl in decls {
        let number = leads.len() as usize;
        leads.push(lead_in(&types.seen_from(number), &decl.body))?;
    }
    Ok(leads)
}

/// The types with the sorts to which their declarations lead.
fn sorted(
    alloc: Global,
    unsorted: &TypeTable,
    far: &Items<Lead>,
    decls: &[Decl],
) -> Result<TypeTable, Memory>
    ensures types { IfOk result (λ types. types ≡ ways.sorted_by unsorted.now far.now decls.now) }
{
    let mut types = TypeTable::new(alloc);
    for decl in decls {
        let lead = lead_in(&unsorted.seen_from(types.len()), &decl.body);
        let sort = settled(onward(far, lead));
        types = types.with(alloc, outline(alloc, sort, decl)?)?;
    }
    Ok(types)
}

/// The types with their sorts, before anything is declared of them.
fn outlines(alloc: Global, decls: &[Decl]) -> Result<TypeTable, Memory>
    ensures types { IfOk result (λ types. types ≡ resolving.outlines decls.now) }
{
    let bare = unsorted(alloc, decls)?;
    let near = leads(alloc, &bare, decls)?;
    let far = jumped(alloc, &near, near.len())?;
    sorted(alloc, &bare, &far, decls)
}

/// The types that the declarations declare, as they see some types.
fn declared_by(alloc: Global, outlines: &TypeTable, decls: &[Decl]) -> Result<TypeTable, Memory>
    ensures declared { IfOk result (λ types. types ≡ ways.declared_by outlines.now decls.now) }
{
    let mut types = TypeTable::new(alloc);
    for decl in decls {
        let next = declare(alloc, &outlines.seen_from(types.len()), decl)?;
        types = types.with(alloc, next)?;
    }
    Ok(types)
}

/// The declared types of a description, in order.
#[tactic(auto, unfolding(pads_rules::specs::Resolving::declared, crate::specs::Leads::declared_by))]
pub fn declared(alloc: Global, decls: &[Decl]) -> Result<TypeTable, Memory>
    ensures declared { IfOk result (λ types. types ≡ resolving.declared decls.now) }
{
    let outlines = outlines(alloc, decls)?;
    declared_by(alloc, &outlines, decls)
}
