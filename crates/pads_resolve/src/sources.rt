//! The record types of sources.

ghost use Rattle.std.specs.Prelude.{◌≡◌, slice_get};
ghost use Rattle.std.specs.Option.{option_copied};
ghost use Rattle.pads_resolve.specs.Borrowed.{stands};
ghost use Rattle.pads_resolution.specs.Resolution as resolution;
ghost use Rattle.pads_resolve.specs.Places.{sites_among};

use crate::{ResolvingSite, seen_types};
use pads_ast::{Decl as WrittenDecl, DeclBody, DeclMark, Part, Type};
use pads_declared::{Sight, TypeTable, is_precord, is_psource, is_record_list};
use pads_resolution::{Role, Source};
use pads_resolve_expr::{PartTable, number_of, short};

/// What a declaration is for.
#[tactic(auto, unfolding(pads_resolution::specs::Resolution::role_of))]
pub(crate) fn role_of(site: &ResolvingSite<'_>) -> Role
    ensures role { result ≡ resolution.role_of (stands site.now) }
{
    if is_precord(site.decl.mark) {
        return Role::Precord;
    }
    if is_psource(site.decl.mark) || is_record_list(&seen_types(site), site.decl) {
        return Role::Source;
    }
    Role::Part
}

/// The number of the declaration that a type names.
#[tactic(auto, unfolding(pads_resolution::specs::Resolution::named_number))]
fn named_number(types: &Sight<'_>, of: &Type) -> u16
    ensures number { result ≡ resolution.named_number types.now of.now }
{
    number_of(types.number_of(of.name.text.as_slice()))
}

/// The record type of a record list.
fn listed_record(types: &Sight<'_>, body: &DeclBody) -> u16
    ensures number { result ≡ resolution.listed_record types.now body.now }
{
    match body {
        DeclBody::Array(d) => named_number(types, &d.of),
        _ => 0,
    }
}

/// A declaration by its number.
fn decl(decls: &[WrittenDecl], number: u16) -> Option<&WrittenDecl>
    ensures found { option_copied result ≡ slice_get decls.now number }
{
    decls.get(number as usize)
}

/// The record type of a declared record list, by the list's number.
#[tactic(auto, unfolding(pads_resolution::specs::Resolution::list_record))]
fn list_record(site: &ResolvingSite<'_>, list: u16) -> u16
    ensures number { result ≡ resolution.list_record (stands site.now) list }
{
    match decl(site.decls.as_slice(), list) {
        Some(d) => listed_record(&site.env.seen_from(list as usize), &d.body),
        None => 0,
    }
}

/// A source of records of one type, without a header.
fn plain_source(record_type: u16) -> Source
    ensures source { result ≡ resolution.plain_source record_type }
{
    Source {
        header: None,
        record: record_type,
    }
}

/// A source with a header: the type of the first field is the header's, that of the second lists the other records.
fn headed_source(site: &ResolvingSite<'_>, header: &Type, list: &Type) -> Source
    ensures source { result ≡ resolution.headed_source (stands site.now) header.now list.now }
{
    let types = seen_types(site);
    Source {
        header: Some(named_number(&types, header)),
        record: list_record(site, named_number(&types, list)),
    }
}

fn parts_source(site: &ResolvingSite<'_>, parts: &[Part]) -> Source
    ensures source { result ≡ resolution.parts_source (stands site.now) parts.now }
{
    match parts {
        [Part::Field(header), Part::Field(list)] => headed_source(site, &header.of, &list.of),
        _ => plain_source(0),
    }
}

/// The source that a `Psource` declaration shapes: a record list, or a struct of a header and a record list.
fn shaped_source(site: &ResolvingSite<'_>, body: &DeclBody) -> Source
    ensures source { result ≡ resolution.shaped_source (stands site.now) body.now }
{
    match body {
        DeclBody::Struct(d) => parts_source(site, d.parts.as_slice()),
        DeclBody::Array(d) => plain_source(named_number(&seen_types(site), &d.of)),
        _ => plain_source(0),
    }
}

/// The source behind a declaration, after that before it.
#[tactic(auto, unfolding(pads_resolution::specs::Resolution::source_after))]
fn source_after(source: Source, site: &ResolvingSite<'_>) -> Source
    ensures source { result ≡ resolution.source_after source (stands site.now) }
{
    match site.decl.mark {
        None => source,
        Some(DeclMark::Precord) => plain_source(short(site.number)),
        Some(DeclMark::Psource) => shaped_source(site, &site.decl.body),
        Some(DeclMark::Precursive) => source,
    }
}

/// The source of a description.
#[tactic(auto, unfolding(pads_resolution::specs::Resolution::source_of))]
pub(crate) fn source_of<'a>(table: &'a PartTable<'a>, env: &'a TypeTable) -> Source
    ensures source { result ≡ resolution.source_of (sites_among table.now env.now) }
{
    let decls = table.as_slice();
    let mut source = plain_source(0);
    for number in 0..decls.len() {
        let site = ResolvingSite {
            decls: table,
            env,
            number,
            decl: &decls[number],
        };
        source = source_after(source, &site);
    }
    source
}
