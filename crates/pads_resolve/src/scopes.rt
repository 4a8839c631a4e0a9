//! The names in scope.

ghost use Rattle.std.specs.Prelude.{◌≡◌, ◌++◌, ◌∷◌, [], map, IfOk, OnOk};
ghost use Rattle.pads_resolution.specs.Scopes as scopes;
ghost use Rattle.pads_rules.specs.Resolving.{named, param_named};
ghost use Rattle.pads_ast.specs.Trees.{named_part};

use pads_ast::{Name, Param, Part, Type};
use pads_declared::{Sight, type_sort};
use pads_resolution::{Known, Stands, Visible};
use pads_resolve_expr::{short, text};
use pads_rules::ExprSort;
use pads_value::{Items, Memory};
use std::alloc::Global;

/// A name that stands for something of a sort.
fn name_as(alloc: Global, name: &[u8], what: Stands, sort: ExprSort) -> Result<Visible, Memory>
    ensures made { IfOk result (λ made. made ≡ scopes.name_as name.now what sort) }
{
    let text = text(alloc, name)?;
    let known = Known { stands: what, sort };
    Ok(Visible { text, known })
}

/// Puts a name behind some others.
fn add(
    alloc: Global,
    names: &mut Items<Visible>,
    name: &[u8],
    what: Stands,
    sort: ExprSort,
) -> Result<(), Memory>
    ensures added { OnOk result (names.new ≡ names.old ++ scopes.name_as name.now what sort ∷ []) }
{
    let visible = name_as(alloc, name, what, sort)?;
    names.push(visible)
}

/// Puts the name of something of a type behind some others, as a variable.
pub fn add_variable(
    alloc: Global,
    sight: &Sight<'_>,
    names: &mut Items<Visible>,
    name: &Name,
    of: &Type,
) -> Result<(), Memory>
    ensures added { OnOk result (names.new ≡ names.old ++ scopes.variable (named sight.now (name.now, of.now)) ∷ []) }
{
    let sort = type_sort(sight, of);
    add(alloc, names, name.text.as_slice(), Stands::Variable, sort)
}

/// The parameters of a declaration as variables.
pub fn variables(
    alloc: Global,
    sight: &Sight<'_>,
    params: &[Param],
) -> Result<Items<Visible>, Memory>
    ensures made { IfOk result (λ made. made ≡ map (λ param. scopes.variable (param_named sight.now param)) params.now) }
{
    let mut names = Items::new(alloc);
    for param in params {
        add_variable(alloc, sight, &mut names, &param.name, &param.of)?;
    }
    Ok(names)
}

/// The same names once more.
fn copied(alloc: Global, names: &[Visible]) -> Result<Items<Visible>, Memory>
    ensures same { IfOk result (λ made. made ≡ names.now) }
{
    let mut made = Items::new(alloc);
    for name in names {
        let known = name.known;
        add(
            alloc,
            &mut made,
            name.text.as_slice(),
            known.stands,
            known.sort,
        )?;
    }
    Ok(made)
}

/// Puts the name of something of a type behind some others, as a field by number.
fn add_numbered(
    alloc: Global,
    sight: &Sight<'_>,
    names: &mut Items<Visible>,
    number: usize,
    name: &Name,
    of: &Type,
) -> Result<(), Memory>
    ensures added { OnOk result (names.new ≡ names.old ++ scopes.field sight.now number (name.now, of.now) ∷ []) }
{
    let what = Stands::Field(short(number));
    add(
        alloc,
        names,
        name.text.as_slice(),
        what,
        type_sort(sight, of),
    )
}

/// Puts the name of a part of a number behind some others, where it has one.
#[tactic(auto, using(crate::proofs::Steps::nothing_more))]
fn add_field(
    alloc: Global,
    sight: &Sight<'_>,
    names: &mut Items<Visible>,
    number: usize,
    part: &Part,
) -> Result<(), Memory>
    ensures added { OnOk result (names.new ≡ names.old ++ map (scopes.field sight.now number) (named_part part.now)) }
{
    match part {
        Part::Literal(_) => Ok(()),
        Part::Pcompute { of, name, .. } => add_numbered(alloc, sight, names, number, name, of),
        Part::Field(f) => add_numbered(alloc, sight, names, number, &f.name, &f.of),
    }
}

/// The names in the `Pwhere` of a struct behind those of its parameters: its fields, by their numbers among all parts.
pub fn with_fields(
    alloc: Global,
    sight: &Sight<'_>,
    params: &[Visible],
    parts: &[Part],
) -> Result<Items<Visible>, Memory>
    ensures made { IfOk result (λ made. made ≡ scopes.fields_after sight.now params.now 0 parts.now) }
{
    let mut names = copied(alloc, params)?;
    for number in 0..parts.len() {
        add_field(alloc, sight, &mut names, number, &parts[number])?;
    }
    Ok(names)
}
