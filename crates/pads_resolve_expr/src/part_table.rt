//! The parts of structs, found by their names.

ghost use Rattle.std.specs.Prelude.{◌≡◌, IfOk, OnOk};
ghost use Rattle.pads_declared.specs.Numbered.{IsNumbered, NumbersThing};
ghost use Rattle.pads_resolution.specs.Numbers.{has_name};
ghost use Rattle.pads_resolve_expr.specs.Parts.{parts_in, part_position};

use pads_ast::{Decl, DeclBody, Part};
use pads_declared::FirstNumbers;
use pads_value::{Items, Memory};
use std::alloc::Global;
use std::marker::Model;

/// The declarations of a description. The first part of a name in a struct is found without a walk over the others.
/// Contracts see it as the list of the declarations.
#[derive(Drop)]
pub struct PartTable<'a> {
    decls: &'a [Decl],
    /// For each declaration the numbers of its named parts.
    numbers: Items<FirstNumbers>,
}

impl<'a> Model for PartTable<'a> {
    ghost use Rattle.std.specs.Prelude.{List};
    ghost use Rattle.std.specs.Coded.{codes};
    ghost use Rattle.pads_ast.specs.contracts.expr.Expr as expr;
    ghost use Rattle.pads_ast.specs.declared.decl.Decl.{Decl};
    ghost use Rattle.pads_resolve_expr.specs.Parts.{AreNumbered};

    ghost Value = { List Decl };

    ghost coded = { Prim.hlevel (codes, expr.the_row.coded) };

    ghost view = { λ table. table.decls.now };

    ghost invariant = { λ table. AreNumbered table.decls.now table.numbers };
}

/// The parts of a struct; all else has none.
fn parts_in(body: &DeclBody) -> &[Part]
    ensures parts { result.now ≡ parts_in body.now }
{
    match body {
        DeclBody::Struct(d) => d.parts.as_slice(),
        _ => &[],
    }
}

/// Gives the name of a part its number, where the part has a name and the name has no number yet.
fn number_part(
    alloc: Global,
    numbers: &mut FirstNumbers,
    part: &Part,
    number: usize,
) -> Result<(), Memory>
    ensures numbered { OnOk result (NumbersThing has_name numbers.old part.now number numbers.new) }
{
    match part {
        Part::Literal(_) => Ok(()),
        Part::Pcompute { name, .. } => numbers.add(alloc, name.text.as_slice(), number),
        Part::Field(branch) => numbers.add(alloc, branch.name.text.as_slice(), number),
    }
}

/// The numbers of parts among all of a struct, literals counted.
fn number_parts(alloc: Global, parts: &[Part]) -> Result<FirstNumbers, Memory>
    ensures numbered { IfOk result (λ numbers. IsNumbered has_name parts.now numbers) }
{
    let mut numbers = FirstNumbers::new(alloc);
    for number in 0..parts.len() {
        number_part(alloc, &mut numbers, &parts[number], number)?;
    }
    Ok(numbers)
}

impl<'a> PartTable<'a> {
    pub fn new(alloc: Global, decls: &'a [Decl]) -> Result<PartTable<'a>, Memory>
        ensures made { IfOk result (λ table. table ≡ decls.now) }
    {
        let mut numbers = Items::new(alloc);
        for decl in decls {
            numbers.push(number_parts(alloc, parts_in(&decl.body))?)?;
        }
        Ok(PartTable { decls, numbers })
    }

    pub fn as_slice(&self) -> &'a [Decl]
        ensures items { result.now ≡ self.now }
    {
        self.decls
    }

    /// The number of the first part of a name in a declared struct, among all its parts; `None` exactly where none has
    /// it.
    pub fn part_position(&self, number: u64, name: &[u8]) -> Option<usize>
        ensures first { result ≡ part_position self.now number name.now }
    {
        self.numbers.get(number)?.number_of(name)
    }
}
