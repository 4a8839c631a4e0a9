//! The parts of structs.

ghost use Rattle.std.specs.Prelude.{◌≡◌, ◌≤◌, IfOk, OnOk, drop, length};
ghost use Rattle.pads_rules.specs.Pieces as pieces;
ghost use Rattle.pads_piece_rules.specs.Told.{stands};
ghost use Rattle.pads_violations.specs.InBodies.{pieces_told, first_pieces, last_pieces};

use crate::single_pieces::{conditions, literal};
use pads_ast::{Part, Struct};
use pads_declared::add_part;
use pads_judge::Scope;
use pads_piece_rules::{Site, computed, sight, used};
use pads_rules::{CheckFault, Named, lesser};
use pads_value::{Items, Memory};
use std::alloc::Global;

/// What a part holds that doesn't see its own name; `from` are this and the later parts.
#[tactic(auto, using(crate::proofs::WalkLemmas::walk_rules))]
fn first(site: &Site<'_>, names: &[Named], from: &[Part], part: &Part) -> Option<CheckFault>
    ensures told { result ≡ pieces_told (stands site.now) (first_pieces names.now (pieces.texts_of_parts from.now) part.now) }
{
    let scope = Scope::Names(names, from);
    match part {
        Part::Literal(written) => literal(written),
        Part::Pcompute { of, value, .. } => computed(site, &scope, of, value),
        Part::Field(branch) => used(site, &scope, &branch.of),
    }
}

/// What a part holds that sees its own name.
#[tactic(auto, using(crate::proofs::WalkLemmas::walk_rules))]
fn last(site: &Site<'_>, names: &[Named], from: &[Part], part: &Part) -> Option<CheckFault>
    ensures told { result ≡ pieces_told (stands site.now) (last_pieces names.now (pieces.texts_of_parts from.now) part.now) }
{
    let scope = Scope::Names(names, from);
    match part {
        Part::Literal(_) | Part::Pcompute { .. } => None,
        Part::Field(branch) => conditions(site, &scope, &branch.constraint),
    }
}

/// The parts from a number on.
fn from(parts: &[Part], number: usize) -> &[Part]
    requires { number ≤ length parts.now }
    ensures rest { result.now ≡ drop number parts.now }
{
    &parts[number..]
}

/// One part, which puts its name behind those in scope.
#[tactic(auto, using(crate::proofs::WalkLemmas::part_rules))]
fn part(
    alloc: Global,
    site: &Site<'_>,
    names: &mut Items<Named>,
    from: &[Part],
    part: &Part,
) -> Result<Option<CheckFault>, Memory>
    ensures told { IfOk result (λ fault. fault ≡ pieces_told (stands site.now) (pieces.part_pieces (pieces.sight (stands site.now)) names.old (pieces.texts_of_parts from.now) part.now)) }
    ensures names { OnOk result (names.new ≡ pieces.names_after (pieces.sight (stands site.now)) names.old part.now) }
{
    let before = first(site, names.as_slice(), from, part);
    add_part(alloc, &sight(site), names, part)?;
    Ok(lesser(before, last(site, names.as_slice(), from, part)))
}

/// The parts of a struct, which put their names behind those in scope.
fn parts(
    alloc: Global,
    site: &Site<'_>,
    names: &mut Items<Named>,
    parts: &[Part],
) -> Result<Option<CheckFault>, Memory>
    ensures told { IfOk result (λ fault. fault ≡ pieces_told (stands site.now) (pieces.parts_pieces (pieces.sight (stands site.now)) names.old parts.now)) }
    ensures names { OnOk result (names.new ≡ pieces.names_after_all (pieces.sight (stands site.now)) names.old parts.now) }
{
    let mut best = None;
    for number in 0..parts.len() {
        let fault = part(alloc, site, names, from(parts, number), &parts[number])?;
        best = lesser(best, fault);
    }
    Ok(best)
}

/// A struct behind its parameters.
#[tactic(auto, using(crate::proofs::WalkLemmas::walk_rules))]
pub(crate) fn structure(
    alloc: Global,
    site: &Site<'_>,
    params: Items<Named>,
    d: &Struct,
) -> Result<Option<CheckFault>, Memory>
    ensures told { IfOk result (λ fault. fault ≡ pieces_told (stands site.now) (pieces.struct_pieces (pieces.sight (stands site.now)) params d.now)) }
{
    let mut names = params;
    let fault = parts(alloc, site, &mut names, d.parts.as_slice())?;
    let scope = Scope::Names(names.as_slice(), &[]);
    Ok(lesser(fault, conditions(site, &scope, &d.condition)))
}
