//! The names that are in scope where all names of a declaration are.
#![tactic(auto, using(crate::proofs::MetLaws::met_laws))]

ghost use Rattle.std.specs.Prelude.{◌≡◌, ◌+◌, ◌++◌, ◌∷◌, [], length, map, flat_map, codes, nat_lt, not, IfOk, OnOk};
ghost use Rattle.pads_rules.specs.DeclRules as rules;
ghost use Rattle.pads_ast.specs.Trees as trees;
ghost use Rattle.pads_counts.specs.Met.{met};
ghost use Rattle.pads_counts.specs.Counted.{beside_params, one_more};

use crate::in_expr::meet_name;
use crate::parts::branch_count;
use pads_ast::{Constraint, DeclBody, Param, Part, UnionBody};
use pads_declared::{NameSet, params_of};
use pads_value::Memory;
use std::alloc::Global;

fn add_params(names: &mut NameSet, params: &[Param]) -> Result<(), Memory>
    ensures met { OnOk result (names.new ≡ met names.old (rules.texts (map (λ param. param.name) params.now))) }
{
    for param in params {
        meet_name(names, &param.name)?;
    }
    Ok(())
}

fn add_part(names: &mut NameSet, part: &Part) -> Result<(), Memory>
    ensures met { OnOk result (names.new ≡ met names.old (rules.texts (trees.part_names part.now))) }
{
    match part {
        Part::Literal(_) => Ok(()),
        Part::Pcompute { name, .. } => meet_name(names, name),
        Part::Field(branch) => meet_name(names, &branch.name),
    }
}

fn add_parts(names: &mut NameSet, parts: &[Part]) -> Result<(), Memory>
    ensures met { OnOk result (names.new ≡ met names.old (rules.texts (flat_map trees.part_names parts.now))) }
{
    for part in parts {
        add_part(names, part)?;
    }
    Ok(())
}

/// The names that the conditions of an array see.
#[tactic(auto, unfolding(crate::specs::Met::met))]
fn add_elements(names: &mut NameSet) -> Result<(), Memory>
    ensures met { OnOk result (names.new ≡ met names.old (codes "elts" ∷ codes "length" ∷ [])) }
{
    names.add(b"elts")?;
    names.add(b"length")?;
    Ok(())
}

/// The variable of a typedef's constraint.
fn add_variable(names: &mut NameSet, constraint: &Option<Constraint>) -> Result<(), Memory>
    ensures met { OnOk result (names.new ≡ met names.old (rules.texts (rules.variable_names constraint.now))) }
{
    match constraint {
        Some(constraint) => meet_name(names, &constraint.variable),
        None => Ok(()),
    }
}

/// The names beside the parameters that a declaration has for itself.
fn add_own(names: &mut NameSet, body: &DeclBody) -> Result<(), Memory>
    ensures met { OnOk result (names.new ≡ met names.old (beside_params body.now)) }
{
    match body {
        DeclBody::Struct(d) => add_parts(names, d.parts.as_slice()),
        DeclBody::Array(_) => add_elements(names),
        DeclBody::Typedef(d) => add_variable(names, &d.constraint),
        DeclBody::Union(_) | DeclBody::Enum(_) | DeclBody::Opt(_) => Ok(()),
    }
}

/// How many different names there are but for the one of a branch.
fn different(alloc: Global, body: &DeclBody) -> Result<u64, Memory>
    ensures count { IfOk result (λ count. count ≡ length (met [] (rules.texts (trees.param_names body.now) ++ beside_params body.now))) }
{
    let mut names = NameSet::new(alloc);
    add_params(&mut names, params_of(body))?;
    add_own(&mut names, body)?;
    Ok(names.len())
}

fn has_branch(body: &UnionBody) -> bool
    ensures branch { result ≡ not (trees.is_empty (trees.branches_of body.now)) }
{
    0 < branch_count(body)
}

/// Whether a branch is in scope somewhere.
fn has_one_more(body: &DeclBody) -> bool
    ensures one { result ≡ one_more body.now }
{
    match body {
        DeclBody::Union(d) => has_branch(&d.body),
        DeclBody::Struct(_)
        | DeclBody::Array(_)
        | DeclBody::Enum(_)
        | DeclBody::Typedef(_)
        | DeclBody::Opt(_) => false,
    }
}

fn exceeds(count: u64, one_more: bool) -> bool
    ensures much { result ≡ nat_lt 4096 (count + rules.one_if one_more) }
{
    if one_more {
        4096 <= count
    } else {
        4096 < count
    }
}

/// Whether more than 4,096 names are in scope.
pub(crate) fn too_many_in_scope(alloc: Global, body: &DeclBody) -> Result<bool, Memory>
    ensures much { IfOk result (λ much. much ≡ nat_lt 4096 (rules.scope_count body.now)) }
{
    let count = different(alloc, body)?;
    Ok(exceeds(count, has_one_more(body)))
}
