//! The names that a declaration gives.

ghost use Rattle.std.specs.Prelude.{◌≡◌, ◌++◌, map, flat_map, IfOk, OnOk};
ghost use Rattle.pads_ast.specs.Trees as trees;

use pads_ast::{Branch, DeclBody, Label, Name, Param, Part};
use pads_declared::{branches_of, params_of};
use pads_value::Memory;
use std::alloc::Global;

#[tactic(auto, using(std::proofs::lemmas::Grind::common_steps, crate::proofs::NameLists::name_lists))]
fn add_params<'a>(names: &mut Vec<&'a Name>, params: &'a [Param]) -> Result<(), Memory>
    ensures added { OnOk result (map (λ name. name.now) names.new.items ≡ map (λ name. name.now) names.old.items ++ map (λ param. param.name) params.now) }
{
    for param in params {
        names.push(&param.name)?;
    }
    Ok(())
}

#[tactic(auto, using(std::proofs::lemmas::Grind::common_steps, crate::proofs::NameLists::name_lists))]
fn add_part<'a>(names: &mut Vec<&'a Name>, part: &'a Part) -> Result<(), Memory>
    ensures added { OnOk result (map (λ name. name.now) names.new.items ≡ map (λ name. name.now) names.old.items ++ trees.part_names part.now) }
{
    match part {
        Part::Literal(_) => {}
        Part::Pcompute { name, .. } => names.push(name)?,
        Part::Field(branch) => names.push(&branch.name)?,
    }
    Ok(())
}

#[tactic(auto, using(std::proofs::lemmas::Grind::common_steps, crate::proofs::NameLists::name_lists))]
fn add_parts<'a>(names: &mut Vec<&'a Name>, parts: &'a [Part]) -> Result<(), Memory>
    ensures added { OnOk result (map (λ name. name.now) names.new.items ≡ map (λ name. name.now) names.old.items ++ flat_map trees.part_names parts.now) }
{
    for part in parts {
        add_part(names, part)?;
    }
    Ok(())
}

#[tactic(auto, using(std::proofs::lemmas::Grind::common_steps, crate::proofs::NameLists::name_lists))]
fn add_branches<'a>(names: &mut Vec<&'a Name>, branches: &[&'a Branch]) -> Result<(), Memory>
    ensures added { OnOk result (map (λ name. name.now) names.new.items ≡ map (λ name. name.now) names.old.items ++ map (λ branch. branch.now.name) branches.now) }
{
    for branch in branches {
        let branch: &'a Branch = *branch;
        names.push(&branch.name)?;
    }
    Ok(())
}

#[tactic(auto, using(std::proofs::lemmas::Grind::common_steps, crate::proofs::NameLists::name_lists))]
fn add_labels<'a>(names: &mut Vec<&'a Name>, labels: &'a [Label]) -> Result<(), Memory>
    ensures added { OnOk result (map (λ name. name.now) names.new.items ≡ map (λ name. name.now) names.old.items ++ map (λ label. label.name) labels.now) }
{
    for label in labels {
        names.push(&label.name)?;
    }
    Ok(())
}

/// The names of a declaration's parameters, and of its parts, branches or labels.
#[tactic(auto, using(std::proofs::lemmas::Grind::common_steps, crate::proofs::NameLists::name_lists))]
pub(crate) fn all_names<'a>(alloc: Global, body: &'a DeclBody) -> Result<Vec<&'a Name>, Memory>
    ensures names { IfOk result (λ names. map (λ name. name.now) names.items ≡ trees.param_names body.now ++ trees.inner_names body.now) }
{
    let mut names = Vec::new(alloc);
    add_params(&mut names, params_of(body))?;
    match body {
        DeclBody::Struct(d) => add_parts(&mut names, d.parts.as_slice())?,
        DeclBody::Union(d) => {
            let branches = branches_of(alloc, &d.body)?;
            add_branches(&mut names, branches.as_slice())?;
        }
        DeclBody::Enum(d) => add_labels(&mut names, d.labels.as_slice())?,
        DeclBody::Array(_) | DeclBody::Typedef(_) | DeclBody::Opt(_) => {}
    }
    Ok(names)
}
