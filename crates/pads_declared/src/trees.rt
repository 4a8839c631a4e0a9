//! What the declarations of a tree have in common.

ghost use Rattle.std.specs.Prelude.{◌≡◌, map, IfOk};
ghost use Rattle.pads_ast.specs.Trees as trees;
ghost use Rattle.pads_ast.specs.declared.decl.UnionBody.TheVariants as union;

use pads_ast::{Branch, Case, DeclBody, Name, Param, Params, Switch, UnionBody};
use pads_value::Memory;
use std::alloc::Global;

/// What is written in brackets, or nothing.
pub(crate) fn written(params: &Params) -> &[Param]
    ensures items { result.now ≡ trees.written params.now }
{
    match params {
        Some(params) => params.as_slice(),
        None => &[],
    }
}

/// The name that a declaration declares.
pub fn name_of(body: &DeclBody) -> &Name
    ensures name { result.now ≡ trees.name_of body.now }
{
    match body {
        DeclBody::Struct(d) => &d.name,
        DeclBody::Union(d) => &d.name,
        DeclBody::Array(d) => &d.name,
        DeclBody::Enum(d) => &d.name,
        DeclBody::Typedef(d) => &d.name,
        DeclBody::Opt(d) => &d.name,
    }
}

/// The parameters of a declaration.
pub fn params_of(body: &DeclBody) -> &[Param]
    ensures items { result.now ≡ trees.params_of body.now }
{
    match body {
        DeclBody::Struct(d) => written(&d.params),
        DeclBody::Union(d) => written(&d.params),
        DeclBody::Array(d) => written(&d.params),
        DeclBody::Enum(_) => &[],
        DeclBody::Typedef(d) => written(&d.params),
        DeclBody::Opt(d) => written(&d.params),
    }
}

/// The branches of the cases of a switch.
#[tactic(auto, using(std::proofs::lemmas::Grind::common_steps, crate::proofs::Lists::lists))]
fn case_branches<'a>(alloc: Global, cases: &'a [Case]) -> Result<Vec<&'a Branch>, Memory>
    ensures branches { IfOk result (λ found. map (λ branch. branch.now) found.items ≡ map (λ case. case.branch) cases.now) }
{
    let mut found = Vec::new(alloc);
    for case in cases {
        found.push(&case.branch)?;
    }
    Ok(found)
}

#[tactic(auto, using(std::proofs::lemmas::Grind::common_steps, crate::proofs::Lists::lists))]
fn plain_branches<'a>(alloc: Global, branches: &'a [Branch]) -> Result<Vec<&'a Branch>, Memory>
    ensures branches { IfOk result (λ found. map (λ branch. branch.now) found.items ≡ branches.now) }
{
    let mut found = Vec::new(alloc);
    for branch in branches {
        found.push(branch)?;
    }
    Ok(found)
}

#[tactic(auto, using(std::proofs::lemmas::Grind::common_steps, crate::proofs::Lists::lists))]
fn switch_branches<'a>(alloc: Global, switch: &'a Switch) -> Result<Vec<&'a Branch>, Memory>
    ensures branches { IfOk result (λ found. map (λ branch. branch.now) found.items ≡ trees.branches_of (union.Switch switch.now)) }
{
    let mut found = case_branches(alloc, switch.cases.as_slice())?;
    if let Some(branch) = &switch.default {
        found.push(branch)?;
    }
    Ok(found)
}

/// The branches of a union in the order of the text.
pub fn branches_of<'a>(alloc: Global, body: &'a UnionBody) -> Result<Vec<&'a Branch>, Memory>
    ensures branches { IfOk result (λ found. map (λ branch. branch.now) found.items ≡ trees.branches_of body.now) }
{
    match body {
        UnionBody::Branches(branches) => plain_branches(alloc, branches.as_slice()),
        UnionBody::Switch(switch) => switch_branches(alloc, switch),
    }
}
