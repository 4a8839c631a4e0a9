//! The pieces of declarations.

ghost use Rattle.std.specs.Prelude.{◌≡◌, ◌++◌, ◌∷◌, [], IfOk, OnOk, map, flat_map, codes};
ghost use Rattle.pads_rules.specs.Judging.{hiding};
ghost use Rattle.pads_rules.specs.Sorts.{num, plain};
ghost use Rattle.pads_rules.specs.declared.sort.Form.TheVariants as form;
ghost use Rattle.pads_rules.specs.Pieces as pieces;
ghost use Rattle.pads_rules.specs.Resolving.{branch_named, param_named};
ghost use Rattle.pads_ast.specs.Trees as trees;
ghost use Rattle.pads_judge.specs.Scopes.{names_in_scope};
ghost use Rattle.pads_piece_rules.specs.Told.{stands, piece_told};
ghost use Rattle.pads_violations.specs.InBodies.{pieces_told, labels_told, in_elements_told, constraint_told};

use crate::single_pieces::{array_option, conditions, label, sizes};
use crate::struct_parts::structure;
use pads_ast::{
    Array, ArrayOption, Branch, Constraint, DeclBody, Label, Param, Switch, Typedef, Union,
    UnionBody,
};
use pads_declared::{add_branch, branches_of, param_names, params_of, type_sort};
use pads_judge::Scope;
use pads_piece_rules::{Site, choice, condition, of_param, sight, used};
use pads_rules::{CheckFault, ExprSort, Form, Named, lesser};
use pads_value::{Items, Memory};
use std::alloc::Global;

/// The constraint of a branch, which sees the branch.
#[tactic(auto, using(crate::proofs::WalkLemmas::walk_rules, pads_declared::proofs::Lists::popped))]
fn constraint(
    alloc: Global,
    site: &Site<'_>,
    names: &mut Items<Named>,
    branch: &Branch,
) -> Result<Option<CheckFault>, Memory>
    ensures told { IfOk result (λ fault. fault ≡ pieces_told (stands site.now) (pieces.conditions (pieces.scope_of (names.old ++ branch_named (pieces.sight (stands site.now)) branch.now ∷ [])) branch.now.constraint)) }
    ensures restored { OnOk result (names.new ≡ names.old) }
{
    add_branch(alloc, &sight(site), names, branch)?;
    let fault = conditions(
        site,
        &Scope::Names(names.as_slice(), &[]),
        &branch.constraint,
    );
    let _own = names.pop();
    Ok(fault)
}

/// A branch of a union.
#[tactic(auto, using(crate::proofs::WalkLemmas::walk_rules))]
fn branch(
    alloc: Global,
    site: &Site<'_>,
    names: &mut Items<Named>,
    branch: &Branch,
) -> Result<Option<CheckFault>, Memory>
    ensures told { IfOk result (λ fault. fault ≡ pieces_told (stands site.now) (pieces.branch_pieces (pieces.sight (stands site.now)) names.old branch.now)) }
    ensures restored { OnOk result (names.new ≡ names.old) }
{
    let fault = used(site, &Scope::Names(names.as_slice(), &[]), &branch.of);
    Ok(lesser(fault, constraint(alloc, site, names, branch)?))
}

/// The branches of a union.
fn branches(
    alloc: Global,
    site: &Site<'_>,
    names: &mut Items<Named>,
    branches: &[&Branch],
) -> Result<Option<CheckFault>, Memory>
    ensures told { IfOk result (λ fault. fault ≡ pieces_told (stands site.now) (flat_map (pieces.branch_pieces (pieces.sight (stands site.now)) names.old) (map (λ branch. branch.now) branches.now))) }
{
    let mut best = None;
    for one in branches {
        best = lesser(best, branch(alloc, site, names, *one)?);
    }
    Ok(best)
}

/// The expression of a switch, and its case constants.
#[tactic(auto, using(crate::proofs::WalkLemmas::walk_rules))]
fn switch(
    alloc: Global,
    site: &Site<'_>,
    names: &[Named],
    switch: &Switch,
) -> Result<Option<CheckFault>, Memory>
    ensures told { IfOk result (λ fault. fault ≡ pieces_told (stands site.now) (pieces.Choice (pieces.scope_of names.now) switch.now.value (map (λ case. case.key) switch.now.cases) ∷ [])) }
{
    let scope = Scope::Names(names, &[]);
    let fault = choice(alloc, site, &scope, &switch.value, switch.cases.as_slice())?;
    Ok(fault)
}

/// A union behind its parameters.
#[tactic(auto, using(crate::proofs::WalkLemmas::walk_rules))]
fn union(
    alloc: Global,
    site: &Site<'_>,
    params: Items<Named>,
    d: &Union,
) -> Result<Option<CheckFault>, Memory>
    ensures told { IfOk result (λ fault. fault ≡ pieces_told (stands site.now) (pieces.union_body_pieces (pieces.sight (stands site.now)) params d.now.body)) }
{
    let mut names = params;
    let key = match &d.body {
        UnionBody::Branches(_) => None,
        UnionBody::Switch(d) => switch(alloc, site, names.as_slice(), d)?,
    };
    let all = branches_of(alloc, &d.body)?;
    Ok(lesser(key, branches(alloc, site, &mut names, all.as_slice())?))
}

fn array_options(
    site: &Site<'_>,
    scope: &Scope<'_, '_>,
    options: &[ArrayOption],
) -> Option<CheckFault>
    ensures told { result ≡ pieces_told (stands site.now) (flat_map (pieces.option_pieces (names_in_scope scope.now)) options.now) }
{
    let mut best = None;
    for option in options {
        best = lesser(best, array_option(site, scope, option));
    }
    best
}

/// The options and the condition of an array.
#[tactic(auto, using(crate::proofs::WalkLemmas::walk_rules))]
fn in_elements(site: &Site<'_>, scope: &Scope<'_, '_>, d: &Array) -> Option<CheckFault>
    ensures told { result ≡ pieces_told (stands site.now) (flat_map (pieces.option_pieces (names_in_scope scope.now)) d.now.options ++ pieces.conditions (names_in_scope scope.now) d.now.condition) }
{
    lesser(
        array_options(site, scope, d.options.as_slice()),
        conditions(site, scope, &d.condition),
    )
}

/// The same, where the number of elements is in scope, and the elements hide other names.
#[tactic(auto, using(crate::proofs::WalkLemmas::walk_rules))]
fn with_elements(site: &Site<'_>, scope: &Scope<'_, '_>, d: &Array) -> Option<CheckFault>
    ensures told { result ≡ in_elements_told (stands site.now) (hiding (codes "elts") (plain (form.Array site.now.number)) (names_in_scope scope.now)) d.now }
{
    let elements = ExprSort::plain(Form::Array(site.number as u64));
    in_elements(site, &Scope::Hiding(b"elts", elements, &*scope), d)
}

/// The same, where the number of elements hides other names.
#[tactic(auto, using(crate::proofs::WalkLemmas::walk_rules))]
fn with_length(site: &Site<'_>, scope: &Scope<'_, '_>, d: &Array) -> Option<CheckFault>
    ensures told { result ≡ in_elements_told (stands site.now) (hiding (codes "elts") (plain (form.Array site.now.number)) (hiding (codes "length") num (names_in_scope scope.now))) d.now }
{
    let count = ExprSort::plain(Form::Num);
    with_elements(site, &Scope::Hiding(b"length", count, &*scope), d)
}

/// An array behind its parameters.
#[tactic(auto, using(crate::proofs::WalkLemmas::walk_rules, crate::proofs::BodyLemmas::body_rules))]
fn array(site: &Site<'_>, params: &[Named], d: &Array) -> Option<CheckFault>
    ensures told { result ≡ pieces_told (stands site.now) (pieces.array_pieces site.now.number params.now d.now) }
{
    let outside = Scope::Names(params, &[]);
    let before = lesser(used(site, &outside, &d.of), sizes(site, &outside, &d.size));
    lesser(before, with_length(site, &outside, d))
}

fn labels(labels: &[Label]) -> Option<CheckFault>
    ensures told { result ≡ labels_told labels.now }
{
    let mut best = None;
    for one in labels {
        best = lesser(best, label(one));
    }
    best
}

/// The constraint of a typedef, in which its variable hides other names.
#[tactic(auto, using(crate::proofs::WalkLemmas::walk_rules))]
fn in_variable(
    site: &Site<'_>,
    scope: &Scope<'_, '_>,
    sort: ExprSort,
    constraint: &Constraint,
) -> Option<CheckFault>
    ensures told { result ≡ piece_told (stands site.now) (pieces.Condition (hiding constraint.now.variable.text sort (names_in_scope scope.now)) constraint.now.condition) }
{
    let name = constraint.variable.text.as_slice();
    condition(
        site,
        &Scope::Hiding(name, sort, &*scope),
        &constraint.condition,
    )
}

/// The constraint of a typedef of a sort, where it has one.
#[tactic(auto, using(crate::proofs::WalkLemmas::walk_rules))]
fn typedef_constraint(
    site: &Site<'_>,
    params: &[Named],
    sort: ExprSort,
    constraint: &Option<Constraint>,
) -> Option<CheckFault>
    ensures told { result ≡ constraint_told (stands site.now) params.now sort constraint.now }
{
    match constraint {
        None => None,
        Some(constraint) => in_variable(site, &Scope::Names(params, &[]), sort, constraint),
    }
}

/// A typedef behind its parameters.
#[tactic(auto, using(crate::proofs::WalkLemmas::walk_rules, crate::proofs::BodyLemmas::body_rules))]
fn typedef(site: &Site<'_>, params: &[Named], d: &Typedef) -> Option<CheckFault>
    ensures told { result ≡ pieces_told (stands site.now) (pieces.Used (pieces.scope_of params.now) d.now.of ∷ pieces.constraint_pieces (pieces.sight (stands site.now)) params.now d.now.of d.now.constraint) }
{
    let fault = used(site, &Scope::Names(params, &[]), &d.of);
    let sort = type_sort(&sight(site), &d.of);
    lesser(fault, typedef_constraint(site, params, sort, &d.constraint))
}

/// A declaration's body behind its parameters.
#[tactic(auto, using(crate::proofs::WalkLemmas::walk_rules))]
fn body(alloc: Global, site: &Site<'_>, params: Items<Named>) -> Result<Option<CheckFault>, Memory>
    ensures told { IfOk result (λ fault. fault ≡ pieces_told (stands site.now) (pieces.body_pieces (pieces.sight (stands site.now)) site.now.number params site.now.decl.now.body)) }
{
    match &site.decl.body {
        DeclBody::Struct(d) => structure(alloc, site, params, d),
        DeclBody::Union(d) => union(alloc, site, params, d),
        DeclBody::Array(d) => Ok(array(site, params.as_slice(), d)),
        DeclBody::Enum(d) => Ok(labels(d.labels.as_slice())),
        DeclBody::Typedef(d) => Ok(typedef(site, params.as_slice(), d)),
        DeclBody::Opt(d) => Ok(used(site, &Scope::Names(params.as_slice(), &[]), &d.of)),
    }
}

fn params(site: &Site<'_>, params: &[Param]) -> Option<CheckFault>
    ensures told { result ≡ pieces_told (stands site.now) (map (λ param. pieces.OfParam param.of) params.now) }
{
    let mut best = None;
    for param in params {
        best = lesser(best, of_param(site, &param.of));
    }
    best
}

/// The rules at all pieces of a declaration.
#[tactic(auto, using(crate::proofs::WalkLemmas::walk_rules))]
pub(crate) fn all_pieces(alloc: Global, site: &Site<'_>) -> Result<Option<CheckFault>, Memory>
    ensures told { IfOk result (λ fault. fault ≡ pieces_told (stands site.now) (pieces.pieces (stands site.now))) }
{
    let written = params_of(&site.decl.body);
    let names = param_names(alloc, &sight(site), written)?;
    Ok(lesser(params(site, written), body(alloc, site, names)?))
}
