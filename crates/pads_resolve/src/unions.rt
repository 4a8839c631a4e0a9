//! Unions.

ghost use Rattle.std.specs.Prelude.{◌≡◌, map, option_map, IfOk, OnOk};
ghost use Rattle.pads_resolve.specs.Borrowed.{stands};
ghost use Rattle.pads_resolution.specs.Bodies as bodies;

use crate::branches::branch_in;
use crate::{ResolvingSite, const_of, expr_at};
use pads_ast::{Branch as WrittenBranch, Case as WrittenCase, Switch as WrittenSwitch, UnionBody};
use pads_resolution::{Branch, Case, Switch, Union, Visible};
use pads_resolve_expr::NameScope;
use pads_value::{Items, Memory};
use std::alloc::Global;

/// A branch of a union. Its name is in scope in its constraint alone.
#[tactic(auto, using(std::proofs::lemmas::Grind::common_steps, pads_declared::proofs::Lists::popped))]
fn branch_at(
    alloc: Global,
    site: &ResolvingSite<'_>,
    names: &mut Items<Visible>,
    f: &WrittenBranch,
) -> Result<Branch, Memory>
    ensures made { IfOk result (λ made. made ≡ bodies.branch_at (stands site.now) names.old f.now) }
    ensures restored { OnOk result (names.new ≡ names.old) }
{
    let made = branch_in(alloc, site, names, f)?;
    let _own = names.pop();
    Ok(made)
}

/// The branches of a union.
fn branches_at(
    alloc: Global,
    site: &ResolvingSite<'_>,
    params: Items<Visible>,
    branches: &[WrittenBranch],
) -> Result<Items<Branch>, Memory>
    ensures made { IfOk result (λ made. made ≡ map (bodies.branch_at (stands site.now) params) branches.now) }
{
    let mut names = params;
    let mut made = Items::new(alloc);
    for branch in branches {
        made.push(branch_at(alloc, site, &mut names, branch)?)?;
    }
    Ok(made)
}

/// A case of a switch.
#[tactic(auto, unfolding(pads_resolution::specs::Bodies::case_at))]
fn case_at(
    alloc: Global,
    site: &ResolvingSite<'_>,
    names: &mut Items<Visible>,
    case: &WrittenCase,
) -> Result<Case, Memory>
    ensures made { IfOk result (λ made. made ≡ bodies.case_at (stands site.now) names.old case.now) }
    ensures restored { OnOk result (names.new ≡ names.old) }
{
    let key = const_of(alloc, &case.key)?;
    let branch = branch_at(alloc, site, names, &case.branch)?;
    Ok(Case { key, branch })
}

/// The cases of a switch.
fn cases_at(
    alloc: Global,
    site: &ResolvingSite<'_>,
    names: &mut Items<Visible>,
    cases: &[WrittenCase],
) -> Result<Items<Case>, Memory>
    ensures made { IfOk result (λ made. made ≡ map (bodies.case_at (stands site.now) names.old) cases.now) }
    ensures restored { OnOk result (names.new ≡ names.old) }
{
    let mut made = Items::new(alloc);
    for case in cases {
        made.push(case_at(alloc, site, names, case)?)?;
    }
    Ok(made)
}

/// The branch for all other values, where there is one.
fn default_at(
    alloc: Global,
    site: &ResolvingSite<'_>,
    names: &mut Items<Visible>,
    default: &Option<WrittenBranch>,
) -> Result<Option<Branch>, Memory>
    ensures made { IfOk result (λ made. made ≡ option_map (bodies.branch_at (stands site.now) names.old) default.now) }
{
    match default {
        None => Ok(None),
        Some(branch) => Ok(Some(branch_at(alloc, site, names, branch)?)),
    }
}

/// A union that chooses by the value of an expression.
#[tactic(auto, unfolding(pads_resolution::specs::Bodies::switch_at), using(pads_resolve_expr::proofs::ScopeLemmas::scope_rules))]
fn switch_at(
    alloc: Global,
    site: &ResolvingSite<'_>,
    params: Items<Visible>,
    switch: &WrittenSwitch,
) -> Result<Switch, Memory>
    ensures made { IfOk result (λ made. made ≡ bodies.switch_at (stands site.now) params switch.now) }
{
    let mut names = params;
    let scope = NameScope::Names(names.as_slice());
    let value = expr_at(alloc, site, &scope, &switch.value)?;
    let cases = cases_at(alloc, site, &mut names, switch.cases.as_slice())?;
    let default = default_at(alloc, site, &mut names, &switch.default)?;
    Ok(Switch {
        value,
        cases,
        default,
    })
}

/// A union behind its parameters.
#[tactic(auto, unfolding(pads_resolution::specs::Bodies::union_at))]
pub(crate) fn union_at(
    alloc: Global,
    site: &ResolvingSite<'_>,
    params: Items<Visible>,
    body: &UnionBody,
) -> Result<Union, Memory>
    ensures made { IfOk result (λ made. made ≡ bodies.union_at (stands site.now) params body.now) }
{
    match body {
        UnionBody::Branches(branches) => {
            let made = branches_at(alloc, site, params, branches.as_slice())?;
            Ok(Union::Branches(made))
        }
        UnionBody::Switch(switch) => Ok(Union::Pswitch(switch_at(alloc, site, params, switch)?)),
    }
}
