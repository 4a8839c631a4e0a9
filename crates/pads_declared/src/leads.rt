//! The sorts of typedefs and optionals, by the types to which they lead.
//!
//! The way from type to type is gone in few rounds: each doubles the steps that are gone at once, so a description
//! whose types all lead to one another takes no longer than others.

ghost use Rattle.std.specs.Prelude.{◌≡◌, IfOk};
ghost use Rattle.pads_rules.specs.Resolving as resolving;
ghost use Rattle.pads_rules.specs.Sorts as sorts;
ghost use Rattle.pads_declared.specs.Leads as ways;

use crate::Sight;
use crate::types::base_sort;
use pads_ast::{DeclBody, Type};
use pads_base_names::base_name;
use pads_rules::{ExprSort, Form, Lead, Sort};
use pads_value::{Items, Memory};
use std::alloc::Global;

/// A sort with so many more `Popt` around it.
#[tactic(auto, using(crate::proofs::LeadLemmas::counted))]
fn optional_by(count: u64, sort: ExprSort) -> ExprSort
    ensures sort { result ≡ sorts.optional_by count sort }
{
    if count == 0 {
        return sort;
    }
    match sort {
        ExprSort::Known(sort) => ExprSort::Known(Sort {
            optional: sort.optional.saturating_add(count),
            form: sort.form,
        }),
        other => other,
    }
}

/// The same with so many more `Popt` around it.
fn wrap(count: u64, lead: Lead) -> Lead
    ensures lead { result ≡ resolving.wrap count lead }
{
    match lead {
        Lead::Ends(sort) => Lead::Ends(optional_by(count, sort)),
        Lead::Leads { optional, to } => Lead::Leads {
            optional: count.saturating_add(optional),
            to,
        },
    }
}

/// What a type's name leads to.
fn lead_to(sight: &Sight<'_>, name: &[u8]) -> Lead
    ensures lead { result ≡ ways.name_lead sight.now name.now }
{
    if let Some(base) = base_name(name) {
        return Lead::Ends(base_sort(base));
    }
    match sight.named_number(name) {
        Some(number) => Lead::Leads {
            optional: 0,
            to: number as u64,
        },
        None => Lead::Ends(ExprSort::Unknown),
    }
}

fn type_lead(sight: &Sight<'_>, of: &Type) -> Lead
    ensures lead { result ≡ resolving.type_lead sight.now of.now }
{
    let lead = lead_to(sight, of.name.text.as_slice());
    match of.optional {
        Some(_) => wrap(1, lead),
        None => wrap(0, lead),
    }
}

/// Where the sort of the type that a declaration declares comes from.
pub(crate) fn lead_in(sight: &Sight<'_>, body: &DeclBody) -> Lead
    ensures lead { result ≡ resolving.lead_in sight.now body.now }
{
    let number = sight.number() as u64;
    match body {
        DeclBody::Struct(_) => Lead::Ends(ExprSort::plain(Form::Struct(number))),
        DeclBody::Union(_) => Lead::Ends(ExprSort::plain(Form::Union(number))),
        DeclBody::Array(_) => Lead::Ends(ExprSort::plain(Form::Array(number))),
        DeclBody::Enum(_) => Lead::Ends(ExprSort::plain(Form::Enum(number))),
        DeclBody::Typedef(d) => type_lead(sight, &d.of),
        DeclBody::Opt(d) => wrap(1, type_lead(sight, &d.of)),
    }
}

/// What stands at a number; nothing leads on from past the end.
fn lead_at(leads: &Items<Lead>, number: u64) -> Lead
    ensures lead { result ≡ resolving.lead_at leads.now number }
{
    match leads.get(number) {
        Some(lead) => *lead,
        None => Lead::Ends(ExprSort::Unknown),
    }
}

/// Where a lead leads by what each type leads to.
pub(crate) fn onward(leads: &Items<Lead>, lead: Lead) -> Lead
    ensures lead { result ≡ ways.onward leads.now lead }
{
    match lead {
        Lead::Ends(sort) => Lead::Ends(sort),
        Lead::Leads { optional, to } => wrap(optional, lead_at(leads, to)),
    }
}

/// The sort where the way has ended.
pub(crate) fn settled(lead: Lead) -> ExprSort
    ensures sort { result ≡ ways.settled lead }
{
    match lead {
        Lead::Ends(sort) => sort,
        Lead::Leads { .. } => ExprSort::Unknown,
    }
}

/// Where each of some leads leads by others.
#[tactic(auto, using(std::proofs::lemmas::Grind::common_steps, crate::proofs::Lists::lists), unfolding(crate::specs::Leads::all_onward))]
fn all_onward(alloc: Global, leads: &Items<Lead>, from: &Items<Lead>) -> Result<Items<Lead>, Memory>
    ensures leads { IfOk result (λ all. all ≡ ways.all_onward leads.now from.now) }
{
    let mut all = Items::new(alloc);
    for lead in from.as_slice() {
        all.push(onward(leads, *lead))?;
    }
    Ok(all)
}

/// Where each type leads behind so many more steps.
#[tactic(auto, using(crate::proofs::LeadLemmas::steps))]
pub(crate) fn jumped(alloc: Global, near: &Items<Lead>, steps: u64) -> Result<Items<Lead>, Memory>
    ensures leads { IfOk result (λ far. far ≡ ways.jumped near.now steps) }
{
    if steps == 0 {
        return Items::from_slice(alloc, near.as_slice());
    }
    if steps % 2 == 0 {
        let far = jumped(alloc, near, steps - 1)?;
        return all_onward(alloc, &far, near);
    }
    let half = jumped(alloc, near, steps / 2)?;
    all_onward(alloc, &half, &half)
}
