ghost use Rattle.std.specs.Prelude.{◌≡◌, ◌<◌, ◌≤◌, ◌∷◌, [], codes, length, reverse, IfOk, OnOk};
ghost use Rattle.pads_module.specs.Modules.{contents};
ghost use Rattle.pads_calc.specs.declared.term.Term.TheVariants as code;
ghost use Rattle.pads_value.specs.Refusals.{OnFault};
ghost use Rattle.pads_plan.specs.Pending.{ListsOne, ListsAll, Listing, ListMade, ListsMade, numbered, parts_at, pending, whole};
ghost use Rattle.pads_plan.specs.Plans.{parts_of, name_of, list_of, lists_of, size, most};
ghost use Rattle.pads_plan.specs.declared.part.Step.TheVariants as step;
ghost use Rattle.pads_plan.specs.Ways.{own as own_part, record_origin, body_origin};
ghost use Rattle.pads_sums.specs.declared.form.PartForm.TheVariants as form;

use crate::form::form_of;
use crate::listing::{Above, Pending, behind, push_kids};
use crate::part::{PlanList, PlanLists, PlanPart, PlanParts, Step};
use pads_calc::Term;
use pads_forms::{Terms, name_at};
use pads_module::Module;
use pads_sums::PartForm;
use pads_value::{Items, Memory, Refusal};
use std::alloc::Global;

/// The record types of a module have more than 65,536 parts in all.
#[derive(Clone, Copy, Debug, PartialEq, Eq)]
pub struct TooManyParts;

/// The most parts that a plan has.
pub const MOST: u64 = 65_536;

/// Lists the part of the next term, and puts what stands directly below it on the stack.
fn list_part<'m>(
    terms: &Terms<'m>,
    alloc: Global,
    stack: &mut Vec<Pending<'m>>,
    parts: &mut PlanParts,
    room: u64,
    item: Pending<'m>,
) -> Result<(), Refusal<TooManyParts>>
    ensures listed { ListsOne room (whole parts.old (numbered terms.now.decls.now terms.now.names.now item.entry ∷ reverse (pending terms.now.decls.now terms.now.names.now stack.old.items))) (length parts.old) parts.new (reverse (pending terms.now.decls.now terms.now.names.now stack.new.items)) result }
{
    let Pending {
        up,
        step,
        place,
        mut way,
        mut left,
        term,
    } = item;
    let found = behind(terms, &mut way, &mut left, term)?;
    if parts.len() >= room {
        return Err(Refusal::Fault(TooManyParts));
    }
    let Some(term) = found else {
        let form = PartForm::Bare;
        parts.push(PlanPart {
            up,
            step,
            place,
            form,
        })?;
        return Ok(());
    };
    let above = Above {
        number: parts.len(),
        step,
        place: place.as_slice(),
        way: way.as_slice(),
        left,
    };
    push_kids(terms, alloc, stack, &above, term)?;
    let form = form_of(terms, alloc, term)?;
    parts.push(PlanPart {
        up,
        step,
        place,
        form,
    })?;
    Ok(())
}

/// The record node, as part 0.
fn record_part(alloc: Global) -> Result<PlanPart, Memory>
    ensures part { IfOk result (λ part. part ≡ own_part form.Record record_origin) }
{
    Ok(PlanPart {
        up: 0,
        step: Step::Record,
        place: Items::from_slice(alloc, b".")?,
        form: PartForm::Record,
    })
}

/// The body of a record type, as the first term to be listed.
fn body_pending<'m>(alloc: Global, left: u64, term: &'m Term) -> Result<Pending<'m>, Memory>
    ensures up { IfOk result (λ item. item.up ≡ 0) }
    ensures step { IfOk result (λ item. item.step ≡ step.Body) }
    ensures place { IfOk result (λ item. item.place ≡ codes "$") }
    ensures way { IfOk result (λ item. item.way ≡ []) }
    ensures left { IfOk result (λ item. item.left ≡ left) }
    ensures term { IfOk result (λ item. item.term.now ≡ term.now) }
{
    Ok(Pending {
        up: 0,
        step: Step::Body,
        place: Items::from_slice(alloc, b"$")?,
        way: Items::new(alloc),
        left,
        term,
    })
}

/// Lists all that is on the stack, and what is below it.
fn list_pending<'m>(
    terms: &Terms<'m>,
    alloc: Global,
    stack: &mut Vec<Pending<'m>>,
    parts: &mut PlanParts,
    room: u64,
) -> Result<(), Refusal<TooManyParts>>
    requires room { length parts.old ≤ room }
    ensures listed { ListsAll room (whole parts.old (reverse (pending terms.now.decls.now terms.now.names.now stack.old.items))) parts.new result }
{
    'parts: while let Some(item) = stack.pop() {
        list_part(terms, alloc, stack, parts, room, item)?;
    }
    Ok(())
}

/// The parts of a record type whose body is this term, where there is room for so many.
fn list_body<'m>(
    terms: &Terms<'m>,
    alloc: Global,
    body: &'m Term,
    room: u64,
) -> Result<PlanParts, Refusal<TooManyParts>>
    requires room { 0 < room }
    ensures listed { Listing room (own_part form.Record record_origin ∷ parts_at terms.now.decls.now terms.now.names.now (length terms.now.decls.now) body.now [] body_origin 1) result }
{
    let mut parts = Items::new(alloc);
    parts.push(record_part(alloc)?)?;
    let mut stack = Vec::new(alloc);
    stack.push(body_pending(alloc, terms.decls.len(), body)?)?;
    list_pending(terms, alloc, &mut stack, &mut parts, room)?;
    Ok(parts)
}

/// What a record's body is: a call of its declaration.
fn body_of(alloc: Global, number: u16) -> Term
    ensures body { result ≡ code.Call number [] }
{
    Term::Call(number, Items::new(alloc))
}

/// The parts of a record type, where there is room for so many.
fn list_type(
    description: &Module,
    alloc: Global,
    number: u16,
    room: u64,
) -> Result<PlanParts, Refusal<TooManyParts>>
    ensures listed { Listing room (parts_of description.now.decls description.now.names number) result }
{
    if room == 0 {
        return Err(Refusal::Fault(TooManyParts));
    }
    let body = body_of(alloc, number);
    let terms = Terms {
        decls: &description.decls,
        names: &description.names,
    };
    list_body(&terms, alloc, &body, room)
}

/// The name of a declaration.
fn type_name(description: &Module, number: u16) -> &[u8]
    ensures name { result.now ≡ name_of description.now.decls description.now.names number }
{
    let terms = Terms {
        decls: &description.decls,
        names: &description.names,
    };
    match description.decls.get(u64::from(number)) {
        Some(decl) => name_at(&terms, decl.name),
        None => b"",
    }
}

/// The list of a record type, where there is room for so many parts.
fn type_list(
    description: &Module,
    alloc: Global,
    number: u16,
    room: u64,
) -> Result<PlanList, Refusal<TooManyParts>>
    ensures listed { ListMade room (list_of description.now.decls description.now.names number) result }
{
    let parts = list_type(description, alloc, number, room)?;
    let name = Items::from_slice(alloc, type_name(description, number))?;
    Ok(PlanList { name, parts })
}

/// The plan of records that all have one type.
fn one_list(
    description: &Module,
    alloc: Global,
    each: u16,
) -> Result<PlanLists, Refusal<TooManyParts>>
    ensures listed { ListsMade (list_of description.now.decls description.now.names each ∷ []) result }
{
    let mut lists = Items::new(alloc);
    lists.push(type_list(description, alloc, each, MOST)?)?;
    Ok(lists)
}

/// The plan of records of which the first has a type of its own.
fn two_lists(
    description: &Module,
    alloc: Global,
    head: u16,
    each: u16,
) -> Result<PlanLists, Refusal<TooManyParts>>
    ensures listed { ListsMade (list_of description.now.decls description.now.names head ∷ list_of description.now.decls description.now.names each ∷ []) result }
{
    let mut lists = Items::new(alloc);
    let first = type_list(description, alloc, head, MOST)?;
    let room = MOST - first.parts.len();
    lists.push(first)?;
    lists.push(type_list(description, alloc, each, room)?)?;
    Ok(lists)
}

/// The parts of a module's record types, the header type's first, where there is one; `TooManyParts`
/// exactly where they are more than 65,536 in all.
pub fn plan_of(alloc: Global, description: &Module) -> Result<PlanLists, Refusal<TooManyParts>>
    ensures lists { IfOk result (λ lists. lists ≡ lists_of (contents description.now)) }
    ensures few { OnOk result (size (lists_of (contents description.now)) ≤ most) }
    ensures many { OnFault result (λ fault. most < size (lists_of (contents description.now))) }
{
    match description.shape.head {
        None => one_list(description, alloc, description.shape.each),
        Some(head) => two_lists(description, alloc, head, description.shape.each),
    }
}
