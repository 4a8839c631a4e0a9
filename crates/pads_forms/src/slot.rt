ghost use Rattle.std.specs.Prelude.{◌≡◌, slice_get};
ghost use Rattle.std.specs.Option.{option_map, option_copied};
ghost use Rattle.pads_calc.specs.declared.term.Term.{out-Term};
ghost use Rattle.pads_forms.specs.Slots.{slot as slot_of, slot_seen, part_step as part_step_of, part_slot as part_slot_of, branch_slot as branch_slot_of, tuple_of, array_of, branch_of};
ghost use Rattle.pads_forms.specs.Steps.{step_seen};
ghost use Rattle.pads_forms.specs.Terms.{name_at as name_of, arm_in};

use crate::step::Step;
use crate::terms::Terms;
use pads_calc::{Arm, Part, Term};
use pads_value::Val;

/// A kid that a term gives to a node.
#[derive(Clone, Copy)]
pub struct Slot<'m> {
    pub step: Step<'m>,
    /// The kid's value, where it is known.
    pub value: Option<&'m Val>,
    pub term: &'m Term,
}

/// The name of a number.
pub fn name_at<'m>(terms: &Terms<'m>, number: u16) -> &'m [u8]
    ensures name { result.now ≡ name_of terms.now.names.now number }
{
    terms.names.at(number).unwrap_or(b"")
}

/// The branch of a number, of a union of either kind.
pub fn arm_at(term: &Term, number: u16) -> Option<&Arm>
    ensures arm { option_copied result ≡ arm_in (out-Term term.now) number }
{
    match term {
        Term::Alt(arms) => arms.get(u64::from(number)),
        Term::Switch(_, cases) => match cases.get(u64::from(number)) {
            Some(case) => Some(&case.arm),
            None => None,
        },
        _ => None,
    }
}

/// The value of a part of a struct; none of any other value.
fn part_of(value: Option<&Val>, number: u64) -> Option<&Val>
    ensures part { option_copied result ≡ slice_get (tuple_of (option_copied value.entry)) number }
{
    match value {
        Some(Val::Tuple(parts)) => parts.get(number),
        _ => None,
    }
}

/// An element of an array; none of any other value.
fn element_of(value: Option<&Val>, number: u64) -> Option<&Val>
    ensures element { option_copied result ≡ slice_get (array_of (option_copied value.entry)) number }
{
    match value {
        Some(Val::Array(elements)) => elements.get(number),
        _ => None,
    }
}

fn part_step<'m>(terms: &Terms<'m>, number: u64, name: Option<u16>) -> Step<'m>
    ensures step { step_seen result ≡ part_step_of terms.now.names.now number name }
{
    match name {
        Some(name) => Step::Named(name_at(terms, name)),
        None => Step::Unnamed(number),
    }
}

fn part_slot<'m>(
    terms: &Terms<'m>,
    number: u64,
    value: Option<&'m Val>,
    part: Option<&'m Part>,
) -> Option<Slot<'m>>
    ensures slot { option_map slot_seen result ≡ part_slot_of terms.now.names.now number (option_copied value.entry) (option_copied part.entry) }
{
    let part = part?;
    Some(Slot {
        step: part_step(terms, number, part.name),
        value,
        term: &part.term,
    })
}

fn branch_slot<'m>(
    terms: &Terms<'m>,
    term: &'m Term,
    value: Option<&'m Val>,
    number: u64,
) -> Option<Slot<'m>>
    ensures slot { option_map slot_seen result ≡ branch_slot_of terms.now.names.now (out-Term term.now) (branch_of (option_copied value.entry)) number }
{
    let Some(Val::Branch(chosen, inner)) = value else {
        return None;
    };
    if number != 0 {
        return None;
    }
    let arm = arm_at(term, *chosen)?;
    Some(Slot {
        step: Step::Named(name_at(terms, arm.name)),
        value: Some(inner.get()),
        term: &arm.term,
    })
}

/// Kid number `number` of a node with this form and value, if the form has it.
pub fn slot_at<'m>(
    terms: &Terms<'m>,
    term: &'m Term,
    value: Option<&'m Val>,
    number: u64,
) -> Option<Slot<'m>>
    ensures slot { option_map slot_seen result ≡ slot_of terms.now.names.now term.now (option_copied value.entry) number }
{
    match term {
        Term::Struct(parts) => part_slot(terms, number, part_of(value, number), parts.get(number)),
        Term::Alt(_) | Term::Switch(_, _) => branch_slot(terms, term, value, number),
        Term::Seq(seq) => Some(Slot {
            step: Step::Element(number),
            value: element_of(value, number),
            term: &seq.get().elem,
        }),
        _ => None,
    }
}
