//! Where one step goes.

ghost use Rattle.std.specs.Prelude.{◌≡◌, option_and_then, option_map, position};
ghost use Rattle.std.specs.Option.{option_copied};
ghost use Rattle.pads_calc.specs.declared.term.Term.{out-Term};
ghost use Rattle.pads_path.specs.Names as names;
ghost use Rattle.pads_path.specs.Resolving as resolving;
ghost use Rattle.pads_path.specs.Ways.{way_seen};

use crate::PathReason;
use pads_calc::{Arm, Arms, Case, Cases, Part, Parts, Term};
use pads_forms::{Terms, form_at, name_at};
use pads_nodes::Step;
use pads_syntax_path::PathStep;

/// A step by number, and the term of the nodes that it leads to.
#[derive(Clone, Copy)]
pub(crate) struct Way<'m> {
    pub(crate) step: Step,
    pub(crate) term: &'m Term,
}

/// Whether a name by its number is this text.
fn is_name(terms: &Terms<'_>, text: &[u8], number: u16) -> bool
    ensures name { result ≡ names.is_name terms.now.names.now text.now number }
{
    name_at(terms, number) == text
}

fn is_part(terms: &Terms<'_>, text: &[u8], part: &Part) -> bool
    ensures part { result ≡ names.is_part terms.now.names.now text.now part.now }
{
    match part.name {
        None => false,
        Some(number) => is_name(terms, text, number),
    }
}

/// A number in 16 bits. A term has at most 65,535 parts, branches or cases.
fn short(number: usize) -> u16
    ensures short { result ≡ resolving.short number }
{
    number.min(65_535) as u16
}

/// The number of the first part of a name.
fn part_number(terms: &Terms<'_>, text: &[u8], parts: &[Part]) -> Option<usize>
    ensures first { result ≡ position (names.is_part terms.now.names.now text.now) parts.now }
{
    parts.iter().position(|part| is_part(terms, text, part))
}

/// To the part of a number.
fn part_at(parts: &Parts, number: usize) -> Option<Way<'_>>
    ensures way { option_map way_seen result ≡ resolving.part_way parts.now number }
{
    let part = parts.get(number as u64)?;
    Some(Way {
        step: Step::Part(short(number)),
        term: &part.term,
    })
}

/// To the first part of a name.
fn part_way<'m>(terms: &Terms<'m>, text: &[u8], parts: &'m Parts) -> Option<Way<'m>>
    ensures way { option_map way_seen result ≡ option_and_then (resolving.part_way parts.now) (position (names.is_part terms.now.names.now text.now) parts.now) }
{
    let number = part_number(terms, text, parts.as_slice())?;
    part_at(parts, number)
}

/// The number of the first branch of a name.
fn arm_number(terms: &Terms<'_>, text: &[u8], arms: &[Arm]) -> Option<usize>
    ensures first { result ≡ position (names.is_arm terms.now.names.now text.now) arms.now }
{
    arms.iter().position(|arm| is_name(terms, text, arm.name))
}

/// To the branch of a number.
fn arm_at(arms: &Arms, number: usize) -> Option<Way<'_>>
    ensures way { option_map way_seen result ≡ resolving.arm_way arms.now number }
{
    let arm = arms.get(number as u64)?;
    Some(Way {
        step: Step::Arm(short(number)),
        term: &arm.term,
    })
}

/// To the first branch of a name.
fn arm_way<'m>(terms: &Terms<'m>, text: &[u8], arms: &'m Arms) -> Option<Way<'m>>
    ensures way { option_map way_seen result ≡ option_and_then (resolving.arm_way arms.now) (position (names.is_arm terms.now.names.now text.now) arms.now) }
{
    let number = arm_number(terms, text, arms.as_slice())?;
    arm_at(arms, number)
}

/// The number of the first case whose branch has a name.
fn case_number(terms: &Terms<'_>, text: &[u8], cases: &[Case]) -> Option<usize>
    ensures first { result ≡ position (names.is_case terms.now.names.now text.now) cases.now }
{
    cases
        .iter()
        .position(|case| is_name(terms, text, case.arm.name))
}

/// To the branch of the case of a number.
fn case_at(cases: &Cases, number: usize) -> Option<Way<'_>>
    ensures way { option_map way_seen result ≡ resolving.case_way cases.now number }
{
    let case = cases.get(number as u64)?;
    Some(Way {
        step: Step::Arm(short(number)),
        term: &case.arm.term,
    })
}

/// To the first case whose branch has a name.
fn case_way<'m>(terms: &Terms<'m>, text: &[u8], cases: &'m Cases) -> Option<Way<'m>>
    ensures way { option_map way_seen result ≡ option_and_then (resolving.case_way cases.now) (position (names.is_case terms.now.names.now text.now) cases.now) }
{
    let number = case_number(terms, text, cases.as_slice())?;
    case_at(cases, number)
}

/// To a part of a struct, or to a branch of a union or an optional.
fn named_way<'m>(terms: &Terms<'m>, text: &[u8], term: &'m Term) -> Option<Way<'m>>
    ensures way { option_map way_seen result ≡ resolving.named_way terms.now.names.now text.now (out-Term term.now) }
{
    match term {
        Term::Struct(parts) => part_way(terms, text, parts),
        Term::Alt(arms) => arm_way(terms, text, arms),
        Term::Switch(_, cases) => case_way(terms, text, cases),
        _ => None,
    }
}

/// To elements of an array.
fn element_way<'m>(step: Step, term: &'m Term) -> Option<Way<'m>>
    ensures way { option_map way_seen result ≡ resolving.element_way step (out-Term term.now) }
{
    match term {
        Term::Seq(seq) => Some(Way {
            step,
            term: &seq.get().elem,
        }),
        _ => None,
    }
}

/// Where a step goes from a term that isn't passed through, if there is one.
pub(crate) fn way_from<'m>(
    terms: &Terms<'m>,
    next: &PathStep,
    here: Option<&'m Term>,
) -> Option<Way<'m>>
    ensures way { option_map way_seen result ≡ resolving.way terms.now.names.now next.now (option_copied here.entry) }
{
    let term = here?;
    match next {
        PathStep::Name(text) => named_way(terms, text.as_slice(), term),
        PathStep::Index(number) => element_way(Step::Elem(*number), term),
        PathStep::Each => element_way(Step::Each, term),
    }
}

/// Why a name names nothing at a term.
fn no_name(here: Option<&Term>) -> PathReason
    ensures reason { result ≡ resolving.no_name_at (option_copied here.entry) }
{
    match here {
        Some(Term::Struct(_)) => PathReason::NoField,
        Some(Term::Alt(_)) | Some(Term::Switch(_, _)) => PathReason::NoBranch,
        _ => PathReason::NotNamed,
    }
}

/// Why a step goes nowhere.
pub(crate) fn reason(next: &PathStep, here: Option<&Term>) -> PathReason
    ensures reason { result ≡ resolving.reason_of next.now (option_copied here.entry) }
{
    match next {
        PathStep::Name(_) => no_name(here),
        PathStep::Index(_) | PathStep::Each => PathReason::NotArray,
    }
}

/// The term that decides what a node is, behind constraints, searches and calls.
pub(crate) fn form_of<'m>(terms: &Terms<'m>, term: &'m Term) -> Option<&'m Term>
    ensures form { option_copied result ≡ resolving.form_of terms.now.decls.now term.now }
{
    let form = form_at(terms, false, terms.decls.len(), term)?;
    Some(form.term)
}
