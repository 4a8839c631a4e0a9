ghost use Rattle.std.specs.Prelude.{◌≡◌, ◌++◌, ◌∷◌, ◌+◌, ◌<◌, ◌≤◌, ℕ, List, [], map, nat_eq, false, length, reverse, IfOk, IfSome, OnOk};
ghost use Rattle.std.specs.List.{list_any};
ghost use Rattle.std.specs.Option.{option_copied};
ghost use Rattle.pads_calc.specs.declared.term.Term.{out-Term};
ghost use Rattle.pads_plan.specs.Expansion.{Listed, expand, caller, parts_below, branches_below};
ghost use Rattle.pads_plan.specs.Pending.{Plain, is_passed, is_unit as is_unit_of, kids_of, named_of, branch_of, branch_of_case, parts_at, found_at, callee_of, pending};
ghost use Rattle.pads_plan.specs.Ways.{from};

use crate::part::Step;
use crate::place::{each_below, named_below};
use pads_calc::{Arm, Case, Decl, NameIds, Part, Term};
use pads_forms::{Terms, name_at};
use pads_value::{Bytes, Items, Memory};
use std::alloc::Global;

/// A term whose parts are still to be listed, and how it is reached.
#[derive(Drop)]
pub(crate) struct Pending<'m> {
    /// The number of the part above.
    pub(crate) up: u64,
    pub(crate) step: Step,
    pub(crate) place: Bytes,
    /// The declarations that stand on the way to it.
    pub(crate) way: NameIds,
    /// How many more declarations can come to stand there.
    pub(crate) left: u64,
    pub(crate) term: &'m Term,
}

/// The part whose kids are listed.
#[derive(Clone, Copy)]
pub(crate) struct Above<'p> {
    pub(crate) number: u64,
    pub(crate) step: Step,
    pub(crate) place: &'p [u8],
    pub(crate) way: &'p [u16],
    pub(crate) left: u64,
}

/// The term inside constraints, searches and absorbed terms.
fn inside(outer: &Term) -> &Term
    ensures same { (names : List (List ℕ)) (call : ℕ → Listed) → (expand names call outer.now).listed ≡ (expand names call result.now).listed }
    ensures stands { is_passed (out-Term result.now) ≡ false }
{
    let mut term = outer;
    'inside: loop {
        term = match term {
            Term::Guard(inner, _, _) => inner.get(),
            Term::Scan(inner) => inner.get(),
            Term::Absorb(inner) => inner.get(),
            _ => return term,
        };
    }
}

/// Whether a declaration stands on the way.
fn is_met(number: u16, way: &[u16]) -> bool
    ensures met { result ≡ list_any (nat_eq number) way.now }
{
    way.iter().any(|met| number == *met)
}

/// The declaration that a call leads to; none where it stands on the way already.
#[tactic(auto, using(crate::proofs::Calls::callee_none, crate::proofs::Calls::callee_met, crate::proofs::Calls::callee_found))]
fn callee<'m>(terms: &Terms<'m>, left: u64, number: u16, way: &[u16]) -> Option<&'m Decl>
    ensures callee { option_copied result ≡ callee_of terms.now.decls.now left number way.now }
    ensures room { IfSome result (λ decl. 0 < left) }
{
    if left == 0 {
        return None;
    }
    if is_met(number, way) {
        return None;
    }
    terms.decls.get(u64::from(number))
}

/// The term behind all that is passed through, with the way to it; none where a call is repeated.
pub(crate) fn behind<'m>(
    terms: &Terms<'m>,
    way: &mut NameIds,
    left: &mut u64,
    outer: &'m Term,
) -> Result<Option<&'m Term>, Memory>
    ensures same { IfOk result (λ found. parts_at terms.now.decls.now terms.now.names.now left.old outer.now way.old ≡ found_at terms.now.decls.now terms.now.names.now left.new (option_copied found) way.new) }
    ensures plain { IfOk result (λ found. Plain (option_copied found)) }
{
    let mut term = inside(outer);
    'calls: while let Term::Call(number, _) = term {
        let decl = match callee(terms, *left, *number, way.as_slice()) {
            None => return Ok(None),
            Some(decl) => decl,
        };
        way.push(*number)?;
        *left -= 1;
        term = inside(&decl.body);
    }
    Ok(Some(term))
}

/// Puts a term below a part on the stack.
fn push_kid<'m>(
    terms: &Terms<'m>,
    alloc: Global,
    stack: &mut Vec<Pending<'m>>,
    above: &Above<'_>,
    step: Step,
    place: Bytes,
    term: &'m Term,
) -> Result<(), Memory>
    ensures pushed { OnOk result (pending terms.now.decls.now terms.now.names.now stack.new.items ≡ pending terms.now.decls.now terms.now.names.now stack.old.items ++ parts_at terms.now.decls.now terms.now.names.now above.now.left term.now above.now.way.now (from above.now.number step place) ∷ []) }
{
    stack.push(Pending {
        up: above.number,
        step,
        place,
        way: Items::from_slice(alloc, above.way)?,
        left: above.left,
        term,
    })?;
    Ok(())
}

/// Puts a part of a struct on the stack, if it has a name.
fn push_part<'m>(
    terms: &Terms<'m>,
    alloc: Global,
    stack: &mut Vec<Pending<'m>>,
    above: &Above<'_>,
    number: u64,
    part: &'m Part,
) -> Result<(), Memory>
    ensures pushed { OnOk result (pending terms.now.decls.now terms.now.names.now stack.new.items ≡ pending terms.now.decls.now terms.now.names.now stack.old.items ++ reverse (parts_below terms.now.names.now above.now.way.now above.now.step above.now.place.now above.now.number number (named_of terms.now.names.now (caller terms.now.names.now terms.now.decls.now above.now.left) part.now ∷ []))) }
{
    let Some(name) = part.name else {
        return Ok(());
    };
    let place = named_below(alloc, above.step, above.place, name_at(terms, name))?;
    push_kid(
        terms,
        alloc,
        stack,
        above,
        Step::Part(number),
        place,
        &part.term,
    )
}

/// Puts the named parts of a struct on the stack, the first last.
fn push_parts<'m>(
    terms: &Terms<'m>,
    alloc: Global,
    stack: &mut Vec<Pending<'m>>,
    above: &Above<'_>,
    parts: &'m [Part],
) -> Result<(), Memory>
    ensures pushed { OnOk result (pending terms.now.decls.now terms.now.names.now stack.new.items ≡ pending terms.now.decls.now terms.now.names.now stack.old.items ++ reverse (parts_below terms.now.names.now above.now.way.now above.now.step above.now.place.now above.now.number 0 (map (named_of terms.now.names.now (caller terms.now.names.now terms.now.decls.now above.now.left)) parts.now))) }
{
    let mut k = parts.len();
    'parts: while k > 0 {
        k -= 1;
        push_part(terms, alloc, stack, above, k as u64, &parts[k])?;
    }
    Ok(())
}

fn is_unit(term: &Term) -> bool
    ensures unit { result ≡ is_unit_of (out-Term term.now) }
{
    matches!(term, Term::Unit)
}

/// Puts a branch on the stack, unless it is nothing.
fn push_branch<'m>(
    terms: &Terms<'m>,
    alloc: Global,
    stack: &mut Vec<Pending<'m>>,
    above: &Above<'_>,
    number: u64,
    arm: &'m Arm,
) -> Result<(), Memory>
    ensures pushed { OnOk result (pending terms.now.decls.now terms.now.names.now stack.new.items ≡ pending terms.now.decls.now terms.now.names.now stack.old.items ++ reverse (branches_below terms.now.names.now above.now.way.now above.now.step above.now.place.now above.now.number number (branch_of terms.now.names.now (caller terms.now.names.now terms.now.decls.now above.now.left) arm.now ∷ []))) }
{
    if is_unit(&arm.term) {
        return Ok(());
    }
    let place = named_below(alloc, above.step, above.place, name_at(terms, arm.name))?;
    push_kid(
        terms,
        alloc,
        stack,
        above,
        Step::Branch(number),
        place,
        &arm.term,
    )
}

/// Puts the branches of a union on the stack, the first last.
fn push_arms<'m>(
    terms: &Terms<'m>,
    alloc: Global,
    stack: &mut Vec<Pending<'m>>,
    above: &Above<'_>,
    arms: &'m [Arm],
) -> Result<(), Memory>
    ensures pushed { OnOk result (pending terms.now.decls.now terms.now.names.now stack.new.items ≡ pending terms.now.decls.now terms.now.names.now stack.old.items ++ reverse (branches_below terms.now.names.now above.now.way.now above.now.step above.now.place.now above.now.number 0 (map (branch_of terms.now.names.now (caller terms.now.names.now terms.now.decls.now above.now.left)) arms.now))) }
{
    let mut k = arms.len();
    'arms: while k > 0 {
        k -= 1;
        push_branch(terms, alloc, stack, above, k as u64, &arms[k])?;
    }
    Ok(())
}

/// Puts the cases of a union on the stack, the first last.
fn push_cases<'m>(
    terms: &Terms<'m>,
    alloc: Global,
    stack: &mut Vec<Pending<'m>>,
    above: &Above<'_>,
    cases: &'m [Case],
) -> Result<(), Memory>
    ensures pushed { OnOk result (pending terms.now.decls.now terms.now.names.now stack.new.items ≡ pending terms.now.decls.now terms.now.names.now stack.old.items ++ reverse (branches_below terms.now.names.now above.now.way.now above.now.step above.now.place.now above.now.number 0 (map (branch_of_case terms.now.names.now (caller terms.now.names.now terms.now.decls.now above.now.left)) cases.now))) }
{
    let mut k = cases.len();
    'cases: while k > 0 {
        k -= 1;
        push_branch(terms, alloc, stack, above, k as u64, &cases[k].arm)?;
    }
    Ok(())
}

/// Puts all that stands directly below a part on the stack, the first last.
pub(crate) fn push_kids<'m>(
    terms: &Terms<'m>,
    alloc: Global,
    stack: &mut Vec<Pending<'m>>,
    above: &Above<'_>,
    term: &'m Term,
) -> Result<(), Memory>
    ensures pushed { OnOk result (pending terms.now.decls.now terms.now.names.now stack.new.items ≡ pending terms.now.decls.now terms.now.names.now stack.old.items ++ reverse (kids_of terms.now.names.now (caller terms.now.names.now terms.now.decls.now above.now.left) above.now.way.now above.now.step above.now.place.now above.now.number (out-Term term.now))) }
{
    match term {
        Term::Struct(parts) => push_parts(terms, alloc, stack, above, parts.as_slice()),
        Term::Alt(arms) => push_arms(terms, alloc, stack, above, arms.as_slice()),
        Term::Switch(_, cases) => push_cases(terms, alloc, stack, above, cases.as_slice()),
        Term::Seq(seq) => {
            let place = each_below(alloc, above.place)?;
            push_kid(
                terms,
                alloc,
                stack,
                above,
                Step::Each,
                place,
                &seq.get().elem,
            )
        }
        _ => Ok(()),
    }
}
