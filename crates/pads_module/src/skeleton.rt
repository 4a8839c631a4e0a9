//! The skeletons of terms, and what declarations keep.
ghost use Rattle.std.specs.Prelude.{◌≡◌, map, IfOk};
ghost use Rattle.pads_calc.specs.Rows.{kept_by};
ghost use Rattle.pads_calc.specs.Skeletons.{all_set, erasing_of, keeping_of, keepings_of, skeleton_of as skeleton_by};
ghost use Rattle.pads_erase.specs.declared.skeleton.Skeleton.TheVariants as skeleton;

use crate::Module;
use pads_calc::{Arm, Case, DEEPEST, Decl, Part, Reading, Term};
use pads_erase::{Keeping, Keepings, Skeleton, erase};
use pads_value::{Items, Memory};
use std::alloc::Global;

/// The skeleton of a term.
#[cycle(skeleton)]
#[tactic(auto, using(std::proofs::lemmas::Grind::common_steps, crate::proofs::SkeletonRolls::skeleton_rules))]
pub fn skeleton_of(alloc: Global, term: &Term) -> Result<Skeleton, Memory>
    ensures skeleton { IfOk result (λ made. made ≡ skeleton_by term.now) }
{
    match term {
        Term::Unit | Term::Lit(_) | Term::Eor => Ok(Skeleton::Nothing),
        Term::Base(_, _) | Term::Compute(_, _) => Ok(Skeleton::Leaf),
        Term::Struct(parts) => of_parts(alloc, parts.as_slice()),
        Term::Alt(arms) => of_arms(alloc, arms.as_slice()),
        Term::Switch(_, cases) => of_cases(alloc, cases.as_slice()),
        Term::Guard(inner, _, _) => skeleton_of(alloc, inner.get()),
        Term::Seq(seq) => Skeleton::each(alloc, skeleton_of(alloc, &seq.get().elem)?),
        Term::Call(number, _) => Ok(Skeleton::Ref(*number)),
        Term::Absorb(inner) => skeleton_of(alloc, inner.get()),
        Term::Scan(inner) => skeleton_of(alloc, inner.get()),
    }
}

/// The skeleton of a struct.
#[cycle(skeleton)]
fn of_parts(alloc: Global, parts: &[Part]) -> Result<Skeleton, Memory>
    ensures skeleton { IfOk result (λ made. made ≡ skeleton.List (map (λ part. skeleton_by part.term) parts.now)) }
{
    let mut made = Items::new(alloc);
    for part in parts {
        made.push(skeleton_of(alloc, &part.term)?)?;
    }
    Ok(Skeleton::List(made))
}

/// The skeleton of a union.
#[cycle(skeleton)]
fn of_arms(alloc: Global, arms: &[Arm]) -> Result<Skeleton, Memory>
    ensures skeleton { IfOk result (λ made. made ≡ skeleton.Arms (map (λ arm. skeleton_by arm.term) arms.now)) }
{
    let mut made = Items::new(alloc);
    for arm in arms {
        made.push(skeleton_of(alloc, &arm.term)?)?;
    }
    Ok(Skeleton::Arms(made))
}

/// The skeleton of a switched union.
#[cycle(skeleton)]
fn of_cases(alloc: Global, cases: &[Case]) -> Result<Skeleton, Memory>
    ensures skeleton { IfOk result (λ made. made ≡ skeleton.Arms (map (λ case. skeleton_by case.arm.term) cases.now)) }
{
    let mut made = Items::new(alloc);
    for case in cases {
        made.push(skeleton_of(alloc, &case.arm.term)?)?;
    }
    Ok(Skeleton::Arms(made))
}

/// What a declaration keeps.
fn keeping(alloc: Global, decl: &Decl) -> Result<Keeping, Memory>
    ensures keeping { IfOk result (λ made. made ≡ keeping_of decl.now) }
{
    Ok(Keeping {
        set: decl.set,
        skeleton: skeleton_of(alloc, &decl.body)?,
    })
}

/// What declarations keep, in their order.
fn keepings(alloc: Global, decls: &[Decl]) -> Result<Keepings, Memory>
    ensures keepings { IfOk result (λ made. made ≡ keepings_of decls.now) }
{
    let mut made = Items::new(alloc);
    for decl in decls {
        made.push(keeping(alloc, decl)?)?;
    }
    Ok(made)
}

/// Whether each declaration keeps the values of its own body.
fn are_all_set(decls: &[Decl]) -> bool
    ensures all { result ≡ all_set decls.now }
{
    decls.iter().all(|decl| decl.set)
}

/// What is looked up where values are erased; none where all are kept.
pub(crate) fn erasing(alloc: Global, decls: &[Decl]) -> Result<Option<Keepings>, Memory>
    ensures erasing { IfOk result (λ made. made ≡ erasing_of decls.now) }
{
    if are_all_set(decls) {
        return Ok(None);
    }
    Ok(Some(keepings(alloc, decls)?))
}

/// What is left of a reading of a declaration.
pub fn erased(
    alloc: Global,
    keepings: &[Keeping],
    number: u16,
    reading: Reading,
) -> Result<Reading, Memory>
    ensures kept { IfOk result (λ left. left ≡ kept_by keepings.now number reading) }
{
    let Reading { value, pd, place } = reading;
    let value = erase(alloc, keepings, DEEPEST, number, value)?;
    Ok(Reading { value, pd, place })
}

impl Module {
    /// What is left of what a declaration reads as: the values of declarations that keep none of their own
    /// are missing.
    pub fn kept(&self, alloc: Global, number: u16, reading: Reading) -> Result<Reading, Memory>
        ensures kept { IfOk result (λ left. left ≡ kept_by (keepings_of self.now.decls) number reading) }
    {
        match &self.erasing {
            None => Ok(reading),
            Some(keepings) => erased(alloc, keepings.as_slice(), number, reading),
        }
    }
}
