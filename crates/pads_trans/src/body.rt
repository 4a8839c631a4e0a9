//! The translation of the bodies of declarations.
ghost use Rattle.std.specs.Prelude.{◌≡◌, ◌++◌, map, IfOk, OnOk};
ghost use Rattle.pads_calc.specs.declared.term.Term.TheVariants as term_form;
ghost use Rattle.pads_trans.specs.Terms.{form_of, literal_part as literal_part_of, named_part as named_part_of, field_of, part_of, struct_of, arm_of, case_of, default_of, switch_of, union_of};
ghost use Rattle.pads_trans.specs.Expressions.{expr_of};

use crate::types::{constrained, form, key, literal, type_term};
use crate::{Numbering, translate_expr};
use pads_calc::{Arm, Arms, Case, Cases, Part, Parts, Term};
use pads_code::Coding;
use pads_resolution::{
    Branch, Case as CaseTree, Computed, Expr as Tree, Literal, Part as PartTree, Struct, Switch,
    Union,
};
use pads_value::{Boxed, Items, Memory};
use std::alloc::Global;

/// The term of a field or a branch.
#[tactic(auto, unfolding(crate::specs::Terms::field_of))]
fn field(alloc: Global, names: &Numbering, ambient: Coding, branch: &Branch) -> Result<Term, Memory>
    ensures field { IfOk result (λ made. made ≡ field_of names.now ambient branch.now) }
{
    let inner = type_term(alloc, names, ambient, &branch.of)?;
    let name = branch.name.as_slice();
    constrained(alloc, names, inner, name, &branch.constraint)
}

fn named_part(names: &Numbering, name: &[u8], term: Term) -> Part
    ensures part { result ≡ named_part_of names.now name.now term }
{
    Part {
        name: Some(names.number(name)),
        term,
    }
}

/// A literal, found at the first place at which it stands. Its value isn't kept.
fn literal_part(alloc: Global, ambient: Coding, of: &Literal) -> Result<Part, Memory>
    ensures part { IfOk result (λ made. made ≡ literal_part_of ambient of.now) }
{
    let literal = Boxed::new(alloc, literal(alloc, ambient, of)?)?;
    let absorbed = Boxed::new(alloc, Term::Absorb(literal))?;
    Ok(Part {
        name: None,
        term: Term::Scan(absorbed),
    })
}

fn computed(alloc: Global, names: &Numbering, of: Computed, value: &Tree) -> Result<Term, Memory>
    ensures computed { IfOk result (λ made. made ≡ term_form.Compute (expr_of names.now value.now) (form_of of)) }
{
    Ok(Term::Compute(translate_expr(alloc, names, value)?, form(of)))
}

#[tactic(auto, unfolding(crate::specs::Terms::part_of))]
fn part(alloc: Global, names: &Numbering, ambient: Coding, part: &PartTree) -> Result<Part, Memory>
    ensures part { IfOk result (λ made. made ≡ part_of names.now ambient part.now) }
{
    match part {
        PartTree::Literal(literal) => literal_part(alloc, ambient, literal),
        PartTree::Pcompute { of, name, value } => {
            let term = computed(alloc, names, *of, value)?;
            Ok(named_part(names, name.as_slice(), term))
        }
        PartTree::Field(branch) => {
            let term = field(alloc, names, ambient, branch)?;
            Ok(named_part(names, branch.name.as_slice(), term))
        }
    }
}

fn parts(
    alloc: Global,
    names: &Numbering,
    ambient: Coding,
    parts: &[PartTree],
) -> Result<Parts, Memory>
    ensures parts { IfOk result (λ made. made ≡ map (part_of names.now ambient) parts.now) }
{
    let mut made = Items::new(alloc);
    for one in parts {
        made.push(part(alloc, names, ambient, one)?)?;
    }
    Ok(made)
}

#[tactic(auto, unfolding(crate::specs::Terms::struct_of))]
pub(crate) fn structure(
    alloc: Global,
    names: &Numbering,
    ambient: Coding,
    body: &Struct,
) -> Result<Term, Memory>
    ensures made { IfOk result (λ made. made ≡ struct_of names.now ambient body.now) }
{
    let parts = parts(alloc, names, ambient, body.parts.as_slice())?;
    constrained(alloc, names, Term::Struct(parts), b"@", &body.condition)
}

#[tactic(auto, unfolding(crate::specs::Terms::arm_of))]
fn arm(alloc: Global, names: &Numbering, ambient: Coding, branch: &Branch) -> Result<Arm, Memory>
    ensures arm { IfOk result (λ made. made ≡ arm_of names.now ambient branch.now) }
{
    let term = field(alloc, names, ambient, branch)?;
    Ok(Arm {
        name: names.number(branch.name.as_slice()),
        term,
    })
}

fn arms(
    alloc: Global,
    names: &Numbering,
    ambient: Coding,
    branches: &[Branch],
) -> Result<Arms, Memory>
    ensures arms { IfOk result (λ made. made ≡ map (arm_of names.now ambient) branches.now) }
{
    let mut made = Items::new(alloc);
    for branch in branches {
        made.push(arm(alloc, names, ambient, branch)?)?;
    }
    Ok(made)
}

#[tactic(auto, unfolding(crate::specs::Terms::case_of))]
fn case(alloc: Global, names: &Numbering, ambient: Coding, case: &CaseTree) -> Result<Case, Memory>
    ensures case { IfOk result (λ made. made ≡ case_of names.now ambient case.now) }
{
    let key = key(alloc, &case.key)?;
    let arm = arm(alloc, names, ambient, &case.branch)?;
    Ok(Case {
        key: Some(key),
        arm,
    })
}

/// The cases with a key.
fn keyed_cases(
    alloc: Global,
    names: &Numbering,
    ambient: Coding,
    cases: &[CaseTree],
) -> Result<Cases, Memory>
    ensures cases { IfOk result (λ made. made ≡ map (case_of names.now ambient) cases.now) }
{
    let mut made = Items::new(alloc);
    for one in cases {
        made.push(case(alloc, names, ambient, one)?)?;
    }
    Ok(made)
}

/// Puts the case for all other values behind the others, if there is one.
fn push_default(
    alloc: Global,
    names: &Numbering,
    ambient: Coding,
    cases: &mut Cases,
    default: &Option<Branch>,
) -> Result<(), Memory>
    ensures pushed { OnOk result (cases.new ≡ cases.old ++ default_of names.now ambient default.now) }
{
    let Some(branch) = default else {
        return Ok(());
    };
    let arm = arm(alloc, names, ambient, branch)?;
    cases.push(Case { key: None, arm })
}

#[tactic(auto, unfolding(crate::specs::Terms::switch_of))]
fn switched(
    alloc: Global,
    names: &Numbering,
    ambient: Coding,
    switch: &Switch,
) -> Result<Term, Memory>
    ensures made { IfOk result (λ made. made ≡ switch_of names.now ambient switch.now) }
{
    let mut cases = keyed_cases(alloc, names, ambient, switch.cases.as_slice())?;
    push_default(alloc, names, ambient, &mut cases, &switch.default)?;
    let value = translate_expr(alloc, names, &switch.value)?;
    Ok(Term::Switch(value, cases))
}

#[tactic(auto, unfolding(crate::specs::Terms::union_of))]
pub(crate) fn union_term(
    alloc: Global,
    names: &Numbering,
    ambient: Coding,
    body: &Union,
) -> Result<Term, Memory>
    ensures made { IfOk result (λ made. made ≡ union_of names.now ambient body.now) }
{
    match body {
        Union::Branches(branches) => {
            Ok(Term::Alt(arms(alloc, names, ambient, branches.as_slice())?))
        }
        Union::Pswitch(switch) => switched(alloc, names, ambient, switch),
    }
}
