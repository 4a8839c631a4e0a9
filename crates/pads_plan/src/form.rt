ghost use Rattle.std.specs.Prelude.{◌≡◌, map, IfOk};
ghost use Rattle.pads_calc.specs.declared.term.Term.{out-Term};
ghost use Rattle.pads_plan.specs.Expansion.{base_form as base_form_of, computed_form as computed_form_of};
ghost use Rattle.pads_plan.specs.Pending.{arm_names as arm_names_of, case_names as case_names_of, form_of as form_of_term};

use pads_bases::Label;
use pads_calc::{Arm, Base, Case, ComputedForm, Term};
use pads_forms::{Terms, name_at};
use pads_sums::{PartForm, Texts};
use pads_value::{Items, Memory};
use std::alloc::Global;

fn label_names(alloc: Global, labels: &[Label]) -> Result<Texts, Memory>
    ensures names { IfOk result (λ names. names ≡ map (λ label. label.name) labels.now) }
{
    let mut names = Items::new(alloc);
    'labels: for label in labels {
        names.push(Items::from_slice(alloc, label.name.as_slice())?)?;
    }
    Ok(names)
}

fn arm_names(terms: &Terms<'_>, alloc: Global, arms: &[Arm]) -> Result<Texts, Memory>
    ensures names { IfOk result (λ names. names ≡ arm_names_of terms.now.names.now arms.now) }
{
    let mut names = Items::new(alloc);
    'arms: for arm in arms {
        names.push(Items::from_slice(alloc, name_at(terms, arm.name))?)?;
    }
    Ok(names)
}

fn case_names(terms: &Terms<'_>, alloc: Global, cases: &[Case]) -> Result<Texts, Memory>
    ensures names { IfOk result (λ names. names ≡ case_names_of terms.now.names.now cases.now) }
{
    let mut names = Items::new(alloc);
    'cases: for case in cases {
        names.push(Items::from_slice(alloc, name_at(terms, case.arm.name))?)?;
    }
    Ok(names)
}

fn base_form(alloc: Global, base: &Base) -> Result<PartForm, Memory>
    ensures form { IfOk result (λ form. form ≡ base_form_of base.now) }
{
    Ok(match base {
        Base::Int(_, _) | Base::IntFw(_, _) | Base::Bin(_, _) | Base::Packed(_) | Base::Zoned(_) =>
            PartForm::Number,
        Base::Until(_) | Base::UntilEor(_) | Base::Fixed(_) | Base::Class(_) | Base::Char(_) => {
            PartForm::Text
        }
        Base::Ip(_) => PartForm::Address,
        Base::Enum(_, labels) => PartForm::Label(label_names(alloc, labels.as_slice())?),
    })
}

fn computed_form(form: ComputedForm) -> PartForm
    ensures form { result ≡ computed_form_of form }
{
    match form {
        ComputedForm::Range(_, _) => PartForm::Number,
        ComputedForm::Text => PartForm::Text,
    }
}

/// The form of a term that isn't passed through.
pub(crate) fn form_of(terms: &Terms<'_>, alloc: Global, term: &Term) -> Result<PartForm, Memory>
    ensures form { IfOk result (λ form. form ≡ form_of_term terms.now.names.now (out-Term term.now)) }
{
    match term {
        Term::Base(base, _) => base_form(alloc, base),
        Term::Compute(_, form) => Ok(computed_form(*form)),
        Term::Struct(_) => Ok(PartForm::Fields),
        Term::Alt(arms) => Ok(PartForm::Branch(arm_names(terms, alloc, arms.as_slice())?)),
        Term::Switch(_, cases) => Ok(PartForm::Branch(case_names(terms, alloc, cases.as_slice())?)),
        Term::Seq(_) => Ok(PartForm::Elements),
        _ => Ok(PartForm::Bare),
    }
}
