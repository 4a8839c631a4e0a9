//! Terms without their constraints. A term is moved and not copied.
ghost use Rattle.std.specs.Prelude.{◌≡◌, map, IfOk};
ghost use Rattle.pads_calc.specs.declared.term.Term.TheVariants as term_form;
ghost use Rattle.pads_mask.specs.Unguarded.{unguarded as unguarded_of, unguarded_arm, unguarded_case, unguarded_option, unguarded_part, unguarded_seq};

use pads_calc::{Arm, Case, Part, Seq, Term};
use pads_expr::Expr;
use pads_value::{Boxed, Items, Memory};
use std::alloc::Global;

/// A term without its constraints.
#[cycle(unguarded)]
#[tactic(auto, using(std::proofs::lemmas::Grind::common_steps, crate::proofs::Rolls::unguarded_rules))]
pub(crate) fn unguarded(alloc: Global, term: Term) -> Result<Term, Memory>
    ensures unguarded { IfOk result (λ made. made ≡ unguarded_of term) }
{
    match term {
        Term::Struct(parts) => of_struct(alloc, parts.into_vec()),
        Term::Alt(arms) => of_union(alloc, arms.into_vec()),
        Term::Switch(selector, cases) => of_switch(alloc, selector, cases.into_vec()),
        Term::Guard(inner, _, _) => unguarded(alloc, inner.into_inner()),
        Term::Seq(seq) => of_array(alloc, seq.into_inner()),
        Term::Absorb(inner) => Ok(Term::Absorb(of_boxed(alloc, inner)?)),
        Term::Scan(inner) => Ok(Term::Scan(of_boxed(alloc, inner)?)),
        Term::Unit => Ok(Term::Unit),
        Term::Base(base, args) => Ok(Term::Base(base, args)),
        Term::Lit(literal) => Ok(Term::Lit(literal)),
        Term::Eor => Ok(Term::Eor),
        Term::Call(number, args) => Ok(Term::Call(number, args)),
        Term::Compute(value, form) => Ok(Term::Compute(value, form)),
    }
}

#[cycle(unguarded)]
fn of_boxed(alloc: Global, inner: Boxed<Term>) -> Result<Boxed<Term>, Memory>
    ensures unguarded { IfOk result (λ made. made ≡ unguarded_of inner) }
{
    Boxed::new(alloc, unguarded(alloc, inner.into_inner())?)
}

#[cycle(unguarded)]
fn of_optional(alloc: Global, term: Option<Term>) -> Result<Option<Term>, Memory>
    ensures unguarded { IfOk result (λ made. made ≡ unguarded_option term) }
{
    match term {
        None => Ok(None),
        Some(term) => Ok(Some(unguarded(alloc, term)?)),
    }
}

#[cycle(unguarded)]
fn of_arm(alloc: Global, arm: Arm) -> Result<Arm, Memory>
    ensures unguarded { IfOk result (λ made. made ≡ unguarded_arm arm) }
{
    let Arm { name, term } = arm;
    let term = unguarded(alloc, term)?;
    Ok(Arm { name, term })
}

#[cycle(unguarded)]
fn of_struct(alloc: Global, parts: Vec<Part>) -> Result<Term, Memory>
    ensures unguarded { IfOk result (λ made. made ≡ term_form.Struct (map unguarded_part parts.items)) }
{
    let mut made = Items::new(alloc);
    for part in parts {
        let Part { name, term } = part;
        let term = unguarded(alloc, term)?;
        made.push(Part { name, term })?;
    }
    Ok(Term::Struct(made))
}

#[cycle(unguarded)]
fn of_union(alloc: Global, arms: Vec<Arm>) -> Result<Term, Memory>
    ensures unguarded { IfOk result (λ made. made ≡ term_form.Alt (map unguarded_arm arms.items)) }
{
    let mut made = Items::new(alloc);
    for arm in arms {
        made.push(of_arm(alloc, arm)?)?;
    }
    Ok(Term::Alt(made))
}

#[cycle(unguarded)]
fn of_switch(alloc: Global, selector: Expr, cases: Vec<Case>) -> Result<Term, Memory>
    ensures unguarded { IfOk result (λ made. made ≡ term_form.Switch selector (map unguarded_case cases.items)) }
{
    let mut made = Items::new(alloc);
    for case in cases {
        let Case { key, arm } = case;
        let arm = of_arm(alloc, arm)?;
        made.push(Case { key, arm })?;
    }
    Ok(Term::Switch(selector, made))
}

#[cycle(unguarded)]
fn of_array(alloc: Global, seq: Seq) -> Result<Term, Memory>
    ensures unguarded { IfOk result (λ made. made ≡ term_form.Seq (unguarded_seq seq)) }
{
    let Seq {
        elem,
        sep,
        size,
        last,
        stop,
        elts,
    } = seq;
    let elem = unguarded(alloc, elem)?;
    let sep = of_optional(alloc, sep)?;
    let stop = of_optional(alloc, stop)?;
    let seq = Seq {
        elem,
        sep,
        size,
        last,
        stop,
        elts,
    };
    Ok(Term::Seq(Boxed::new(alloc, seq)?))
}
