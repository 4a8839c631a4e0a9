//! Whether 16 bits count the parts, arms, cases and labels of a term.
ghost use Rattle.std.specs.Prelude.{◌≡◌, ◌&&◌};
ghost use Rattle.std.specs.List.{list_all};
ghost use Rattle.pads_module.specs.Counts.{counts_fit as counts_fit_of, option_counts, few as few_of, decl_counts, module_counts};

use pads_calc::{Arm, Case, Decl, Part, Seq, Term};
use pads_dispatch::labels_fit;

/// The most parts, arms or cases of a term, parameters of a declaration, and declarations.
const MOST: usize = 65_535;

/// Whether 16 bits count the items.
fn few<T>(items: &[T]) -> bool
    ensures few { result ≡ few_of items.now }
{
    items.len() <= MOST
}

/// The counts of a term and of all terms in it.
#[cycle(counts)]
#[tactic(auto, using(std::proofs::lemmas::Grind::common_steps, crate::proofs::CountRolls::count_rules))]
fn term_fits(term: &Term) -> bool
    ensures fits { result ≡ counts_fit_of term.now }
{
    match term {
        Term::Unit => true,
        Term::Base(base, _) => labels_fit(base),
        Term::Lit(_) => true,
        Term::Eor => true,
        Term::Struct(parts) => few(parts.as_slice()) && parts_fit(parts.as_slice()),
        Term::Alt(arms) => few(arms.as_slice()) && arms_fit(arms.as_slice()),
        Term::Switch(_, cases) => few(cases.as_slice()) && cases_fit(cases.as_slice()),
        Term::Guard(inner, _, _) => term_fits(inner.get()),
        Term::Seq(seq) => seq_fits(seq.get()),
        Term::Call(_, _) => true,
        Term::Compute(_, _) => true,
        Term::Absorb(inner) => term_fits(inner.get()),
        Term::Scan(inner) => term_fits(inner.get()),
    }
}

#[cycle(counts)]
fn parts_fit(parts: &[Part]) -> bool
    ensures fit { result ≡ list_all (λ part. counts_fit_of part.term) parts.now }
{
    for part in parts {
        if !term_fits(&part.term) {
            return false;
        }
    }
    true
}

#[cycle(counts)]
fn arms_fit(arms: &[Arm]) -> bool
    ensures fit { result ≡ list_all (λ arm. counts_fit_of arm.term) arms.now }
{
    for arm in arms {
        if !term_fits(&arm.term) {
            return false;
        }
    }
    true
}

#[cycle(counts)]
fn cases_fit(cases: &[Case]) -> bool
    ensures fit { result ≡ list_all (λ case. counts_fit_of case.arm.term) cases.now }
{
    for case in cases {
        if !term_fits(&case.arm.term) {
            return false;
        }
    }
    true
}

#[cycle(counts)]
fn option_fits(term: &Option<Term>) -> bool
    ensures fits { result ≡ option_counts term.now }
{
    match term {
        None => true,
        Some(term) => term_fits(term),
    }
}

#[cycle(counts)]
fn seq_fits(seq: &Seq) -> bool
    ensures elem { result ≡ (counts_fit_of seq.now.elem && option_counts seq.now.sep && option_counts seq.now.stop) }
{
    term_fits(&seq.elem) && option_fits(&seq.sep) && option_fits(&seq.stop)
}

/// The counts of a declaration.
fn decl_fits(decl: &Decl) -> bool
    ensures fits { result ≡ decl_counts decl.now }
{
    few(decl.params.as_slice()) && term_fits(&decl.body)
}

/// The counts of each declaration.
fn each_fits(decls: &[Decl]) -> bool
    ensures fit { result ≡ list_all decl_counts decls.now }
{
    decls.iter().all(|decl| decl_fits(decl))
}

/// The counts of all declarations.
pub(crate) fn decls_fit(decls: &[Decl]) -> bool
    ensures fit { result ≡ module_counts decls.now }
{
    few(decls) && each_fits(decls)
}
