//! Whether a module reads each place once.
ghost use Rattle.std.specs.Prelude.{◌≡◌};
ghost use Rattle.std.specs.List.{list_all};
ghost use Rattle.pads_module.specs.Straight.{is_straight as is_straight_term, all_straight};

use crate::Module;
use pads_calc::{Decl, Part, Term};

/// Whether no union, array or search is in a term.
#[cycle(straight)]
#[tactic(auto, using(std::proofs::lemmas::Grind::common_steps, crate::proofs::StraightRolls::straight_rules))]
fn term_is_straight(term: &Term) -> bool
    ensures straight { result ≡ is_straight_term term.now }
{
    match term {
        Term::Unit => true,
        Term::Base(_, _) => true,
        Term::Lit(_) => true,
        Term::Eor => true,
        Term::Struct(parts) => parts_are_straight(parts.as_slice()),
        Term::Alt(_) => false,
        Term::Switch(_, _) => false,
        Term::Guard(inner, _, _) => term_is_straight(inner.get()),
        Term::Seq(_) => false,
        Term::Call(_, _) => true,
        Term::Compute(_, _) => true,
        Term::Absorb(inner) => term_is_straight(inner.get()),
        Term::Scan(_) => false,
    }
}

#[cycle(straight)]
fn parts_are_straight(parts: &[Part]) -> bool
    ensures straight { result ≡ list_all (λ part. is_straight_term part.term) parts.now }
{
    for part in parts {
        if !term_is_straight(&part.term) {
            return false;
        }
    }
    true
}

/// Whether the bodies of all declarations are straight.
fn decls_are_straight(decls: &[Decl]) -> bool
    ensures straight { result ≡ all_straight decls.now }
{
    decls.iter().all(|decl| term_is_straight(&decl.body))
}

impl Module {
    /// Whether no declaration has a union, a switched union, an array or a search in it.
    pub fn is_straight(&self) -> bool
        ensures straight { result ≡ all_straight self.now.decls }
    {
        decls_are_straight(self.decls.as_slice())
    }
}
