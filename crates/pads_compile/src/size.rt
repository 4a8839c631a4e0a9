//! How many instructions terms have.
ghost use Rattle.std.specs.Prelude.{◌≡◌, ◌+◌, map, option_map};
ghost use Rattle.pads_image.specs.Blocks.{layout, part_layout, case_layout, parts_size as parts_length, arms_size as arms_length, blocks, stop_size as stop_length, sep_size as sep_length};
ghost use Rattle.pads_image.specs.Code.{length_of};
ghost use Rattle.pads_value.specs.Header.{capped};

use pads_calc::{Arm, Case, Decl, Part, Seq, Term};

/// A sum that stays at its type's end.
fn plus(a: u64, b: u64) -> u64
    ensures sum { result ≡ capped (a + b) }
{
    a.saturating_add(b)
}

/// How many instructions a term has.
#[cycle(size)]
#[tactic(auto, using(std::proofs::lemmas::Grind::common_steps, crate::proofs::Sums::size_rules))]
pub(crate) fn size(term: &Term) -> u64
    ensures size { result ≡ capped (layout term.now).size }
{
    match term {
        Term::Unit => 1,
        Term::Base(_, _) => 1,
        Term::Lit(_) => 1,
        Term::Eor => 1,
        Term::Struct(parts) => plus(2, parts_size(parts.as_slice())),
        Term::Alt(arms) => plus(2, arms_size(arms.as_slice())),
        Term::Switch(_, cases) => plus(1, cases_size(cases.as_slice())),
        Term::Guard(inner, _, _) => plus(size(inner.get()), 1),
        Term::Seq(seq) => seq_size(seq.get()),
        Term::Call(_, _) => 1,
        Term::Compute(_, _) => 1,
        Term::Absorb(inner) => plus(size(inner.get()), 1),
        Term::Scan(inner) => plus(size(inner.get()), 2),
    }
}

#[cycle(size)]
fn parts_size(parts: &[Part]) -> u64
    ensures size { result ≡ capped (parts_length (map part_layout parts.now)) }
{
    let mut sum = 0;
    for part in parts {
        sum = plus(sum, plus(size(&part.term), 1));
    }
    sum
}

#[cycle(size)]
pub(crate) fn arms_size(arms: &[Arm]) -> u64
    ensures size { result ≡ capped (arms_length (map (λ arm. layout arm.term) arms.now)) }
{
    let mut sum = 0;
    for arm in arms {
        sum = plus(sum, plus(size(&arm.term), 1));
    }
    sum
}

#[cycle(size)]
pub(crate) fn cases_size(cases: &[Case]) -> u64
    ensures size { result ≡ capped (arms_length (blocks (map case_layout cases.now))) }
{
    let mut sum = 0;
    for case in cases {
        sum = plus(sum, plus(size(&case.arm.term), 1));
    }
    sum
}

#[cycle(size)]
pub(crate) fn stop_size(stop: &Option<Term>) -> u64
    ensures size { result ≡ capped (stop_length (option_map layout stop.now)) }
{
    match stop {
        None => 0,
        Some(stop) => plus(size(stop), 2),
    }
}

#[cycle(size)]
pub(crate) fn sep_size(sep: &Option<Term>) -> u64
    ensures size { result ≡ capped (sep_length (option_map layout sep.now)) }
{
    match sep {
        None => 0,
        Some(sep) => plus(size(sep), 1),
    }
}

#[cycle(size)]
fn seq_size(seq: &Seq) -> u64
    ensures size { result ≡ capped (6 + (layout seq.now.elem).size + stop_length (option_map layout seq.now.stop) + sep_length (option_map layout seq.now.sep)) }
{
    plus(
        plus(plus(6, size(&seq.elem)), stop_size(&seq.stop)),
        sep_size(&seq.sep),
    )
}

/// How many instructions declarations have.
pub(crate) fn length(decls: &[Decl]) -> u64
    ensures length { result ≡ capped (length_of decls.now) }
{
    let mut sum = 0;
    for decl in decls {
        sum = plus(sum, plus(size(&decl.body), 1));
    }
    sum
}
