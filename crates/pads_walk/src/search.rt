ghost use Rattle.pads_calc.specs.declared.term.Term.TheVariants as term_of;
ghost use Rattle.std.specs.Prelude.{◌≡◌, ◌≤◌, length, IfSome};
ghost use Rattle.pads_calc.specs.Places.{EndsWithin};
ghost use Rattle.pads_walk.specs.Literals.{IsLiteral, IsFound};

use pads_calc::{Reading, Term};
use pads_steps::Record;
use pads_value::Cause;
use std::alloc::Global;

/// The literal that a term is, whether its value is kept or not. What isn't told to be a literal can be one
/// all the same.
pub(crate) fn sought(term: &Term) -> Option<&[u8]>
    ensures literal { IfSome result (λ literal. IsLiteral term.now literal.now) }
{
    match term {
        Term::Lit(literal) => Some(literal.as_slice()),
        Term::Absorb(inner) => plain(inner.get()),
        _ => None,
    }
}

/// The literal that a term is, where its value is kept.
fn plain(term: &Term) -> Option<&[u8]>
    ensures literal { IfSome result (λ literal. term.now ≡ term_of.Lit literal.now) }
{
    match term {
        Term::Lit(literal) => Some(literal.as_slice()),
        _ => None,
    }
}

/// A literal at the first place from here on where its bytes stand, as far as a search goes. Mostly that is
/// here, which is looked at before a search is set up.
pub(crate) fn find_from(alloc: Global, from: &Record, literal: &[u8], place: u64) -> Reading
    requires within { place ≤ length from.now.bytes.now }
    ensures found { IsFound from.now literal.now place result }
    ensures within { EndsWithin from.now.bytes.now place result }
{
    let here = from.literal(alloc, literal, place);
    if here.is_ok() {
        here
    } else {
        find(alloc, from, literal, place)
    }
}

/// The same, by a search.
#[inline(never)]
fn find(alloc: Global, from: &Record, literal: &[u8], place: u64) -> Reading
    requires within { place ≤ length from.now.bytes.now }
    ensures found { IsFound from.now literal.now place result }
    ensures within { EndsWithin from.now.bytes.now place result }
{
    match from.first_place(literal, place, from.last_place(place)) {
        Some(at) => from
            .literal(alloc, literal, at)
            .found(from.origin, place, at),
        None => Reading::fails(alloc, from.origin, Cause::MissingLiteral, place),
    }
}
