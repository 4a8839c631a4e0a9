ghost use Rattle.std.specs.Prelude.{◌≡◌};
ghost use Rattle.std.specs.Option.{option_map};
ghost use Rattle.pads_forms.specs.Forms.{through as through_of, form_at as form_of, form_seen};

use crate::terms::Terms;
use pads_calc::Term;

/// What a term is behind constraints, searches and calls.
#[derive(Clone, Copy)]
pub struct Form<'m> {
    /// How deep calls may still be nested in it.
    pub depth: u64,
    pub term: &'m Term,
}

/// The term behind constraints and searches, and behind absorbing too where `absorbs`.
#[tactic(auto, using(crate::proofs::Passing::through_next))]
fn through(absorbs: bool, outer: &Term) -> &Term
    ensures term { result.now ≡ through_of absorbs outer.now }
{
    let mut term = outer;
    'inside: loop {
        term = match term {
            Term::Guard(inner, _, _) => inner.get(),
            Term::Scan(inner) => inner.get(),
            Term::Absorb(inner) => {
                if !absorbs {
                    return term;
                }
                inner.get()
            }
            _ => return term,
        };
    }
}

/// The form of a term's values, where calls may be nested so deep. Descriptors pass through absorbed
/// terms as well (`absorbs`). There is none where calls go deeper.
#[tactic(auto, using(crate::proofs::Calls::form_here, crate::proofs::Calls::form_too_deep, crate::proofs::Calls::form_called, crate::proofs::Calls::form_nowhere))]
pub fn form_at<'m>(
    terms: &Terms<'m>,
    absorbs: bool,
    calls: u64,
    outer: &'m Term,
) -> Option<Form<'m>>
    ensures form { option_map form_seen result ≡ form_of terms.now.decls.now absorbs calls outer.now }
{
    let mut depth = calls;
    let mut term = through(absorbs, outer);
    'calls: while let Term::Call(number, _) = term {
        if depth == 0 {
            return None;
        }
        depth -= 1;
        term = match terms.decls.get(u64::from(*number)) {
            None => return None,
            Some(decl) => through(absorbs, &decl.body),
        };
    }
    Some(Form { depth, term })
}
