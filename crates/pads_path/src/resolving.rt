//! What the steps of a path stand for.

ghost use Rattle.std.specs.Prelude.{◌≡◌, Ok, Err, IfOk};
ghost use Rattle.std.specs.Option.{option_copied};
ghost use Rattle.pads_value.specs.Refusals.{OnFault};
ghost use Rattle.pads_path.specs.Resolving as resolving;

use crate::PathFault;
use crate::way::{form_of, reason, way_from};
use pads_calc::Term;
use pads_forms::Terms;
use pads_module::Module;
use pads_nodes::Steps;
use pads_syntax_path::{Path, PathStep};
use pads_value::{Items, Refusal};
use std::alloc::Global;

/// The steps from a term on.
#[tactic(auto, using(std::proofs::lemmas::Grind::common_steps, crate::proofs::StepLaws::step_laws))]
fn steps_from<'m>(
    alloc: Global,
    terms: &Terms<'m>,
    here: Option<&'m Term>,
    steps: &[PathStep],
) -> Result<Steps, Refusal<PathFault>>
    ensures steps { IfOk result (λ found. resolving.resolved_from terms.now.decls.now terms.now.names.now 1 (option_copied here.entry) steps.now ≡ Ok found) }
    ensures fault { OnFault result (λ fault. resolving.resolved_from terms.now.decls.now terms.now.names.now 1 (option_copied here.entry) steps.now ≡ Err fault) }
{
    let mut here = here;
    let mut found = Items::new(alloc);
    'steps: for (number, next) in steps.iter().enumerate() {
        let Some(way) = way_from(terms, next, here) else {
            let reason = reason(next, here);
            return Err(Refusal::Fault(PathFault {
                step: number as u64 + 1,
                reason,
            }));
        };
        found.push(way.step)?;
        here = form_of(terms, way.term);
    }
    Ok(found)
}

/// The body of a declaration by its number.
fn body<'m>(terms: &Terms<'m>, number: u16) -> Option<&'m Term>
    ensures body { option_copied result ≡ resolving.body_form terms.now.decls.now number }
{
    let decl = terms.decls.get(u64::from(number))?;
    form_of(terms, &decl.body)
}

/// The steps of a path from the body of a module's record type, each by number, or the first step that names no part
/// of it, with the reason. Nothing is looked up in the header type.
///
/// A name goes to a part of a struct, to a branch of a union, or to `some` or `none` of an optional; where a name comes
/// again, to the first.
pub fn resolve(
    alloc: Global,
    description: &Module,
    path: &Path,
) -> Result<Steps, Refusal<PathFault>>
    ensures resolved { IfOk result (λ steps. resolving.resolved description.now path.now.steps ≡ Ok steps) }
    ensures fault { OnFault result (λ fault. resolving.resolved description.now path.now.steps ≡ Err fault) }
{
    let terms = Terms {
        decls: &description.decls,
        names: &description.names,
    };
    let body = body(&terms, description.shape.each);
    steps_from(alloc, &terms, body, path.steps.as_slice())
}
