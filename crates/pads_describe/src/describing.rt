//! What an accepted text describes.

ghost use Rattle.std.specs.Prelude.{IfOk};
ghost use Rattle.pads_value.specs.Refusals.{OnFault};
ghost use Rattle.pads_describe.specs.Describing.{Describes};
ghost use Rattle.pads_describe.specs.Verdicts.{IsRefused};
ghost use Rattle.law_calculus.specs.Plain.{Plain};
ghost use Rattle.law_calculus.specs.Sorted.{Sorted};
ghost use Rattle.pads_module.specs.Modules.{contents};
ghost use Rattle.pads_calc.specs.Skeletons.{KeepsAll};

use crate::reading::tree_in;
use crate::text_check::checked;
use crate::translating::translate;
use crate::verdict::Verdict;
use pads_code::Coding;
use pads_module::Module;
use pads_value::{Memory, Refusal};
use std::alloc::Global;

/// The module of an accepted text whose data is in this coding, well-sorted and plain, or why it is refused. It keeps
/// all values. Every accepted text has one.
pub fn describe(alloc: Global, text: &[u8], coding: Coding) -> Result<Module, Refusal<Verdict>>
    ensures described { IfOk result (λ made. Describes text.now coding (contents made)) }
    ensures sorted { IfOk result (λ made. Sorted (contents made).decls) }
    ensures plain { IfOk result (λ made. Plain (contents made).decls) }
    ensures keeps_all { IfOk result (λ made. KeepsAll (contents made).decls) }
    ensures refused { OnFault result (IsRefused text.now) }
{
    let tree = tree_in(alloc, text)?;
    let checked = checked(alloc, text, &tree)?;
    match translate(alloc, &checked, coding) {
        Ok(made) => Ok(made),
        Err(Memory) => Err(Refusal::Memory),
    }
}
