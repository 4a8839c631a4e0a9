//! From an accepted tree to its module.

ghost use Rattle.std.specs.Prelude.{◌≡◌, IfOk};
ghost use Rattle.law_calculus.specs.Plain.{Plain};
ghost use Rattle.law_calculus.specs.Sorted.{Sorted};
ghost use Rattle.pads_module.specs.Modules.{contents};
ghost use Rattle.pads_calc.specs.Skeletons.{KeepsAll};
ghost use Rattle.pads_trans.specs.Modules.{module_of};

use crate::checked::Checked;
use pads_code::Coding;
use pads_module::Module;
use pads_trans::module_of_description;
use pads_value::{Memory, Refusal};
use std::alloc::Global;

/// The module of an accepted tree whose data is in this coding, well-sorted and plain. It keeps all values.
pub fn translate(alloc: Global, checked: &Checked<'_>, coding: Coding) -> Result<Module, Memory>
    ensures module { IfOk result (λ made. contents made ≡ module_of checked.now.description coding) }
    ensures sorted { IfOk result (λ made. Sorted (contents made).decls) }
    ensures plain { IfOk result (λ made. Plain (contents made).decls) }
    ensures keeps_all { IfOk result (λ made. KeepsAll (contents made).decls) }
{
    match module_of_description(alloc, &checked.description, coding) {
        Ok(made) => Ok(made),
        Err(Refusal::Fault(_)) => unreachable!(),
        Err(Refusal::Memory) => Err(Memory),
    }
}
