ghost use Rattle.std.specs.Prelude.{◌≡◌, true, false, IfOk, OnOk};
ghost use Rattle.pads_module.specs.Modules.{contents, is_formed};
ghost use Rattle.pads_trans.specs.Modules.{shape_of, module_by_table, module_of, is_module};
ghost use Rattle.pads_value.specs.Refusals.{OnFault};

use crate::Numbering;
use crate::decl::decls;
use pads_calc::Shape;
use pads_code::Coding;
use pads_module::{IllFormed, Module};
use pads_resolution::{Description, Source};
use pads_value::Refusal;
use std::alloc::Global;

fn shape(source: Source) -> Shape
    ensures shape { result ≡ shape_of source }
{
    Shape {
        head: source.header,
        each: source.record,
    }
}

/// The module of a description, by the numbers of its names.
fn module_by(
    alloc: Global,
    names: &Numbering,
    description: &Description,
    ambient: Coding,
) -> Result<Module, Refusal<IllFormed>>
    ensures module { IfOk result (λ made. contents made ≡ module_by_table names.now description.now ambient) }
    ensures well_formed { OnOk result (is_formed (module_by_table names.now description.now ambient) ≡ true) }
    ensures ill_formed { OnFault result (λ _. is_formed (module_by_table names.now description.now ambient) ≡ false) }
{
    let table = names.table(alloc)?;
    let decls = decls(alloc, names, ambient, description.decls.as_slice())?;
    Module::new(alloc, decls, table, shape(description.source))
}

/// The module of a description whose data is in this coding: its declarations' terms, and its names by
/// number in the order in which they are first met. Every value is kept (`set`), and a search passes over
/// 16,777,216 bytes at most.
///
/// `IllFormed` comes only where that is no module: a name, a declaration or a variable isn't there, a
/// call has another number of arguments than its declaration, or 16 bits don't count the names,
/// declarations, parameters, parts, branches, cases or labels. The tree of an accepted description has
/// none of this. Where there is no module, the other answer is want of memory.
pub fn module_of_description(
    alloc: Global,
    description: &Description,
    ambient: Coding,
) -> Result<Module, Refusal<IllFormed>>
    ensures module { IfOk result (λ made. contents made ≡ module_of description.now ambient) }
    ensures well_formed { OnOk result (is_module (module_of description.now ambient) ≡ true) }
    ensures ill_formed { OnFault result (λ _. is_module (module_of description.now ambient) ≡ false) }
{
    let Some(names) = Numbering::of(alloc, description)? else {
        return Err(Refusal::Fault(IllFormed));
    };
    module_by(alloc, &names, description, ambient)
}
