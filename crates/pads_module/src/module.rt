ghost use Rattle.std.specs.Prelude.{◌≡◌, ◌≤◌, ◌&&◌, true, false, IfOk, OnOk};
ghost use Rattle.pads_calc.specs.Rows.{farthest};
ghost use Rattle.pads_module.specs.Counts.{module_counts};
ghost use Rattle.pads_module.specs.Scopes.{module_in_scope};
ghost use Rattle.pads_calc.specs.Skeletons.{erasing_of};
ghost use Rattle.pads_value.specs.Refusals.{OnFault};

use crate::checking::all_in_scope;
use crate::counts::decls_fit;
use crate::skeleton::erasing;
use pads_calc::{Decls, FARTHEST, Shape};
use pads_erase::Keepings;
use pads_value::{NameTable, Refusal};
use std::alloc::Global;

/// A whole description. It is well formed: each name, declaration and variable that it speaks of is
/// there, each call has its declaration's number of arguments, and 16 bits count its declarations, a
/// declaration's parameters and a term's parts, arms, cases and labels.
#[derive(Drop)]
pub struct Module {
    pub decls: Decls,
    pub names: NameTable,
    pub shape: Shape,
    /// How many bytes a search in a record passes over at most.
    pub scan: u32,
    /// What its declarations keep; none where each keeps the values of its own body.
    pub erasing: Option<Keepings>,
    pub ghost counted: { module_counts decls ≡ true },
    pub ghost in_scope: { module_in_scope decls names shape ≡ true },
    pub ghost erases: { erasing ≡ erasing_of decls },
    pub ghost bounded: { scan ≤ farthest },
}

/// The declarations don't make a module, since it isn't well formed.
#[derive(Clone, Copy, Debug, PartialEq, Eq)]
pub struct IllFormed;

impl Module {
    /// The module of these declarations, in which a search goes as far as any may; `IllFormed` exactly where
    /// it isn't well formed.
    pub fn new(
        alloc: Global,
        decls: Decls,
        names: NameTable,
        shape: Shape,
    ) -> Result<Module, Refusal<IllFormed>>
        ensures well_formed { OnOk result ((module_counts decls && module_in_scope decls names shape) ≡ true) }
        ensures ill_formed { OnFault result (λ _. (module_counts decls && module_in_scope decls names shape) ≡ false) }
        ensures decls { IfOk result (λ made. made.decls ≡ decls) }
        ensures names { IfOk result (λ made. made.names ≡ names) }
        ensures shape { IfOk result (λ made. made.shape ≡ shape) }
        ensures scan { IfOk result (λ made. made.scan ≡ farthest) }
    {
        if !decls_fit(decls.as_slice()) || !all_in_scope(decls.as_slice(), &names, &shape) {
            return Err(Refusal::Fault(IllFormed));
        }
        let erasing = erasing(alloc, decls.as_slice())?;
        Ok(Module {
            decls,
            names,
            shape,
            scan: FARTHEST,
            erasing,
        })
    }
}
