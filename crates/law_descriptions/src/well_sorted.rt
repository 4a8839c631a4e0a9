//! The laws of modules that are made of well-sorted descriptions.
ghost use Rattle.std.specs.Prelude.{◌≡◌, true};
ghost use Rattle.pads_code.specs.declared.Coding.{Coding};
ghost use Rattle.pads_resolution.specs.declared.decl.Description.{Description};
ghost use Rattle.law_calculus.specs.Plain.{Plain};
ghost use Rattle.law_calculus.specs.Sorted.{Sorted};
ghost use Rattle.pads_trans.specs.Modules.{is_module, module_of};
ghost use Rattle.law_descriptions.specs.WellSorted.{WellSorted};

/// The module of a well-sorted description is well formed: it is never refused.
pub fn modules_are_formed()
    ensures formed { (d : Description) (ambient : Coding) → WellSorted d → is_module (module_of d ambient) ≡ true }
{}

/// The module of a well-sorted description is well-sorted.
pub fn modules_are_sorted()
    ensures sorted { (d : Description) (ambient : Coding) → WellSorted d → Sorted (module_of d ambient).decls }
{}

/// The module of a well-sorted description is plain.
pub fn modules_are_plain()
    ensures plain { (d : Description) (ambient : Coding) → WellSorted d → Plain (module_of d ambient).decls }
{}
