//! The laws of masking.
ghost use Rattle.std.specs.Prelude.{◌≡◌, true, []};
ghost use Rattle.law_calculus.specs.Plain.{Plain};
ghost use Rattle.law_calculus.specs.Sorted.{Sorted};
ghost use Rattle.pads_module.specs.Modules.{Contents, is_formed};
ghost use Rattle.pads_mask.specs.Masks.{masked};
ghost use Rattle.pads_erase.specs.declared.mask.Mask.{Mask};
ghost use Rattle.pads_erase.specs.declared.mode.Mode.TheVariants as mode;

/// The law of masked modules: what is masked stays well formed, plain and well-sorted. So
/// no expression of a masked module is ever evaluated on values of a wrong kind.
pub fn masked_modules_are_sound()
    ensures well_formed { (m : Contents) (mask : Mask) → is_formed m ≡ true → is_formed (masked m mask) ≡ true }
    ensures plain { (m : Contents) (mask : Mask) → Plain m.decls → Plain (masked m mask).decls }
    ensures sorted { (m : Contents) (mask : Mask) → Sorted m.decls → Sorted (masked m mask).decls }
{}

/// The law of the whole: where everything is checked and kept, nothing is changed.
pub fn a_mask_of_both_changes_nothing()
    ensures same { (m : Contents) → masked m (record { all = mode.Both; named = [] }) ≡ m }
{}
