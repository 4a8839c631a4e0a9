//! The laws of erasing.
ghost use Rattle.std.specs.Prelude.{◌≡◌, ℕ, true, List};
ghost use Rattle.pads_value.specs.declared.value.Val.{Val};
ghost use Rattle.pads_erase.specs.declared.skeleton.Keeping.{Keeping};
ghost use Rattle.pads_erase.specs.Erasing.{erased, keeps_all};

/// The law of kept values: where each declaration keeps its values, no value is changed, of whatever
/// declaration it is and however deep references may be nested.
pub fn where_all_is_kept_nothing_is_erased()
    ensures same { (keepings : List Keeping) (depth number : ℕ) (v : Val) → keeps_all keepings ≡ true → erased keepings depth number v ≡ v }
{}
