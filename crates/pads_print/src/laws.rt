//! The laws that tie the tests of the definitions to what they are tests of.
ghost use Rattle.std.specs.Prelude.{◌≡◌, ℕ, Decides, List, Some};
ghost use Rattle.pads_value.specs.declared.value.Val.{Val};
ghost use Rattle.pads_frame.specs.declared.discipline.Discipline.{Discipline};
ghost use Rattle.pads_module.specs.Modules.{Contents};
ghost use Rattle.pads_print.specs.Printing.{IsAmbiguous, ambiguous, printed};
ghost use Rattle.pads_print.specs.ReadBack.{IsInput, ReadsBack, reads_back};
ghost use Rattle.pads_print.specs.Same.{same};

/// The law of the tests: two values are the same exactly where they are equal, bytes are found to read back
/// exactly where they do, and a value is found to be ambiguous exactly where it is.
pub fn tests_hold_exactly()
    ensures same { (v other : Val) → Decides (same v other) (v ≡ other) }
    ensures back { (m : Contents) (d : Discipline) (max number : ℕ) (bytes : List ℕ) (v : Val)
        → Decides (reads_back m d max number bytes v) (ReadsBack m d max number bytes v) }
    ensures ambiguous { (m : Contents) (d : Discipline) (max number : ℕ) (v : Val)
        → Decides (ambiguous m d max number v) (IsAmbiguous m d max number v) }
{}

/// The law of printed values: what a value is printed as is an input of one record, unmarked, which reads
/// without a fault as the value.
pub fn printed_values_read_back()
    ensures input { (m : Contents) (d : Discipline) (max number : ℕ) (v : Val) (input : List ℕ)
        → printed m d max number v ≡ Some input → IsInput m d max number v input }
{}
