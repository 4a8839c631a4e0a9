//! Base types read what they spell, as a law over the definitions: nothing here runs.
ghost use Rattle.std.specs.Prelude.{◌≡◌, ℕ, ◌≤◌, List, length, take, Some, IsSomeAnd};
ghost use Rattle.pads_value.specs.declared.reading.Read.TheVariants.{Good};
ghost use Rattle.pads_value.specs.declared.value.Val.{Val};
ghost use Rattle.pads_dispatch.specs.declared.base.Arg.{Arg};
ghost use Rattle.pads_dispatch.specs.declared.base.Base.{Base};
ghost use Rattle.pads_dispatch.specs.Conditions.{Holds, IsNarrow, HasNoStopOf, LabelsDiffer};
ghost use Rattle.pads_dispatch.specs.Readings.{base_reading};
ghost use Rattle.pads_dispatch.specs.Spellings.{base_spelling};
ghost use Rattle.pads_dispatch.specs.Texts.{SpellsBase};

/// What is read lies within the bytes, spells the value that is read, and the value has a canonical
/// spelling that is no longer, if the base type isn't a field of more than 16,777,216 bytes.
///
/// Bytes that spell a value read back whole, if the spellings of an enum's labels differ. So does the
/// canonical spelling, if a text up to a stop character has none.
pub fn bases_read_what_they_spell()
    ensures within { (base : Base) (args : List Arg) (bytes : List ℕ) (n : ℕ) (v : Val)
        → base_reading base args bytes ≡ Good n v → n ≤ length bytes }
    ensures spelled { (base : Base) (args : List Arg) (bytes : List ℕ) (n : ℕ) (v : Val)
        → base_reading base args bytes ≡ Good n v → SpellsBase base args v (take n bytes) }
    ensures canonical { (base : Base) (args : List Arg) (bytes : List ℕ) (n : ℕ) (v : Val)
        → Holds base args IsNarrow → base_reading base args bytes ≡ Good n v
        → IsSomeAnd (base_spelling base args v) (λ s. length s ≤ n) }
    ensures reads_back { (base : Base) (args : List Arg) (v : Val) (bytes : List ℕ)
        → Holds base args LabelsDiffer → SpellsBase base args v bytes
        → base_reading base args bytes ≡ Good (length bytes) v }
    ensures canonical_reads_back { (base : Base) (args : List Arg) (v : Val) (s : List ℕ)
        → Holds base args LabelsDiffer → Holds base args (λ whole. HasNoStopOf whole v)
        → base_spelling base args v ≡ Some s → base_reading base args s ≡ Good (length s) v }
{}
