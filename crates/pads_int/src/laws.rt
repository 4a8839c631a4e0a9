//! Integers read what they spell, as laws over the definitions: nothing here runs.
ghost use Rattle.std.specs.Prelude.{◌≡◌, ℕ, ℤ, ◌≤◌, ◌<◌, List, length, take, Some, IsSomeAnd};
ghost use Rattle.pads_value.specs.declared.reading.Read.TheVariants.{Good};
ghost use Rattle.pads_code.specs.declared.Coding.{Coding};
ghost use Rattle.pads_int.specs.declared.kind.Kind.{Kind};
ghost use Rattle.pads_int.specs.Readings.{int_reading, int_fw_reading};
ghost use Rattle.pads_int.specs.Spellings.{int_spelling, int_fw_spelling, widest};
ghost use Rattle.pads_int.specs.Texts.{SpellsInt, SpellsIntFw};

/// What is read as an integer is spelled so and has a canonical spelling that is no longer; every text
/// that spells the integer, the canonical one included, reads back whole.
pub fn integers_read_what_they_spell()
    ensures within { (kind : Kind) (coding : Coding) (bytes : List ℕ) (n : ℕ) (v : ℤ)
        → int_reading kind coding bytes ≡ Good n v → n ≤ length bytes }
    ensures spelled { (kind : Kind) (coding : Coding) (bytes : List ℕ) (n : ℕ) (v : ℤ)
        → int_reading kind coding bytes ≡ Good n v → SpellsInt kind coding v (take n bytes) }
    ensures canonical { (kind : Kind) (coding : Coding) (bytes : List ℕ) (n : ℕ) (v : ℤ)
        → int_reading kind coding bytes ≡ Good n v → IsSomeAnd (int_spelling kind coding v) (λ s. length s ≤ n) }
    ensures reads_back { (kind : Kind) (coding : Coding) (v : ℤ) (bytes : List ℕ)
        → SpellsInt kind coding v bytes → int_reading kind coding bytes ≡ Good (length bytes) v }
    ensures canonical_reads_back { (kind : Kind) (coding : Coding) (v : ℤ) (s : List ℕ)
        → int_spelling kind coding v ≡ Some s → int_reading kind coding s ≡ Good (length s) v }
{}

/// The same of integers in a field, which have a canonical spelling where the field has at most
/// 16,777,216 bytes.
pub fn field_integers_read_what_they_spell()
    ensures within { (kind : Kind) (coding : Coding) (width : ℤ) (bytes : List ℕ) (n : ℕ) (v : ℤ)
        → int_fw_reading kind coding width bytes ≡ Good n v → n ≤ length bytes }
    ensures spelled { (kind : Kind) (coding : Coding) (width : ℤ) (bytes : List ℕ) (n : ℕ) (v : ℤ)
        → int_fw_reading kind coding width bytes ≡ Good n v → SpellsIntFw kind coding width v (take n bytes) }
    ensures canonical { (kind : Kind) (coding : Coding) (width : ℤ) (bytes : List ℕ) (n : ℕ) (v : ℤ)
        → int_fw_reading kind coding width bytes ≡ Good n v → n ≤ widest
        → IsSomeAnd (int_fw_spelling kind coding width v) (λ s. length s ≤ n) }
    ensures reads_back { (kind : Kind) (coding : Coding) (width v : ℤ) (bytes : List ℕ)
        → SpellsIntFw kind coding width v bytes
        → int_fw_reading kind coding width bytes ≡ Good (length bytes) v }
    ensures canonical_reads_back { (kind : Kind) (coding : Coding) (width v : ℤ) (s : List ℕ)
        → int_fw_spelling kind coding width v ≡ Some s → int_fw_reading kind coding width s ≡ Good (length s) v }
{}
