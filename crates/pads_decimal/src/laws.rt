//! Decimals read what they spell, as laws over the definitions: nothing here runs.
//!
//! What is read (`Good`) lies within the bytes, is spelled so, and has a canonical spelling that is no
//! longer; each text that spells a number reads back whole, the canonical one included.
ghost use Rattle.std.specs.Prelude.{◌≡◌, ℕ, ℤ, Bool, ◌≤◌, List, length, take, Some, IsSomeAnd};
ghost use Rattle.pads_value.specs.declared.reading.Read.TheVariants.{Good};
ghost use Rattle.pads_decimal.specs.Packed.{packed_reading, packed_spelling, SpellsPacked};
ghost use Rattle.pads_decimal.specs.Zoned.{zoned_reading, zoned_spelling, SpellsZoned};

/// The law for packed decimals.
pub fn packed_decimals_read_what_they_spell()
    ensures within { (digits : ℤ) (signed : Bool) (bytes : List ℕ) (n : ℕ) (v : ℤ)
        → packed_reading digits signed bytes ≡ Good n v → n ≤ length bytes }
    ensures spelled { (digits : ℤ) (signed : Bool) (bytes : List ℕ) (n : ℕ) (v : ℤ)
        → packed_reading digits signed bytes ≡ Good n v → SpellsPacked digits signed v (take n bytes) }
    ensures canonical { (digits : ℤ) (signed : Bool) (bytes : List ℕ) (n : ℕ) (v : ℤ)
        → packed_reading digits signed bytes ≡ Good n v → IsSomeAnd (packed_spelling digits signed v) (λ s. length s ≤ n) }
    ensures reads_back { (digits : ℤ) (signed : Bool) (v : ℤ) (bytes : List ℕ)
        → SpellsPacked digits signed v bytes → packed_reading digits signed bytes ≡ Good (length bytes) v }
    ensures canonical_reads_back { (digits : ℤ) (signed : Bool) (v : ℤ) (s : List ℕ)
        → packed_spelling digits signed v ≡ Some s → packed_reading digits signed s ≡ Good (length s) v }
{}

/// The law for zoned decimals.
pub fn zoned_decimals_read_what_they_spell()
    ensures within { (digits : ℤ) (signed : Bool) (bytes : List ℕ) (n : ℕ) (v : ℤ)
        → zoned_reading digits signed bytes ≡ Good n v → n ≤ length bytes }
    ensures spelled { (digits : ℤ) (signed : Bool) (bytes : List ℕ) (n : ℕ) (v : ℤ)
        → zoned_reading digits signed bytes ≡ Good n v → SpellsZoned digits signed v (take n bytes) }
    ensures canonical { (digits : ℤ) (signed : Bool) (bytes : List ℕ) (n : ℕ) (v : ℤ)
        → zoned_reading digits signed bytes ≡ Good n v → IsSomeAnd (zoned_spelling digits signed v) (λ s. length s ≤ n) }
    ensures reads_back { (digits : ℤ) (signed : Bool) (v : ℤ) (bytes : List ℕ)
        → SpellsZoned digits signed v bytes → zoned_reading digits signed bytes ≡ Good (length bytes) v }
    ensures canonical_reads_back { (digits : ℤ) (signed : Bool) (v : ℤ) (s : List ℕ)
        → zoned_spelling digits signed v ≡ Some s → zoned_reading digits signed s ≡ Good (length s) v }
{}
