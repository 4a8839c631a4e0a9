//! Each base reads what it spells, as laws over the definitions: nothing here runs.
//!
//! What is read (`Good`) lies within the bytes, is spelled so, and has a canonical spelling that is no
//! longer; each text that spells a value reads back whole, the canonical one included.
ghost use Rattle.std.specs.Prelude.{◌≡◌, ℕ, ℤ, ◌≤◌, List, length, take, Option, Some, IsSomeAnd};
ghost use Rattle.pads_value.specs.declared.reading.Read.TheVariants.{Good};
ghost use Rattle.pads_code.specs.declared.Coding.{Coding};
ghost use Rattle.pads_bases.specs.declared.binary.Order.{Order};
ghost use Rattle.pads_bases.specs.declared.binary.Range.{Range};
ghost use Rattle.pads_bases.specs.declared.enums.Label.{Label};
ghost use Rattle.pads_bases.specs.Strings.{until_reading, until_spelling, fixed_reading, fixed_spelling, char_reading, char_spelling, widest, HasNoStop, SpellsUntil, SpellsFixed, SpellsChar};
ghost use Rattle.pads_bases.specs.Classes.{class_reading, class_spelling, SpellsClass};
ghost use Rattle.pads_bases.specs.Addresses.{ip_reading, ip_spelling, SpellsIp};
ghost use Rattle.pads_bases.specs.Enums.{enum_reading, enum_spelling, SpellsEnum, SpellingsDiffer};
ghost use Rattle.pads_bases.specs.Binaries.{bin_reading, bin_spelling, SpellsBin};

/// The law for texts up to a stop character or the record's end; a spelling must have no stop character.
pub fn texts_read_what_they_spell()
    ensures within { (coding : Coding) (stop : Option ℕ) (bytes : List ℕ) (n : ℕ) (v : List ℕ)
        → until_reading coding stop bytes ≡ Good n v → n ≤ length bytes }
    ensures spelled { (coding : Coding) (stop : Option ℕ) (bytes : List ℕ) (n : ℕ) (v : List ℕ)
        → until_reading coding stop bytes ≡ Good n v → SpellsUntil coding stop v (take n bytes) }
    ensures canonical { (coding : Coding) (stop : Option ℕ) (bytes : List ℕ) (n : ℕ) (v : List ℕ)
        → until_reading coding stop bytes ≡ Good n v → IsSomeAnd (until_spelling coding v) (λ s. length s ≤ n) }
    ensures reads_back { (coding : Coding) (stop : Option ℕ) (v : List ℕ) (bytes : List ℕ)
        → SpellsUntil coding stop v bytes → until_reading coding stop bytes ≡ Good (length bytes) v }
    ensures canonical_reads_back { (coding : Coding) (stop : Option ℕ) (v : List ℕ) (s : List ℕ)
        → HasNoStop stop v → until_spelling coding v ≡ Some s → until_reading coding stop s ≡ Good (length s) v }
{}

/// The law for texts of a fixed width, which have a canonical spelling where it is at most 16,777,216.
pub fn fixed_texts_read_what_they_spell()
    ensures within { (coding : Coding) (width : ℤ) (bytes : List ℕ) (n : ℕ) (v : List ℕ)
        → fixed_reading coding width bytes ≡ Good n v → n ≤ length bytes }
    ensures spelled { (coding : Coding) (width : ℤ) (bytes : List ℕ) (n : ℕ) (v : List ℕ)
        → fixed_reading coding width bytes ≡ Good n v → SpellsFixed coding width v (take n bytes) }
    ensures canonical { (coding : Coding) (width : ℤ) (bytes : List ℕ) (n : ℕ) (v : List ℕ)
        → fixed_reading coding width bytes ≡ Good n v → n ≤ widest → IsSomeAnd (fixed_spelling coding width v) (λ s. length s ≤ n) }
    ensures reads_back { (coding : Coding) (width : ℤ) (v : List ℕ) (bytes : List ℕ)
        → SpellsFixed coding width v bytes → fixed_reading coding width bytes ≡ Good (length bytes) v }
    ensures canonical_reads_back { (coding : Coding) (width : ℤ) (v : List ℕ) (s : List ℕ)
        → fixed_spelling coding width v ≡ Some s → fixed_reading coding width s ≡ Good (length s) v }
{}

/// The law for texts of a class.
pub fn class_texts_read_what_they_spell()
    ensures within { (coding : Coding) (class : List ℕ) (bytes : List ℕ) (n : ℕ) (v : List ℕ)
        → class_reading coding class bytes ≡ Good n v → n ≤ length bytes }
    ensures spelled { (coding : Coding) (class : List ℕ) (bytes : List ℕ) (n : ℕ) (v : List ℕ)
        → class_reading coding class bytes ≡ Good n v → SpellsClass coding class v (take n bytes) }
    ensures canonical { (coding : Coding) (class : List ℕ) (bytes : List ℕ) (n : ℕ) (v : List ℕ)
        → class_reading coding class bytes ≡ Good n v → IsSomeAnd (class_spelling coding class v) (λ s. length s ≤ n) }
    ensures reads_back { (coding : Coding) (class : List ℕ) (v : List ℕ) (bytes : List ℕ)
        → SpellsClass coding class v bytes → class_reading coding class bytes ≡ Good (length bytes) v }
    ensures canonical_reads_back { (coding : Coding) (class : List ℕ) (v : List ℕ) (s : List ℕ)
        → class_spelling coding class v ≡ Some s → class_reading coding class s ≡ Good (length s) v }
{}

/// The law for single characters.
pub fn characters_read_what_they_spell()
    ensures within { (coding : Coding) (bytes : List ℕ) (n : ℕ) (v : List ℕ)
        → char_reading coding bytes ≡ Good n v → n ≤ length bytes }
    ensures spelled { (coding : Coding) (bytes : List ℕ) (n : ℕ) (v : List ℕ)
        → char_reading coding bytes ≡ Good n v → SpellsChar coding v (take n bytes) }
    ensures canonical { (coding : Coding) (bytes : List ℕ) (n : ℕ) (v : List ℕ)
        → char_reading coding bytes ≡ Good n v → IsSomeAnd (char_spelling coding v) (λ s. length s ≤ n) }
    ensures reads_back { (coding : Coding) (v : List ℕ) (bytes : List ℕ)
        → SpellsChar coding v bytes → char_reading coding bytes ≡ Good (length bytes) v }
    ensures canonical_reads_back { (coding : Coding) (v : List ℕ) (s : List ℕ)
        → char_spelling coding v ≡ Some s → char_reading coding s ≡ Good (length s) v }
{}

/// The law for IP addresses.
pub fn addresses_read_what_they_spell()
    ensures within { (coding : Coding) (bytes : List ℕ) (n : ℕ) (v : ℤ)
        → ip_reading coding bytes ≡ Good n v → n ≤ length bytes }
    ensures spelled { (coding : Coding) (bytes : List ℕ) (n : ℕ) (v : ℤ)
        → ip_reading coding bytes ≡ Good n v → SpellsIp coding v (take n bytes) }
    ensures canonical { (coding : Coding) (bytes : List ℕ) (n : ℕ) (v : ℤ)
        → ip_reading coding bytes ≡ Good n v → IsSomeAnd (ip_spelling coding v) (λ s. length s ≤ n) }
    ensures reads_back { (coding : Coding) (v : ℤ) (bytes : List ℕ)
        → SpellsIp coding v bytes → ip_reading coding bytes ≡ Good (length bytes) v }
    ensures canonical_reads_back { (coding : Coding) (v : ℤ) (s : List ℕ)
        → ip_spelling coding v ≡ Some s → ip_reading coding s ≡ Good (length s) v }
{}

/// The law for enums; reading back needs labels whose spellings differ.
pub fn enums_read_what_they_spell()
    ensures within { (coding : Coding) (labels : List Label) (bytes : List ℕ) (n : ℕ) (v : ℕ)
        → enum_reading coding labels bytes ≡ Good n v → n ≤ length bytes }
    ensures spelled { (coding : Coding) (labels : List Label) (bytes : List ℕ) (n : ℕ) (v : ℕ)
        → enum_reading coding labels bytes ≡ Good n v → SpellsEnum coding labels v (take n bytes) }
    ensures canonical { (coding : Coding) (labels : List Label) (bytes : List ℕ) (n : ℕ) (v : ℕ)
        → enum_reading coding labels bytes ≡ Good n v → IsSomeAnd (enum_spelling coding labels v) (λ s. length s ≤ n) }
    ensures reads_back { (coding : Coding) (labels : List Label) (v : ℕ) (bytes : List ℕ)
        → SpellingsDiffer labels → SpellsEnum coding labels v bytes → enum_reading coding labels bytes ≡ Good (length bytes) v }
    ensures canonical_reads_back { (coding : Coding) (labels : List Label) (v : ℕ) (s : List ℕ)
        → SpellingsDiffer labels → enum_spelling coding labels v ≡ Some s → enum_reading coding labels s ≡ Good (length s) v }
{}

/// The law for binary integers.
pub fn binary_integers_read_what_they_spell()
    ensures within { (range : Range) (order : Order) (size : ℤ) (bytes : List ℕ) (n : ℕ) (v : ℤ)
        → bin_reading range order size bytes ≡ Good n v → n ≤ length bytes }
    ensures spelled { (range : Range) (order : Order) (size : ℤ) (bytes : List ℕ) (n : ℕ) (v : ℤ)
        → bin_reading range order size bytes ≡ Good n v → SpellsBin range order size v (take n bytes) }
    ensures canonical { (range : Range) (order : Order) (size : ℤ) (bytes : List ℕ) (n : ℕ) (v : ℤ)
        → bin_reading range order size bytes ≡ Good n v → IsSomeAnd (bin_spelling range order size v) (λ s. length s ≤ n) }
    ensures reads_back { (range : Range) (order : Order) (size : ℤ) (v : ℤ) (bytes : List ℕ)
        → SpellsBin range order size v bytes → bin_reading range order size bytes ≡ Good (length bytes) v }
    ensures canonical_reads_back { (range : Range) (order : Order) (size : ℤ) (v : ℤ) (s : List ℕ)
        → bin_spelling range order size v ≡ Some s → bin_reading range order size s ≡ Good (length s) v }
{}
