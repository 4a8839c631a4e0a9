//! Rows computed on the definitions.
ghost use Rattle.std.specs.Prelude.{◌≡◌, ℕ, List, [], ◌∷◌, codes, Some, None};
ghost use Rattle.pads_value.specs.declared.value.Val.{Val};
ghost use Rattle.pads_value.specs.declared.value.Val.TheVariants.{Unit, Missing, Tuple, Branch, Array};
ghost use Rattle.law_canonical.specs.Canonical.{canon, canon_of};
ghost use Rattle.law_canonical.specs.Examples.{
  pair,
  two_of,
  num,
  numbers,
  either,
  letters,
  chosen,
  worked_out,
  barred,
  forgotten,
  of_pair,
  call_pair,
  nothing,
  record_end,
  searched,
};
ghost use Rattle.law_canonical.specs.Fitting.{Fits};

/// The canonical bytes of nothing, of the record's end, of a number that is searched for, of a pair of numbers, of an array, of a union, of a chosen case, of a computed number
/// and of a call; and that a struct with a value too few, an array without its form, a branch or case that
/// isn't there, a computed number out of its range, a number that wasn't kept, a call nested too deep and one
/// of no declaration have none. A constraint isn't asked.
pub fn canonical_bytes_by_the_rules()
    ensures unit { canon [] 0 nothing [] Unit ≡ Some [] }
    ensures no_unit { canon [] 0 nothing [] (num 7) ≡ None }
    ensures end { canon [] 0 record_end [] Unit ≡ Some [] }
    ensures scan { canon [] 0 searched [] (num 7) ≡ Some (codes "7") }
    ensures struct_ { canon [] 0 pair [] (two_of 3 7) ≡ Some (codes "3,7") }
    ensures short { canon [] 0 pair [] (Tuple (num 3 ∷ Unit ∷ [])) ≡ None }
    ensures missing { canon [] 0 pair [] (Tuple (num 3 ∷ Unit ∷ Missing ∷ [])) ≡ None }
    ensures out_of_range { canon [] 0 pair [] (two_of 3 256) ≡ None }
    ensures array { canon [] 0 numbers [] (Array (num 1 ∷ num 20 ∷ [])) ≡ Some (codes "1,20") }
    ensures empty_array { canon [] 0 numbers [] (Array []) ≡ Some [] }
    ensures no_array { canon [] 0 numbers [] Unit ≡ None }
    ensures branch { canon [] 0 either [] (Branch 1 Unit) ≡ Some (codes "-") }
    ensures no_branch { canon [] 0 either [] (Branch 2 Unit) ≡ None }
    ensures switch { canon [] 0 chosen [] (Branch 0 (num 7)) ≡ Some (codes "7") }
    ensures other_case { canon [] 0 chosen [] (Branch 1 Unit) ≡ Some (codes "-") }
    ensures no_case { canon [] 0 chosen [] (Branch 2 Unit) ≡ None }
    ensures compute { canon [] 0 worked_out [] (num 7) ≡ Some [] }
    ensures computed_out_of_range { canon [] 0 worked_out [] (num 256) ≡ None }
    ensures constraint { canon [] 0 barred [] (num 7) ≡ Some (codes "7") }
    ensures forgotten { canon [] 0 forgotten [] Unit ≡ None }
    ensures call { canon of_pair 1 call_pair [] (two_of 3 7) ≡ Some (codes "3,7") }
    ensures too_deep { canon of_pair 0 call_pair [] (two_of 3 7) ≡ None }
    ensures record_type { canon_of of_pair 0 (two_of 3 7) ≡ Some (codes "3,7") }
    ensures undeclared { canon_of [] 0 Unit ≡ None }
{}

/// A pair's bytes with a leading zero fit its value, and that of a call of its declaration. A chosen case's
/// bytes fit its branch, and the empty list fits a computed number.
///
/// A struct's bytes without its literal fit no value, no bytes fit an array of more elements than its size or
/// a value that breaks its constraint, an array's terminator isn't among its bytes, and a branch's value
/// doesn't fit another branch's bytes.
pub fn values_fit_by_the_rules()
    ensures unit { Fits [] 0 nothing [] Unit [] }
    ensures end { Fits [] 0 record_end [] Unit [] }
    ensures scan { Fits [] 0 searched [] (num 7) (codes "7") }
    ensures absorb { Fits [] 0 forgotten [] Unit (codes "7") }
    ensures struct_ { Fits [] 0 pair [] (two_of 3 7) (codes "03,7") }
    ensures call { Fits of_pair 1 call_pair [] (two_of 3 7) (codes "03,7") }
    ensures switch { Fits [] 0 chosen [] (Branch 0 (num 7)) (codes "7") }
    ensures compute { Fits [] 0 worked_out [] (num 7) [] }
    ensures constraint { (bytes : List ℕ) → Fits [] 0 barred [] (num 7) bytes → ⊥ }
    ensures no_literal { (v : Val) → Fits [] 0 pair [] v (codes "37") → ⊥ }
    ensures too_many { (bytes : List ℕ) → Fits [] 0 numbers [] (Array (num 1 ∷ num 2 ∷ num 3 ∷ [])) bytes → ⊥ }
    ensures terminator { Fits [] 0 letters [] (Array (Unit ∷ [])) (codes "a;") → ⊥ }
    ensures other_branch { Fits [] 0 either [] (Branch 1 Unit) (codes "7") → ⊥ }
{}
