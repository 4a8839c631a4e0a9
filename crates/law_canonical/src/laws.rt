//! The laws that tie clean readings to what their values stand for, and clean records to canonical bytes.
ghost use Rattle.std.specs.Prelude.{◌≡◌, ℕ, ◌≤◌, ◌-◌, true, List, length, take, drop, Some, IsSome};
ghost use Rattle.pads_value.specs.Cuts.{Cut};
ghost use Rattle.pads_value.specs.Header.{is_clean};
ghost use Rattle.pads_int.specs.Spellings.{widest};
ghost use Rattle.pads_expr.specs.Value.{Pairs};
ghost use Rattle.pads_calc.specs.declared.decl.Decl.{Decl};
ghost use Rattle.pads_calc.specs.declared.decl.Shape.{Shape};
ghost use Rattle.pads_calc.specs.declared.term.Term.{Term};
ghost use Rattle.pads_calc.specs.Calculus.{meaning};
ghost use Rattle.pads_calc.specs.Readings.{Subject, is_ok};
ghost use Rattle.pads_calc.specs.Rows.{type_of, row_of};
ghost use Rattle.pads_calc.specs.Skeletons.{KeepsAll};
ghost use Rattle.law_calculus.specs.Plain.{Plain};
ghost use Rattle.law_canonical.specs.Canonical.{canon_of};
ghost use Rattle.law_canonical.specs.Fitting.{Fits, FitsType};

/// The law of clean readings: in all declarations, for each term, in each environment, at each place and
/// with calls nested as deep as one likes, the bytes that a clean reading takes fit its value.
pub fn clean_readings_fit()
    ensures forth { (subject : Subject) (decls : List Decl) (depth : ℕ) (t : Term) (env : Pairs) (i : ℕ)
        → let r = meaning subject decls depth t env i in is_ok r ≡ true → i ≤ r.place }
    ensures fits { (subject : Subject) (decls : List Decl) (depth : ℕ) (t : Term) (env : Pairs) (i : ℕ)
        → let r = meaning subject decls depth t env i in
        is_ok r ≡ true → Fits decls depth t env r.value (take (r.place - i) (drop i subject.bytes)) }
{}

/// The law of clean records, in a plain module whose declarations keep all values, where a record has at most
/// 16,777,216 bytes: the value of a row that is clean has canonical bytes, which are at most as many as the
/// record's and fit the value.
pub fn clean_records_have_canonical_bytes()
    ensures there { (decls : List Decl) (shape : Shape) (scan number : ℕ) (cut : Cut)
        → let row = row_of decls shape scan number cut in
        Plain decls → KeepsAll decls → length cut.bytes ≤ widest → is_clean row.pd ≡ true
        → IsSome (canon_of decls (type_of shape number) row.value) }
    ensures short { (decls : List Decl) (shape : Shape) (scan number : ℕ) (cut : Cut) (bytes : List ℕ)
        → let row = row_of decls shape scan number cut in
        Plain decls → KeepsAll decls → length cut.bytes ≤ widest → is_clean row.pd ≡ true
        → canon_of decls (type_of shape number) row.value ≡ Some bytes → length bytes ≤ length cut.bytes }
    ensures fits { (decls : List Decl) (shape : Shape) (scan number : ℕ) (cut : Cut) (bytes : List ℕ)
        → let row = row_of decls shape scan number cut in
        Plain decls → KeepsAll decls → length cut.bytes ≤ widest → is_clean row.pd ≡ true
        → canon_of decls (type_of shape number) row.value ≡ Some bytes
        → FitsType decls (type_of shape number) row.value bytes }
{}
