//! The laws, for expressions, for what a term reads as, and for the row of a record.
ghost use Rattle.std.specs.Prelude.{◌≡◌, ◌≢◌, ℕ, List, [], Some, true};
ghost use Rattle.pads_value.specs.Cuts.{Cut};
ghost use Rattle.pads_expr.specs.declared.expr.Expr.{Expr};
ghost use Rattle.pads_expr.specs.Value.{Pairs, value};
ghost use Rattle.pads_expr.specs.Worth.{Worth, Is, Ill};
ghost use Rattle.pads_calc.specs.declared.decl.Decl.{Decl};
ghost use Rattle.pads_calc.specs.declared.decl.Shape.{Shape};
ghost use Rattle.pads_calc.specs.declared.term.Term.{Term};
ghost use Rattle.pads_calc.specs.declared.term.Term.TheVariants.{Call};
ghost use Rattle.pads_calc.specs.Calculus.{meaning};
ghost use Rattle.pads_calc.specs.Readings.{Subject};
ghost use Rattle.pads_calc.specs.Rows.{deepest, subject_of_cut, type_of, body_reading, row_of};
ghost use Rattle.law_calculus.specs.Evaluated.{Moment, moment, Evaluates};
ghost use Rattle.law_calculus.specs.Expressions.{SortScope, sort_in};
ghost use Rattle.law_calculus.specs.Sorted.{Sorts, AreSorted, IsSorted, Sorted};
ghost use Rattle.law_calculus.specs.Sorts.{Sort, sort_at, sort_of, AreSorts, ends};
ghost use Rattle.law_calculus.specs.Values.{has_sort, worth_has, HasSorts};

/// The law of expressions, in an environment whose bindings have the sorts of their names or are
/// Missing: an expression that has a sort is never ill-sorted, and what it is worth, if anything, has
/// that sort.
pub fn sorted_expressions_keep_their_sorts()
    ensures never_ill { (declared : List Sort) (e : Expr) (scope : SortScope) (env : Pairs) (sort : Sort)
        → HasSorts declared scope env → sort_in declared e scope ≡ Some sort → value e env ≢ Ill }
    ensures worth { (declared : List Sort) (e : Expr) (scope : SortScope) (env : Pairs) (sort : Sort) (worth : Worth)
        → HasSorts declared scope env → sort_in declared e scope ≡ Some sort → value e env ≡ Is worth
        → worth_has declared worth sort ≡ true }
{}

/// The law of values, in declarations whose values have these sorts: what a term reads as, in each
/// environment, at each place and with calls nested as deep as one likes, has the term's sort or is
/// Missing, and so is the value of a record's row, which has the sort of the record's type.
pub fn readings_have_their_sorts()
    ensures reading { (subject : Subject) (decls : List Decl) (declared : List Sort) (depth : ℕ) (t : Term) (env : Pairs) (i : ℕ)
        → AreSorts declared decls
        → has_sort declared (meaning subject decls depth t env i).value (sort_of declared t) ≡ true }
    ensures row { (decls : List Decl) (declared : List Sort) (shape : Shape) (scan number : ℕ) (cut : Cut)
        → AreSorts declared decls
        → has_sort declared (row_of decls shape scan number cut).value (sort_at declared (type_of shape number)) ≡ true }
{}

/// The law of well-sorted modules: no expression that the calculus evaluates is ill-sorted, where a
/// sorted term is read in an environment whose bindings have the sorts of their names or are Missing, and
/// where a record of a type of the module is read. That is a call of the type without arguments at the
/// record's first byte.
pub fn sorted_modules_evaluate_nothing_ill_sorted()
    ensures term { (subject : Subject) (decls : List Decl) (sorts : Sorts) (scope : SortScope) (now : Moment) (e : Expr) (env : Pairs)
        → AreSorted sorts decls → IsSorted sorts scope now.term → HasSorts sorts.declared scope now.env
        → Evaluates subject decls now e env → value e env ≢ Ill }
    ensures record_type { (subject : Subject) (decls : List Decl) (number : ℕ) (e : Expr) (env : Pairs)
        → Sorted decls → Evaluates subject decls (moment deepest (Call number []) [] 0) e env → value e env ≢ Ill }
    ensures record_reading { (decls : List Decl) (scan number : ℕ) (cut : Cut)
        → body_reading decls scan number cut ≡ meaning (subject_of_cut scan cut) decls deepest (Call number []) [] 0 }
{}

/// The law of declared sorts, whatever the declarations call: there are sorts for the values of all of them. A term
/// has but one, where that is told behind some number of calls; not so where calls alone lead back to themselves.
pub fn modules_have_sorts()
    ensures there { (decls : List Decl) → (declared : List Sort) × AreSorts declared decls }
    ensures unique { (decls : List Decl) (one other : List Sort) (depth : ℕ) (t : Term)
        → AreSorts one decls → AreSorts other decls → ends decls depth t ≡ true → sort_of one t ≡ sort_of other t }
{}
