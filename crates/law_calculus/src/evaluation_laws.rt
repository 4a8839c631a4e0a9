//! The laws of what readings depend on: expressions that are evaluated, by what they are worth.
ghost use Rattle.std.specs.Prelude.{◌≡◌, ℕ, List};
ghost use Rattle.pads_value.specs.Cuts.{Cut};
ghost use Rattle.pads_expr.specs.Value.{Pairs};
ghost use Rattle.pads_calc.specs.declared.decl.Decl.{Decl};
ghost use Rattle.pads_calc.specs.declared.term.Term.{Term};
ghost use Rattle.pads_calc.specs.Calculus.{meaning};
ghost use Rattle.pads_calc.specs.Readings.{Subject};
ghost use Rattle.pads_calc.specs.Rows.{body_reading};
ghost use Rattle.law_calculus.specs.Agreement.{own_worths, AgreesOnEvaluated, AgreesOnSorted, record_by};
ghost use Rattle.law_calculus.specs.ByWorths.{Worths, meaning_by};
ghost use Rattle.law_calculus.specs.Evaluated.{Moment};
ghost use Rattle.law_calculus.specs.Expressions.{SortScope};
ghost use Rattle.law_calculus.specs.Sorted.{Sorts, AreSorted, IsSorted, Sorted};
ghost use Rattle.law_calculus.specs.Values.{HasSorts};

/// The law of evaluation: the calculus evaluates no other expression than `Evaluates` names. Whatever
/// worths are put in the place of its own, a reading stays the same if they are its own for those. With
/// its own worths for all the reading by worths is the calculus.
pub fn only_these_are_evaluated()
    ensures evaluated { (subject : Subject) (decls : List Decl) (now : Moment) (worths : Worths)
        → AgreesOnEvaluated subject decls now worths
        → meaning_by worths subject decls now.depth now.term now.env now.place ≡ meaning subject decls now.depth now.term now.env now.place }
    ensures own { (subject : Subject) (decls : List Decl) (depth : ℕ) (t : Term) (env : Pairs) (i : ℕ)
        → meaning_by own_worths subject decls depth t env i ≡ meaning subject decls depth t env i }
{}

/// The law of sorted readings: whatever ill-sorted expressions are taken to be worth, a sorted term reads
/// the same in an environment whose bindings have the sorts of their names or are Missing, and so does a
/// record of a type of a sorted module.
pub fn sorted_readings_need_nothing_ill_sorted()
    ensures term { (subject : Subject) (decls : List Decl) (sorts : Sorts) (scope : SortScope) (now : Moment) (worths : Worths)
        → AgreesOnSorted worths → AreSorted sorts decls → IsSorted sorts scope now.term → HasSorts sorts.declared scope now.env
        → meaning_by worths subject decls now.depth now.term now.env now.place ≡ meaning subject decls now.depth now.term now.env now.place }
    ensures record_reading { (decls : List Decl) (scan number : ℕ) (cut : Cut) (worths : Worths)
        → AgreesOnSorted worths → Sorted decls → record_by worths decls scan number cut ≡ body_reading decls scan number cut }
{}
