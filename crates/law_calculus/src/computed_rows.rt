//! Rows computed on the definition of the calculus.
ghost use Rattle.std.specs.Prelude.{◌≡◌, pos, true, [], codes};
ghost use Rattle.pads_expr.specs.Worth.{Worth, Num, Text, Truth};
ghost use Rattle.law_calculus.specs.Agreement.{ill_worth, AgreesOnSorted};
ghost use Rattle.law_calculus.specs.IllSorted.{as_constraint, as_text, as_width, as_chooser, as_size, as_last, as_argument, read_own, read_with, unit_read, unmet, uncomputed, bad_argument, unchosen, unsized, z_read, ab_read, one_chosen, no_units, units_stalled, one_unit};
ghost use Rattle.law_calculus.specs.Pair.{read_pair, both_there, first_missing, both_out_of_range, all_missing, comma_later};

/// What a struct of a number, a comma that is looked for and a number reads as by the definition: on a record
/// with both numbers, without the first, with both out of their range, without a byte, and with bytes before
/// the comma and behind the second number.
pub fn a_pair_reads_by_the_rules()
    ensures there { read_pair (codes "3,7") ≡ both_there }
    ensures missing { read_pair (codes ",5") ≡ first_missing }
    ensures range { read_pair (codes "300,400") ≡ both_out_of_range }
    ensures empty { read_pair [] ≡ all_missing }
    ensures skipped { read_pair (codes "3;;,7xyz") ≡ comma_later }
{}

/// What a term that isn't sorted reads as depends on what an ill-sorted expression is worth, for each use of
/// an expression that there is: as a constraint, a computed text, a width, a chooser, a size, the condition of
/// the last element and an argument. `others`: all other expressions have their own worths.
pub fn unsorted_readings_need_ill_sorted_worths()
    ensures others { (worth : Worth) → AgreesOnSorted (ill_worth worth) }
    ensures constraint { read_own as_constraint ≡ unmet }
    ensures constraint_met { read_with (Truth true) as_constraint ≡ unit_read }
    ensures text { read_own as_text ≡ uncomputed }
    ensures text_computed { read_with (Text (codes "z")) as_text ≡ z_read }
    ensures width { read_own as_width ≡ bad_argument }
    ensures width_told { read_with (Num (pos 2)) as_width ≡ ab_read }
    ensures chooser { read_own as_chooser ≡ unchosen }
    ensures chooser_told { read_with (Num (pos 1)) as_chooser ≡ one_chosen }
    ensures size { read_own as_size ≡ unsized }
    ensures size_told { read_with (Num (pos 0)) as_size ≡ no_units }
    ensures last { read_own as_last ≡ units_stalled }
    ensures last_met { read_with (Truth true) as_last ≡ one_unit }
    ensures argument { read_own as_argument ≡ bad_argument }
    ensures argument_told { read_with (Num (pos 1)) as_argument ≡ unit_read }
{}
