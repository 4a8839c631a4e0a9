//! The laws of chunks: merged in order, they give what their rows give in one.
ghost use Rattle.std.specs.Prelude.{◌≡◌, ◌↔◌, ◌++◌, List, None, Some, false};
ghost use Rattle.pads_plan.specs.declared.part.PlanList.{PlanList};
ghost use Rattle.pads_sums.specs.Sums.{most};
ghost use Rattle.pads_value.specs.declared.row.Row.{Row};
ghost use Rattle.pads_accum.specs.Limits.{merge_limit, passes};
ghost use Rattle.pads_accum.specs.Merging.{lists_merged};
ghost use Rattle.pads_accum.specs.States.{has_others};
ghost use Rattle.pads_accum.specs.Summaries.{all_of, summary_of};

/// The summary of rows, merged with the chunk of later ones, is the summary of all of them, where no count
/// would pass 2^62.
pub fn summaries_take_chunks()
    ensures merged { (plan : List PlanList) (rows more : List Row)
        → merge_limit (summary_of plan rows) (all_of plan more) ≡ None
        → lists_merged (Some most) (summary_of plan rows) (all_of plan more) ≡ summary_of plan (rows ++ more) }
{}

/// The chunk of rows, merged with the chunk of later ones, is the chunk of all of them, where no count would
/// pass 2^62.
pub fn chunks_join()
    ensures merged { (plan : List PlanList) (rows more : List Row)
        → merge_limit (all_of plan rows) (all_of plan more) ≡ None
        → lists_merged None (all_of plan rows) (all_of plan more) ≡ all_of plan (rows ++ more) }
{}

/// The summary of rows is their chunk, where no part has samples whose values aren't tracked.
pub fn whole_summaries_are_chunks()
    ensures same { (plan : List PlanList) (rows : List Row)
        → has_others (summary_of plan rows) ≡ false → summary_of plan rows ≡ all_of plan rows }
{}

/// A chunk makes a count of a summary, or of a chunk, pass 2^62 exactly where one passes in the summary of
/// all rows.
pub fn merges_pass_together()
    ensures summary { (plan : List PlanList) (rows more : List Row)
        → (merge_limit (summary_of plan rows) (all_of plan more) ≡ None) ↔ (passes (summary_of plan (rows ++ more)) ≡ false) }
    ensures chunk { (plan : List PlanList) (rows more : List Row)
        → (merge_limit (all_of plan rows) (all_of plan more) ≡ None) ↔ (passes (summary_of plan (rows ++ more)) ≡ false) }
    ensures alike { (plan : List PlanList) (rows : List Row) → passes (all_of plan rows) ≡ passes (summary_of plan rows) }
{}
