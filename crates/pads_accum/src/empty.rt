ghost use Rattle.std.specs.Prelude.{◌≡◌, ℕ, [], Option, IfOk};
ghost use Rattle.pads_sums.specs.Sums.{part_sum};
ghost use Rattle.pads_accum.specs.Summaries.{list_summed, parts_summed, summed};

use pads_plan::{PlanList, PlanPart};
use pads_sums::{PartSum, PartSums, SumList, SumLists};
use pads_value::{Items, Memory};
use std::alloc::Global;

/// The sum of a part without nodes.
fn empty_part(alloc: Global, part: &PlanPart) -> Result<PartSum, Memory>
    ensures none { IfOk result (λ sum. (room : Option ℕ) → sum ≡ part_sum room part.now.place part.now.form []) }
{
    let place = Items::from_slice(alloc, part.place.as_slice())?;
    Ok(PartSum::new(alloc, place))
}

/// The sums of the parts of a list without rows.
fn empty_parts(alloc: Global, parts: &[PlanPart]) -> Result<PartSums, Memory>
    ensures none { IfOk result (λ sums. (room : Option ℕ) → sums ≡ parts_summed room parts.now [] 0 parts.now) }
{
    let mut sums = Items::new(alloc);
    'parts: for part in parts {
        sums.push(empty_part(alloc, part)?)?;
    }
    Ok(sums)
}

fn empty_list(alloc: Global, plan: &PlanList) -> Result<SumList, Memory>
    ensures none { IfOk result (λ list. (room : Option ℕ) → list ≡ list_summed room plan.now []) }
{
    let parts = empty_parts(alloc, plan.parts.as_slice())?;
    let name = Items::from_slice(alloc, plan.name.as_slice())?;
    Ok(SumList { name, parts })
}

/// The sums of the lists of a plan without rows.
pub(crate) fn empty_lists(alloc: Global, plan: &[PlanList]) -> Result<SumLists, Memory>
    ensures none { IfOk result (λ lists. (room : Option ℕ) → lists ≡ summed room plan.now []) }
{
    let mut lists = Items::new(alloc);
    'lists: for list in plan {
        lists.push(empty_list(alloc, list)?)?;
    }
    Ok(lists)
}
