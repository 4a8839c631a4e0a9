ghost use Rattle.std.specs.Prelude.{◌≡◌, map, IfOk};
ghost use Rattle.pads_accum.specs.Guides.{plan_of};

use crate::guide::Guide;
use pads_plan::{PlanList, PlanLists, PlanPart, PlanParts};
use pads_sums::{PartSum, PartSums, SumList, SumLists};
use pads_value::{Items, Memory};
use std::alloc::Global;

fn copy_plan_part(alloc: Global, part: &PlanPart) -> Result<PlanPart, Memory>
    ensures equal { IfOk result (λ copied. copied ≡ part.now) }
{
    Ok(PlanPart {
        up: part.up,
        step: part.step,
        place: Items::from_slice(alloc, part.place.as_slice())?,
        form: part.form.copy(alloc)?,
    })
}

fn copy_plan_parts(alloc: Global, parts: &[PlanPart]) -> Result<PlanParts, Memory>
    ensures equal { IfOk result (λ copied. copied ≡ parts.now) }
{
    let mut copied = Items::new(alloc);
    'parts: for part in parts {
        copied.push(copy_plan_part(alloc, part)?)?;
    }
    Ok(copied)
}

fn copy_plan_list(alloc: Global, guide: &Guide) -> Result<PlanList, Memory>
    ensures equal { IfOk result (λ copied. copied ≡ plan_of guide.now) }
{
    let parts = copy_plan_parts(alloc, guide.plan.parts.as_slice())?;
    let name = Items::from_slice(alloc, guide.plan.name.as_slice())?;
    Ok(PlanList { name, parts })
}

/// The plan of guides, as one of its own.
pub(crate) fn copy_plan(alloc: Global, guides: &[Guide]) -> Result<PlanLists, Memory>
    ensures equal { IfOk result (λ copied. copied ≡ map plan_of guides.now) }
{
    let mut copied = Items::new(alloc);
    'lists: for guide in guides {
        copied.push(copy_plan_list(alloc, guide)?)?;
    }
    Ok(copied)
}

fn copy_parts(alloc: Global, sums: &[PartSum]) -> Result<PartSums, Memory>
    ensures equal { IfOk result (λ copied. copied ≡ sums.now) }
{
    let mut copied = Items::new(alloc);
    'parts: for sum in sums {
        copied.push(sum.copy(alloc)?)?;
    }
    Ok(copied)
}

fn copy_list(alloc: Global, list: &SumList) -> Result<SumList, Memory>
    ensures equal { IfOk result (λ copied. copied ≡ list.now) }
{
    let parts = copy_parts(alloc, list.parts.as_slice())?;
    let name = Items::from_slice(alloc, list.name.as_slice())?;
    Ok(SumList { name, parts })
}

/// Sums equal to these.
pub(crate) fn copy_lists(alloc: Global, lists: &[SumList]) -> Result<SumLists, Memory>
    ensures equal { IfOk result (λ copied. copied ≡ lists.now) }
{
    let mut copied = Items::new(alloc);
    'lists: for list in lists {
        copied.push(copy_list(alloc, list)?)?;
    }
    Ok(copied)
}
