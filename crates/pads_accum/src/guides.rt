ghost use Rattle.std.specs.Prelude.{◌≡◌, map, IfOk};
ghost use Rattle.pads_accum.specs.Guides.{plan_of};

use crate::below::table_of;
use crate::guide::Guide;
use pads_plan::{PlanList, PlanLists};
use pads_value::{Items, Memory};
use std::alloc::Global;

/// The guide to a list of a plan.
fn guide_of(alloc: Global, plan: PlanList) -> Result<Guide, Memory>
    ensures plan { IfOk result (λ guide. plan_of guide ≡ plan) }
{
    let below = table_of(alloc, plan.parts.as_slice())?;
    Ok(Guide { plan, below })
}

/// The guides to the lists of a plan.
pub(crate) fn guides_of(alloc: Global, plan: PlanLists) -> Result<Items<Guide>, Memory>
    ensures plan { IfOk result (λ guides. map plan_of guides ≡ plan) }
{
    let mut guides = Items::new(alloc);
    'lists: for list in plan.into_vec() {
        guides.push(guide_of(alloc, list)?)?;
    }
    Ok(guides)
}
