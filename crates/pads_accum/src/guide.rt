ghost use Rattle.pads_accum.specs.Routes.{IsTableOf};

use crate::below::Row;
use pads_plan::PlanList;

/// A list of a plan, with what stands below each of its parts.
#[derive(Drop)]
pub(crate) struct Guide {
    pub(crate) plan: PlanList,
    pub(crate) below: Vec<Row>,
    pub(crate) ghost table: { IsTableOf below.items plan.parts },
}
