ghost use Rattle.std.specs.Prelude.{◌≡◌, ◌≤◌, ◌^◌, true, IfOk, OnOk, map};
ghost use Rattle.pads_value.specs.Refusals.{OnFault};
ghost use Rattle.pads_accum.specs.Feeding.{all_fed, list_fed, one_fed};
ghost use Rattle.pads_accum.specs.Placed.{row_nodes as row_nodes_of};
ghost use Rattle.pads_accum.specs.Walks.{found_seen};

use crate::guide::Guide;
use crate::place::{Found, place};
use pads_plan::PlanPart;
use pads_sums::{PartSum, SumList};
use pads_value::{Items, Memory, Row};
use std::alloc::Global;
use std::mem;

/// Adds a node to the sum of its part.
fn feed_one(
    room: Option<u64>,
    parts: &[PlanPart],
    sums: &mut [PartSum],
    node: &Found<'_>,
) -> Result<(), Memory>
    ensures fed { OnOk result (sums.new ≡ one_fed room parts.now sums.old (found_seen node.now)) }
{
    let at = node.part as usize;
    if at >= sums.len() {
        return Ok(());
    }
    match parts.get(at) {
        Some(part) => sums[at].add(room, &part.form, node.clean, node.value),
        None => Ok(()),
    }
}

/// Adds the nodes of a row to the sums of their parts.
fn feed_all(
    room: Option<u64>,
    parts: &[PlanPart],
    sums: &mut [PartSum],
    nodes: &[Found<'_>],
) -> Result<(), Memory>
    ensures fed { OnOk result (sums.new ≡ all_fed room parts.now sums.old (map found_seen nodes.now)) }
{
    'nodes: for node in nodes {
        feed_one(room, parts, sums, node)?;
    }
    Ok(())
}

/// How many nodes there is room for at first: most rows have fewer, so that memory is asked for once.
const FIRST_ROOM: usize = 32;

/// The nodes of a row that belong to a part of its list.
pub(crate) fn row_nodes<'r>(
    alloc: Global,
    guide: &Guide,
    row: &'r Row,
) -> Result<Vec<Found<'r>>, Memory>
    ensures nodes { IfOk result (λ nodes. map found_seen nodes.items ≡ row_nodes_of guide.now.plan.parts row.now) }
{
    let mut nodes = Vec::with_capacity(alloc, FIRST_ROOM)?;
    place(guide, &mut nodes, &row.pd, 0, Some(&row.value))?;
    Ok(nodes)
}

/// Adds the nodes of a row to the sums of a list.
pub(crate) fn feed_list(
    alloc: Global,
    room: Option<u64>,
    guide: &Guide,
    list: &mut SumList,
    nodes: &[Found<'_>],
) -> Result<(), Memory>
    ensures fed { OnOk result (list.new ≡ record list.old { parts = all_fed room guide.now.plan.parts list.old.parts (map found_seen nodes.now) }) }
{
    let mut sums = mem::replace(&mut list.parts, Items::new(alloc)).into_vec();
    let fed = feed_all(
        room,
        guide.plan.parts.as_slice(),
        sums.as_mut_slice(),
        nodes,
    );
    list.parts = Items::from_vec(sums);
    fed
}
