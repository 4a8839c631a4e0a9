//! The nodes that steps lead to, all at once.

ghost use Rattle.std.specs.Prelude.{◌≡◌, ◌++◌, drop, IfOk, OnOk, Some, slice_get};
ghost use Rattle.std.specs.Option.{option_copied};
ghost use Rattle.std.specs.List.{flat_map, zip};
ghost use Rattle.pads_expr.specs.Parts.{parts_in, branch_in};
ghost use Rattle.pads_nodes.specs.Found.{all_seen, seen};
ghost use Rattle.pads_nodes.specs.Nodes as nodes;
ghost use Rattle.pads_nodes.specs.Nodes.{arm_value, body_of, elements_of, node};

use crate::Step;
use pads_value::{Memory, Pd, Row, Val};
use std::alloc::Global;

/// A node of a row.
#[derive(Clone, Copy)]
pub(crate) struct Found<'r> {
    pub(crate) value: &'r Val,
    pub(crate) pd: &'r Pd,
}

/// The part of a struct of a number; none of any other value.
fn part(value: &Val, number: u16) -> Option<&Val>
    ensures part { option_copied result ≡ slice_get (parts_in value.now) number }
{
    match value {
        Val::Tuple(parts) => parts.get(u64::from(number)),
        _ => None,
    }
}

/// The value of the branch of a number, where that was chosen.
fn arm(value: &Val, number: u16) -> Option<&Val>
    ensures arm { option_copied result ≡ arm_value (branch_in value.now) number }
{
    match value {
        Val::Branch(chosen, inner) if *chosen == number => Some(inner.get()),
        _ => None,
    }
}

/// The elements of an array; none of any other value.
fn elements(value: &Val) -> &[Val]
    ensures elements { result.now ≡ elements_of value.now }
{
    match value {
        Val::Array(elements) => elements.as_slice(),
        _ => &[],
    }
}

/// The element of an array of a number; none of any other value.
fn element(value: &Val, number: u64) -> Option<&Val>
    ensures element { option_copied result ≡ slice_get (elements_of value.now) number }
{
    elements(value).get(number as usize)
}

/// Adds a node with this value and this descriptor, where both are there.
fn add<'r>(
    found: &mut Vec<Found<'r>>,
    value: Option<&'r Val>,
    pd: Option<&'r Pd>,
) -> Result<(), Memory>
    ensures added { OnOk result (all_seen found.new.items ≡ all_seen found.old.items ++ node (option_copied value.entry) (option_copied pd.entry)) }
{
    match (value, pd) {
        (Some(value), Some(pd)) => {
            found.push(Found { value, pd })?;
            Ok(())
        }
        _ => Ok(()),
    }
}

/// Adds the elements of an array, each with its descriptor.
#[tactic(auto, using(std::proofs::lemmas::Grind::common_steps, crate::proofs::Zips::zip_past))]
fn add_each<'r>(
    found: &mut Vec<Found<'r>>,
    elements: &'r [Val],
    kids: &'r [Pd],
) -> Result<(), Memory>
    ensures added { OnOk result (all_seen found.new.items ≡ all_seen found.old.items ++ zip elements.now kids.now) }
{
    let count = elements.len().min(kids.len());
    'elements: for i in 0..count {
        let node = Found {
            value: &elements[i],
            pd: &kids[i],
        };
        found.push(node)?;
    }
    Ok(())
}

/// Adds the nodes directly below one, by a step.
#[tactic(auto, unfolding(crate::specs::Nodes::below))]
fn add_below<'r>(found: &mut Vec<Found<'r>>, step: Step, above: Found<'r>) -> Result<(), Memory>
    ensures added { OnOk result (all_seen found.new.items ≡ all_seen found.old.items ++ nodes.below step (seen above.entry)) }
{
    let value = above.value;
    let kids = &above.pd.kids;
    match step {
        Step::Part(number) => add(found, part(value, number), kids.get(u64::from(number))),
        Step::Arm(number) => add(found, arm(value, number), kids.get(0)),
        Step::Elem(number) => add(found, element(value, number), kids.get(number)),
        Step::Each => add_each(found, elements(value), kids.as_slice()),
    }
}

/// The nodes directly below some, by a step.
fn all_below<'r>(alloc: Global, step: Step, above: &[Found<'r>]) -> Result<Vec<Found<'r>>, Memory>
    ensures below { IfOk result (λ found. all_seen found.items ≡ flat_map (nodes.below step) (all_seen above.now)) }
{
    let mut found = Vec::new(alloc);
    'nodes: for node in above {
        add_below(&mut found, step, *node)?;
    }
    Ok(found)
}

/// The body of a record, where the record was read.
fn body<'r>(alloc: Global, row: &'r Row) -> Result<Vec<Found<'r>>, Memory>
    ensures body { IfOk result (λ found. all_seen found.items ≡ body_of row.now) }
{
    let mut found = Vec::new(alloc);
    add(&mut found, Some(&row.value), row.pd.kids.get(0))?;
    Ok(found)
}

/// The nodes that steps lead to from the body of a record.
#[tactic(auto, unfolding(crate::specs::Nodes::row_nodes), using(std::proofs::lemmas::Grind::common_steps, crate::proofs::NodeLaws::one_step_more, crate::proofs::NodeLaws::no_steps))]
pub(crate) fn row_nodes<'r>(
    alloc: Global,
    steps: &[Step],
    row: &'r Row,
) -> Result<Vec<Found<'r>>, Memory>
    ensures nodes { IfOk result (λ found. all_seen found.items ≡ nodes.row_nodes steps.now row.now) }
{
    let mut found = body(alloc, row)?;
    'steps: for step in steps {
        found = all_below(alloc, *step, found.as_slice())?;
    }
    Ok(found)
}
