ghost use Rattle.std.specs.Prelude.{◌≡◌, ◌≤◌, ◌^◌, length, true, None, Some, IfOk, OnOk};
ghost use Rattle.pads_value.specs.Refusals.{OnFault};
ghost use Rattle.pads_sums.specs.Merging.{merged};
ghost use Rattle.pads_accum.specs.Feeding.{lists_within};
ghost use Rattle.pads_accum.specs.Limits.{merge_limit};
ghost use Rattle.pads_accum.specs.Merging.{list_merged, lists_merged, one_with, parts_merged};
ghost use Rattle.pads_accum.specs.States.{is_memory};

use crate::Limit;
use crate::merge_over::merged_bound;
use pads_sums::{PartSum, PartSums, SumList, SumLists};
use pads_value::{Items, Memory, Refusal};
use std::alloc::Global;
use std::mem;

/// Merges the sum of a part with a later one.
fn merge_part(
    room: Option<u64>,
    sums: &mut [PartSum],
    at: u64,
    later: PartSum,
) -> Result<(), Memory>
    ensures merged { OnOk result (sums.new ≡ one_with (merged room) sums.old at later) }
{
    let at = at as usize;
    if at >= sums.len() {
        return Ok(());
    }
    sums[at].merge(room, later)
}

/// Merges sums with later ones of the same parts, from the last part to the first.
fn merge_parts(room: Option<u64>, sums: &mut [PartSum], later: PartSums) -> Result<(), Memory>
    ensures merged { OnOk result (sums.new ≡ parts_merged room sums.old later) }
{
    let mut rest = later;
    'parts: while let Some(sum) = rest.pop() {
        merge_part(room, sums, rest.len(), sum)?;
    }
    Ok(())
}

fn merge_list(
    alloc: Global,
    room: Option<u64>,
    list: &mut SumList,
    later: SumList,
) -> Result<(), Memory>
    ensures merged { OnOk result (list.new ≡ list_merged room list.old later) }
{
    let mut sums = mem::replace(&mut list.parts, Items::new(alloc)).into_vec();
    let merged = merge_parts(room, sums.as_mut_slice(), later.parts);
    list.parts = Items::from_vec(sums);
    merged
}

/// Merges the sums of a list with later ones.
fn merge_list_at(
    alloc: Global,
    room: Option<u64>,
    lists: &mut [SumList],
    at: u64,
    later: SumList,
) -> Result<(), Memory>
    ensures merged { OnOk result (lists.new ≡ one_with (list_merged room) lists.old at later) }
{
    let at = at as usize;
    if at >= lists.len() {
        return Ok(());
    }
    merge_list(alloc, room, &mut lists[at], later)
}

/// Merges the sums of lists with later ones of the same lists, from the last list to the first.
fn merge_lists(
    alloc: Global,
    room: Option<u64>,
    lists: &mut [SumList],
    later: SumLists,
) -> Result<(), Memory>
    ensures merged { OnOk result (lists.new ≡ lists_merged room lists.old later) }
{
    let mut rest = later;
    'lists: while let Some(list) = rest.pop() {
        merge_list_at(alloc, room, lists, rest.len(), list)?;
    }
    Ok(())
}

/// The same in lists that are items.
fn merge_items(
    alloc: Global,
    room: Option<u64>,
    lists: &mut SumLists,
    later: SumLists,
) -> Result<(), Memory>
    ensures merged { OnOk result (lists.new ≡ lists_merged room lists.old later) }
{
    let mut taken = mem::replace(lists, Items::new(alloc)).into_vec();
    let merged = merge_lists(alloc, room, taken.as_mut_slice(), later);
    *lists = Items::from_vec(taken);
    merged
}

/// Merges the sums of lists with later ones, and gives a bound of all counts then, from bounds of the
/// counts of each.
pub(crate) fn merge_all(
    alloc: Global,
    room: Option<u64>,
    lists: &mut SumLists,
    bound: u64,
    later: SumLists,
    later_bound: u64,
) -> Result<u64, Refusal<Limit>>
    requires few { length lists.old ≤ 2 }
    requires small { bound ≤ 2 ^ 62 }
    requires later_small { later_bound ≤ 2 ^ 62 }
    requires within { lists_within bound lists.old ≡ true }
    requires later_within { lists_within later_bound later ≡ true }
    ensures merged { OnOk result (lists.new ≡ lists_merged room lists.old later) }
    ensures none { OnOk result (merge_limit lists.old later ≡ None) }
    ensures small { IfOk result (λ next. next ≤ 2 ^ 62) }
    ensures within { IfOk result (λ next. lists_within next lists.new ≡ true) }
    ensures limit { OnFault result (λ limit. merge_limit lists.old later ≡ Some limit) }
    ensures unchanged { OnFault result (λ limit. lists.new ≡ lists.old) }
    ensures memory { is_memory result ≡ true → merge_limit lists.old later ≡ None }
{
    match merged_bound(bound, later_bound, lists.as_slice(), later.as_slice()) {
        Err(limit) => Err(Refusal::Fault(limit)),
        Ok(next) => {
            merge_items(alloc, room, lists, later)?;
            Ok(next)
        }
    }
}
