ghost use Rattle.std.specs.Prelude.{◌≡◌, ◌≤◌, ◌<◌, ◌^◌, ◌∷◌, ◌++◌, [], length, map, slice_get, true, false, IfOk, OnOk, None, Some};
ghost use Rattle.std.specs.Option.{option_copied, option_map};
ghost use Rattle.pads_value.specs.Refusals.{OnFault};
ghost use Rattle.pads_accum.specs.Feeding.{before_list, fed_in, fed_over, fits_from, list_fed, lists_fed, lists_within, parts_within, placed_over};
ghost use Rattle.pads_accum.specs.Guides.{plan_of};
ghost use Rattle.pads_accum.specs.Limits.{limit_of};
ghost use Rattle.pads_accum.specs.Placed.{row_nodes as row_nodes_of};
ghost use Rattle.pads_accum.specs.Summaries.{fed as fed_of};

use crate::Limit;
use crate::feed::{feed_list, row_nodes};
use crate::guide::Guide;
use crate::over::next_bound;
use pads_sums::{SumList, SumLists};
use pads_value::{Items, Refusal, Row};
use std::alloc::Global;
use std::mem;

/// The number of the list that a row feeds, of so many lists: row 0 the first, where there is more than
/// one, and each other row the second.
fn fed(count: usize, number: u64) -> usize
    ensures fed { result ≡ fed_of count number }
    ensures few { result ≤ 1 }
{
    if count < 2 || number == 0 { 0 } else { 1 }
}

/// How many parts stand before the first or the second list.
pub(crate) fn before(lists: &[SumList], at: usize) -> u64
    requires few { at ≤ 1 }
    ensures before { result ≡ before_list lists.now at }
    ensures small { result < 2 ^ 63 }
{
    if at == 0 {
        return 0;
    }
    match lists.first() {
        Some(list) => list.parts.as_slice().len() as u64,
        None => 0,
    }
}

/// Adds a row to the list that it feeds, and gives a bound of all counts of the list then. So many parts
/// stand in earlier lists, and `bound` bounds all counts so far.
fn add_to_list(
    alloc: Global,
    room: Option<u64>,
    guide: &Guide,
    list: &mut SumList,
    before: u64,
    bound: u64,
    row: &Row,
) -> Result<u64, Refusal<Limit>>
    requires before { before < 2 ^ 63 }
    requires small { bound ≤ 2 ^ 62 }
    requires within { parts_within bound list.old.parts ≡ true }
    ensures fed { OnOk result (list.new ≡ list_fed room guide.now.plan row.now list.old) }
    ensures fits { IfOk result (λ next. fits_from next 0 list.old.parts (row_nodes_of guide.now.plan.parts row.now) ≡ true) }
    ensures small { IfOk result (λ next. next ≤ 2 ^ 62) }
    ensures grows { IfOk result (λ next. bound ≤ next) }
    ensures limit { OnFault result (λ limit. placed_over before 0 list.old.parts (row_nodes_of guide.now.plan.parts row.now) ≡ Some limit) }
    ensures unchanged { OnFault result (λ limit. list.new ≡ list.old) }
{
    let nodes = row_nodes(alloc, guide, row)?;
    let nodes = nodes.as_slice();
    match next_bound(bound, before, list.parts.as_slice(), nodes) {
        Err(limit) => Err(Refusal::Fault(limit)),
        Ok(next) => {
            feed_list(alloc, room, guide, list, nodes)?;
            Ok(next)
        }
    }
}

/// Adds a row to the first or the second list, if it is there, and gives a bound of all counts then.
fn add_at(
    alloc: Global,
    room: Option<u64>,
    guide: &Guide,
    lists: &mut [SumList],
    at: usize,
    bound: u64,
    row: &Row,
) -> Result<u64, Refusal<Limit>>
    requires few { at ≤ 1 }
    requires small { bound ≤ 2 ^ 62 }
    requires within { lists_within bound lists.old ≡ true }
    ensures fed { OnOk result (lists.new ≡ fed_in room (Some guide.now.plan) (slice_get lists.old at) at row.now lists.old) }
    ensures none { OnOk result (fed_over (Some guide.now.plan) (slice_get lists.old at) (before_list lists.old at) row.now ≡ None) }
    ensures small { IfOk result (λ next. next ≤ 2 ^ 62) }
    ensures within { IfOk result (λ next. lists_within next lists.new ≡ true) }
    ensures limit { OnFault result (λ limit. fed_over (Some guide.now.plan) (slice_get lists.old at) (before_list lists.old at) row.now ≡ Some limit) }
    ensures unchanged { OnFault result (λ limit. lists.new ≡ lists.old) }
{
    if at >= lists.len() {
        return Ok(bound);
    }
    let earlier = before(lists, at);
    add_to_list(alloc, room, guide, &mut lists[at], earlier, bound, row)
}

/// The same in lists that are items.
fn add_in(
    alloc: Global,
    room: Option<u64>,
    guide: &Guide,
    lists: &mut SumLists,
    at: usize,
    bound: u64,
    row: &Row,
) -> Result<u64, Refusal<Limit>>
    requires few { at ≤ 1 }
    requires small { bound ≤ 2 ^ 62 }
    requires within { lists_within bound lists.old ≡ true }
    ensures fed { OnOk result (lists.new ≡ fed_in room (Some guide.now.plan) (slice_get lists.old at) at row.now lists.old) }
    ensures none { OnOk result (fed_over (Some guide.now.plan) (slice_get lists.old at) (before_list lists.old at) row.now ≡ None) }
    ensures small { IfOk result (λ next. next ≤ 2 ^ 62) }
    ensures within { IfOk result (λ next. lists_within next lists.new ≡ true) }
    ensures limit { OnFault result (λ limit. fed_over (Some guide.now.plan) (slice_get lists.old at) (before_list lists.old at) row.now ≡ Some limit) }
    ensures unchanged { OnFault result (λ limit. lists.new ≡ lists.old) }
{
    let mut taken = mem::replace(lists, Items::new(alloc)).into_vec();
    let added = add_at(alloc, room, guide, taken.as_mut_slice(), at, bound, row);
    *lists = Items::from_vec(taken);
    added
}

fn guide_at(guides: &[Guide], at: usize) -> Option<&Guide>
    ensures plan { option_map plan_of (option_copied result) ≡ slice_get (map plan_of guides.now) at }
{
    guides.get(at)
}

/// Adds a row to the list that it feeds, and gives a bound of all counts then.
pub(crate) fn add_to_lists(
    alloc: Global,
    room: Option<u64>,
    guides: &[Guide],
    lists: &mut SumLists,
    bound: u64,
    row: &Row,
) -> Result<u64, Refusal<Limit>>
    requires small { bound ≤ 2 ^ 62 }
    requires within { lists_within bound lists.old ≡ true }
    ensures fed { OnOk result (lists.new ≡ lists_fed room (map plan_of guides.now) lists.old row.now) }
    ensures none { OnOk result (limit_of (map plan_of guides.now) lists.old row.now ≡ None) }
    ensures small { IfOk result (λ next. next ≤ 2 ^ 62) }
    ensures within { IfOk result (λ next. lists_within next lists.new ≡ true) }
    ensures limit { OnFault result (λ limit. limit_of (map plan_of guides.now) lists.old row.now ≡ Some limit) }
    ensures unchanged { OnFault result (λ limit. lists.new ≡ lists.old) }
{
    let at = fed(guides.len(), row.number);
    match guide_at(guides, at) {
        None => Ok(bound),
        Some(guide) => add_in(alloc, room, guide, lists, at, bound, row),
    }
}
