ghost use Rattle.std.specs.Prelude.{◌≡◌, ◌<◌, ◌≤◌, ◌^◌, length, true, IfOk, IfErr, OnOk, None, Some};
ghost use Rattle.pads_accum.specs.Feeding.{lists_within};
ghost use Rattle.pads_accum.specs.Limits.{merge_limit, or_else, over as over_of, sums_over as sums_over_of};
ghost use Rattle.pads_accum.specs.Merging.{lists_fit};

use crate::Limit;
use crate::add::before;
use crate::over::{MOST, over};
use pads_sums::{PartSum, SumList};

/// What a later sum makes of the sum of part number `part`.
fn sum_over(part: u64, sum: &PartSum, later: &PartSum) -> Option<Limit>
    ensures over { result ≡ or_else (over_of part sum.now.good later.now.good) (over_of part sum.now.bad later.now.bad) }
{
    match over(part, sum.good, later.good) {
        None => over(part, sum.bad, later.bad),
        limit => limit,
    }
}

/// What later sums make of the sums of a list; so many parts stand in earlier lists.
fn sums_over(before: u64, sums: &[PartSum], later: &[PartSum]) -> Option<Limit>
    requires before { before < 2 ^ 63 }
    ensures over { result ≡ sums_over_of before sums.now later.now }
{
    'parts: for at in 0..sums.len().min(later.len()) {
        let limit = sum_over(before + at as u64, &sums[at], &later[at]);
        if limit.is_some() {
            return limit;
        }
    }
    None
}

/// What later sums make of the sums of all lists.
fn lists_over(lists: &[SumList], later: &[SumList]) -> Option<Limit>
    requires few { length lists.now ≤ 2 }
    ensures over { result ≡ merge_limit lists.now later.now }
{
    'lists: for at in 0..lists.len().min(later.len()) {
        let parts = lists[at].parts.as_slice();
        let limit = sums_over(before(lists, at), parts, later[at].parts.as_slice());
        if limit.is_some() {
            return limit;
        }
    }
    None
}

/// A bound of all counts of sums merged with later ones, from bounds of the counts of each; or that a count
/// would pass 2^62.
pub(crate) fn merged_bound(
    bound: u64,
    later_bound: u64,
    lists: &[SumList],
    later: &[SumList],
) -> Result<u64, Limit>
    requires few { length lists.now ≤ 2 }
    requires small { bound ≤ 2 ^ 62 }
    requires later_small { later_bound ≤ 2 ^ 62 }
    requires within { lists_within bound lists.now ≡ true }
    requires later_within { lists_within later_bound later.now ≡ true }
    ensures fits { IfOk result (λ next. lists_fit next lists.now later.now ≡ true) }
    ensures small { IfOk result (λ next. next ≤ 2 ^ 62) }
    ensures grows { IfOk result (λ next. bound ≤ next) }
    ensures none { OnOk result (merge_limit lists.now later.now ≡ None) }
    ensures limit { IfErr result (λ limit. merge_limit lists.now later.now ≡ Some limit) }
{
    let both = bound + later_bound;
    if both <= MOST {
        return Ok(both);
    }
    match lists_over(lists, later) {
        None => Ok(MOST),
        Some(limit) => Err(limit),
    }
}
