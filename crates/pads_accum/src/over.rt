ghost use Rattle.std.specs.Prelude.{◌≡◌, ◌<◌, ◌≤◌, ◌^◌, ◌&&◌, nat_eq, true, not, IfOk, IfErr, Some, None, count_by, map};
ghost use Rattle.pads_accum.specs.Feeding.{fits_from, parts_within, placed_over};
ghost use Rattle.pads_accum.specs.Limits.{over as over_of, part_over as part_over_of};
ghost use Rattle.pads_accum.specs.Summaries.{picked};
ghost use Rattle.pads_accum.specs.Walks.{found_seen};

use crate::Limit;
use crate::place::Found;
use pads_sums::PartSum;

/// The most that a count may be.
pub(crate) const MOST: u64 = 1 << 62;

/// A count that rises by so many, where it would pass 2^62.
pub(crate) fn over(part: u64, count: u64, more: u64) -> Option<Limit>
    ensures over { result ≡ over_of part count more }
{
    let wanted = count.saturating_add(more);
    if wanted > MOST {
        Some(Limit {
            part,
            count: wanted,
        })
    } else {
        None
    }
}

/// Whether a node is one of a part that isn't clean.
fn is_bad_at(node: &Found<'_>, at: u64) -> bool
    ensures bad { result ≡ (nat_eq node.now.part at && not node.now.clean) }
{
    node.part == at && !node.clean
}

/// How many of these nodes of a row are clean nodes of a part.
#[tactic(auto, using(crate::proofs::Counting::good_counted))]
fn good_at(nodes: &[Found<'_>], at: u64) -> u64
    ensures count { result ≡ count_by (λ node. node.clean) (picked at (map found_seen nodes.now)) }
{
    nodes
        .iter()
        .filter(|node| node.part == at && node.clean)
        .count() as u64
}

/// How many are nodes of it that aren't clean.
#[tactic(auto, using(crate::proofs::Counting::bad_counted))]
fn bad_at(nodes: &[Found<'_>], at: u64) -> u64
    ensures count { result ≡ count_by (λ node. not node.clean) (picked at (map found_seen nodes.now)) }
{
    nodes.iter().filter(|node| is_bad_at(node, at)).count() as u64
}

/// What these nodes of a row make of the sum of part `at`, which has number `part` in all lists.
fn part_over(part: u64, at: u64, sum: &PartSum, nodes: &[Found<'_>]) -> Option<Limit>
    ensures over { result ≡ part_over_of part sum.now (picked at (map found_seen nodes.now)) }
{
    match over(part, sum.good, good_at(nodes, at)) {
        None => over(part, sum.bad, bad_at(nodes, at)),
        limit => limit,
    }
}

/// What these nodes of a row make of the sums of a list; so many parts stand in earlier lists.
fn parts_over(before: u64, sums: &[PartSum], nodes: &[Found<'_>]) -> Option<Limit>
    requires before { before < 2 ^ 63 }
    ensures over { result ≡ placed_over before 0 sums.now (map found_seen nodes.now) }
{
    'parts: for at in 0..sums.len() {
        let limit = part_over(before + at as u64, at as u64, &sums[at], nodes);
        if limit.is_some() {
            return limit;
        }
    }
    None
}

/// A bound of all counts of a list with these nodes of a row, from one without them; or that a count would
/// pass 2^62. So many parts stand in earlier lists.
pub(crate) fn next_bound(
    bound: u64,
    before: u64,
    sums: &[PartSum],
    nodes: &[Found<'_>],
) -> Result<u64, Limit>
    requires before { before < 2 ^ 63 }
    requires small { bound ≤ 2 ^ 62 }
    requires within { parts_within bound sums.now ≡ true }
    ensures fits { IfOk result (λ next. fits_from next 0 sums.now (map found_seen nodes.now) ≡ true) }
    ensures small { IfOk result (λ next. next ≤ 2 ^ 62) }
    ensures grows { IfOk result (λ next. bound ≤ next) }
    ensures limit { IfErr result (λ limit. placed_over before 0 sums.now (map found_seen nodes.now) ≡ Some limit) }
{
    let more = nodes.len() as u64;
    if more <= MOST - bound {
        return Ok(bound + more);
    }
    match parts_over(before, sums, nodes) {
        None => Ok(MOST),
        Some(limit) => Err(limit),
    }
}
