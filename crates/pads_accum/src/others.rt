ghost use Rattle.std.specs.Prelude.{◌≡◌, nat_lt};
ghost use Rattle.std.specs.List.{list_any};
ghost use Rattle.pads_accum.specs.States.{has_others as has_others_of};

use pads_sums::{PartSum, SumList};

/// Whether some of these parts have samples whose values aren't tracked.
fn part_has_others(sums: &[PartSum]) -> bool
    ensures others { result ≡ list_any (λ part. nat_lt 0 part.others) sums.now }
{
    sums.iter().any(|sum| sum.others > 0)
}

/// Whether some part has samples whose values aren't tracked.
pub(crate) fn has_others(lists: &[SumList]) -> bool
    ensures others { result ≡ has_others_of lists.now }
{
    lists
        .iter()
        .any(|list| part_has_others(list.parts.as_slice()))
}
