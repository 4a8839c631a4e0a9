ghost use Rattle.std.specs.Prelude.{◌≡◌, IfOk};
ghost use Rattle.pads_plan.specs.Ways.{named_below as named_below_of, each_below as each_below_of};

use crate::part::Step;
use pads_value::{Bytes, Items, Memory};
use std::alloc::Global;

/// The place of a part below another, reached by a name.
pub(crate) fn named_below(
    alloc: Global,
    step: Step,
    above: &[u8],
    name: &[u8],
) -> Result<Bytes, Memory>
    ensures place { IfOk result (λ place. place ≡ named_below_of step above.now name.now) }
{
    if let Step::Body = step {
        return Items::from_slice(alloc, name);
    }
    let mut place = Items::from_slice(alloc, above)?;
    place.extend_from_slice(b".")?;
    place.extend_from_slice(name)?;
    Ok(place)
}

/// The place of all elements of an array.
pub(crate) fn each_below(alloc: Global, above: &[u8]) -> Result<Bytes, Memory>
    ensures place { IfOk result (λ place. place ≡ each_below_of above.now) }
{
    let mut place = Items::from_slice(alloc, above)?;
    place.extend_from_slice(b"[*]")?;
    Ok(place)
}
