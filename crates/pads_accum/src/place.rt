ghost use Rattle.std.specs.Prelude.{◌≡◌, ◌++◌, map, OnOk, slice_get, Some};
ghost use Rattle.std.specs.Option.{option_copied, option_map};
ghost use Rattle.pads_value.specs.Header.{is_ok_class};
ghost use Rattle.pads_value.specs.declared.descriptor.Pd.{out-Pd};
ghost use Rattle.pads_forms.specs.Slots.{tuple_of, array_of, branch_of};
ghost use Rattle.pads_accum.specs.Placed.{form_at, kid_of, placed};
ghost use Rattle.pads_accum.specs.Routes.{below_at};
ghost use Rattle.pads_accum.specs.Walks.{chosen_of, chosen_seen, found_seen, kids_below, spot_of, spot_placed, spot_seen};

use crate::guide::Guide;
use pads_sums::PartForm;
use pads_value::{Class, Memory, Pd, Val};

/// A node of a row that belongs to a part.
#[derive(Clone, Copy)]
pub(crate) struct Found<'r> {
    /// The number of the part.
    pub(crate) part: u64,
    pub(crate) clean: bool,
    /// The node's value, where it is known.
    pub(crate) value: Option<&'r Val>,
}

/// The part at which a kid is a node, with the kid's value, where it is known.
#[derive(Clone, Copy)]
pub(crate) struct Spot<'r> {
    pub(crate) part: u64,
    pub(crate) value: Option<&'r Val>,
}

/// The value of a part of a struct; none of any other value.
fn part_of(value: Option<&Val>, number: u64) -> Option<&Val>
    ensures part { option_copied result ≡ slice_get (tuple_of (option_copied value.entry)) number }
{
    match value {
        Some(Val::Tuple(parts)) => parts.get(number),
        _ => None,
    }
}

/// An element of an array; none of any other value.
fn element_of(value: Option<&Val>, number: u64) -> Option<&Val>
    ensures element { option_copied result ≡ slice_get (array_of (option_copied value.entry)) number }
{
    match value {
        Some(Val::Array(elements)) => elements.get(number),
        _ => None,
    }
}

/// The part below another by the number of the step.
fn below(guide: &Guide, up: u64, number: u64) -> Option<u64>
    ensures below { result ≡ below_at guide.now.plan.parts up number }
{
    match guide.below.get(up as usize)?.get(number as usize) {
        Some(part) => *part,
        None => None,
    }
}

/// The kid by a step of this number, where a part stands below by that step.
fn spot_below<'r>(guide: &Guide, up: u64, number: u64, value: Option<&'r Val>) -> Option<Spot<'r>>
    ensures spot { option_map spot_seen result ≡ option_map (λ part. (part, option_copied value.entry)) (below_at guide.now.plan.parts up number) }
{
    let part = below(guide, up, number)?;
    Some(Spot { part, value })
}

/// The branch that a value names, as kid number 0.
fn chosen(value: Option<&Val>, kid: u64) -> Option<(u16, &Val)>
    ensures chosen { option_map chosen_seen result ≡ chosen_of (branch_of (option_copied value.entry)) kid }
{
    match value {
        Some(Val::Branch(number, inner)) if kid == 0 => Some((*number, inner.get())),
        _ => None,
    }
}

/// Kid number `kid` of a node of part `up`, where it is a node of a part.
fn kid_spot<'r>(guide: &Guide, up: u64, value: Option<&'r Val>, kid: u64) -> Option<Spot<'r>>
    ensures spot { option_map spot_seen result ≡ spot_of guide.now.plan.parts up (kid_of (form_at guide.now.plan.parts up) (option_copied value.entry) kid) }
{
    match &guide.plan.parts.get(up)?.form {
        PartForm::Record if kid == 0 => spot_below(guide, up, 0, value),
        PartForm::Fields => spot_below(guide, up, kid, part_of(value, kid)),
        PartForm::Branch(_) => {
            let (number, inner) = chosen(value, kid)?;
            spot_below(guide, up, u64::from(number), Some(inner))
        }
        PartForm::Elements => spot_below(guide, up, 0, element_of(value, kid)),
        _ => None,
    }
}

fn is_clean(pd: &Pd) -> bool
    ensures clean { result ≡ is_ok_class (out-Pd pd.now).class }
{
    pd.class == Class::Ok
}

/// Lists a node of part `part`, and the nodes below it that belong to a part.
#[cycle(place)]
pub(crate) fn place<'r>(
    guide: &Guide,
    found: &mut Vec<Found<'r>>,
    pd: &'r Pd,
    part: u64,
    value: Option<&'r Val>,
) -> Result<(), Memory>
    ensures placed { OnOk result (map found_seen found.new.items ≡ map found_seen found.old.items ++ placed guide.now.plan.parts pd.now part (option_copied value.entry)) }
{
    let clean = is_clean(pd);
    found.push(Found { part, clean, value })?;
    place_kids(guide, found, pd.kids.as_slice(), part, value)
}

/// Lists the nodes at these kids of a node and below them that belong to a part.
#[cycle(place)]
fn place_kids<'r>(
    guide: &Guide,
    found: &mut Vec<Found<'r>>,
    kids: &'r [Pd],
    part: u64,
    value: Option<&'r Val>,
) -> Result<(), Memory>
    ensures placed { OnOk result (map found_seen found.new.items ≡ map found_seen found.old.items ++ kids_below guide.now.plan.parts part (option_copied value.entry) 0 kids.now) }
{
    'kids: for i in 0..kids.len() {
        if let Some(spot) = kid_spot(guide, part, value, i as u64) {
            place(guide, found, &kids[i], spot.part, spot.value)?;
        }
    }
    Ok(())
}
