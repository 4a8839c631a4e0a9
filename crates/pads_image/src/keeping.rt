//! What the declarations of an image keep.
ghost use Rattle.std.specs.Prelude.{◌≡◌, map, IfOk};
ghost use Rattle.pads_calc.specs.Rows.{kept_by};
ghost use Rattle.pads_image.specs.Skeletons.{all_set, erasing_in, kept_in};

use crate::{Entry, Image};
use pads_calc::Reading;
use pads_erase::{Keeping, Keepings};
use pads_module::erased;
use pads_value::{Items, Memory};
use std::alloc::Global;

/// What a declaration keeps.
fn keeping(alloc: Global, entry: &Entry) -> Result<Keeping, Memory>
    ensures keeping { IfOk result (λ made. made ≡ record { set = entry.now.set; skeleton = entry.now.skeleton }) }
{
    Ok(Keeping {
        set: entry.set,
        skeleton: entry.skeleton.copy(alloc)?,
    })
}

/// What declarations keep, in their order.
fn keepings(alloc: Global, entries: &[Entry]) -> Result<Keepings, Memory>
    ensures keepings { IfOk result (λ made. made ≡ kept_in entries.now) }
{
    let mut made = Items::new(alloc);
    for entry in entries {
        made.push(keeping(alloc, entry)?)?;
    }
    Ok(made)
}

/// Whether each declaration keeps the values of its own body.
fn are_all_set(entries: &[Entry]) -> bool
    ensures all { result ≡ all_set entries.now }
{
    entries.iter().all(|entry| entry.set)
}

/// What is looked up where values are erased; none where all are kept.
pub(crate) fn erasing(alloc: Global, entries: &[Entry]) -> Result<Option<Keepings>, Memory>
    ensures erasing { IfOk result (λ made. made ≡ erasing_in entries.now) }
{
    if are_all_set(entries) {
        return Ok(None);
    }
    Ok(Some(keepings(alloc, entries)?))
}

impl Image {
    /// What is left of what a declaration reads as: the values of declarations that keep none of their own
    /// are missing.
    pub fn kept(&self, alloc: Global, number: u16, reading: Reading) -> Result<Reading, Memory>
        ensures kept { IfOk result (λ left. left ≡ kept_by (kept_in self.now.entries) number reading) }
    {
        match &self.erasing {
            None => Ok(reading),
            Some(keepings) => erased(alloc, keepings.as_slice(), number, reading),
        }
    }
}
