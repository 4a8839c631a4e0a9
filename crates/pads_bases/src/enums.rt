ghost use Rattle.std.specs.Prelude.{◌≡◌, IfOk};

use pads_value::{Bytes, Items, Memory};
use std::alloc::Global;

/// A label of an enum: its name, and the text that spells it.
#[derive(Debug, Drop)]
pub struct Label {
    pub name: Bytes,
    pub spelling: Bytes,
}

/// The labels of an enum, numbered from 0.
pub type Labels = Items<Label>;

impl Label {
    /// A label equal to this one.
    pub fn copy(&self, alloc: Global) -> Result<Label, Memory>
        ensures equal { IfOk result (λ copied. copied ≡ self.now) }
    {
        let name = Items::from_slice(alloc, self.name.as_slice())?;
        let spelling = Items::from_slice(alloc, self.spelling.as_slice())?;
        Ok(Label { name, spelling })
    }
}

/// Labels equal to these.
pub fn copy_labels(alloc: Global, labels: &[Label]) -> Result<Labels, Memory>
    ensures equal { IfOk result (λ copied. copied ≡ labels.now) }
{
    let mut copied = Items::new(alloc);
    for label in labels {
        copied.push(label.copy(alloc)?)?;
    }
    Ok(copied)
}

/// A label by its number, and the size of its spelling.
#[derive(Clone, Copy)]
pub(crate) struct Choice {
    pub number: u16,
    pub size: u64,
}
