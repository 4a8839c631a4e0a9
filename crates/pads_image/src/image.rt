ghost use Rattle.std.specs.Prelude.{◌≡◌, ◌≤◌, true, IfOk};
ghost use Rattle.pads_calc.specs.Rows.{farthest};
ghost use Rattle.pads_image.specs.Heights.{stack_need as stack_need_of};
ghost use Rattle.pads_image.specs.Skeletons.{erasing_in};
ghost use Rattle.pads_image.specs.Validity.{is_valid};

use crate::keeping::erasing;
use crate::need::stack_need;
use crate::{Entries, Ops};
use pads_calc::Shape;
use pads_erase::Keepings;
use pads_value::Memory;
use std::alloc::Global;

/// A description as code: what reads a record, one instruction after another. Its code is that of
/// declarations by their layout, and no record needs more stack entries than `need`.
#[derive(Drop)]
pub struct Image {
    pub code: Ops,
    pub entries: Entries,
    pub shape: Shape,
    /// How many bytes a search in a record passes over at most.
    pub scan: u32,
    pub need: u64,
    /// What its declarations keep; none where each keeps the values of its own body.
    pub erasing: Option<Keepings>,
    pub ghost valid: { is_valid code entries shape ≡ true },
    pub ghost needed: { need ≡ stack_need_of code entries shape },
    pub ghost erases: { erasing ≡ erasing_in entries },
    pub ghost bounded: { scan ≤ farthest },
}

impl Image {
    /// The image of this code, in which a search passes over so many bytes at most. Finds what it needs.
    pub fn new(
        alloc: Global,
        code: Ops,
        entries: Entries,
        shape: Shape,
        scan: u32,
    ) -> Result<Image, Memory>
        requires valid { is_valid code entries shape ≡ true }
        requires scan { scan ≤ farthest }
        ensures code { IfOk result (λ image. image.code ≡ code) }
        ensures entries { IfOk result (λ image. image.entries ≡ entries) }
        ensures shape { IfOk result (λ image. image.shape ≡ shape) }
        ensures scan { IfOk result (λ image. image.scan ≡ scan) }
    {
        let need = stack_need(alloc, code.as_slice(), entries.as_slice(), &shape)?;
        let erasing = erasing(alloc, entries.as_slice())?;
        Ok(Image {
            code,
            entries,
            shape,
            scan,
            need,
            erasing,
        })
    }

    /// A number of stack entries that no record passes.
    pub fn stack_need(&self) -> u64
        ensures need { result ≡ self.now.need }
    {
        self.need
    }
}
