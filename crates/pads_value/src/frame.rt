ghost use Rattle.std.specs.Prelude.{◌≡◌, ◌-◌, ◌≤◌, ◌^◌, length, IfOk};
ghost use Rattle.pads_value.specs.Marks.{bytes_of};

use crate::{Bytes, Items, Memory};
use std::alloc::Global;

/// What is known of a frame when it is cut.
#[derive(Clone, Copy, Debug, PartialEq, Eq)]
pub enum Mark {
    /// An ordinary record.
    Plain,
    /// A last block of fewer bytes than the fixed length.
    Short,
    /// A record longer than the limit. Its bytes aren't kept.
    Long,
    /// A record without a good length word. Its bytes aren't kept.
    Broken,
}

/// One record's bytes, as the framer lends them. Offsets are in bytes of the whole input.
#[derive(Clone, Copy, Debug)]
pub struct Frame<'a> {
    pub first: u64,
    pub end: u64,
    pub bytes: &'a [u8],
    pub mark: Mark,
    pub ghost ordered: { first ≤ end },
    pub ghost bounded: { end ≤ 2 ^ 62 },
    pub ghost extent: { length bytes.now ≡ bytes_of mark (end - first) },
}

/// Frames that were kept, in their order.
pub type Frames = Items<Kept>;

/// A frame with bytes of its own, which outlives the framer's buffer.
#[derive(Debug, Drop)]
pub struct Kept {
    pub first: u64,
    pub end: u64,
    pub bytes: Bytes,
    pub mark: Mark,
    pub ghost ordered: { first ≤ end },
    pub ghost bounded: { end ≤ 2 ^ 62 },
    pub ghost extent: { length bytes ≡ bytes_of mark (end - first) },
}

impl Frame<'_> {
    ghost use Rattle.pads_value.specs.Cuts.{cut_of_frame, cut_of_kept};

    /// The same frame with a copy of its bytes.
    pub fn keep(&self, alloc: Global) -> Result<Kept, Memory>
        ensures same { IfOk result (λ kept. cut_of_kept kept ≡ cut_of_frame self.now) }
    {
        let bytes = Items::from_slice(alloc, self.bytes)?;
        Ok(Kept {
            first: self.first,
            end: self.end,
            bytes,
            mark: self.mark,
        })
    }
}

impl Kept {
    ghost use Rattle.pads_value.specs.Cuts.{cut_of_frame, cut_of_kept};

    /// The same frame, whose bytes are lent from here.
    pub fn lend(&self) -> Frame<'_>
        ensures same { cut_of_frame result ≡ cut_of_kept self.now }
    {
        Frame {
            first: self.first,
            end: self.end,
            bytes: self.bytes.as_slice(),
            mark: self.mark,
        }
    }
}
