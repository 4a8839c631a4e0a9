ghost use Rattle.std.specs.Prelude.{◌≡◌, ◌+◌, ◌≤◌, ◌<◌, ◌^◌, ◌∷◌, [], true, drop, length, option_map, IfNone, IfSome};
ghost use Rattle.pads_value.specs.Cuts.{cut_of_frame};
ghost use Rattle.pads_value.specs.Marks.{bytes_of};
ghost use Rattle.pads_frame.specs.Cutting.{cuts, records};
ghost use Rattle.pads_frame.specs.Fits.{FitsLimit};
ghost use Rattle.pads_frame.specs.OnlyFrame.{only};
ghost use Rattle.pads_frame.specs.Placed.{cut_at};

use crate::cutter::carried;
use crate::discipline::{Discipline, Extent};
use crate::look::{Look, look_at};
use pads_value::Frame;

/// The first frame of bytes that are there as a whole.
#[derive(Clone, Copy, Debug)]
pub struct FirstFrame<'a> {
    /// The frame, whose bytes are lent from these.
    pub frame: Frame<'a>,
    /// How many bytes it takes up, with its descriptor word and its terminator.
    pub size: usize,
}

/// The frame that lies at the front of bytes as the extent says; the first of them has offset `at`.
fn front_frame(at: u64, bytes: &[u8], found: Extent) -> Frame<'_>
    requires within { found.lead + bytes_of found.mark found.len ≤ length bytes.now }
    requires bounded { at + found.lead + found.len ≤ 2 ^ 62 }
    ensures { cut_of_frame result ≡ cut_at at bytes.now found }
{
    let from = found.lead as usize;
    let to = from + carried(found.mark, found.len) as usize;
    Frame {
        first: at + found.lead,
        end: at + found.lead + found.len,
        bytes: &bytes[from..to],
        mark: found.mark,
    }
}

/// The first frame of the last bytes of an input, from offset `at` to its end; `None` exactly where there are
/// no bytes.
pub fn first_frame(
    discipline: Discipline,
    max: u64,
    at: u64,
    bytes: &[u8],
) -> Option<FirstFrame<'_>>
    requires limit { max ≤ 16777216 }
    requires fits_limit { FitsLimit discipline max }
    requires within { at + length bytes.now ≤ 2 ^ 62 }
    ensures first { IfSome result (λ first. cuts discipline max true at 0 bytes.now ≡ cut_of_frame first.frame ∷ cuts discipline max true (at + first.size) 0 (drop first.size bytes.now)) }
    ensures takes { IfSome result (λ first. (0 < first.size) × (first.size ≤ length bytes.now)) }
    ensures none { IfNone result (bytes.now ≡ []) }
{
    match look_at(discipline, max, 0, bytes, 0, true) {
        Look::Found(found) => Some(FirstFrame {
            frame: front_frame(at, bytes, found),
            size: (found.lead + found.len + found.terminator) as usize,
        }),
        Look::Pass | Look::Wait => None,
    }
}

/// The frame, where these bytes as a whole input are cut into exactly one record, and else `None`: at
/// no bytes, and where a second record begins. Its bytes are lent from these. A record of more than
/// `max` bytes is one frame, marked as too long.
pub fn only_frame(discipline: Discipline, max: u64, bytes: &[u8]) -> Option<Frame<'_>>
    requires limit { max ≤ 16777216 }
    requires fits_limit { FitsLimit discipline max }
    requires within { length bytes.now ≤ 2 ^ 62 }
    ensures frame { option_map cut_of_frame result ≡ only (records discipline max bytes.now) }
{
    let first = first_frame(discipline, max, 0, bytes)?;
    if first.size < bytes.len() {
        return None;
    }
    Some(first.frame)
}
