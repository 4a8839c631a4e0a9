ghost use Rattle.std.specs.Prelude.{◌↔◌, IsTrue};
ghost use Rattle.pads_frame.specs.Fits.{FitsLimit};

use pads_value::Mark;

/// How an input is cut into records.
#[derive(Clone, Copy, Debug, PartialEq, Eq)]
pub enum Discipline {
    /// Runs of bytes, each closed by this terminator byte. The last run may lack it.
    Term(u8),
    /// Blocks of so many bytes. The last one may be short.
    Fixed(u32),
    /// Records behind a record descriptor word: two bytes of length, the higher first, which counts
    /// the word too, and then two zero bytes.
    Rdw,
    /// The whole input is one record.
    Whole,
}

impl Discipline {
    /// Whether a framer may have this discipline, where a frame has at most `max` bytes: blocks have
    /// a byte at least and `max` at most.
    pub fn fits(self, max: u64) -> bool
        ensures fits { IsTrue result ↔ FitsLimit self max }
    {
        match self {
            Discipline::Fixed(block) => block > 0 && u64::from(block) <= max,
            Discipline::Term(_) | Discipline::Rdw | Discipline::Whole => true,
        }
    }
}

/// How the first frame of a run of bytes lies in it.
#[derive(Clone, Copy, Debug, PartialEq, Eq)]
pub struct Extent {
    /// The bytes before the frame that belong to it: its descriptor word.
    pub lead: u64,
    /// The frame's own bytes.
    pub len: u64,
    /// The bytes of the terminator after it.
    pub terminator: u64,
    pub mark: Mark,
    /// Whether bytes that stand there close the frame, and not only the end of the input.
    pub closed: bool,
}
