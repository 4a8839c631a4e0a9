ghost use Rattle.std.specs.Prelude.{◌≡◌};
ghost use Rattle.pads_calc.specs.Arrays.{turn_of};

use crate::Reading;
use pads_value::{Cause, Class};

/// Whether an array ends before the next element.
#[derive(Clone, Copy, Debug)]
pub enum Ending {
    GoesOn,
    /// It ends, with a cause of its own or without.
    Ends(Option<Cause>),
}

/// What comes of an element, and of the separator before it.
#[derive(Debug, Drop)]
pub enum Turn {
    /// The array ends with this cause. Neither the turn's bytes nor its element are kept.
    Undone(Cause),
    /// The array has this element.
    Kept(Reading),
}

impl Turn {
    /// What comes of an element that was read at `begin`, in a turn that began at `from`.
    pub fn of(is_first: bool, from: u64, begin: u64, element: Reading) -> Turn
        ensures turn { result ≡ turn_of is_first from begin element }
    {
        if element.pd.class == Class::Fail && element.place == begin {
            return Turn::Undone(Cause::ArrayElem);
        }
        if !is_first && element.place == from {
            return Turn::Undone(Cause::ArrayStall);
        }
        Turn::Kept(element)
    }
}
