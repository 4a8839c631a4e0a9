//! Modes, and what they leave of a value.
//!
//! A mode says what of a declaration is checked and what is kept; a mask says which declarations have which mode.
//! Erasing is what is left of a value where some declarations keep no values of their own; skeletons say where those
//! values stand.
#![tactic(auto)]

mod erasing;
mod laws;
mod mask;
mod mode;
mod skeleton;

pub use erasing::erase;
pub use laws::where_all_is_kept_nothing_is_erased;
pub use mask::{Mask, NamedMode, NamedModes};
pub use mode::Mode;
pub use skeleton::{Keeping, Keepings, Skeleton, Skeletons};
