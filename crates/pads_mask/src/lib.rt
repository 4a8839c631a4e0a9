//! Masking: the module in which some declarations aren't checked or keep no values of their own.
#![tactic(auto)]

mod laws;
mod masking;
mod unguarded;

pub use laws::{a_mask_of_both_changes_nothing, masked_modules_are_sound};
pub use masking::{MaskFault, mask_module};
