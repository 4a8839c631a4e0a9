//! Base types: one reading and one spelling for all of them.
#![tactic(auto)]

mod applied;
mod base;
mod kinds;
mod laws;
mod read;
mod spell;
#[cfg(test)]
mod tests;

pub use base::{Arg, Args, Base, copy_args, labels_fit, same_args};
pub use laws::bases_read_what_they_spell;
pub use read::read_base;
pub use spell::spell_base;
