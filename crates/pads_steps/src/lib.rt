//! The steps that every reader is made of, each by its rule of the calculus.
#![tactic(auto)]

mod args;
mod choice;
mod guard;
mod leaf;
mod record;
mod row;
mod run;
mod search;
mod size;

pub use args::{
    argument_in, arguments, arguments_in, arguments_lent, bound, is_true_in, is_true_of,
};
pub use choice::{Keyed, chosen, chosen_in};
pub use guard::{guarded, guarded_in};
pub use record::Record;
pub use row::{row_over, row_without};
pub use run::{Run, is_last_of};
pub use size::{is_full, short_of, size_at, size_in};
