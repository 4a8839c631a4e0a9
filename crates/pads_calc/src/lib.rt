//! The calculus of data descriptions: its terms, and what they mean.
#![tactic(auto)]

mod decl;
mod reading;
mod term;
mod turn;

pub use decl::{DEEPEST, Decl, Decls, FARTHEST, NameIds, Shape};
pub use pads_dispatch::{Arg, Args, Base};
pub use reading::Reading;
pub use term::{Arm, Arms, Case, Cases, ComputedForm, Exprs, Key, Part, Parts, Seq, Term};
pub use turn::{Ending, Turn};
