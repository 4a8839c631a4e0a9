//! The grammar of what stands inside of declarations.
//!
//! Each rule of the grammar has a reader of its own, which decides by the kind of the next token and
//! never goes back. None of them calls itself: only expressions nest.
#![tactic(auto)]

mod array;
mod enumeration;
mod expressions;
mod literals;
mod marks;
mod structure;
mod typedef;
mod types;
mod unions;

pub use array::array_options;
pub use enumeration::labels;
pub use expressions::{expression, optional_expression};
pub use literals::constant;
pub use marks::with_mark;
pub use structure::{optional_condition, parts};
pub use typedef::optional_refinement;
pub use types::{branch, params, type_use};
pub use unions::branches;
