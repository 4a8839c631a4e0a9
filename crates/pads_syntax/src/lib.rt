//! The syntax trees of token lists.
//!
//! [`parse`] gives the tree of a description and [`parse_expr`] that of a filter. The grammar decides by
//! the kind of one token at each place, so that a list of tokens has at most one tree, and where it has
//! none, there is a first token at which no tree goes on.
//!
//! Each rule of the grammar has a reader of its own, which never goes back: those of declarations are here, a file for each
//! kind of declaration, and those of what stands in them in `pads_syntax_parts`.
#![tactic(auto)]

mod array;
mod declaration;
mod enumeration;
mod fault;
mod laws;
mod reading;
mod structure;
mod typedef;
mod unions;
mod whole;

pub use fault::SyntaxFault;
pub use laws::{
    no_tokens_derive_a_tree_and_fault, tokens_derive_a_tree_or_fault, tokens_derive_one_tree,
    tokens_fault_at_one_place,
};
pub use reading::{parse, parse_expr};
