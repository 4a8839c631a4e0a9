//! The first violation of a description: the check of its tree against every rule, in one pass over the
//! declarations.
//!
//! [`first_violation`] is in `description`. At each declaration it asks `declaration`, which joins the rules on the
//! declaration as a whole (`declaration_rules`, and `repeats` for what may come once alone) with those on its pieces: `bodies`
//! goes through them with the names in scope at each, and `pads_piece_rules` has their rules. The rules that count are in
//! `pads_counts`.
#![tactic(auto)]

mod bodies;
mod declaration;
mod declaration_rules;
mod description;
mod given_names;
mod repeats;
mod single_pieces;
mod struct_parts;

pub use description::first_violation;
