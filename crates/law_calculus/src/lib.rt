//! The laws of the calculus: nothing here runs.
//!
//! Descriptors are sound (`descriptor_laws`): at each node of one the count is 0 exactly where the class is `Ok`, it is the
//! number of nodes with a cause from there on down (2^64 - 1 where there are more), and the kids' spans lie in the node's span,
//! in order and without overlap.
//!
//! A well-sorted module evaluates no ill-sorted expression (`sort_laws`). A module is well-sorted where there is a sort, number or
//! text, for each parameter of each declaration, with which each expression in it has the sort that its use asks for. It is plain
//! where only literals and the record's end are absorbed, separators are absorbed, and no two labels of an enum have one
//! spelling. Declarations may call themselves and each other in any order.
//!
//! What is evaluated is all that readings depend on (`evaluation_laws`): where expressions are worth something else than the
//! calculus takes them to be, a reading stays the same if that concerns none that it evaluates.
//!
//! Readings that were worked out by hand are computed on the definitions (`computed_rows`).
#![tactic(auto)]

mod computed_rows;
mod descriptor_laws;
mod evaluation_laws;
mod sort_laws;

pub use computed_rows::{a_pair_reads_by_the_rules, unsorted_readings_need_ill_sorted_worths};
pub use descriptor_laws::{
    readings_have_sound_descriptors, rows_have_sound_descriptors,
    rows_of_frames_have_sound_descriptors,
};
pub use evaluation_laws::{only_these_are_evaluated, sorted_readings_need_nothing_ill_sorted};
pub use sort_laws::{
    modules_have_sorts, readings_have_their_sorts, sorted_expressions_keep_their_sorts,
    sorted_modules_evaluate_nothing_ill_sorted,
};
