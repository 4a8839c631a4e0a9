//! The sort of a path's nodes.

ghost use Rattle.std.specs.Prelude.{◌≡◌};
ghost use Rattle.pads_question.specs.Filters as filters;

use pads_declared::{TypeTable, element, member};
use pads_rules::ExprSort;
use pads_syntax_path::{Path, PathStep};

/// The sort of a record type, by its declaration's number.
fn record_sort(env: &TypeTable, record_type: u16) -> ExprSort
    ensures sort { result ≡ filters.record_sort env.now record_type }
{
    match env.get(u64::from(record_type)) {
        Some(declared) => declared.sort,
        None => ExprSort::Unknown,
    }
}

/// The sort that a step of a path gives.
fn step_sort(env: &TypeTable, sort: ExprSort, step: &PathStep) -> ExprSort
    ensures sort { result ≡ filters.step_sort env.now sort step.now }
{
    match step {
        PathStep::Name(text) => match member(env, sort, text.as_slice()) {
            Some(sort) => sort,
            None => ExprSort::Unknown,
        },
        PathStep::Index(_) | PathStep::Each => element(env, sort),
    }
}

/// The sort of the nodes of a path below a record type, by its declaration's number; nothing is known of it where the
/// path names no part.
#[tactic(auto, unfolding(crate::specs::Filters::node_sort))]
pub fn node_sort(env: &TypeTable, record_type: u16, path: &Path) -> ExprSort
    ensures sort { result ≡ filters.node_sort env.now record_type path.now.steps }
{
    let mut sort = record_sort(env, record_type);
    'steps: for step in path.steps.as_slice() {
        sort = step_sort(env, sort, step);
    }
    sort
}
