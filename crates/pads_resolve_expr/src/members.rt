//! The sorts of fields and branches.

ghost use Rattle.std.specs.Prelude.{◌≡◌};
ghost use Rattle.pads_rules.specs.Members as members;
ghost use Rattle.pads_resolution.specs.Expressions as expressions;

use pads_declared::{TypeTable, member};
use pads_rules::{ExprSort, Form};

/// What `.name` gives of a sort; nothing is known where it has no such field or branch.
pub(crate) fn member_sort(env: &TypeTable, sort: ExprSort, name: &[u8]) -> ExprSort
    ensures sort { result ≡ expressions.sort_or_unknown (members.member env.now sort name.now) }
{
    match member(env, sort, name) {
        Some(sort) => sort,
        None => ExprSort::Unknown,
    }
}

/// Whether a sort is a struct's, without `Popt` around it.
pub(crate) fn is_struct(sort: ExprSort) -> bool
    ensures structure { result ≡ expressions.is_struct sort }
{
    match sort {
        ExprSort::Known(sort) => sort.optional == 0 && matches!(sort.form, Form::Struct(_)),
        _ => false,
    }
}
