//! What base types and meanings take.

ghost use Rattle.std.specs.Prelude.{◌≡◌, slice_get};
ghost use Rattle.pads_rules.specs.PieceRules as rules;
ghost use Rattle.pads_ast.specs.Trees as trees;
ghost use Rattle.pads_declared.specs.Meanings.{meant};
ghost use Rattle.pads_piece_rules.specs.Told.{stands};

use crate::Site;
use crate::site::sight;
use pads_ast::{Arg, Type};
use pads_base_names::{BaseName, NamedCoding, Takes};
use pads_declared::{Meaning, plain_meaning};
use pads_rules::{ExprSort, Form};

/// The arguments of a type.
pub(crate) fn args_of(of: &Type) -> &[Arg]
    ensures items { result.now ≡ trees.args_of of.now }
{
    match &of.args {
        Some(args) => args.as_slice(),
        None => &[],
    }
}

pub(crate) fn is_undeclared(meaning: Meaning<'_>) -> bool
    ensures undeclared { result ≡ rules.is_undeclared (meant meaning.entry) }
{
    match meaning {
        Meaning::Undeclared => true,
        Meaning::Base(_) | Meaning::Known(_) => false,
    }
}

/// Whether a base type takes so many arguments.
fn takes_so_many(takes: Takes, count: usize) -> bool
    ensures count { result ≡ rules.takes_so_many takes count }
{
    match takes {
        Takes::Nothing => count == 0,
        Takes::Number | Takes::Text | Takes::TextOrEnd => count == 1,
        Takes::NumberOrNothing => count == 0 || count == 1,
    }
}

/// Whether so many arguments are the type's.
pub(crate) fn is_count_of(meaning: Meaning<'_>, count: usize) -> bool
    ensures count { result ≡ rules.is_count_of (meant meaning.entry) count }
{
    match meaning {
        Meaning::Base(base) => takes_so_many(base.takes(), count),
        Meaning::Known(declared) => count as u64 == declared.params.len(),
        Meaning::Undeclared => true,
    }
}

/// The sort of a base type's parameter.
fn base_param(takes: Takes, number: usize) -> Option<ExprSort>
    ensures sort { result ≡ slice_get (rules.base_params takes) number }
{
    if number != 0 {
        return None;
    }
    match takes {
        Takes::Nothing => None,
        Takes::Number | Takes::NumberOrNothing => Some(ExprSort::plain(Form::Num)),
        Takes::Text | Takes::TextOrEnd => Some(ExprSort::plain(Form::Text)),
    }
}

/// The sort of a type's parameter.
pub(crate) fn param_sort(meaning: Meaning<'_>, number: usize) -> Option<ExprSort>
    ensures sort { result ≡ slice_get (rules.params_in (meant meaning.entry)) number }
{
    match meaning {
        Meaning::Base(base) => base_param(base.takes(), number),
        Meaning::Known(declared) => declared.params.get(number as u64).copied(),
        Meaning::Undeclared => None,
    }
}

/// Whether a type takes `Peor`.
pub(crate) fn takes_end(meaning: Meaning<'_>) -> bool
    ensures end { result ≡ rules.takes_end (meant meaning.entry) }
{
    match meaning {
        Meaning::Base(base) => matches!(base.takes(), Takes::TextOrEnd),
        Meaning::Known(_) | Meaning::Undeclared => false,
    }
}

pub(crate) fn agrees_with(param: Option<ExprSort>, sort: ExprSort) -> bool
    ensures agree { result ≡ rules.agrees_with param sort }
{
    match param {
        Some(param) => param.agrees(sort),
        None => true,
    }
}

/// Whether a computed field may have this type.
fn is_computable_base(base: BaseName) -> bool
    ensures computable { result ≡ rules.is_computable_base base }
{
    matches!(
        base,
        BaseName::Int(NamedCoding::Ambient, _) | BaseName::Until(NamedCoding::Ambient)
    )
}

/// Whether a parameter may have this type.
fn is_param_base(base: BaseName) -> bool
    ensures param { result ≡ rules.is_param_base base }
{
    match base {
        BaseName::Char(NamedCoding::Ambient) => true,
        other => is_computable_base(other),
    }
}

/// Whether a type is one that a computed field may have, with nothing around it.
pub(crate) fn is_computable(site: &Site<'_>, of: &Type) -> bool
    ensures computable { result ≡ rules.is_bare rules.is_computable_base (stands site.now) of.now }
{
    match plain_meaning(&sight(site), of) {
        Meaning::Base(base) => is_computable_base(base) && args_of(of).is_empty(),
        Meaning::Known(_) | Meaning::Undeclared => false,
    }
}

/// Whether a type is one that a parameter may have, with nothing around it.
pub(crate) fn is_param(site: &Site<'_>, of: &Type) -> bool
    ensures param { result ≡ rules.is_bare rules.is_param_base (stands site.now) of.now }
{
    match plain_meaning(&sight(site), of) {
        Meaning::Base(base) => is_param_base(base) && args_of(of).is_empty(),
        Meaning::Known(_) | Meaning::Undeclared => false,
    }
}
