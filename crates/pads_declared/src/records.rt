//! Record types and record lists.

ghost use Rattle.std.specs.Prelude.{◌≡◌};
ghost use Rattle.pads_rules.specs.Resolving as resolving;
ghost use Rattle.pads_ast.specs.Trees as trees;
ghost use Rattle.pads_declared.specs.Meanings.{meant, is_bare_array};

use crate::Sight;
use crate::trees::written;
use crate::types::{Meaning, plain_meaning};
use pads_ast::{Array, Decl, DeclBody, DeclMark};

/// Whether a declaration is marked `Precord`.
pub fn is_precord(mark: Option<DeclMark>) -> bool
    ensures marked { result ≡ trees.is_precord mark }
{
    match mark {
        Some(DeclMark::Precord) => true,
        Some(DeclMark::Psource | DeclMark::Precursive) | None => false,
    }
}

/// Whether a declaration is marked `Psource`.
pub fn is_psource(mark: Option<DeclMark>) -> bool
    ensures marked { result ≡ trees.is_psource mark }
{
    match mark {
        Some(DeclMark::Psource) => true,
        Some(DeclMark::Precord | DeclMark::Precursive) | None => false,
    }
}

/// Whether a declaration is marked `Precursive`.
pub fn is_precursive(mark: Option<DeclMark>) -> bool
    ensures marked { result ≡ trees.is_precursive mark }
{
    match mark {
        Some(DeclMark::Precursive) => true,
        Some(DeclMark::Precord | DeclMark::Psource) | None => false,
    }
}

/// Whether a name means a type marked `Precord`.
pub fn is_precord_type(meaning: Meaning<'_>) -> bool
    ensures record { result ≡ resolving.is_precord_type (meant meaning.entry) }
{
    match meaning {
        Meaning::Known(declared) => is_precord(declared.mark),
        Meaning::Base(_) | Meaning::Undeclared => false,
    }
}

/// Whether a name means a record list.
pub fn is_record_list_type(meaning: Meaning<'_>) -> bool
    ensures list { result ≡ resolving.is_record_list_type (meant meaning.entry) }
{
    match meaning {
        Meaning::Known(declared) => declared.record_list,
        Meaning::Base(_) | Meaning::Undeclared => false,
    }
}

/// Whether an array has nothing written to it but its type.
fn is_bare(array: &Array) -> bool
    ensures bare { result ≡ is_bare_array array.now }
{
    written(&array.params).is_empty()
        && array.size.is_none()
        && array.options.is_empty()
        && array.condition.is_none()
}

/// Whether a declaration declares a record list.
pub fn is_record_list(sight: &Sight<'_>, decl: &Decl) -> bool
    ensures list { result ≡ resolving.is_record_list sight.now decl.now }
{
    match &decl.body {
        DeclBody::Array(array) => {
            let bare = is_bare(array);
            let records = is_precord_type(plain_meaning(sight, &array.of));
            let other = is_precord(decl.mark) || is_precursive(decl.mark);
            !other && bare && records
        }
        _ => false,
    }
}
