//! What type names mean.

ghost use Rattle.std.specs.Prelude.{◌≡◌};
ghost use Rattle.pads_rules.specs.Resolving as resolving;
ghost use Rattle.pads_rules.specs.Sorts as sorts;
ghost use Rattle.pads_rules.specs.Texts as texts;
ghost use Rattle.pads_declared.specs.Meanings.{meant};

use crate::Sight;
use pads_ast::Type;
use pads_base_names::{BaseName, base_name};
use pads_rules::{Declared, ExprSort, Form};

/// What a type name means where it stands.
#[derive(Clone, Copy)]
pub enum Meaning<'a> {
    Base(BaseName),
    /// A declared type that may be named there.
    Known(&'a Declared),
    /// It is neither a base type's name nor that of a declaration that may be named there.
    Undeclared,
}

/// Whether two texts are the same.
#[tactic(auto, unfolding(pads_rules::specs::Texts::same_text))]
pub fn same_text(first: &[u8], second: &[u8]) -> bool
    ensures same { result ≡ texts.same_text first.now second.now }
{
    first == second
}

/// What a name means.
#[tactic(auto, unfolding(pads_rules::specs::Resolving::meaning))]
pub fn meaning_of<'a>(sight: &Sight<'a>, name: &[u8]) -> Meaning<'a>
    ensures meaning { meant result ≡ resolving.meaning sight.now name.now }
{
    if let Some(base) = base_name(name) {
        return Meaning::Base(base);
    }
    match sight.named_type(name) {
        Some(declared) => Meaning::Known(declared),
        None => Meaning::Undeclared,
    }
}

/// The sort of a base type's values.
pub fn base_sort(base: BaseName) -> ExprSort
    ensures sort { result ≡ sorts.base_sort base }
{
    match base {
        BaseName::Until(_) | BaseName::Fixed(_) | BaseName::Class(_) | BaseName::Char(_) => {
            ExprSort::plain(Form::Text)
        }
        BaseName::Int(_, _)
        | BaseName::IntFw(_, _)
        | BaseName::Bin(_)
        | BaseName::SizedBin(_, _)
        | BaseName::Ip(_)
        | BaseName::Packed(_)
        | BaseName::Zoned(_) => ExprSort::plain(Form::Num),
    }
}

/// The sort that a meaning has.
pub fn meaning_sort(meaning: Meaning<'_>) -> ExprSort
    ensures sort { result ≡ resolving.meaning_sort (meant meaning.entry) }
{
    match meaning {
        Meaning::Base(base) => base_sort(base),
        Meaning::Known(declared) => declared.sort,
        Meaning::Undeclared => ExprSort::Unknown,
    }
}

/// The sort of a type.
pub fn type_sort(sight: &Sight<'_>, of: &Type) -> ExprSort
    ensures sort { result ≡ resolving.type_sort sight.now of.now }
{
    let sort = meaning_sort(meaning_of(sight, of.name.text.as_slice()));
    match of.optional {
        Some(_) => sort.optional(),
        None => sort,
    }
}

/// The meaning of a type's name where the type isn't behind `Popt`.
pub fn plain_meaning<'a>(sight: &Sight<'a>, of: &Type) -> Meaning<'a>
    ensures meaning { meant result ≡ resolving.plain_meaning sight.now of.now }
{
    match of.optional {
        Some(_) => Meaning::Undeclared,
        None => meaning_of(sight, of.name.text.as_slice()),
    }
}
