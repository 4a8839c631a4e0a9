ghost use Rattle.std.specs.Prelude.{◌≡◌, is_some};
ghost use Rattle.pads_rules.specs.PieceRules as rules;
ghost use Rattle.pads_rules.specs.Pieces as pieces;
ghost use Rattle.pads_rules.specs.Resolving.{declared_as};
ghost use Rattle.pads_declared.specs.Meanings.{meant};
ghost use Rattle.pads_piece_rules.specs.Told.{stands};

use pads_ast::{Decl, Type};
use pads_declared::{Meaning, Sight, TypeTable, meaning_of};

/// A declaration where it stands.
#[derive(Clone, Copy)]
pub struct Site<'a> {
    /// The declarations of the whole description.
    pub decls: &'a [Decl],
    /// Its declared types.
    pub env: &'a TypeTable,
    /// The declaration's number, from 0.
    pub number: usize,
    pub decl: &'a Decl,
}

/// The declared types, as the declaration sees them.
pub fn sight<'a>(site: &Site<'a>) -> Sight<'a>
    ensures types { result ≡ pieces.sight (stands site.now) }
{
    site.env.seen_from(site.number)
}

/// What a type's name means where it stands.
pub(crate) fn meaning_at<'a>(site: &Site<'a>, of: &Type) -> Meaning<'a>
    ensures meaning { meant result ≡ rules.meaning_at (stands site.now) of.now }
{
    meaning_of(&sight(site), of.name.text.as_slice())
}

/// Whether a type's name is that of a declaration, wherever it stands.
pub(crate) fn is_declared(site: &Site<'_>, of: &Type) -> bool
    ensures declared { result ≡ is_some (declared_as site.now.env.now of.now.name.text) }
{
    site.env.declares(of.name.text.as_slice())
}
