//! Declarations where they stand.

ghost use Rattle.std.specs.Prelude.{◌≡◌};
ghost use Rattle.pads_resolve.specs.Borrowed.{stands};
ghost use Rattle.pads_rules.specs.Pieces as pieces;

use pads_ast::Decl;
use pads_declared::{Sight, TypeTable};
use pads_resolve_expr::PartTable;

/// A declaration where it stands.
#[derive(Clone, Copy)]
pub struct ResolvingSite<'a> {
    /// The declarations of the whole description.
    pub decls: &'a PartTable<'a>,
    /// Its declared types.
    pub env: &'a TypeTable,
    /// The declaration's number, from 0.
    pub number: usize,
    pub decl: &'a Decl,
}

/// What the type names of a declaration see.
pub fn seen_types<'a>(site: &ResolvingSite<'a>) -> Sight<'a>
    ensures types { result ≡ pieces.sight (stands site.now) }
{
    site.env.seen_from(site.number)
}
