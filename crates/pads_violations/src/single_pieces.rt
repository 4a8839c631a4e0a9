//! Pieces that stand alone or not at all.

ghost use Rattle.std.specs.Prelude.{◌≡◌};
ghost use Rattle.pads_judge.specs.Scopes.{names_in_scope};
ghost use Rattle.pads_rules.specs.Pieces as pieces;
ghost use Rattle.pads_piece_rules.specs.Told.{stands};
ghost use Rattle.pads_violations.specs.InBodies.{pieces_told, literal_told, label_told};

use pads_ast::{ArrayOption, Expr, Label, Literal};
use pads_judge::Scope;
use pads_piece_rules::{Site, condition, size, spelled};
use pads_rules::CheckFault;

/// A literal, which may be none that is spelled.
pub(crate) fn literal(literal: &Literal) -> Option<CheckFault>
    ensures told { result ≡ literal_told literal.now }
{
    match literal {
        Literal::Word(word) => spelled(word),
        Literal::Peor { .. } => None,
    }
}

/// The spelling of a label, where it has one.
pub(crate) fn label(label: &Label) -> Option<CheckFault>
    ensures told { result ≡ label_told label.now }
{
    match &label.spelling {
        Some(word) => spelled(word),
        None => None,
    }
}

#[tactic(auto, using(crate::proofs::WalkLemmas::walk_rules))]
pub(crate) fn conditions(
    site: &Site<'_>,
    scope: &Scope<'_, '_>,
    e: &Option<Expr>,
) -> Option<CheckFault>
    ensures told { result ≡ pieces_told (stands site.now) (pieces.conditions (names_in_scope scope.now) e.now) }
{
    match e {
        Some(e) => condition(site, scope, e),
        None => None,
    }
}

#[tactic(auto, using(crate::proofs::WalkLemmas::walk_rules))]
pub(crate) fn sizes(site: &Site<'_>, scope: &Scope<'_, '_>, e: &Option<Expr>) -> Option<CheckFault>
    ensures told { result ≡ pieces_told (stands site.now) (pieces.sizes (names_in_scope scope.now) e.now) }
{
    match e {
        Some(e) => size(site, scope, e),
        None => None,
    }
}

#[tactic(auto, using(crate::proofs::WalkLemmas::walk_rules))]
pub(crate) fn array_option(
    site: &Site<'_>,
    scope: &Scope<'_, '_>,
    option: &ArrayOption,
) -> Option<CheckFault>
    ensures told { result ≡ pieces_told (stands site.now) (pieces.option_pieces (names_in_scope scope.now) option.now) }
{
    match option {
        ArrayOption::Psep { separator, .. } => spelled(separator),
        ArrayOption::Pterm { terminator, .. } => literal(terminator),
        ArrayOption::Plast {
            condition: truth,
            ..
        } => condition(site, scope, truth),
    }
}
