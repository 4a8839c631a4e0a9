//! The rules at a declaration, its pieces included, but for the rule that counts.

ghost use Rattle.std.specs.Prelude.{◌≡◌, ◌<◌, IfOk, length};
ghost use Rattle.pads_rules.specs.DeclRules as rules;
ghost use Rattle.pads_piece_rules.specs.Told.{stands};
ghost use Rattle.pads_violations.specs.AtDeclaration as joined;

use crate::bodies::all_pieces;
use crate::declaration_rules::{
    marked_with_params, misplaced_precursive, misplaced_source, name_taken, other_name,
};
use crate::given_names::all_names;
use crate::repeats::{names_again, options_again, spellings_again};
use pads_ast::{ArrayOption, DeclBody, Label};
use pads_piece_rules::Site;
use pads_rules::{CheckFault, lesser};
use pads_value::Memory;
use std::alloc::Global;

fn options_of(body: &DeclBody) -> &[ArrayOption]
    ensures items { result.now ≡ rules.options_of body.now }
{
    match body {
        DeclBody::Array(d) => d.options.as_slice(),
        _ => &[],
    }
}

fn labels_of(body: &DeclBody) -> &[Label]
    ensures items { result.now ≡ rules.labels_of body.now }
{
    match body {
        DeclBody::Enum(d) => d.labels.as_slice(),
        _ => &[],
    }
}

/// A name or an array option that comes again.
fn name_again(alloc: Global, site: &Site<'_>) -> Result<Option<CheckFault>, Memory>
    ensures told { IfOk result (λ fault. fault ≡ joined.name_again_told (stands site.now)) }
{
    let names = all_names(alloc, &site.decl.body)?;
    let name = names_again(alloc, names.as_slice())?;
    let option = options_again(options_of(&site.decl.body));
    Ok(lesser(name, option))
}

/// An enum spelling that comes again.
fn spelling_again(alloc: Global, site: &Site<'_>) -> Result<Option<CheckFault>, Memory>
    ensures told { IfOk result (λ fault. fault ≡ joined.spelling_again_told (stands site.now)) }
{
    spellings_again(alloc, labels_of(&site.decl.body))
}

/// The rules on the names and spellings that a declaration gives.
fn named(alloc: Global, site: &Site<'_>) -> Result<Option<CheckFault>, Memory>
    ensures told { IfOk result (λ fault. fault ≡ joined.named_told (stands site.now)) }
{
    let again = name_again(alloc, site)?;
    let names = lesser(name_taken(site), again);
    let others = lesser(names, other_name(site));
    Ok(lesser(others, spelling_again(alloc, site)?))
}

/// The rules on a declaration as a whole.
fn decl_rules(alloc: Global, site: &Site<'_>) -> Result<Option<CheckFault>, Memory>
    requires number { site.now.number < length site.now.decls.now }
    ensures told { IfOk result (λ fault. fault ≡ joined.decl_told (stands site.now)) }
{
    let names = named(alloc, site)?;
    let marks = lesser(names, marked_with_params(site));
    let sources = lesser(marks, misplaced_source(site));
    Ok(lesser(sources, misplaced_precursive(site)))
}

/// The least violation at a declaration of all rules but that on counts.
pub(crate) fn all_but_counts(alloc: Global, site: &Site<'_>) -> Result<Option<CheckFault>, Memory>
    requires number { site.now.number < length site.now.decls.now }
    ensures told { IfOk result (λ fault. fault ≡ joined.site_told (stands site.now)) }
{
    let rules = decl_rules(alloc, site)?;
    let pieces = all_pieces(alloc, site)?;
    Ok(lesser(rules, pieces))
}
