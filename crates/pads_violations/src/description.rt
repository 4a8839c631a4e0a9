//! The first violation of a description: the check of its tree against every rule, in one pass over the
//! declarations.

ghost use Rattle.std.specs.Prelude.{◌≡◌, ◌+◌, slice_get, Some, IfOk, OnOk};
ghost use Rattle.std.specs.List.{list_any};
ghost use Rattle.pads_rules.specs.Faults.{least};
ghost use Rattle.pads_ast.specs.Trees as trees;
ghost use Rattle.pads_rules.specs.Violations.{violations};
ghost use Rattle.pads_piece_rules.specs.Told.{stands};
ghost use Rattle.pads_violations.specs.InDescription.{site_told, decls_told, record_told, names_up_to};

use crate::declaration::all_but_counts;
use pads_ast::{Ast, Decl};
use pads_counts::{meet_decl, too_much};
use pads_declared::{NameSet, declared, is_precord};
use pads_piece_rules::Site;
use pads_rules::{CheckFault, Rule, fault_if, lesser};
use pads_value::Memory;
use std::alloc::Global;

/// The least violation at a declaration, its pieces included. `names` holds the names of the declarations before
/// it, and then its own too.
fn at_site(
    alloc: Global,
    site: &Site<'_>,
    names: &mut NameSet,
) -> Result<Option<CheckFault>, Memory>
    requires stands { slice_get site.now.decls.now site.now.number ≡ Some site.now.decl.now }
    requires names { names.old ≡ names_up_to site.now.decls.now site.now.number }
    ensures told { IfOk result (λ fault. fault ≡ site_told (stands site.now)) }
    ensures met { OnOk result (names.new ≡ names_up_to site.now.decls.now (site.now.number + 1)) }
{
    meet_decl(names, &site.decl.body)?;
    let rules = all_but_counts(alloc, site)?;
    let counts = too_much(alloc, site, names.len())?;
    Ok(lesser(rules, counts))
}

/// The least violation of the rules about declarations.
fn in_decls(alloc: Global, decls: &[Decl]) -> Result<Option<CheckFault>, Memory>
    ensures told { IfOk result (λ fault. fault ≡ decls_told decls.now) }
{
    let types = declared(alloc, decls)?;
    let mut names = NameSet::new(alloc);
    let mut best = None;
    for number in 0..decls.len() {
        let site = Site {
            decls,
            env: &types,
            number,
            decl: &decls[number],
        };
        best = lesser(best, at_site(alloc, &site, &mut names)?);
    }
    Ok(best)
}

fn has_record_type(decls: &[Decl]) -> bool
    ensures any { result ≡ list_any (λ decl. trees.is_precord decl.mark) decls.now }
{
    decls.iter().any(|decl| is_precord(decl.mark))
}

/// No declaration is marked `Precord`.
#[tactic(auto, unfolding(crate::specs::InDescription::record_told))]
fn no_record_type(tree: &Ast) -> Option<CheckFault>
    ensures told { result ≡ record_told tree.now }
{
    let marked = has_record_type(tree.decls.as_slice());
    fault_if(!marked, Rule::NoRecordType, tree.end)
}

/// The first violation of a description by place, then by the rule's number; `None` exactly where it keeps every rule.
pub fn first_violation(alloc: Global, tree: &Ast) -> Result<Option<CheckFault>, Memory>
    ensures told { IfOk result (λ fault. fault ≡ least (violations tree.now)) }
{
    let fault = in_decls(alloc, tree.decls.as_slice())?;
    Ok(lesser(fault, no_record_type(tree)))
}
