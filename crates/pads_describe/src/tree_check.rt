//! Whether a tree keeps every rule.

ghost use Rattle.std.specs.Prelude.{◌≡◌, Some, [], IfOk};
ghost use Rattle.pads_rules.specs.Faults.{least};
ghost use Rattle.pads_rules.specs.Violations.{violations};
ghost use Rattle.pads_value.specs.Refusals.{OnFault};
ghost use Rattle.pads_describe.specs.Checked.{Accepts};

use crate::Checked;
use pads_ast::Ast;
use pads_resolve::resolve;
use pads_rules::CheckFault;
use pads_value::{Memory, Refusal};
use pads_violations::first_violation;
use std::alloc::Global;

/// What a tree without violations resolves to.
fn accepted<'a>(alloc: Global, tree: &'a Ast) -> Result<Checked<'a>, Memory>
    requires clean { violations tree.now ≡ [] }
    ensures tree { IfOk result (λ checked. checked.tree.now ≡ tree.now) }
    ensures accepted { IfOk result (λ checked. Accepts tree.now checked.description) }
{
    let description = resolve(alloc, tree)?;
    Ok(Checked { tree, description })
}

/// The resolved tree of a description that keeps every rule, or the first violation by place, then by the rule's number.
pub fn check<'a>(alloc: Global, tree: &'a Ast) -> Result<Checked<'a>, Refusal<CheckFault>>
    ensures tree { IfOk result (λ checked. checked.tree.now ≡ tree.now) }
    ensures accepted { IfOk result (λ checked. Accepts tree.now checked.description) }
    ensures refused { OnFault result (λ fault. least (violations tree.now) ≡ Some fault) }
{
    match first_violation(alloc, tree)? {
        Some(fault) => Err(Refusal::Fault(fault)),
        None => Ok(accepted(alloc, tree)?),
    }
}
