//! Whether a text is accepted.

ghost use Rattle.std.specs.Prelude.{◌≡◌, [], IfOk, length};
ghost use Rattle.pads_describe.specs.Answers.{IsAcceptedWith};
ghost use Rattle.pads_value.specs.Refusals.{OnFault};
ghost use Rattle.pads_describe.specs.Trees.{HasTree, IsAccepted};
ghost use Rattle.pads_describe.specs.Verdicts.{IsRefused};
ghost use Rattle.pads_resolution.specs.Resolution.{resolved};

use crate::checked::Checked;
use crate::reading::tree_in;
use crate::tree_check::check;
use crate::verdict::Verdict;
use pads_ast::Ast;
use pads_value::Refusal;
use std::alloc::Global;

/// The tree of a text with its names resolved, where it keeps all rules.
pub(crate) fn checked<'a>(
    alloc: Global,
    text: &[u8],
    tree: &'a Ast,
) -> Result<Checked<'a>, Refusal<Verdict>>
    requires tree { HasTree text.now tree.now }
    ensures accepted { IfOk result (λ checked. IsAccepted text.now tree.now) }
    ensures resolved { IfOk result (λ checked. checked.description ≡ resolved tree.now) }
    ensures refused { OnFault result (IsRefused text.now) }
{
    match check(alloc, tree) {
        Ok(checked) => Ok(checked),
        Err(Refusal::Fault(fault)) => Err(Refusal::Fault(Verdict::Rule {
            rule: fault.rule,
            at: fault.at,
        })),
        Err(Refusal::Memory) => Err(Refusal::Memory),
    }
}

/// How many declarations a text has that is accepted, or why it is refused.
pub fn check_text(alloc: Global, text: &[u8]) -> Result<u64, Refusal<Verdict>>
    ensures accepted { IfOk result (IsAcceptedWith text.now) }
    ensures refused { OnFault result (IsRefused text.now) }
{
    let tree = tree_in(alloc, text)?;
    checked(alloc, text, &tree)?;
    Ok(tree.decls.len())
}
