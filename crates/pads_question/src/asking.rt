//! From the texts of a question to what it asks.

ghost use Rattle.std.specs.Prelude.{ℕ, List, Some, option_copied, IfOk};
ghost use Rattle.pads_ast.specs.declared.decl.Ast.{Ast};
ghost use Rattle.pads_describe.specs.Trees.{IsAccepted};
ghost use Rattle.pads_module.specs.Modules.{contents};
ghost use Rattle.pads_value.specs.Refusals.{OnFault};
ghost use Rattle.pads_question.specs.Questions.{IsAsked, IsNotAsked, LeadsBy};

use crate::asked::Asked;
use crate::fault::QuestionFault;
use crate::filter_text::filter_in;
use crate::path_text::{Led, led_by};
use crate::tree::tree_in;
use pads_module::Module;
use pads_value::Refusal;
use std::alloc::Global;

/// What is asked by a path that leads somewhere and a filter.
fn filtered(
    alloc: Global,
    text: &[u8],
    module: &Module,
    led: Led,
    filter: &[u8],
) -> Result<Asked, Refusal<QuestionFault>>
    requires accepted { (tree : Ast) × IsAccepted text.now tree }
    ensures asked { (path : List ℕ) (tree : Ast) → LeadsBy (contents module.now) path led.parsed led.steps → IsAccepted text.now tree
        → IfOk result (IsAsked tree (contents module.now) path (Some filter.now)) }
    ensures refused { (path : List ℕ) (tree : Ast) → LeadsBy (contents module.now) path led.parsed led.steps → IsAccepted text.now tree
        → OnFault result (IsNotAsked tree (contents module.now) path (Some filter.now)) }
{
    let tree = tree_in(alloc, text)?;
    match filter_in(alloc, &tree, module, &led.parsed, filter) {
        Ok(made) => Ok(Asked {
            steps: led.steps,
            filter: Some(made),
        }),
        Err(Refusal::Fault(error)) => Err(Refusal::Fault(QuestionFault::Filter(error))),
        Err(Refusal::Memory) => Err(Refusal::Memory),
    }
}

/// What a question asks of the records of an accepted description, by the description's text, its module, the text of a
/// path and that of a filter, or why it is refused.
///
/// The module may be masked: a mask leaves paths as they are. The description is parsed again for a filter, whose names and
/// sorts are judged by its tree.
pub fn question(
    alloc: Global,
    text: &[u8],
    module: &Module,
    path: &[u8],
    filter: Option<&[u8]>,
) -> Result<Asked, Refusal<QuestionFault>>
    requires accepted { (tree : Ast) × IsAccepted text.now tree }
    ensures asked { (tree : Ast) → IsAccepted text.now tree → IfOk result (IsAsked tree (contents module.now) path.now (option_copied filter.entry)) }
    ensures refused { (tree : Ast) → IsAccepted text.now tree → OnFault result (IsNotAsked tree (contents module.now) path.now (option_copied filter.entry)) }
{
    let led = match led_by(alloc, module, path) {
        Ok(led) => led,
        Err(Refusal::Fault(error)) => return Err(Refusal::Fault(QuestionFault::Path(error))),
        Err(Refusal::Memory) => return Err(Refusal::Memory),
    };
    match filter {
        None => Ok(Asked {
            steps: led.steps,
            filter: None,
        }),
        Some(filter) => filtered(alloc, text, module, led, filter),
    }
}
