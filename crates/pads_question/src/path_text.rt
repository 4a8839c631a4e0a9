//! From the text of a path to its steps.

ghost use Rattle.std.specs.Prelude.{◌≡◌, Err, IfOk};
ghost use Rattle.pads_lex.specs.Answers.{EndsLast};
ghost use Rattle.pads_lex.specs.Cut.{IsCut};
ghost use Rattle.pads_module.specs.Modules.{Contents, contents};
ghost use Rattle.pads_value.specs.Refusals.{OnFault};
ghost use Rattle.pads_question.specs.Questions.{HasPath, IsPathRefused, LeadsBy};

use crate::fault::PathError;
use pads_lex::{Tokens, lex};
use pads_module::Module;
use pads_nodes::Steps;
use pads_path::resolve;
use pads_syntax_path::{Path, parse_path};
use pads_value::Refusal;
use std::alloc::Global;

/// A path and the steps by which it leads.
#[derive(Drop)]
pub(crate) struct Led {
    pub(crate) parsed: Path,
    pub(crate) steps: Steps,
}

/// The tokens of a path's text.
fn tokens_in(alloc: Global, text: &[u8]) -> Result<Tokens, Refusal<PathError>>
    ensures tokens { IfOk result (IsCut 0 text.now) }
    ensures ends { IfOk result EndsLast }
    ensures refused { (m : Contents) → OnFault result (IsPathRefused m text.now) }
{
    match lex(alloc, text) {
        Ok(tokens) => Ok(tokens),
        Err(Refusal::Fault(fault)) => Err(Refusal::Fault(PathError::Lexical {
            kind: fault.kind,
            at: fault.at,
        })),
        Err(Refusal::Memory) => Err(Refusal::Memory),
    }
}

/// The path that a text is.
fn path_in(alloc: Global, text: &[u8]) -> Result<Path, Refusal<PathError>>
    ensures path { IfOk result (HasPath text.now) }
    ensures refused { (m : Contents) → OnFault result (IsPathRefused m text.now) }
{
    let tokens = match tokens_in(alloc, text) {
        Ok(tokens) => tokens,
        Err(refusal) => return Err(refusal),
    };
    match parse_path(alloc, &tokens) {
        Ok(path) => Ok(path),
        Err(Refusal::Fault(fault)) => Err(Refusal::Fault(PathError::Syntax {
            token: fault.token,
            at: fault.at,
        })),
        Err(Refusal::Memory) => Err(Refusal::Memory),
    }
}

/// The path that a text is, with the steps by which it leads from the body of the record type.
pub(crate) fn led_by(alloc: Global, module: &Module, text: &[u8]) -> Result<Led, Refusal<PathError>>
    ensures leads { IfOk result (λ led. LeadsBy (contents module.now) text.now led.parsed led.steps) }
    ensures refused { OnFault result (IsPathRefused (contents module.now) text.now) }
{
    let parsed = match path_in(alloc, text) {
        Ok(parsed) => parsed,
        Err(refusal) => return Err(refusal),
    };
    match resolve(alloc, module, &parsed) {
        Ok(steps) => Ok(Led { parsed, steps }),
        Err(Refusal::Fault(fault)) => Err(Refusal::Fault(PathError::Step(fault))),
        Err(Refusal::Memory) => Err(Refusal::Memory),
    }
}
