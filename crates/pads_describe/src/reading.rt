//! From a text to its tree.

ghost use Rattle.std.specs.Prelude.{◌≤◌, IfOk, length};
ghost use Rattle.pads_lex.specs.Answers.{EndsLast, HasSpelledNames};
ghost use Rattle.pads_value.specs.Refusals.{OnFault};
ghost use Rattle.pads_describe.specs.Trees.{HasTokens, HasTree, longest};
ghost use Rattle.pads_describe.specs.Verdicts.{IsRefused};

use crate::verdict::Verdict;
use pads_ast::Ast;
use pads_lex::{Tokens, lex};
use pads_syntax::parse;
use pads_value::Refusal;
use std::alloc::Global;

/// The most bytes that a description may have.
const LONGEST: usize = 1_048_576;

/// The tokens of a text that isn't too long.
fn tokens_in(alloc: Global, text: &[u8]) -> Result<Tokens, Refusal<Verdict>>
    ensures tokens { IfOk result (HasTokens text.now) }
    ensures ends { IfOk result EndsLast }
    ensures names { IfOk result HasSpelledNames }
    ensures refused { OnFault result (IsRefused text.now) }
{
    if text.len() > LONGEST {
        return Err(Refusal::Fault(Verdict::TooLong));
    }
    match lex(alloc, text) {
        Ok(tokens) => Ok(tokens),
        Err(Refusal::Fault(fault)) => Err(Refusal::Fault(Verdict::Lexical {
            kind: fault.kind,
            at: fault.at,
        })),
        Err(Refusal::Memory) => Err(Refusal::Memory),
    }
}

/// The tree of these tokens of a text.
fn tree_of(alloc: Global, text: &[u8], tokens: &Tokens) -> Result<Ast, Refusal<Verdict>>
    requires tokens { HasTokens text.now tokens.now }
    requires ends { EndsLast tokens.now }
    requires names { HasSpelledNames tokens.now }
    ensures tree { IfOk result (HasTree text.now) }
    ensures refused { OnFault result (IsRefused text.now) }
{
    match parse(alloc, tokens) {
        Ok(tree) => Ok(tree),
        Err(Refusal::Fault(fault)) => Err(Refusal::Fault(Verdict::Syntax {
            token: fault.token,
            at: fault.at,
        })),
        Err(Refusal::Memory) => Err(Refusal::Memory),
    }
}

/// The tree of a text.
pub(crate) fn tree_in(alloc: Global, text: &[u8]) -> Result<Ast, Refusal<Verdict>>
    ensures tree { IfOk result (HasTree text.now) }
    ensures refused { OnFault result (IsRefused text.now) }
{
    match tokens_in(alloc, text) {
        Ok(tokens) => tree_of(alloc, text, &tokens),
        Err(Refusal::Fault(verdict)) => Err(Refusal::Fault(verdict)),
        Err(Refusal::Memory) => Err(Refusal::Memory),
    }
}
