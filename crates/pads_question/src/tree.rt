//! The tree of a description that is accepted.

ghost use Rattle.std.specs.Prelude.{◌≡◌, IfOk};
ghost use Rattle.pads_ast.specs.declared.decl.Ast.{Ast};
ghost use Rattle.pads_describe.specs.Trees.{IsAccepted};

use pads_ast::Ast;
use pads_lex::lex;
use pads_syntax::parse;
use pads_value::{Memory, Refusal};
use std::alloc::Global;

/// The tree of an accepted text.
pub(crate) fn tree_in(alloc: Global, text: &[u8]) -> Result<Ast, Memory>
    requires accepted { (tree : Ast) × IsAccepted text.now tree }
    ensures tree { (tree : Ast) → IsAccepted text.now tree → IfOk result (λ made. made ≡ tree) }
{
    let tokens = match lex(alloc, text) {
        Ok(tokens) => tokens,
        Err(Refusal::Fault(_)) => unreachable!(),
        Err(Refusal::Memory) => return Err(Memory),
    };
    match parse(alloc, &tokens) {
        Ok(tree) => Ok(tree),
        Err(Refusal::Fault(_)) => unreachable!(),
        Err(Refusal::Memory) => Err(Memory),
    }
}
