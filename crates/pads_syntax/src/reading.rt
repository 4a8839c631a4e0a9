//! Whole lists of tokens as their trees.

ghost use Rattle.std.specs.Prelude.{Ok, IfOk};
ghost use Rattle.pads_lex.specs.Answers.{EndsLast, HasSpelledNames};
ghost use Rattle.pads_ast.specs.declared.decl.Ast.{Ast};
ghost use Rattle.pads_ast.specs.declared.decl.ExprAst.{ExprAst};
ghost use Rattle.pads_syntax_parts.specs.Types.{expression};
ghost use Rattle.pads_syntax.specs.Declarations.{decls};
ghost use Rattle.pads_syntax.specs.Trees.{description, filter, IsTree, IsTreeFault, IsExprTree, IsExprTreeFault, StandsAt};
ghost use Rattle.pads_syntax.specs.Answers.{Answers};
ghost use Rattle.pads_value.specs.Refusals.{Gives, OnFault};

use crate::SyntaxFault;
use crate::declaration::decls;
use crate::whole::{fault_behind, next_fault, split_end};
use pads_ast::{Ast, Decl, ExprAst};
use pads_grammar::Cursor;
use pads_lex::Tokens;
use pads_syntax_parts::expression;
use pads_value::{Items, Refusal};
use std::alloc::Global;

/// Declarations, and the place of the end token behind them.
fn description(alloc: Global, tokens: &Tokens) -> Result<(Items<Decl>, u64), Refusal<SyntaxFault>>
    requires ends { EndsLast tokens.now }
    ensures answers { Answers decls description tokens.now result }
{
    let (front, end) = split_end(tokens);
    let mut cursor = Cursor::new(front);
    match decls(alloc, &mut cursor) {
        Ok(decls) if cursor.left() == 0 => Ok((decls, end.begin)),
        Ok(_) => Err(Refusal::Fault(fault_behind(tokens, &mut cursor))),
        Err(Refusal::Fault(_)) => Err(Refusal::Fault(next_fault(tokens, &cursor))),
        Err(Refusal::Memory) => Err(Refusal::Memory),
    }
}

/// An expression, and the end token behind it.
fn filter(alloc: Global, tokens: &Tokens) -> Result<ExprAst, Refusal<SyntaxFault>>
    requires ends { EndsLast tokens.now }
    ensures answers { Answers expression filter tokens.now result }
{
    let (front, _) = split_end(tokens);
    let mut cursor = Cursor::new(front);
    match expression(alloc, &mut cursor) {
        Ok(expr) if cursor.left() == 0 => Ok(ExprAst { expr }),
        Ok(_) => Err(Refusal::Fault(fault_behind(tokens, &mut cursor))),
        Err(Refusal::Fault(_)) => Err(Refusal::Fault(next_fault(tokens, &cursor))),
        Err(Refusal::Memory) => Err(Refusal::Memory),
    }
}

/// The tree of a description, or the first token at which no description goes on.
///
/// The time is linear in the number of tokens. The depth of the recursion is bounded, since expressions
/// have at most 64 levels of nesting and declarations do not nest.
pub fn parse(alloc: Global, tokens: &Tokens) -> Result<Ast, Refusal<SyntaxFault>>
    requires ends { EndsLast tokens.now }
    requires names { HasSpelledNames tokens.now }

    // The tokens derive the tree that is given, and no other tree.
    ensures found { IfOk result (λ tree. IsTree tree tokens.now) }
    ensures only { (tree : Ast) → IsTree tree tokens.now → Gives result (Ok tree) }

    // A fault stands at the first token at which no tree goes on, and its place is that token's.
    ensures fault { OnFault result (λ fault. IsTreeFault tokens.now fault.token) }
    ensures place { OnFault result (λ fault. StandsAt tokens.now fault.token fault.at) }
{
    match description(alloc, tokens) {
        Ok((decls, end)) => Ok(Ast { decls, end }),
        Err(refusal) => Err(refusal),
    }
}

/// The tree of a filter, or the first token at which no filter goes on.
///
/// The time is linear in the number of tokens, and the depth of the recursion is bounded by the 64 levels
/// of nesting.
pub fn parse_expr(alloc: Global, tokens: &Tokens) -> Result<ExprAst, Refusal<SyntaxFault>>
    requires ends { EndsLast tokens.now }

    // The tokens derive the tree that is given, and no other tree.
    ensures found { IfOk result (λ tree. IsExprTree tree tokens.now) }
    ensures only { (tree : ExprAst) → IsExprTree tree tokens.now → Gives result (Ok tree) }

    // A fault stands at the first token at which no tree goes on, and its place is that token's.
    ensures fault { OnFault result (λ fault. IsExprTreeFault tokens.now fault.token) }
    ensures place { OnFault result (λ fault. StandsAt tokens.now fault.token fault.at) }
{
    filter(alloc, tokens)
}
