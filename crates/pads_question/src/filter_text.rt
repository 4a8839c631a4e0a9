//! From the text of a filter to its expression.

ghost use Rattle.std.specs.Prelude.{◌≡◌, [], Some, IfOk, OnOk};
ghost use Rattle.pads_ast.specs.declared.decl.Ast.{Ast};
ghost use Rattle.pads_lex.specs.Answers.{EndsLast};
ghost use Rattle.pads_lex.specs.Cut.{IsCut};
ghost use Rattle.pads_module.specs.Modules.{Contents, contents};
ghost use Rattle.pads_syntax_path.specs.declared.path.Path.{Path};
ghost use Rattle.pads_value.specs.Refusals.{OnFault};
ghost use Rattle.pads_question.specs.Filters.{filter_of};
ghost use Rattle.pads_rules.specs.Faults.{least};
ghost use Rattle.pads_rules.specs.Resolving.{declared as declared_of};
ghost use Rattle.pads_question.specs.Questions.{ComesTo, HasFilter, IsFilterRefused, faults_there, sort_there};

use crate::fault::FilterError;
use crate::filter;
use pads_ast::{Ast, ExprAst};
use pads_declared::declared;
use pads_expr::Expr;
use pads_lex::{Tokens, lex};
use pads_module::Module;
use pads_resolve_expr::{PartTable, Types};
use pads_rules::CheckFault;
use pads_syntax::parse_expr;
use pads_syntax_path::Path;
use pads_value::Refusal;
use std::alloc::Global;

/// The tokens of a filter's text.
fn tokens_in(alloc: Global, text: &[u8]) -> Result<Tokens, Refusal<FilterError>>
    ensures tokens { IfOk result (IsCut 0 text.now) }
    ensures ends { IfOk result EndsLast }
    ensures refused { (tree : Ast) (m : Contents) (parsed : Path) → OnFault result (IsFilterRefused tree m parsed text.now) }
{
    match lex(alloc, text) {
        Ok(tokens) => Ok(tokens),
        Err(Refusal::Fault(fault)) => Err(Refusal::Fault(FilterError::Lexical {
            kind: fault.kind,
            at: fault.at,
        })),
        Err(Refusal::Memory) => Err(Refusal::Memory),
    }
}

/// The tree of the filter that a text is.
fn tree_in(alloc: Global, text: &[u8]) -> Result<ExprAst, Refusal<FilterError>>
    ensures tree { IfOk result (HasFilter text.now) }
    ensures refused { (tree : Ast) (m : Contents) (parsed : Path) → OnFault result (IsFilterRefused tree m parsed text.now) }
{
    let tokens = match tokens_in(alloc, text) {
        Ok(tokens) => tokens,
        Err(refusal) => return Err(refusal),
    };
    match parse_expr(alloc, &tokens) {
        Ok(tree) => Ok(tree),
        Err(Refusal::Fault(fault)) => Err(Refusal::Fault(FilterError::Syntax {
            token: fault.token,
            at: fault.at,
        })),
        Err(Refusal::Memory) => Err(Refusal::Memory),
    }
}

/// The expression of a filter's tree, by the tree and the module of a description and a path.
fn expression_of(
    alloc: Global,
    tree: &Ast,
    module: &Module,
    parsed: &Path,
    e: &ExprAst,
) -> Result<Expr, Refusal<CheckFault>>
    ensures made { IfOk result (λ made. made ≡ filter_of tree.now.decls (declared_of tree.now.decls) (sort_there tree.now (contents module.now) parsed.now) e.now.expr) }
    ensures accepted { OnOk result (faults_there tree.now (contents module.now) parsed.now e.now ≡ []) }
    ensures fault { OnFault result (λ fault. least (faults_there tree.now (contents module.now) parsed.now e.now) ≡ Some fault) }
{
    let decls = tree.decls.as_slice();
    let env = declared(alloc, decls)?;
    let table = PartTable::new(alloc, decls)?;
    let types = Types {
        decls: &table,
        env: &env,
    };
    filter(alloc, &types, module.shape.each, parsed, e)
}

/// The expression of the filter that a text is, of the values to which a path leads.
pub(crate) fn filter_in(
    alloc: Global,
    tree: &Ast,
    module: &Module,
    parsed: &Path,
    text: &[u8],
) -> Result<Expr, Refusal<FilterError>>
    ensures comes { IfOk result (ComesTo tree.now (contents module.now) parsed.now text.now) }
    ensures refused { OnFault result (IsFilterRefused tree.now (contents module.now) parsed.now text.now) }
{
    let e = match tree_in(alloc, text) {
        Ok(e) => e,
        Err(refusal) => return Err(refusal),
    };
    match expression_of(alloc, tree, module, parsed, &e) {
        Ok(made) => Ok(made),
        Err(Refusal::Fault(fault)) => Err(Refusal::Fault(FilterError::Rule {
            rule: fault.rule,
            at: fault.at,
        })),
        Err(Refusal::Memory) => Err(Refusal::Memory),
    }
}
