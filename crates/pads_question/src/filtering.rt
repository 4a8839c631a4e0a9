//! Filters, judged and resolved.

ghost use Rattle.std.specs.Prelude.{◌≡◌, [], Some, IfOk, OnOk};
ghost use Rattle.pads_rules.specs.Faults.{least};
ghost use Rattle.pads_rules.specs.Judging.{judged};
ghost use Rattle.pads_judge.specs.Judgements.{shown_judgement};
ghost use Rattle.pads_resolution.specs.Expressions as expressions;
ghost use Rattle.pads_value.specs.Refusals.{OnFault};
ghost use Rattle.pads_question.specs.Filters as filters;

use crate::levels::{Levels, levelled};
use crate::sorts::node_sort;
use pads_ast::{Expr as Tree, ExprAst};
use pads_declared::TypeTable;
use pads_expr::{Expr, eval_with, is_true};
use pads_judge::{Judgement, Scope, judge};
use pads_resolution::{ResolvedExpr, Stands};
use pads_resolve_expr::{NameScope, Types, resolve_expr};
use pads_rules::{CheckFault, ExprSort, Rule, fault_if, lesser};
use pads_syntax_path::Path;
use pads_value::{Memory, Refusal, Val};
use std::alloc::Global;

/// What is known of a filter of values of a sort.
fn judge_filter(env: &TypeTable, sort: ExprSort, e: &Tree) -> Judgement
    ensures judged { result ≡ shown_judgement (judged env.now e.now (filters.it_alone sort)) }
{
    judge(env, e, &Scope::Hiding(b"it", sort, &Scope::Names(&[], &[])))
}

/// The first violation of a filter of values of a sort.
#[tactic(auto, unfolding(crate::specs::Filters::filter_faults), using(std::proofs::lemmas::Grind::common_steps, crate::proofs::Scopes::joined_faults))]
fn first_fault(env: &TypeTable, sort: ExprSort, e: &Tree) -> Option<CheckFault>
    ensures least { result ≡ least (filters.filter_faults env.now sort e.now) }
{
    let judgement = judge_filter(env, sort, e);
    let is_truth = judgement.sort.is_truth();
    lesser(
        judgement.fault,
        fault_if(!is_truth, Rule::ConditionSort, judgement.first),
    )
}

/// What a filter of values of a sort resolves to, with its sort.
fn resolved(
    alloc: Global,
    types: &Types<'_>,
    sort: ExprSort,
    e: &Tree,
) -> Result<ResolvedExpr, Memory>
    ensures resolved { IfOk result (λ made. made ≡ expressions.expression types.now.decls.now types.now.env.now e.now (filters.it_named sort)) }
{
    let outer = NameScope::Names(&[]);
    let scope = NameScope::Hiding(b"it", Stands::Variable, sort, &outer);
    let made = resolve_expr(alloc, types, e, &scope)?;
    Ok(made)
}

/// The expression of a filter of values of a sort.
#[tactic(auto, unfolding(crate::specs::Filters::filter_of, pads_resolution::specs::Expressions::expr_of), using(std::proofs::lemmas::Grind::common_steps, crate::proofs::LevelRolls::scope_rules))]
fn filter_of(alloc: Global, types: &Types<'_>, sort: ExprSort, e: &Tree) -> Result<Expr, Memory>
    ensures filter { IfOk result (λ made. made ≡ filters.filter_of types.now.decls.now types.now.env.now sort e.now) }
{
    let made = resolved(alloc, types, sort, e)?;
    levelled(alloc, &made.expr, &Levels::It)
}

/// The filter of a path's nodes, by the declared types of a description and the number of its record type, or its
/// first violation: by place, then by the rule's number.
///
/// Its one name is `it`, the node's value. In the answer that is the variable 0, and the variable of a `Pforall` is the
/// number of the `Pforall`s that hold it, itself counted.
#[tactic(auto, using(std::proofs::lemmas::Grind::common_steps, crate::proofs::Scopes::none_least))]
pub fn filter(
    alloc: Global,
    types: &Types<'_>,
    record_type: u16,
    path: &Path,
    e: &ExprAst,
) -> Result<Expr, Refusal<CheckFault>>
    ensures filter { IfOk result (λ made. made ≡ filters.filter_of types.now.decls.now types.now.env.now (filters.node_sort types.now.env.now record_type path.now.steps) e.now.expr) }
    ensures accepted { OnOk result (filters.filter_faults types.now.env.now (filters.node_sort types.now.env.now record_type path.now.steps) e.now.expr ≡ []) }
    ensures fault { OnFault result (λ fault. least (filters.filter_faults types.now.env.now (filters.node_sort types.now.env.now record_type path.now.steps) e.now.expr) ≡ Some fault) }
{
    let sort = node_sort(types.env, record_type, path);
    match first_fault(types.env, sort, &e.expr) {
        Some(fault) => Err(Refusal::Fault(fault)),
        None => Ok(filter_of(alloc, types, sort, &e.expr)?),
    }
}

/// Whether a filter keeps a node with this value: exactly where it is true with the value as `it`. It takes no memory.
#[tactic(auto, unfolding(crate::specs::Filters::holds))]
pub fn keeps(filter: &Expr, value: &Val) -> bool
    ensures keeps { result ≡ filters.holds filter.now value.now }
{
    is_true(eval_with(filter, 0, value, &[]))
}
