//! The rules at each kind of piece.

ghost use Rattle.std.specs.Prelude.{◌≡◌, IfOk};
ghost use Rattle.pads_judge.specs.Scopes.{names_in_scope};
ghost use Rattle.pads_rules.specs.Pieces as pieces;
ghost use Rattle.pads_rules.specs.PieceRules.{is_num_or_text};
ghost use Rattle.pads_rules.specs.Sorts.{accepts};
ghost use Rattle.pads_ast.specs.Trees as trees;
ghost use Rattle.pads_piece_rules.specs.Told.{stands, keys_of, piece_told, spelled_told};

use crate::Site;
use crate::arguments::arguments;
use crate::base_rules::{is_computable, is_param};
use crate::constants::{keys, keys_again, place_of};
use crate::site::sight;
use crate::typed::{argument_count, record_name, type_name};
use pads_ast::{Case, Expr, Type, Word};
use pads_declared::type_sort;
use pads_judge::{Scope, judge};
use pads_rules::{CheckFault, ExprSort, Form, Rule, fault_if, lesser};
use pads_value::Memory;
use std::alloc::Global;

/// The type of a field, a branch, an element, a typedef or an optional.
#[tactic(auto, using(crate::proofs::PieceLemmas::piece_rules))]
pub fn used(site: &Site<'_>, scope: &Scope<'_, '_>, of: &Type) -> Option<CheckFault>
    ensures told { result ≡ piece_told (stands site.now) (pieces.Used (names_in_scope scope.now) of.now) }
{
    let named = lesser(type_name(site, of), arguments(site, scope, of));
    lesser(
        lesser(named, argument_count(site, of)),
        record_name(site, of),
    )
}

/// The type of a parameter.
#[tactic(auto, using(crate::proofs::PieceLemmas::piece_rules))]
pub fn of_param(site: &Site<'_>, of: &Type) -> Option<CheckFault>
    ensures told { result ≡ piece_told (stands site.now) (pieces.OfParam of.now) }
{
    let fits = is_param(site, of);
    let wrong = fault_if(!fits, Rule::ParameterType, of.name.at);
    lesser(lesser(type_name(site, of), wrong), record_name(site, of))
}

/// A computed field: its type and its value.
#[tactic(auto, using(crate::proofs::PieceLemmas::piece_rules))]
pub fn computed(
    site: &Site<'_>,
    scope: &Scope<'_, '_>,
    of: &Type,
    value: &Expr,
) -> Option<CheckFault>
    ensures told { result ≡ piece_told (stands site.now) (pieces.Computed (names_in_scope scope.now) of.now value.now) }
{
    let judgement = judge(site.env, value, scope);
    let computable = is_computable(site, of);
    let agrees = type_sort(&sight(site), of).agrees(judgement.sort);
    let wrong = fault_if(!computable || !agrees, Rule::ComputedType, of.name.at);
    let named = lesser(type_name(site, of), judgement.fault);
    lesser(lesser(named, wrong), record_name(site, of))
}

/// A constraint, `Pwhere` or `Plast`.
#[tactic(auto, using(crate::proofs::PieceLemmas::piece_rules))]
pub fn condition(site: &Site<'_>, scope: &Scope<'_, '_>, e: &Expr) -> Option<CheckFault>
    ensures told { result ≡ piece_told (stands site.now) (pieces.Condition (names_in_scope scope.now) e.now) }
{
    let judgement = judge(site.env, e, scope);
    lesser(
        judgement.fault,
        fault_if(
            !judgement.sort.is_truth(),
            Rule::ConditionSort,
            judgement.first,
        ),
    )
}

/// The size of an array.
#[tactic(auto, using(crate::proofs::PieceLemmas::piece_rules))]
pub fn size(site: &Site<'_>, scope: &Scope<'_, '_>, e: &Expr) -> Option<CheckFault>
    ensures told { result ≡ piece_told (stands site.now) (pieces.Size (names_in_scope scope.now) e.now) }
{
    let judgement = judge(site.env, e, scope);
    lesser(
        judgement.fault,
        fault_if(!judgement.sort.is_num(), Rule::OperandSort, judgement.first),
    )
}

/// Whether a sort may be a number or a text.
fn is_num_or_text(sort: ExprSort) -> bool
    ensures accepted { result ≡ accepts is_num_or_text sort }
{
    match sort {
        ExprSort::Unknown => true,
        ExprSort::Nothing => false,
        ExprSort::Known(sort) => sort.optional == 0 && matches!(sort.form, Form::Num | Form::Text),
    }
}

/// The expression of a switch, and its case constants.
#[tactic(auto, using(crate::proofs::PieceLemmas::piece_rules))]
pub fn choice(
    alloc: Global,
    site: &Site<'_>,
    scope: &Scope<'_, '_>,
    e: &Expr,
    cases: &[Case],
) -> Result<Option<CheckFault>, Memory>
    ensures told { IfOk result (λ fault. fault ≡ piece_told (stands site.now) (pieces.Choice (names_in_scope scope.now) e.now (keys_of cases.now))) }
{
    let judgement = judge(site.env, e, scope);
    let wrong = fault_if(
        !is_num_or_text(judgement.sort),
        Rule::CaseSort,
        judgement.first,
    );
    let sorts = lesser(wrong, keys(judgement.sort, cases));
    let again = keys_again(alloc, cases)?;
    Ok(lesser(lesser(judgement.fault, sorts), again))
}

fn is_empty(word: &Word) -> bool
    ensures empty { result ≡ trees.is_empty (trees.points_of word.now) }
{
    match word {
        Word::Char { .. } => false,
        Word::Text { points, .. } => points.is_empty(),
    }
}

/// A literal, separator, terminator or enum spelling.
#[tactic(auto, unfolding(crate::specs::Told::spelled_told))]
pub fn spelled(word: &Word) -> Option<CheckFault>
    ensures told { result ≡ spelled_told word.now }
{
    fault_if(is_empty(word), Rule::EmptyLiteral, place_of(word))
}
