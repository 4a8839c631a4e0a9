//! The forms of expressions, from what is known of their parts.

ghost use Rattle.std.specs.Prelude.{◌≡◌};
ghost use Rattle.pads_expr.specs.declared.expr.BinOp.TheVariants as binary_form;
ghost use Rattle.pads_rules.specs.Judging.{unary_takes, is_text_or_array};
ghost use Rattle.pads_rules.specs.Judging as judging;
ghost use Rattle.pads_rules.specs.Sorts.{accepts, is_array_form};
ghost use Rattle.pads_judge.specs.Judgements as judgements;
ghost use Rattle.pads_judge.specs.Scopes.{names_in_scope};

use crate::judgement::{above, leaf, settled};
use crate::scope::{is_later, sort_in};
use crate::{Judgement, Scope};
use pads_ast::{Name, UnaryOperator, Word};
use pads_declared::{TypeTable, element, has_choice, may_choose, member};
use pads_expr::BinOp;
use pads_rules::{CheckFault, ExprSort, Form, Rule, fault_if, lesser, result_of, unary_gives};

/// Whether a sort may be a number or a text.
fn is_ordered(sort: ExprSort) -> bool
    ensures accepted { result ≡ accepts (judging.takes binary_form.Lt) sort }
{
    match sort {
        ExprSort::Unknown => true,
        ExprSort::Nothing => false,
        ExprSort::Known(sort) => sort.optional == 0 && matches!(sort.form, Form::Num | Form::Text),
    }
}

/// Whether a sort may be a number, a text or a truth value.
fn is_comparable(sort: ExprSort) -> bool
    ensures accepted { result ≡ accepts (judging.takes binary_form.Eq) sort }
{
    match sort {
        ExprSort::Unknown => true,
        ExprSort::Nothing => false,
        ExprSort::Known(sort) => {
            sort.optional == 0 && matches!(sort.form, Form::Num | Form::Text | Form::Truth)
        }
    }
}

fn is_array(sort: ExprSort) -> bool
    ensures accepted { result ≡ accepts is_array_form sort }
{
    match sort {
        ExprSort::Unknown => true,
        ExprSort::Nothing => false,
        ExprSort::Known(sort) => sort.optional == 0 && matches!(sort.form, Form::Array(_)),
    }
}

/// Whether a sort may have a length.
fn has_length(sort: ExprSort) -> bool
    ensures accepted { result ≡ accepts is_text_or_array sort }
{
    match sort {
        ExprSort::Unknown => true,
        ExprSort::Nothing => false,
        ExprSort::Known(sort) => {
            sort.optional == 0 && matches!(sort.form, Form::Text | Form::Array(_))
        }
    }
}

/// Whether an operator takes a sort.
fn takes(operator: BinOp, sort: ExprSort) -> bool
    ensures accepted { result ≡ accepts (judging.takes operator) sort }
{
    match operator {
        BinOp::Or | BinOp::And => sort.is_truth(),
        BinOp::Eq | BinOp::Ne => is_comparable(sort),
        BinOp::Lt | BinOp::Le | BinOp::Gt | BinOp::Ge => is_ordered(sort),
        BinOp::Add | BinOp::Sub | BinOp::Mul | BinOp::Div | BinOp::Rem => sort.is_num(),
    }
}

/// The operands of an operator that are of a wrong sort.
fn wrong_operands(operator: BinOp, left: Judgement, right: Judgement) -> Option<CheckFault>
    ensures wrong { result ≡ judgements.wrong_operands (judging.takes operator) left right }
{
    let takes_left = takes(operator, left.sort);
    let takes_right = takes(operator, right.sort);
    let agree = left.sort.agrees(right.sort);
    let alone = lesser(
        fault_if(!takes_left, Rule::OperandSort, left.first),
        fault_if(!takes_right, Rule::OperandSort, right.first),
    );
    lesser(
        alone,
        fault_if(
            takes_left && takes_right && !agree,
            Rule::OperandSort,
            right.first,
        ),
    )
}

#[tactic(auto, unfolding(crate::specs::Judgements::binary))]
pub(crate) fn binary(operator: BinOp, left: Judgement, right: Judgement) -> Judgement
    ensures form { result ≡ judgements.binary operator left right }
{
    let fault = lesser(
        lesser(left.fault, right.fault),
        wrong_operands(operator, left, right),
    );
    let height = above(left.height.max(right.height));
    settled(left.first, height, result_of(operator), fault)
}

fn takes_unary(operator: UnaryOperator, sort: ExprSort) -> bool
    ensures accepted { result ≡ accepts (unary_takes operator) sort }
{
    match operator {
        UnaryOperator::Minus => sort.is_num(),
        UnaryOperator::Not => sort.is_truth(),
    }
}

#[tactic(auto, unfolding(crate::specs::Judgements::unary))]
pub(crate) fn unary(operator: UnaryOperator, at: u64, operand: Judgement) -> Judgement
    ensures form { result ≡ judgements.unary operator at operand }
{
    let wrong = fault_if(
        !takes_unary(operator, operand.sort),
        Rule::OperandSort,
        operand.first,
    );
    settled(
        at,
        above(operand.height),
        unary_gives(operator),
        lesser(operand.fault, wrong),
    )
}

#[tactic(auto, unfolding(crate::specs::Judgements::member_of))]
pub(crate) fn member_of(env: &TypeTable, whole: Judgement, name: &Name) -> Judgement
    ensures form { result ≡ judgements.member_of env.now whole name.now }
{
    let height = above(whole.height);
    match member(env, whole.sort, name.text.as_slice()) {
        Some(sort) => settled(whole.first, height, sort, whole.fault),
        None => {
            let fault = CheckFault {
                at: name.at,
                rule: Rule::UnknownMember,
            };
            settled(
                whole.first,
                height,
                ExprSort::Unknown,
                lesser(whole.fault, Some(fault)),
            )
        }
    }
}

#[tactic(auto, unfolding(crate::specs::Judgements::indexed))]
pub(crate) fn indexed(env: &TypeTable, whole: Judgement, index: Judgement) -> Judgement
    ensures form { result ≡ judgements.indexed env.now whole index }
{
    let wrong_whole = fault_if(!is_array(whole.sort), Rule::OperandSort, whole.first);
    let wrong_index = fault_if(!index.sort.is_num(), Rule::OperandSort, index.first);
    let fault = lesser(
        lesser(lesser(whole.fault, index.fault), wrong_whole),
        wrong_index,
    );
    let height = above(whole.height.max(index.height));
    settled(whole.first, height, element(env, whole.sort), fault)
}

#[tactic(auto, unfolding(crate::specs::Judgements::parenthesized))]
pub(crate) fn parenthesized(at: u64, inner: Judgement) -> Judgement
    ensures form { result ≡ judgements.parenthesized at inner }
{
    settled(at, inner.height, inner.sort, inner.fault)
}

/// What is wrong with a value of which `Pis` asks for a name.
fn no_choice(env: &TypeTable, value: Judgement, name: &Name) -> Option<CheckFault>
    ensures wrong { result ≡ judgements.no_choice env.now value name.now }
{
    let may = may_choose(value.sort);
    let has = has_choice(env, value.sort, name.text.as_slice());
    lesser(
        fault_if(!may, Rule::UnknownChoice, value.first),
        fault_if(may && !has, Rule::UnknownChoice, name.at),
    )
}

#[tactic(auto, unfolding(crate::specs::Judgements::pis))]
pub(crate) fn pis(env: &TypeTable, at: u64, value: Judgement, name: &Name) -> Judgement
    ensures form { result ≡ judgements.pis env.now at value name.now }
{
    let fault = lesser(value.fault, no_choice(env, value, name));
    settled(at, above(value.height), ExprSort::plain(Form::Truth), fault)
}

#[tactic(auto, unfolding(crate::specs::Judgements::plen))]
pub(crate) fn plen(at: u64, value: Judgement) -> Judgement
    ensures form { result ≡ judgements.plen at value }
{
    let wrong = fault_if(!has_length(value.sort), Rule::OperandSort, value.first);
    settled(
        at,
        above(value.height),
        ExprSort::plain(Form::Num),
        lesser(value.fault, wrong),
    )
}

/// The least violation of the parts of a `Pforall` and of their sorts.
fn wrong_range(low: Judgement, high: Judgement, body: Judgement) -> Option<CheckFault>
    ensures wrong { result ≡ judgements.wrong_range low high body }
{
    let parts = lesser(lesser(low.fault, high.fault), body.fault);
    let wrong_low = fault_if(!low.sort.is_num(), Rule::OperandSort, low.first);
    let wrong_high = fault_if(!high.sort.is_num(), Rule::OperandSort, high.first);
    let untrue = fault_if(!body.sort.is_truth(), Rule::ConditionSort, body.first);
    lesser(lesser(lesser(parts, wrong_low), wrong_high), untrue)
}

#[tactic(auto, unfolding(crate::specs::Judgements::pforall))]
pub(crate) fn pforall(at: u64, low: Judgement, high: Judgement, body: Judgement) -> Judgement
    ensures form { result ≡ judgements.pforall at low high body }
{
    let height = above(low.height.max(high.height).max(body.height));
    let fault = wrong_range(low, high, body);
    settled(at, height, ExprSort::plain(Form::Truth), fault)
}

/// The place of a literal.
pub(crate) fn place_of(word: &Word) -> u64
    ensures place { result ≡ judging.place_of word.now }
{
    match word {
        Word::Char { at, .. } => *at,
        Word::Text { at, .. } => *at,
    }
}

#[tactic(auto, unfolding(crate::specs::Judgements::variable))]
pub(crate) fn variable(scope: &Scope<'_, '_>, name: &Name) -> Judgement
    ensures form { result ≡ judgements.variable (names_in_scope scope.now) name.now }
{
    match sort_in(scope, name.text.as_slice()) {
        Some(sort) => leaf(name.at, sort),
        None => {
            let rule = if is_later(scope, name.text.as_slice()) {
                Rule::LaterField
            } else {
                Rule::UnknownName
            };
            let fault = CheckFault { at: name.at, rule };
            settled(name.at, 1, ExprSort::Unknown, Some(fault))
        }
    }
}
