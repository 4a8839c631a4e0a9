//! The forms of resolved expressions, from their parts.

ghost use Rattle.std.specs.Prelude.{◌≡◌, IfOk, pos};
ghost use Rattle.pads_resolution.specs.declared.expr.Expr.TheVariants as expr_form;
ghost use Rattle.pads_rules.specs.Sorts.{num, text as text_sort, truth as truth_sort};
ghost use Rattle.pads_ast.specs.Trees.{points_of};
ghost use Rattle.pads_resolution.specs.Expressions as expressions;
ghost use Rattle.pads_resolution.specs.Expressions.{as_sort};

use crate::members::{is_struct, member_sort};
use crate::names::sort_known;
use crate::numbers::{choice_number, member_number};
use crate::scope::Types;
use crate::texts::{points, text};
use pads_ast::{Number, UnaryOperator, Word};
use pads_declared::{TypeTable, element};
use pads_expr::BinOp;
use pads_resolution::{Expr, ResolvedExpr};
use pads_rules::{ExprSort, Form, result_of, unary_gives};
use pads_value::{Boxed, Memory};
use std::alloc::Global;

pub(crate) fn number(value: &Number) -> ResolvedExpr
    ensures made { result ≡ as_sort (expr_form.Number (pos value.now)) num }
{
    ResolvedExpr {
        expr: Expr::Number(value.get()),
        sort: ExprSort::plain(Form::Num),
    }
}

pub(crate) fn word(alloc: Global, word: &Word) -> Result<ResolvedExpr, Memory>
    ensures made { IfOk result (λ made. made ≡ as_sort (expr_form.Word (points_of word.now)) text_sort) }
{
    Ok(ResolvedExpr {
        expr: Expr::Word(points(alloc, word)?),
        sort: ExprSort::plain(Form::Text),
    })
}

pub(crate) fn truth(value: bool) -> ResolvedExpr
    ensures made { result ≡ as_sort (expr_form.Truth value) truth_sort }
{
    ResolvedExpr {
        expr: Expr::Truth(value),
        sort: ExprSort::plain(Form::Truth),
    }
}

/// An operator between two operands.
#[tactic(auto, unfolding(pads_resolution::specs::Expressions::binary))]
pub(crate) fn binary(
    alloc: Global,
    written: BinOp,
    left: ResolvedExpr,
    right: ResolvedExpr,
) -> Result<ResolvedExpr, Memory>
    ensures made { IfOk result (λ made. made ≡ expressions.binary written left right) }
{
    Ok(ResolvedExpr {
        expr: Expr::Binary {
            operator: written,
            left: Boxed::new(alloc, left.expr)?,
            right: Boxed::new(alloc, right.expr)?,
        },
        sort: result_of(written),
    })
}

fn unary_expr(alloc: Global, written: UnaryOperator, operand: Expr) -> Result<Expr, Memory>
    ensures made { IfOk result (λ made. made ≡ expressions.unary_expr written operand) }
{
    let operand = Boxed::new(alloc, operand)?;
    match written {
        UnaryOperator::Minus => Ok(Expr::Minus(operand)),
        UnaryOperator::Not => Ok(Expr::Not(operand)),
    }
}

/// A sign before an operand.
#[tactic(auto, unfolding(pads_resolution::specs::Expressions::unary))]
pub(crate) fn unary(
    alloc: Global,
    written: UnaryOperator,
    operand: ResolvedExpr,
) -> Result<ResolvedExpr, Memory>
    ensures made { IfOk result (λ made. made ≡ expressions.unary written operand) }
{
    Ok(ResolvedExpr {
        expr: unary_expr(alloc, written, operand.expr)?,
        sort: unary_gives(written),
    })
}

fn part(alloc: Global, whole: Expr, number: u16, sort: ExprSort) -> Result<ResolvedExpr, Memory>
    ensures made { IfOk result (λ made. made ≡ as_sort (expr_form.Part whole number (expressions.sort_known sort)) sort) }
{
    Ok(ResolvedExpr {
        expr: Expr::Part {
            whole: Boxed::new(alloc, whole)?,
            number,
            sort: sort_known(sort),
        },
        sort,
    })
}

fn branch(alloc: Global, whole: Expr, number: u16, sort: ExprSort) -> Result<ResolvedExpr, Memory>
    ensures made { IfOk result (λ made. made ≡ as_sort (expr_form.Branch whole number (expressions.sort_known sort)) sort) }
{
    Ok(ResolvedExpr {
        expr: Expr::Branch {
            whole: Boxed::new(alloc, whole)?,
            number,
            sort: sort_known(sort),
        },
        sort,
    })
}

fn member_as(
    alloc: Global,
    of_struct: bool,
    whole: Expr,
    number: u16,
    sort: ExprSort,
) -> Result<ResolvedExpr, Memory>
    ensures made { IfOk result (λ made. made ≡ expressions.member_as of_struct whole number sort) }
{
    if of_struct {
        part(alloc, whole, number, sort)
    } else {
        branch(alloc, whole, number, sort)
    }
}

/// `.name` behind something.
#[tactic(auto, unfolding(pads_resolution::specs::Expressions::member_of))]
pub(crate) fn member_of(
    alloc: Global,
    types: &Types<'_>,
    whole: ResolvedExpr,
    name: &[u8],
) -> Result<ResolvedExpr, Memory>
    ensures made { IfOk result (λ made. made ≡ expressions.member_of types.now.decls.now types.now.env.now whole name.now) }
{
    let of_struct = is_struct(whole.sort);
    let number = member_number(types, whole.sort, name);
    let sort = member_sort(types.env, whole.sort, name);
    member_as(alloc, of_struct, whole.expr, number, sort)
}

fn element_as(
    alloc: Global,
    array: Expr,
    index: Expr,
    sort: ExprSort,
) -> Result<ResolvedExpr, Memory>
    ensures made { IfOk result (λ made. made ≡ expressions.element_as array index sort) }
{
    Ok(ResolvedExpr {
        expr: Expr::Index {
            array: Boxed::new(alloc, array)?,
            index: Boxed::new(alloc, index)?,
            sort: sort_known(sort),
        },
        sort,
    })
}

/// `[index]` behind something.
#[tactic(auto, unfolding(pads_resolution::specs::Expressions::indexed))]
pub(crate) fn indexed(
    alloc: Global,
    env: &TypeTable,
    whole: ResolvedExpr,
    index: ResolvedExpr,
) -> Result<ResolvedExpr, Memory>
    ensures made { IfOk result (λ made. made ≡ expressions.indexed env.now whole index) }
{
    let sort = element(env, whole.sort);
    element_as(alloc, whole.expr, index.expr, sort)
}

#[tactic(auto, unfolding(pads_resolution::specs::Expressions::pis))]
pub(crate) fn pis(
    alloc: Global,
    env: &TypeTable,
    value: ResolvedExpr,
    name: &[u8],
) -> Result<ResolvedExpr, Memory>
    ensures made { IfOk result (λ made. made ≡ expressions.pis env.now value name.now) }
{
    let number = choice_number(env, value.sort, name);
    Ok(ResolvedExpr {
        expr: Expr::Pis {
            value: Boxed::new(alloc, value.expr)?,
            number,
        },
        sort: ExprSort::plain(Form::Truth),
    })
}

#[tactic(auto, unfolding(pads_resolution::specs::Expressions::plen))]
pub(crate) fn plen(alloc: Global, value: ResolvedExpr) -> Result<ResolvedExpr, Memory>
    ensures made { IfOk result (λ made. made ≡ expressions.plen value) }
{
    Ok(ResolvedExpr {
        expr: Expr::Plen(Boxed::new(alloc, value.expr)?),
        sort: ExprSort::plain(Form::Num),
    })
}

#[tactic(auto, unfolding(pads_resolution::specs::Expressions::pforall))]
pub(crate) fn pforall(
    alloc: Global,
    name: &[u8],
    low: ResolvedExpr,
    high: ResolvedExpr,
    body: ResolvedExpr,
) -> Result<ResolvedExpr, Memory>
    ensures made { IfOk result (λ made. made ≡ expressions.pforall name.now low high body) }
{
    Ok(ResolvedExpr {
        expr: Expr::Pforall {
            variable: text(alloc, name)?,
            low: Boxed::new(alloc, low.expr)?,
            high: Boxed::new(alloc, high.expr)?,
            body: Boxed::new(alloc, body.expr)?,
        },
        sort: ExprSort::plain(Form::Truth),
    })
}
