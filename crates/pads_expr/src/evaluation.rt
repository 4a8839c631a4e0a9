ghost use Rattle.std.specs.Prelude.{◌≡◌, ℤ, pos, ◌+ℤ◌, ◌<◌, ◌∷◌, FitsSigned, IfSome, Some, option_map, reverse};
ghost use Rattle.std.specs.Int.{w128};
ghost use Rattle.std.specs.Option.{option_copied};
ghost use Rattle.pads_expr.specs.Ranges as ranges;
ghost use Rattle.pads_expr.specs.Ranges.{range_size};
ghost use Rattle.pads_expr.specs.Scopes.{pairs_of};
ghost use Rattle.pads_expr.specs.Seen.{seen};
ghost use Rattle.pads_expr.specs.Value.{value, found, variable_of, at_number};
ghost use Rattle.pads_expr.specs.Operators.{between};
ghost use Rattle.pads_expr.specs.Parts.{element_of, worth_of};
ghost use Rattle.pads_expr.specs.Unary.{operate_one};
ghost use Rattle.pads_expr.specs.Worth.{Num, Text, Truth, on, truth_alone, worth_or_none};
ghost use Rattle.pads_expr.specs.declared.expr.BinOp.TheVariants.{And, Or};

use crate::lent::lent_value;
use crate::operators::{Unary, apply, apply_one, compares, holds_for, is_decided};
use crate::parts::{arm_of, element_of, part_of, worth};
use crate::worth::{is_true, truth, truth_alone, truth_of};
use crate::{BinOp, Binding, Env, Expr, Lent, Res};
use pads_value::Val;

/// An environment with the latest bindings, which live on the stack: a value that is lent, and the
/// variables of the `Pforall`s that are open.
#[derive(Clone, Copy)]
enum OpenBindings<'s, 'a> {
    Base(&'a [Binding]),
    Names(&'a [Lent<'a>]),
    Lent(u16, &'a Val, &'s OpenBindings<'s, 'a>),
    Bind(u16, i128, &'s OpenBindings<'s, 'a>),
}

/// What a name stands for in bindings of which the last comes first.
fn binding<'a>(bindings: &'a [Binding], name: u16) -> Option<&'a Val>
    ensures latest { option_copied result ≡ found (reverse bindings.now) name }
{
    let binding = bindings.iter().rev().find(|binding| binding.0 == name)?;
    Some(&binding.1)
}

/// What a name is worth in a scope.
fn variable<'a>(scope: &OpenBindings<'_, 'a>, name: u16) -> Option<Res<'a>>
    ensures value { option_map seen result ≡ worth_or_none (variable_of (pairs_of scope.now) name) }
{
    match scope {
        OpenBindings::Base(bindings) => worth(binding(bindings, name)?),
        OpenBindings::Names(bindings) => worth(lent_value(bindings, name)?),
        OpenBindings::Lent(bound, value, outer) => {
            if *bound == name {
                worth(value)
            } else {
                variable(*outer, name)
            }
        }
        OpenBindings::Bind(bound, number, outer) => {
            if *bound == name {
                Some(Res::Num(*number))
            } else {
                variable(*outer, name)
            }
        }
    }
}

/// The value that a name stands for, where it is one that is kept or lent.
fn bound<'a>(scope: &OpenBindings<'_, 'a>, name: u16) -> Option<&'a Val>
    ensures bound { IfSome result (λ val. found (pairs_of scope.now) name ≡ Some val.now) }
{
    match scope {
        OpenBindings::Base(bindings) => binding(bindings, name),
        OpenBindings::Names(bindings) => lent_value(bindings, name),
        OpenBindings::Lent(bound_name, value, outer) => {
            if *bound_name == name {
                Some(value)
            } else {
                bound(*outer, name)
            }
        }
        OpenBindings::Bind(bound_name, _, outer) => {
            if *bound_name == name {
                None
            } else {
                bound(*outer, name)
            }
        }
    }
}

/// How many numbers there are from `first` to `last`, where they aren't too many for a `Pforall`.
fn range_length(first: i128, last: i128) -> Option<u32>
    ensures length { result ≡ range_size first last }
{
    if last < first {
        return Some(0);
    }
    let distance = last.abs_diff(first);
    if distance < 1_048_576 {
        Some(distance as u32 + 1)
    } else {
        None
    }
}

/// The number so many steps after the first.
fn number_at(first: i128, step: u32) -> i128
    requires fits { FitsSigned w128 (first +ℤ pos step) }
    ensures number { result ≡ first +ℤ pos step }
{
    first + step as i128
}

/// The value of an expression in a scope. Each form that has operands is a function of its own, so that what stands
/// for itself takes little: a function pays for room for all that it holds.
#[cycle(evaluate)]
#[tactic(auto, using(std::proofs::lemmas::Grind::common_steps, crate::proofs::Steps::values))]
fn evaluate<'a>(e: &'a Expr, scope: &OpenBindings<'_, 'a>) -> Option<Res<'a>>
    ensures value { option_map seen result ≡ worth_or_none (value e.now (pairs_of scope.now)) }
{
    match e {
        Expr::Num(number) => Some(Res::Num(*number)),
        Expr::Text(text) => Some(Res::Text(text.as_slice())),
        Expr::Truth(truth) => Some(Res::Truth(*truth)),
        Expr::Var(name) => variable(scope, *name),
        Expr::Part(whole, number) => unary(Unary::Part(*number), whole.get(), scope),
        Expr::Arm(whole, number) => unary(Unary::Arm(*number), whole.get(), scope),
        Expr::Elem(whole, index) => element(whole.get(), index.get(), scope),
        Expr::IsArm(whole, number) => unary(Unary::IsArm(*number), whole.get(), scope),
        Expr::Len(whole) => unary(Unary::Len, whole.get(), scope),
        Expr::Neg(operand) => unary(Unary::Neg, operand.get(), scope),
        Expr::Not(operand) => unary(Unary::Not, operand.get(), scope),
        Expr::Bin(op, left, right) => operation(*op, left.get(), right.get(), scope),
        Expr::Forall(name, first, last, body) => {
            over_range(*name, first.get(), last.get(), body.get(), scope)
        }
    }
}

/// An operator on an expression.
#[cycle(evaluate)]
fn unary<'a>(op: Unary, operand: &'a Expr, scope: &OpenBindings<'_, 'a>) -> Option<Res<'a>>
    ensures value { option_map seen result ≡ worth_or_none (on (value operand.now (pairs_of scope.now)) (operate_one op)) }
{
    apply_one(op, evaluate(operand, scope)?)
}

/// An operator between two expressions.
#[cycle(evaluate)]
fn binary<'a>(
    op: BinOp,
    left: &'a Expr,
    right: &'a Expr,
    scope: &OpenBindings<'_, 'a>,
) -> Option<Res<'a>>
    ensures value { option_map seen result ≡ worth_or_none (between op (value left.now (pairs_of scope.now)) (value right.now (pairs_of scope.now))) }
{
    let left = evaluate(left, scope)?;
    if is_decided(op, left) {
        Some(left)
    } else {
        apply(op, left, evaluate(right, scope)?)
    }
}

/// An operator between two expressions, by what it asks of them.
#[cycle(evaluate)]
fn operation<'a>(
    op: BinOp,
    left: &'a Expr,
    right: &'a Expr,
    scope: &OpenBindings<'_, 'a>,
) -> Option<Res<'a>>
    ensures value { option_map seen result ≡ worth_or_none (between op (value left.now (pairs_of scope.now)) (value right.now (pairs_of scope.now))) }
{
    match op {
        BinOp::And => truth(both(left, right, scope)),
        BinOp::Or => truth(either(left, right, scope)),
        _ => match at_once(op, left, right, scope) {
            Some(holds) => Some(Res::Truth(holds)),
            None => binary(op, left, right, scope),
        },
    }
}

/// The truth value that an expression has, where it has one.
#[cycle(evaluate)]
fn holds<'a>(e: &'a Expr, scope: &OpenBindings<'_, 'a>) -> Option<bool>
    ensures truth { option_map Truth result ≡ truth_alone (worth_or_none (value e.now (pairs_of scope.now))) }
{
    match e {
        Expr::Bin(op, left, right) => condition(*op, left.get(), right.get(), scope),
        _ => truth_of(evaluate(e, scope)),
    }
}

/// The same of an operator between two expressions.
#[cycle(evaluate)]
fn condition<'a>(
    op: BinOp,
    left: &'a Expr,
    right: &'a Expr,
    scope: &OpenBindings<'_, 'a>,
) -> Option<bool>
    ensures truth { option_map Truth result ≡ truth_alone (worth_or_none (between op (value left.now (pairs_of scope.now)) (value right.now (pairs_of scope.now)))) }
{
    match op {
        BinOp::And => both(left, right, scope),
        BinOp::Or => either(left, right, scope),
        _ => match at_once(op, left, right, scope) {
            Some(holds) => Some(holds),
            None => truth_of(binary(op, left, right, scope)),
        },
    }
}

/// What a comparison says of two numbers or two texts that stand for themselves or in a value, where these are its
/// operands: nothing is made of them first.
#[cycle(evaluate)]
fn at_once<'a>(
    op: BinOp,
    left: &'a Expr,
    right: &'a Expr,
    scope: &OpenBindings<'_, 'a>,
) -> Option<bool>
    ensures truth { IfSome result (λ holds. worth_or_none (between op (value left.now (pairs_of scope.now)) (value right.now (pairs_of scope.now))) ≡ Some (Truth holds)) }
{
    if !compares(op) {
        return None;
    }
    if let Some(left) = number_in(left, scope) {
        let right = number_in(right, scope)?;
        return holds_for(op, left.cmp(right));
    }
    let left = text_in(left, scope)?;
    let right = text_in(right, scope)?;
    holds_for(op, left.cmp(right))
}

/// The number that stands for itself or in a value, where an expression is one.
#[cycle(evaluate)]
#[tactic(auto, using(std::proofs::lemmas::Grind::common_steps, crate::proofs::Steps::values))]
fn number_in<'a>(e: &'a Expr, scope: &OpenBindings<'_, 'a>) -> Option<&'a i128>
    ensures number { IfSome result (λ number. worth_or_none (value e.now (pairs_of scope.now)) ≡ Some (Num number.now)) }
{
    match e {
        Expr::Num(number) => Some(number),
        _ => match place(e, scope)? {
            Val::Num(number) => Some(number),
            _ => None,
        },
    }
}

/// The text that stands for itself or in a value, where an expression is one.
#[cycle(evaluate)]
#[tactic(auto, using(std::proofs::lemmas::Grind::common_steps, crate::proofs::Steps::values))]
fn text_in<'a>(e: &'a Expr, scope: &OpenBindings<'_, 'a>) -> Option<&'a [u8]>
    ensures text { IfSome result (λ text. worth_or_none (value e.now (pairs_of scope.now)) ≡ Some (Text text.now)) }
{
    match e {
        Expr::Text(text) => Some(text.as_slice()),
        _ => match place(e, scope)? {
            Val::Text(text) => Some(text.as_slice()),
            _ => None,
        },
    }
}

/// The value that a name, a part, a branch or an element stands for, where there is one.
#[cycle(evaluate)]
fn place<'a>(e: &'a Expr, scope: &OpenBindings<'_, 'a>) -> Option<&'a Val>
    ensures place { IfSome result (λ val. worth_or_none (value e.now (pairs_of scope.now)) ≡ worth_or_none (worth_of val.now)) }
{
    match e {
        Expr::Var(name) => bound(scope, *name),
        Expr::Part(whole, number) => part_of(place(whole.get(), scope)?, *number),
        Expr::Arm(whole, number) => arm_of(place(whole.get(), scope)?, *number),
        Expr::Elem(whole, index) => {
            let whole = place(whole.get(), scope)?;
            element_of(whole, evaluate(index.get(), scope)?)
        }
        _ => None,
    }
}

/// Whether both conditions are met. The right one is looked at where the left one is met.
#[cycle(evaluate)]
fn both<'a>(left: &'a Expr, right: &'a Expr, scope: &OpenBindings<'_, 'a>) -> Option<bool>
    ensures truth { option_map Truth result ≡ worth_or_none (between And (value left.now (pairs_of scope.now)) (value right.now (pairs_of scope.now))) }
{
    if holds(left, scope)? {
        holds(right, scope)
    } else {
        Some(false)
    }
}

/// Whether one of two conditions is met. The right one is looked at where the left one isn't met.
#[cycle(evaluate)]
fn either<'a>(left: &'a Expr, right: &'a Expr, scope: &OpenBindings<'_, 'a>) -> Option<bool>
    ensures truth { option_map Truth result ≡ worth_or_none (between Or (value left.now (pairs_of scope.now)) (value right.now (pairs_of scope.now))) }
{
    if holds(left, scope)? {
        Some(true)
    } else {
        holds(right, scope)
    }
}

/// An element of an array.
#[cycle(evaluate)]
fn element<'a>(whole: &'a Expr, index: &'a Expr, scope: &OpenBindings<'_, 'a>) -> Option<Res<'a>>
    ensures value { option_map seen result ≡ worth_or_none (on (value whole.now (pairs_of scope.now)) (λ array. on (value index.now (pairs_of scope.now)) (element_of array))) }
{
    evaluate(whole, scope)?.element(evaluate(index, scope)?)
}

/// Whether a body is true for each number from the one bound to the other.
#[cycle(evaluate)]
fn over_range<'a>(
    name: u16,
    first: &'a Expr,
    last: &'a Expr,
    body: &'a Expr,
    scope: &OpenBindings<'_, 'a>,
) -> Option<Res<'a>>
    ensures value { option_map seen result ≡ worth_or_none (on (value first.now (pairs_of scope.now)) (λ a. on (value last.now (pairs_of scope.now)) (λ b. ranges.for_all (at_number (value body.now) name (pairs_of scope.now)) a b))) }
{
    let first = evaluate(first, scope)?;
    let last = evaluate(last, scope)?;
    for_all(name, first, last, body, scope)
}

/// Whether a body is true for each number from `first` to `last`, with the variable bound to it.
#[cycle(evaluate)]
fn for_all<'a>(
    name: u16,
    first: Res<'a>,
    last: Res<'a>,
    body: &'a Expr,
    scope: &OpenBindings<'_, 'a>,
) -> Option<Res<'a>>
    ensures value { option_map seen result ≡ worth_or_none (ranges.for_all (at_number (value body.now) name (pairs_of scope.now)) (seen first.entry) (seen last.entry)) }
{
    let (Res::Num(first), Res::Num(last)) = (first, last) else {
        return None;
    };
    let length = range_length(first, last)?;
    for step in 0..length {
        let number = number_at(first, step);
        let holds = evaluate(body, &OpenBindings::Bind(name, number, &*scope));
        if !is_true(holds) {
            return truth_alone(holds);
        }
    }
    Some(Res::Truth(true))
}

/// The value of an expression where the last binding of a name counts. It takes no memory; texts and parts
/// are lent. `None` exactly where the expression has no value or is ill-sorted.
pub fn eval_in<'a>(e: &'a Expr, bindings: &'a [Binding]) -> Option<Res<'a>>
    ensures value { option_map seen result ≡ worth_or_none (value e.now (reverse bindings.now)) }
{
    evaluate(e, &OpenBindings::Base(bindings))
}

/// The same with one binding more, the latest, whose value is lent.
pub fn eval_with<'a>(
    e: &'a Expr,
    name: u16,
    lent: &'a Val,
    bindings: &'a [Binding],
) -> Option<Res<'a>>
    ensures value { option_map seen result ≡ worth_or_none (value e.now ((name, lent.now) ∷ reverse bindings.now)) }
{
    evaluate(
        e,
        &OpenBindings::Lent(name, lent, &OpenBindings::Base(bindings)),
    )
}

/// The same where the values of all bindings are lent.
pub fn eval_lent<'a>(e: &'a Expr, bindings: &'a [Lent<'a>]) -> Option<Res<'a>>
    ensures value { option_map seen result ≡ worth_or_none (value e.now (reverse bindings.now)) }
{
    evaluate(e, &OpenBindings::Names(bindings))
}

/// The value of an expression in an environment. It takes no memory; texts and parts are lent. `None`
/// exactly where the expression has no value or is ill-sorted.
pub fn eval<'a>(e: &'a Expr, env: &'a Env) -> Option<Res<'a>>
    ensures value { option_map seen result ≡ worth_or_none (value e.now env.now.pairs) }
{
    eval_in(e, env.as_slice())
}
