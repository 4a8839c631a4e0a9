ghost use Rattle.std.specs.Prelude.{◌≡◌, fold};
ghost use Rattle.pads_rules.specs.Judging.{judged};
ghost use Rattle.pads_judge.specs.Judgements.{shown_judgement, linked, stepped};
ghost use Rattle.pads_judge.specs.Scopes.{names_in_scope};

use crate::forms::{
    binary, indexed, member_of, parenthesized, pforall, pis, place_of, plen, unary, variable,
};
use crate::judgement::leaf;
use crate::{Judgement, Scope};
use pads_ast::{Expr, Link, Step};
use pads_declared::TypeTable;
use pads_rules::{ExprSort, Form};

/// What is known of an expression with the declared types of its description, in a scope. It takes no memory.
#[cycle(judge)]
#[tactic(auto, using(std::proofs::lemmas::Grind::common_steps, crate::proofs::FormLemmas::forms))]
pub fn judge(env: &TypeTable, e: &Expr, scope: &Scope<'_, '_>) -> Judgement
    ensures judged { result ≡ shown_judgement (judged env.now e.now (names_in_scope scope.now)) }
{
    match e {
        Expr::Chain { first, rest } => {
            let first = judge(env, first.get(), scope);
            chain(env, first, rest.as_slice(), scope)
        }
        Expr::Unary {
            operator,
            at,
            operand,
        } => unary(*operator, *at, judge(env, operand.get(), scope)),
        Expr::Post { base, steps } => {
            let base = judge(env, base.get(), scope);
            post(env, base, steps.as_slice(), scope)
        }
        Expr::Number { at, .. } => leaf(*at, ExprSort::plain(Form::Num)),
        Expr::Word(word) => leaf(place_of(word), ExprSort::plain(Form::Text)),
        Expr::Truth { at, .. } => leaf(*at, ExprSort::plain(Form::Truth)),
        Expr::Name(name) => variable(scope, name),
        Expr::Paren { at, inner } => parenthesized(*at, judge(env, inner.get(), scope)),
        Expr::Pis { at, value, name } => {
            let value = judge(env, value.get(), scope);
            pis(env, *at, value, name)
        }
        Expr::Plen { at, value } => plen(*at, judge(env, value.get(), scope)),
        Expr::Pforall {
            at,
            variable,
            low,
            high,
            body,
        } => {
            let low = judge(env, low.get(), scope);
            let high = judge(env, high.get(), scope);
            let name = variable.text.as_slice();
            let num = ExprSort::plain(Form::Num);
            let body = judge(env, body.get(), &Scope::Hiding(name, num, &*scope));
            pforall(*at, low, high, body)
        }
    }
}

/// Operators with their operands behind a first operand, nested to the left.
#[cycle(judge)]
fn chain(
    env: &TypeTable,
    first: Judgement,
    links: &[Link<Expr>],
    scope: &Scope<'_, '_>,
) -> Judgement
    ensures links { result ≡ fold (linked env.now (names_in_scope scope.now)) first links.now }
{
    let mut left = first;
    for link in links {
        left = binary(link.operator, left, judge(env, &link.operand, scope));
    }
    left
}

/// Names and indexes behind an atom, nested to the left.
#[cycle(judge)]
fn post(env: &TypeTable, base: Judgement, steps: &[Step<Expr>], scope: &Scope<'_, '_>) -> Judgement
    ensures steps { result ≡ fold (stepped env.now (names_in_scope scope.now)) base steps.now }
{
    let mut whole = base;
    for next in steps {
        whole = match next {
            Step::Name(name) => member_of(env, whole, name),
            Step::Index { index, .. } => indexed(env, whole, judge(env, index, scope)),
        };
    }
    whole
}
