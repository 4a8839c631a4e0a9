//! The arguments of types.

ghost use Rattle.std.specs.Prelude.{◌≡◌};
ghost use Rattle.pads_declared.specs.Meanings.{meant};
ghost use Rattle.pads_judge.specs.Scopes.{names_in_scope};
ghost use Rattle.pads_piece_rules.specs.Told.{stands, expression_told, argument_told, arguments_told};

use crate::Site;
use crate::base_rules::{agrees_with, args_of, param_sort, takes_end};
use crate::site::meaning_at;
use pads_ast::{Arg, Expr, Type};
use pads_declared::Meaning;
use pads_judge::{Scope, judge};
use pads_rules::{CheckFault, Rule, fault_if, lesser};

/// An expression as an argument of a number.
fn expression(
    site: &Site<'_>,
    scope: &Scope<'_, '_>,
    meaning: Meaning<'_>,
    number: usize,
    e: &Expr,
) -> Option<CheckFault>
    ensures told { result ≡ expression_told (stands site.now).env (names_in_scope scope.now) (meant meaning.entry) number e.now }
{
    let judgement = judge(site.env, e, scope);
    let agrees = agrees_with(param_sort(meaning, number), judgement.sort);
    lesser(
        judgement.fault,
        fault_if(!agrees, Rule::ArgumentSort, judgement.first),
    )
}

/// One of so many arguments, by its number.
#[tactic(auto, unfolding(crate::specs::Told::argument_told), using(crate::proofs::PieceLemmas::argument_rules))]
fn argument(
    site: &Site<'_>,
    scope: &Scope<'_, '_>,
    meaning: Meaning<'_>,
    count: usize,
    number: usize,
    arg: &Arg,
) -> Option<CheckFault>
    ensures told { result ≡ argument_told (stands site.now) (names_in_scope scope.now) (meant meaning.entry) count number arg.now }
{
    match arg {
        Arg::Expr(e) => expression(site, scope, meaning, number, e),
        Arg::Peor { at } => {
            let end = takes_end(meaning);
            fault_if(!(end && count == 1), Rule::ArgumentSort, *at)
        }
    }
}

/// The arguments of a type.
pub(crate) fn arguments(site: &Site<'_>, scope: &Scope<'_, '_>, of: &Type) -> Option<CheckFault>
    ensures told { result ≡ arguments_told (stands site.now) (names_in_scope scope.now) of.now }
{
    let args = args_of(of);
    let meaning = meaning_at(site, of);
    let mut best = None;
    for number in 0..args.len() {
        let wrong = argument(site, scope, meaning, args.len(), number, &args[number]);
        best = lesser(best, wrong);
    }
    best
}
