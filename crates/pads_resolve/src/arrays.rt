//! Arrays.

ghost use Rattle.std.specs.Prelude.{◌≡◌, map, IfOk};
ghost use Rattle.pads_resolve.specs.Borrowed.{stands};
ghost use Rattle.pads_resolution.specs.Bodies as bodies;
ghost use Rattle.pads_resolve_expr.specs.Scopes.{names_in_scope};

use crate::{ResolvingSite, expr_at, literal_of, option_at, type_at};
use pads_ast::{Array as WrittenArray, ArrayOption as WrittenOption};
use pads_resolution::{Array, ArrayOption, Stands, Visible};
use pads_resolve_expr::{NameScope, points};
use pads_rules::{ExprSort, Form};
use pads_value::{Items, Memory};
use std::alloc::Global;

#[tactic(auto, unfolding(pads_resolution::specs::Bodies::array_option_at))]
fn array_option_at(
    alloc: Global,
    site: &ResolvingSite<'_>,
    scope: &NameScope<'_, '_>,
    option: &WrittenOption,
) -> Result<ArrayOption, Memory>
    ensures made { IfOk result (λ made. made ≡ bodies.array_option_at (stands site.now) (names_in_scope scope.now) option.now) }
{
    match option {
        WrittenOption::Psep { separator, .. } => Ok(ArrayOption::Psep(points(alloc, separator)?)),
        WrittenOption::Pterm { terminator, .. } => {
            Ok(ArrayOption::Pterm(literal_of(alloc, terminator)?))
        }
        WrittenOption::Plast { condition, .. } => {
            Ok(ArrayOption::Plast(expr_at(alloc, site, scope, condition)?))
        }
    }
}

fn array_options_at(
    alloc: Global,
    site: &ResolvingSite<'_>,
    scope: &NameScope<'_, '_>,
    options: &[WrittenOption],
) -> Result<Items<ArrayOption>, Memory>
    ensures made { IfOk result (λ made. made ≡ map (bodies.array_option_at (stands site.now) (names_in_scope scope.now)) options.now) }
{
    let mut made = Items::new(alloc);
    for option in options {
        made.push(array_option_at(alloc, site, scope, option)?)?;
    }
    Ok(made)
}

/// An array behind its parameters. Its conditions see its elements so far and their number.
#[tactic(auto, unfolding(pads_resolution::specs::Bodies::array_at), using(pads_resolve_expr::proofs::ScopeLemmas::scope_rules))]
pub(crate) fn array_at(
    alloc: Global,
    site: &ResolvingSite<'_>,
    params: &[Visible],
    d: &WrittenArray,
) -> Result<Array, Memory>
    ensures made { IfOk result (λ made. made ≡ bodies.array_at (stands site.now) params.now d.now) }
{
    let outside = NameScope::Names(params);
    let of = type_at(alloc, site, &outside, &d.of)?;
    let size = option_at(alloc, site, &outside, &d.size)?;
    let num = ExprSort::plain(Form::Num);
    let counted = NameScope::Hiding(b"length", Stands::Length, num, &outside);
    let array = ExprSort::plain(Form::Array(site.number as u64));
    let inside = NameScope::Hiding(b"elts", Stands::Elts, array, &counted);
    let options = array_options_at(alloc, site, &inside, d.options.as_slice())?;
    let condition = option_at(alloc, site, &inside, &d.condition)?;
    Ok(Array {
        of,
        size,
        options,
        condition,
    })
}
