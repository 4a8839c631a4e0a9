//! Names in expressions.

ghost use Rattle.std.specs.Prelude.{◌≡◌, IfOk};
ghost use Rattle.pads_resolution.specs.Expressions as expressions;
ghost use Rattle.pads_resolve_expr.specs.Scopes.{names_in_scope};

use crate::scope::{NameScope, known};
use crate::texts::text;
use pads_resolution::{Expr, Known, NameUse, ResolvedExpr, Stands};
use pads_rules::{ExprSort, Form, Sort};
use pads_value::Memory;
use std::alloc::Global;

/// A sort as a resolved tree has it: one that isn't known is a number's.
pub fn sort_known(sort: ExprSort) -> Sort
    ensures sort { result ≡ expressions.sort_known sort }
{
    match sort {
        ExprSort::Known(sort) => sort,
        ExprSort::Unknown | ExprSort::Nothing => {
            Sort {
                optional: 0,
                form: Form::Num,
            }
        }
    }
}

/// What a name stands for.
fn meaning(alloc: Global, name: &[u8], stands: Stands) -> Result<NameUse, Memory>
    ensures meaning { IfOk result (λ made. made ≡ expressions.meaning_of name.now stands) }
{
    match stands {
        Stands::Variable => Ok(NameUse::Variable(text(alloc, name)?)),
        Stands::Elts => Ok(NameUse::Elts),
        Stands::Length => Ok(NameUse::Length),
        Stands::Field(number) => Ok(NameUse::Field(number)),
    }
}

/// A name in scope.
fn known_name(alloc: Global, name: &[u8], known: Known) -> Result<ResolvedExpr, Memory>
    ensures made { IfOk result (λ made. made ≡ expressions.known_name name.now known) }
{
    let meaning = meaning(alloc, name, known.stands)?;
    let sort = sort_known(known.sort);
    Ok(ResolvedExpr {
        expr: Expr::Name { meaning, sort },
        sort: known.sort,
    })
}

/// What is known of a name that isn't in scope.
fn unknown() -> Known
    ensures unknown { result ≡ expressions.unknown_name }
{
    Known {
        stands: Stands::Variable,
        sort: ExprSort::Unknown,
    }
}

/// A name in a scope.
#[tactic(auto, unfolding(pads_resolution::specs::Expressions::name_in))]
pub(crate) fn name_in(
    alloc: Global,
    scope: &NameScope<'_, '_>,
    name: &[u8],
) -> Result<ResolvedExpr, Memory>
    ensures made { IfOk result (λ made. made ≡ expressions.name_in (names_in_scope scope.now) name.now) }
{
    match known(scope, name) {
        Some(known) => known_name(alloc, name, known),
        None => known_name(alloc, name, unknown()),
    }
}
