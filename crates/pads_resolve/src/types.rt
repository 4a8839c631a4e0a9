//! Types with their arguments, and the parameters of declarations.

ghost use Rattle.std.specs.Prelude.{◌≡◌, ◌++◌, map, IfOk, OnOk};
ghost use Rattle.pads_resolve.specs.Borrowed.{stands};
ghost use Rattle.pads_resolution.specs.Types as types;
ghost use Rattle.pads_resolve_expr.specs.Scopes.{names_in_scope};
ghost use Rattle.pads_ast.specs.Trees as trees;

use crate::expressions::expr_at;
use crate::site::{ResolvingSite, seen_types};
use pads_ast::{Arg, Param as WrittenParam, Type as WrittenType};
use pads_base_names::{BaseName, NamedCoding, base_name};
use pads_declared::{Sight, type_sort};
use pads_resolution::{Computed, Expr, Param, Params, Type, TypeName};
use pads_resolve_expr::{NameScope, short, sort_known, text};
use pads_value::{Items, Memory};
use std::alloc::Global;

/// A declared type by its number; one that is declared nowhere is a character.
fn declared_type(number: Option<usize>) -> TypeName
    ensures named { result ≡ types.declared_type number }
{
    match number {
        Some(number) => TypeName::Declared(short(number)),
        None => TypeName::Base(BaseName::Char(NamedCoding::Ambient)),
    }
}

/// The arguments of a type.
fn args_of(of: &WrittenType) -> &[Arg]
    ensures items { result.now ≡ trees.args_of of.now }
{
    match &of.args {
        Some(args) => args.as_slice(),
        None => &[],
    }
}

/// What a type's name names.
#[tactic(auto, unfolding(pads_resolution::specs::Types::named_type))]
fn named_type(sight: &Sight<'_>, of: &WrittenType) -> TypeName
    ensures named { result ≡ types.named_type sight.now of.now }
{
    let name = of.name.text.as_slice();
    match base_name(name) {
        Some(base) => TypeName::Base(base),
        None => declared_type(sight.number_of(name)),
    }
}

/// Puts an argument behind some others, where it is an expression.
#[tactic(auto, unfolding(pads_resolution::specs::Bodies::expr_at), using(crate::proofs::Steps::nothing_more))]
fn add_arg(
    alloc: Global,
    site: &ResolvingSite<'_>,
    scope: &NameScope<'_, '_>,
    args: &mut Items<Expr>,
    arg: &Arg,
) -> Result<(), Memory>
    ensures added { OnOk result (args.new ≡ args.old ++ types.arg_exprs (stands site.now).decls (stands site.now).env (names_in_scope scope.now) arg.now) }
{
    match arg {
        Arg::Expr(e) => args.push(expr_at(alloc, site, scope, e)?),
        Arg::Peor { .. } => Ok(()),
    }
}

/// The expressions among some arguments.
#[tactic(auto, unfolding(pads_resolution::specs::Types::args))]
fn args(
    alloc: Global,
    site: &ResolvingSite<'_>,
    scope: &NameScope<'_, '_>,
    written: &[Arg],
) -> Result<Items<Expr>, Memory>
    ensures made { IfOk result (λ made. made ≡ types.args (stands site.now).decls (stands site.now).env (names_in_scope scope.now) written.now) }
{
    let mut made = Items::new(alloc);
    for arg in written {
        add_arg(alloc, site, scope, &mut made, arg)?;
    }
    Ok(made)
}

/// A type where it stands in a declaration, in a scope.
#[tactic(auto, unfolding(pads_resolution::specs::Types::type_at))]
pub fn type_at(
    alloc: Global,
    site: &ResolvingSite<'_>,
    scope: &NameScope<'_, '_>,
    of: &WrittenType,
) -> Result<Type, Memory>
    ensures made { IfOk result (λ made. made ≡ types.type_at (stands site.now) (names_in_scope scope.now) of.now) }
{
    let args = args(alloc, site, scope, args_of(of))?;
    Ok(Type {
        optional: of.optional.is_some(),
        name: named_type(&seen_types(site), of),
        args,
    })
}

/// What a `Pcompute` of a type's name is to give: a number of the kind's range, else a text.
#[tactic(auto, unfolding(pads_resolution::specs::Types::computed_of))]
pub fn computed_of(of: &WrittenType) -> Computed
    ensures computed { result ≡ types.computed_of of.now }
{
    match base_name(of.name.text.as_slice()) {
        Some(BaseName::Int(_, kind)) => Computed::Int(kind),
        _ => Computed::Text,
    }
}

/// A parameter: its name, and the sort of its type.
#[tactic(auto, unfolding(pads_resolution::specs::Types::param_of))]
fn param_of(alloc: Global, sight: &Sight<'_>, param: &WrittenParam) -> Result<Param, Memory>
    ensures made { IfOk result (λ made. made ≡ types.param_of sight.now param.now) }
{
    let name = text(alloc, param.name.text.as_slice())?;
    let sort = sort_known(type_sort(sight, &param.of));
    Ok(Param { name, sort })
}

/// The parameters of a declaration.
pub fn params_of(
    alloc: Global,
    sight: &Sight<'_>,
    written: &[WrittenParam],
) -> Result<Params, Memory>
    ensures made { IfOk result (λ made. made ≡ map (types.param_of sight.now) written.now) }
{
    let mut made = Items::new(alloc);
    for param in written {
        made.push(param_of(alloc, sight, param)?)?;
    }
    Ok(made)
}
