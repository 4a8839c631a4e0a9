//! The names that are bound where a term or an expression stands.
ghost use Rattle.std.specs.Prelude.{◌≡◌, ◌&&◌, nat_lt};
ghost use Rattle.std.specs.List.{list_any, list_all};
ghost use Rattle.pads_module.specs.Bound.{bound_names, has_name};
ghost use Rattle.pads_module.specs.Scopes.{is_bound, expr_in_scope as expr_in_scope_of, exprs_in_scope as exprs_in_scope_of, option_in_scope, name_there as name_there_of};

use pads_calc::Part;
use pads_expr::Expr;

/// Names that are bound, the latest outside.
#[derive(Drop)]
pub(crate) enum BoundNames<'s> {
    /// The parameters of a declaration.
    Params(&'s [u16]),
    /// One more name.
    Bind(u16, &'s BoundNames<'s>),
    /// The names of a struct's parts so far.
    Parts(&'s [Part], &'s BoundNames<'s>),
}

/// Whether a part has this name.
fn has_this_name(part: &Part, name: u16) -> bool
    ensures named { result ≡ has_name name part.now.name }
{
    match part.name {
        None => false,
        Some(bound) => name == bound,
    }
}

/// Whether one of the parts has this name.
fn is_part(parts: &[Part], name: u16) -> bool
    ensures named { result ≡ list_any (λ part. has_name name part.name) parts.now }
{
    parts.iter().any(|part| has_this_name(part, name))
}

/// Whether the name is one of these.
fn is_one_of(names: &[u16], name: u16) -> bool
    ensures bound { result ≡ is_bound name names.now }
{
    names.iter().any(|bound| name == *bound)
}

/// Whether the name is bound.

fn is_in_scope(scope: &BoundNames<'_>, name: u16) -> bool
    ensures bound { result ≡ is_bound name (bound_names scope.now) }
{
    match scope {
        BoundNames::Params(names) => is_one_of(*names, name),
        BoundNames::Bind(bound, outer) => name == *bound || is_in_scope(*outer, name),
        BoundNames::Parts(parts, outer) => is_part(*parts, name) || is_in_scope(*outer, name),
    }
}

/// Whether each variable of an expression is bound, and each name is one of so many.
#[tactic(auto, using(std::proofs::lemmas::Grind::common_steps, crate::proofs::ExprRolls::expr_rules, crate::proofs::ScopeRolls::bound_rules))]
pub(crate) fn expr_in_scope(names: u64, e: &Expr, scope: &BoundNames<'_>) -> bool
    ensures bound { result ≡ expr_in_scope_of names e.now (bound_names scope.now) }
{
    match e {
        Expr::Num(_) => true,
        Expr::Text(_) => true,
        Expr::Truth(_) => true,
        Expr::Var(name) => is_in_scope(scope, *name),
        Expr::Part(whole, _) => expr_in_scope(names, whole.get(), scope),
        Expr::Arm(whole, _) => expr_in_scope(names, whole.get(), scope),
        Expr::Elem(whole, index) => {
            expr_in_scope(names, whole.get(), scope) && expr_in_scope(names, index.get(), scope)
        }
        Expr::IsArm(whole, _) => expr_in_scope(names, whole.get(), scope),
        Expr::Len(whole) => expr_in_scope(names, whole.get(), scope),
        Expr::Neg(operand) => expr_in_scope(names, operand.get(), scope),
        Expr::Not(operand) => expr_in_scope(names, operand.get(), scope),
        Expr::Bin(_, left, right) => {
            expr_in_scope(names, left.get(), scope) && expr_in_scope(names, right.get(), scope)
        }
        Expr::Forall(name, first, last, body) => {
            if u64::from(*name) >= names {
                return false;
            }
            if !expr_in_scope(names, first.get(), scope) {
                return false;
            }
            if !expr_in_scope(names, last.get(), scope) {
                return false;
            }
            expr_in_scope(names, body.get(), &BoundNames::Bind(*name, &*scope))
        }
    }
}

/// The same of each of some expressions.
pub(crate) fn exprs_in_scope(names: u64, es: &[Expr], scope: &BoundNames<'_>) -> bool
    ensures bound { result ≡ exprs_in_scope_of names es.now (bound_names scope.now) }
{
    for e in es {
        if !expr_in_scope(names, e, scope) {
            return false;
        }
    }
    true
}

/// The same of an expression, if there is one.
pub(crate) fn option_expr_in_scope(names: u64, e: &Option<Expr>, scope: &BoundNames<'_>) -> bool
    ensures bound { result ≡ option_in_scope names e.now (bound_names scope.now) }
{
    match e {
        None => true,
        Some(e) => expr_in_scope(names, e, scope),
    }
}

/// Whether a name, if there is one, is one of so many.
pub(crate) fn name_there(names: u64, name: Option<u16>) -> bool
    ensures there { result ≡ name_there_of names name }
{
    match name {
        None => true,
        Some(name) => u64::from(name) < names,
    }
}
