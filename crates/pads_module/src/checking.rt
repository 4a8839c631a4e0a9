//! Whether the names, calls and variables of terms are there.
ghost use Rattle.std.specs.Prelude.{◌≡◌, ◌&&◌, nat_lt, length, map, slice_get};
ghost use Rattle.std.specs.List.{list_all};
ghost use Rattle.pads_module.specs.Bound.{bound_names};
ghost use Rattle.pads_module.specs.Scopes.{has_arity as has_arity_of, name_there as name_there_of, exprs_in_scope as exprs_in_scope_of, in_scope as in_scope_of, arities_of, parts_in, arm_in, case_in, binding_of, option_term_in, seq_in, decl_in_scope, shape_there, module_in_scope};

use crate::scope::{BoundNames, expr_in_scope, exprs_in_scope, name_there, option_expr_in_scope};
use pads_calc::{Arm, Case, Decl, Exprs, Part, Seq, Shape, Term};
use pads_value::NameTable;

/// How many names there are, and the declarations.
#[derive(Drop)]
struct Table<'a> {
    names: u64,
    decls: &'a [Decl],
}

/// How many parameters a declaration has.
fn arity_at(decls: &[Decl], number: u16) -> Option<u64>
    ensures arity { result ≡ slice_get (arities_of decls.now) number }
{
    Some(decls.get(number as usize)?.params.len())
}

/// Whether a call has its declaration's number of arguments.
fn has_arity(decls: &[Decl], number: u16, count: u64) -> bool
    ensures arity { result ≡ has_arity_of (slice_get (arities_of decls.now) number) count }
{
    match arity_at(decls, number) {
        None => false,
        Some(arity) => arity == count,
    }
}

/// Whether the names of parts are there.
fn part_names_there(names: u64, parts: &[Part]) -> bool
    ensures there { result ≡ list_all (λ part. name_there_of names part.name) parts.now }
{
    parts.iter().all(|part| name_there(names, part.name))
}

impl Table<'_> {
    /// A call's declaration and its arguments.
    fn call(&self, number: u16, args: &Exprs, scope: &BoundNames<'_>) -> bool
        ensures call { result ≡ (has_arity_of (slice_get (arities_of self.now.decls.now) number) (length args.now) && exprs_in_scope_of self.now.names args.now (bound_names scope.now)) }
    {
        has_arity(self.decls, number, args.len())
            && exprs_in_scope(self.names, args.as_slice(), scope)
    }

    /// A term where these names are bound.
    #[cycle(in_scope)]
    #[tactic(auto, using(std::proofs::lemmas::Grind::common_steps, crate::proofs::TermRolls::term_rules, crate::proofs::ScopeRolls::bound_rules))]
    fn term(&self, term: &Term, scope: &BoundNames<'_>) -> bool
        ensures in_scope { result ≡ in_scope_of self.now.names (arities_of self.now.decls.now) term.now (bound_names scope.now) }
    {
        match term {
            Term::Unit => true,
            Term::Base(_, args) => exprs_in_scope(self.names, args.as_slice(), scope),
            Term::Lit(_) => true,
            Term::Eor => true,
            Term::Struct(parts) => {
                part_names_there(self.names, parts.as_slice())
                    && self.parts(parts.as_slice(), scope)
            }
            Term::Alt(arms) => self.arms(arms.as_slice(), scope),
            Term::Switch(e, cases) => {
                expr_in_scope(self.names, e, scope) && self.cases(cases.as_slice(), scope)
            }
            Term::Guard(inner, binder, condition) => {
                if !self.term(inner.get(), scope) {
                    return false;
                }
                if u64::from(*binder) >= self.names {
                    return false;
                }
                expr_in_scope(self.names, condition, &BoundNames::Bind(*binder, &*scope))
            }
            Term::Seq(seq) => self.seq(seq.get(), scope),
            Term::Call(number, args) => self.call(*number, args, scope),
            Term::Compute(e, _) => expr_in_scope(self.names, e, scope),
            Term::Absorb(inner) => self.term(inner.get(), scope),
            Term::Scan(inner) => self.term(inner.get(), scope),
        }
    }

    /// The parts of a struct, each with the names of the earlier ones.
    #[cycle(in_scope)]
    fn parts(&self, parts: &[Part], scope: &BoundNames<'_>) -> bool
        ensures in_scope { result ≡ parts_in (map (binding_of self.now.names (arities_of self.now.decls.now)) parts.now) (bound_names scope.now) }
    {
        for (number, part) in parts.iter().enumerate() {
            if !self.term(&part.term, &BoundNames::Parts(&parts[..number], &*scope)) {
                return false;
            }
        }
        true
    }

    #[cycle(in_scope)]
    fn arm(&self, arm: &Arm, scope: &BoundNames<'_>) -> bool
        ensures in_scope { result ≡ arm_in self.now.names (arities_of self.now.decls.now) arm.now (bound_names scope.now) }
    {
        u64::from(arm.name) < self.names && self.term(&arm.term, scope)
    }

    #[cycle(in_scope)]
    fn arms(&self, arms: &[Arm], scope: &BoundNames<'_>) -> bool
        ensures in_scope { result ≡ list_all (λ arm. arm_in self.now.names (arities_of self.now.decls.now) arm (bound_names scope.now)) arms.now }
    {
        for arm in arms {
            if !self.arm(arm, scope) {
                return false;
            }
        }
        true
    }

    #[cycle(in_scope)]
    fn cases(&self, cases: &[Case], scope: &BoundNames<'_>) -> bool
        ensures in_scope { result ≡ list_all (λ case. case_in self.now.names (arities_of self.now.decls.now) case (bound_names scope.now)) cases.now }
    {
        for case in cases {
            if !self.arm(&case.arm, scope) {
                return false;
            }
        }
        true
    }

    #[cycle(in_scope)]
    fn option_term(&self, term: &Option<Term>, scope: &BoundNames<'_>) -> bool
        ensures in_scope { result ≡ option_term_in self.now.names (arities_of self.now.decls.now) term.now (bound_names scope.now) }
    {
        match term {
            None => true,
            Some(term) => self.term(term, scope),
        }
    }

    #[cycle(in_scope)]
    #[tactic(auto, using(std::proofs::lemmas::Grind::common_steps, crate::proofs::ScopeRolls::bound_rules))]
    fn seq(&self, seq: &Seq, scope: &BoundNames<'_>) -> bool
        ensures in_scope { result ≡ seq_in self.now.names (arities_of self.now.decls.now) seq.now (bound_names scope.now) }
    {
        if !self.term(&seq.elem, scope) {
            return false;
        }
        if !self.option_term(&seq.sep, scope) {
            return false;
        }
        if !self.option_term(&seq.stop, scope) {
            return false;
        }
        if u64::from(seq.elts) >= self.names {
            return false;
        }
        if !option_expr_in_scope(self.names, &seq.size, scope) {
            return false;
        }
        option_expr_in_scope(self.names, &seq.last, &BoundNames::Bind(seq.elts, &*scope))
    }

    /// A declaration.
    fn decl(&self, decl: &Decl) -> bool
        ensures in_scope { result ≡ decl_in_scope self.now.names (arities_of self.now.decls.now) decl.now }
    {
        u64::from(decl.name) < self.names
            && params_there(self.names, decl.params.as_slice())
            && self.term(&decl.body, &BoundNames::Params(decl.params.as_slice()))
    }

    /// All declarations.
    fn all(&self) -> bool
        ensures in_scope { result ≡ list_all (decl_in_scope self.now.names (arities_of self.now.decls.now)) self.now.decls.now }
    {
        self.decls.iter().all(|decl| self.decl(decl))
    }
}

/// Whether the names of parameters are there.
fn params_there(names: u64, params: &[u16]) -> bool
    ensures there { result ≡ list_all (λ name. nat_lt name names) params.now }
{
    params.iter().all(|name| u64::from(*name) < names)
}

/// Whether the declarations of records are there.
fn shape_is_there(decls: u64, shape: &Shape) -> bool
    ensures there { result ≡ shape_there decls shape.now }
{
    name_there(decls, shape.head) && u64::from(shape.each) < decls
}

/// Whether all names, calls and variables of declarations are there.
pub(crate) fn all_in_scope(decls: &[Decl], names: &NameTable, shape: &Shape) -> bool
    ensures in_scope { result ≡ module_in_scope decls.now names.now shape.now }
{
    let table = Table {
        names: names.len(),
        decls,
    };
    table.all() && shape_is_there(decls.len() as u64, shape)
}
