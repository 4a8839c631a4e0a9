//! The translation of declarations.
ghost use Rattle.std.specs.Prelude.{◌≡◌, map, IfOk};
ghost use Rattle.pads_trans.specs.Terms.{constrained_type as constrained_type_of, type_of, optional as optional_of, body_of, read_body as read_body_of, decl_of};
ghost use Rattle.pads_trans.specs.Names.{number_of};

use crate::Numbering;
use crate::array::array;
use crate::body::{structure, union_term};
use crate::types::{enumeration, guarded, optional, type_term};
use pads_calc::{Decl, Decls, NameIds, Term};
use pads_code::Coding;
use pads_resolution::{Constraint, Decl as DeclTree, DeclBody, Param, Role, Type, Typedef};
use pads_value::{Items, Memory};
use std::alloc::Global;

/// A type under the constraint of its typedef, if there is one.
fn constrained_type(
    alloc: Global,
    names: &Numbering,
    inner: Term,
    constraint: &Option<Constraint>,
) -> Result<Term, Memory>
    ensures constrained { IfOk result (λ made. made ≡ constrained_type_of names.now inner constraint.now) }
{
    match constraint {
        None => Ok(inner),
        Some(constraint) => {
            let variable = constraint.variable.as_slice();
            guarded(alloc, names, inner, variable, &constraint.condition)
        }
    }
}

fn typedef(
    alloc: Global,
    names: &Numbering,
    ambient: Coding,
    body: &Typedef,
) -> Result<Term, Memory>
    ensures made { IfOk result (λ made. made ≡ constrained_type_of names.now (type_of names.now ambient body.now.of) body.now.constraint) }
{
    let inner = type_term(alloc, names, ambient, &body.of)?;
    constrained_type(alloc, names, inner, &body.constraint)
}

fn declared_optional(
    alloc: Global,
    names: &Numbering,
    ambient: Coding,
    of: &Type,
) -> Result<Term, Memory>
    ensures made { IfOk result (λ made. made ≡ optional_of names.now (type_of names.now ambient of.now)) }
{
    let inner = type_term(alloc, names, ambient, of)?;
    optional(alloc, names, inner)
}

#[tactic(auto, unfolding(crate::specs::Terms::body_of))]
fn body(alloc: Global, names: &Numbering, ambient: Coding, body: &DeclBody) -> Result<Term, Memory>
    ensures made { IfOk result (λ made. made ≡ body_of names.now ambient body.now) }
{
    match body {
        DeclBody::Struct(body) => structure(alloc, names, ambient, body),
        DeclBody::Union(body) => union_term(alloc, names, ambient, body),
        DeclBody::Array(body) => array(alloc, names, ambient, body),
        DeclBody::Enum(labels) => enumeration(alloc, ambient, labels.as_slice()),
        DeclBody::Typedef(body) => typedef(alloc, names, ambient, body),
        DeclBody::Opt(of) => declared_optional(alloc, names, ambient, of),
    }
}

/// The body of a declaration that is read; nothing of one that isn't.
#[tactic(auto, unfolding(crate::specs::Terms::read_body))]
fn read_body(
    alloc: Global,
    names: &Numbering,
    ambient: Coding,
    role: Role,
    of: &DeclBody,
) -> Result<Term, Memory>
    ensures made { IfOk result (λ made. made ≡ read_body_of names.now ambient role of.now) }
{
    match role {
        Role::Part => body(alloc, names, ambient, of),
        Role::Precord => body(alloc, names, ambient, of),
        Role::Source => Ok(Term::Unit),
    }
}

fn params(alloc: Global, names: &Numbering, params: &[Param]) -> Result<NameIds, Memory>
    ensures params { IfOk result (λ made. made ≡ map (λ param. number_of names.now param.name) params.now) }
{
    let mut numbers = Items::new(alloc);
    for param in params {
        numbers.push(names.number(param.name.as_slice()))?;
    }
    Ok(numbers)
}

#[tactic(auto, unfolding(crate::specs::Terms::decl_of))]
fn decl(alloc: Global, names: &Numbering, ambient: Coding, decl: &DeclTree) -> Result<Decl, Memory>
    ensures decl { IfOk result (λ made. made ≡ decl_of names.now ambient decl.now) }
{
    let params = params(alloc, names, decl.params.as_slice())?;
    let body = read_body(alloc, names, ambient, decl.role, &decl.body)?;
    Ok(Decl {
        name: names.number(decl.name.as_slice()),
        params,
        body,
        set: true,
    })
}

/// Declarations in their order.
pub(crate) fn decls(
    alloc: Global,
    names: &Numbering,
    ambient: Coding,
    decls: &[DeclTree],
) -> Result<Decls, Memory>
    ensures decls { IfOk result (λ made. made ≡ map (decl_of names.now ambient) decls.now) }
{
    let mut made = Items::new(alloc);
    for one in decls {
        made.push(decl(alloc, names, ambient, one)?)?;
    }
    Ok(made)
}
