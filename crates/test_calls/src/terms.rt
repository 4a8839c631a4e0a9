//! Lines of values by terms that no description stands for.
use crate::lines::{clean_line, value_line};
use crate::pieces::{Made, boxed, one, two};
use pads_calc::{Base, Decl, Part, Shape, Term};
use pads_code::Coding;
use pads_expr::Expr;
use pads_int::Kind;
use pads_module::{IllFormed, Module};
use pads_value::{Items, NameTable, Refusal, Val};
use std::alloc::Global;
use std::test::Fail;

/// `a` by the number 0, and two letters above 7F by the number 1.
fn names(alloc: Global) -> Made<NameTable> {
    let mut table = NameTable::new(alloc);
    for name in [b"a".as_slice(), b"\xE9\xFF".as_slice()] {
        if table.len() < 65_535 {
            table.add(name)?;
        }
    }
    Ok(table)
}

fn decl(alloc: Global, body: Made<Term>) -> Made<Decl> {
    Ok(Decl {
        name: 0,
        params: Items::new(alloc),
        body: body?,
        set: true,
    })
}

/// The module of one declaration with this body.
pub(crate) fn module(alloc: Global, body: Made<Term>) -> Result<Module, Refusal<IllFormed>> {
    let shape = Shape {
        head: None,
        each: 0,
    };
    Module::new(alloc, one(alloc, decl(alloc, body))?, names(alloc)?, shape)
}

/// An unsigned number of 64 bits, in ASCII.
fn number(alloc: Global) -> Made<Term> {
    let base = Base::Int(Kind::U64, Coding::Ascii);
    Ok(Term::Base(base, Items::new(alloc)))
}

pub(crate) fn named(name: u16, term: Made<Term>) -> Made<Part> {
    Ok(Part {
        name: Some(name),
        term: term?,
    })
}

#[test]
fn nothing(rt: HostRuntime) -> Result<(), Fail> {
    let alloc = rt.alloc();
    let module = module(alloc, Ok(Term::Unit))?;
    let line = value_line(alloc, &module, Ok(Val::Unit))?;
    let wanted = clean_line(alloc, "null")?;
    assert_eq!(rt; line.as_slice(), wanted.as_bytes());
    Ok(())
}

fn sought(alloc: Global) -> Made<Term> {
    Ok(Term::Scan(boxed(alloc, number(alloc))?))
}

/// A search for a number under a constraint.
fn wrapped(alloc: Global) -> Made<Term> {
    let inner = boxed(alloc, sought(alloc))?;
    Ok(Term::Guard(inner, 0, Expr::Truth(true)))
}

#[test]
fn a_value_behind_wrappers(rt: HostRuntime) -> Result<(), Fail> {
    let alloc = rt.alloc();
    let module = module(alloc, wrapped(alloc))?;
    let line = value_line(alloc, &module, Ok(Val::Num(7)))?;
    let wanted = clean_line(alloc, "7")?;
    assert_eq!(rt; line.as_slice(), wanted.as_bytes());
    Ok(())
}

/// `a` twice.
fn alike(alloc: Global) -> Made<Term> {
    let parts = two(alloc, named(0, number(alloc)), named(0, number(alloc)));
    Ok(Term::Struct(parts?))
}

#[test]
fn parts_of_one_name(rt: HostRuntime) -> Result<(), Fail> {
    let alloc = rt.alloc();
    let module = module(alloc, alike(alloc))?;
    let values = two(alloc, Ok(Val::Num(3)), Ok(Val::Num(7)))?;
    let line = value_line(alloc, &module, Ok(Val::Tuple(values)))?;
    let wanted = clean_line(alloc, "{\"a\":7}")?;
    assert_eq!(rt; line.as_slice(), wanted.as_bytes());
    Ok(())
}

/// A part with a name above 7F.
fn lettered(alloc: Global) -> Made<Term> {
    Ok(Term::Struct(one(alloc, named(1, number(alloc)))?))
}

#[test]
fn a_name_above_7f(rt: HostRuntime) -> Result<(), Fail> {
    let alloc = rt.alloc();
    let module = module(alloc, lettered(alloc))?;
    let values = one(alloc, Ok(Val::Num(3)))?;
    let line = value_line(alloc, &module, Ok(Val::Tuple(values)))?;
    let wanted = clean_line(alloc, "{\"\u{E9}\u{FF}\":3}")?;
    assert_eq!(rt; line.as_slice(), wanted.as_bytes());
    Ok(())
}
