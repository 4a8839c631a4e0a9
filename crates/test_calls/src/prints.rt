//! What a text of four bytes is printed as: the answers of `print`, with its bytes and rows, read back by a
//! machine over the image of the module.
use crate::pieces::{Made, one};
use crate::terms::{module, named};
use pads_calc::{Base, Term};
use pads_code::Coding;
use pads_compile::compile;
use pads_expr::Expr;
use pads_frame::Discipline;
use pads_machine::Machine;
use pads_module::Module;
use pads_print::{Printed, print};
use pads_value::{Items, Val};
use std::alloc::Global;
use std::fmt::Write;
use std::test::Fail;

/// A struct of one text in a field of four bytes.
fn field(alloc: Global) -> Made<Term> {
    let width = one(alloc, Ok(Expr::Num(4)))?;
    let text = Ok(Term::Base(Base::Fixed(Coding::Ascii), width));
    Ok(Term::Struct(one(alloc, named(0, text))?))
}

/// What a value is printed as, read back by a machine over the rules' image; nothing where records of 16
/// bytes don't suit the discipline.
fn print_by(
    alloc: Global,
    rules: &Module,
    discipline: Discipline,
    value: &Val,
) -> Result<Option<Printed>, Fail> {
    if !discipline.fits(16) {
        return Ok(None);
    }
    let image = compile(alloc, rules)?;
    let mut machine = Machine::new(alloc, &image)?;
    let printed = print(alloc, &mut machine, &image, rules, discipline, 16, 0, value)?;
    Ok(Some(printed))
}

/// What the struct of a text is printed as.
fn print_text(alloc: Global, discipline: Discipline, text: &[u8]) -> Result<Option<Printed>, Fail> {
    let text = Items::from_slice(alloc, text)?;
    let value = Val::Tuple(one(alloc, Ok(Val::Text(text)))?);
    let rules = module(alloc, field(alloc))?;
    print_by(alloc, &rules, discipline, &value)
}

/// The struct of a text as it is printed: the bytes by their numbers, and how many rows they read as.
fn printed(alloc: Global, discipline: Discipline, text: &[u8]) -> Result<String, Fail> {
    let answer = print_text(alloc, discipline, text)?;
    let mut out = String::new(alloc);
    match answer {
        None => {}
        Some(Printed::Framed(input)) => {
            for byte in input.as_slice() {
                write!(out, "{byte} ")?;
            }
            out.push_str("framed")?;
        }
        Some(Printed::Ambiguous { bytes, rows }) => {
            for byte in bytes.as_slice() {
                write!(out, "{byte} ")?;
            }
            write!(out, "ambiguous, {} rows", rows.len())?;
        }
        Some(Printed::NotAValue) => out.push_str("not a value")?,
    }
    Ok(out)
}

#[test]
fn a_text_with_a_newline(rt: HostRuntime) -> Result<(), Fail> {
    let alloc = rt.alloc();
    for (discipline, text, want) in [
        (
            Discipline::Fixed(4),
            b"a\nbc".as_slice(),
            "97 10 98 99 framed",
        ),
        (
            Discipline::Term(10),
            b"a\nbc".as_slice(),
            "97 10 98 99 ambiguous, 2 rows",
        ),
        (Discipline::Fixed(4), b"abc".as_slice(), "not a value"),
    ] {
        assert_eq!(rt; printed(alloc, discipline, text)?.as_str(), want);
    }
    Ok(())
}
