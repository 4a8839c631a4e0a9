//! `record_line` of values and descriptors that no reading gives, and `node_line`.
use crate::pieces::{Made, boxed, leaf, node, one, row, two};
use pads_code::Coding;
use pads_describe::describe;
use pads_json::{node_line, record_line};
use pads_module::Module;
use pads_nodes::Step;
use pads_value::{Bytes, Cause, Pd, Val};
use std::alloc::Global;
use std::test::Fail;

/// The line of record 2, which is clean, goes from byte 4 to byte 9 and has this value.
pub(crate) fn value_line(alloc: Global, module: &Module, value: Made<Val>) -> Made<Bytes> {
    record_line(alloc, module, &row(alloc, value, leaf(alloc, None, 4, 9))?)
}

/// That line, where its value is written so.
pub(crate) fn clean_line(alloc: Global, value: &str) -> Made<String> {
    let line = format!(in alloc;
        "{{\"class\":\"Ok\",\"faults\":[],\"nerr\":0,\"next\":9,\"record\":2,\"span\":[4,9],\"value\":{value}}}\n"
    )?;
    Ok(line)
}

/// Whether the value's line says `null`.
fn is_null(alloc: Global, description: &str, value: Made<Val>) -> Made<bool> {
    let Ok(module) = describe(alloc, description.as_bytes(), Coding::Ascii) else {
        return Ok(false);
    };
    let line = value_line(alloc, &module, value)?;
    let wanted = clean_line(alloc, "null")?;
    Ok(line.as_slice() == wanted.as_bytes())
}

#[test]
fn numbers_that_are_none_of_the_type(rt: HostRuntime) -> Result<(), Fail> {
    for (description, number) in [
        ("Precord Ptypedef Puint64 r;", 18_446_744_073_709_551_616),
        ("Precord Ptypedef Pint64 r;", -9_223_372_036_854_775_809),
        ("Precord Ptypedef Pip r;", 4_294_967_296),
        ("Precord Ptypedef Pip r;", -1),
        ("Precord Ptypedef Pstring(:Peor:) r;", 3),
    ] {
        let is_null = is_null(rt.alloc(), description, Ok(Val::Num(number)))?;
        assert!(rt; is_null, "{number} by {description}");
    }
    Ok(())
}

fn text(alloc: Global) -> Made<Val> {
    Ok(Val::Text(Bytes::from_slice(alloc, b"3")?))
}

fn branch(alloc: Global, number: u16) -> Made<Val> {
    Ok(Val::Branch(number, boxed(alloc, Ok(Val::Num(7)))?))
}

/// The values of a struct without its last one.
fn too_few(alloc: Global) -> Made<Val> {
    Ok(Val::Tuple(two(alloc, Ok(Val::Num(3)), Ok(Val::Unit))?))
}

fn array(alloc: Global) -> Made<Val> {
    Ok(Val::Array(two(alloc, Ok(Val::Num(3)), Ok(Val::Num(7)))?))
}

#[test]
fn values_of_another_form(rt: HostRuntime) -> Result<(), Fail> {
    let alloc = rt.alloc();
    assert!(rt; is_null(alloc, "Precord Ptypedef Puint64 r;", text(alloc))?);
    assert!(rt; is_null(alloc, "Precord Penum r { GET, PUT };", Ok(Val::Enum(2)))?);
    assert!(rt; is_null(alloc, "Precord Popt Puint64 r;", branch(alloc, 2))?);
    let triple = "Precord Pstruct r { Puint64 b; ','; Pstring(:Peor:) a; };";
    assert!(rt; is_null(alloc, triple, too_few(alloc))?);
    let pair = "Precord Pstruct r { Puint64 a; Puint64 b; };";
    assert!(rt; is_null(alloc, pair, array(alloc))?);
    Ok(())
}

/// A missing number and a literal.
fn half_missing(alloc: Global) -> Made<Val> {
    Ok(Val::Tuple(two(alloc, Ok(Val::Missing), Ok(Val::Unit))?))
}

fn two_faults(alloc: Global) -> Made<Pd> {
    let kids = two(
        alloc,
        leaf(alloc, Some(Cause::Invalid), 4, 4),
        leaf(alloc, Some(Cause::Skipped), 4, 9),
    );
    node(Some(Cause::Constraint), 4, 9, kids)
}

/// A constraint isn't asked of what is faulty, so no reading has this: a node with a cause comes before its kids.
#[test]
fn a_constraint_over_faulty_parts(rt: HostRuntime) -> Result<(), Fail> {
    let alloc = rt.alloc();
    let text = b"Pstruct s { Puint64 a; ','; }; Precord Pstruct r { s b; };";
    let module = describe(alloc, text, Coding::Ascii)?;
    let value = Val::Tuple(one(alloc, half_missing(alloc))?);
    let body = node(None, 4, 9, one(alloc, two_faults(alloc)));
    let line = record_line(alloc, &module, &row(alloc, Ok(value), body)?)?;
    let wanted =
        br#"{"class":"Err","faults":[{"at":"b","cause":"CONSTRAINT","span":[4,9]},{"at":"b.a","cause":"INVALID","span":[4,4]},{"at":"b.#1","cause":"SKIPPED","span":[4,9]}],"nerr":3,"next":9,"record":2,"span":[4,9],"value":{"b":{"a":null}}}
"#;
    assert_eq!(rt; line.as_slice(), wanted.as_slice());
    Ok(())
}

/// A kid that its term doesn't give is counted, and has no entry.
#[test]
fn a_kid_of_a_number(rt: HostRuntime) -> Result<(), Fail> {
    let alloc = rt.alloc();
    let module = describe(alloc, b"Precord Ptypedef Puint64 r;", Coding::Ascii)?;
    let kids = one(alloc, leaf(alloc, Some(Cause::Range), 4, 9));
    let row = row(alloc, Ok(Val::Num(7)), node(None, 4, 9, kids))?;
    let line = record_line(alloc, &module, &row)?;
    let wanted = br#"{"class":"Err","faults":[],"nerr":1,"next":9,"record":2,"span":[4,9],"value":7}
"#;
    assert_eq!(rt; line.as_slice(), wanted.as_slice());
    Ok(())
}

/// The line of a struct's last part, and that of one which the struct doesn't have.
#[test]
fn a_line_of_a_node(rt: HostRuntime) -> Result<(), Fail> {
    let alloc = rt.alloc();
    let text = b"Precord Pstruct r { Puint64 a; ','; Puint64 b; };";
    let module = describe(alloc, text, Coding::Ascii)?;
    for (part, wanted) in [
        (
            2,
            "{\"class\":\"Ok\",\"nerr\":0,\"record\":5,\"span\":[6,9],\"value\":712}\n",
        ),
        (
            3,
            "{\"class\":\"Ok\",\"nerr\":0,\"record\":5,\"span\":[6,9],\"value\":null}\n",
        ),
    ] {
        let steps = one(alloc, Ok(Step::Part(part)))?;
        let pd = leaf(alloc, None, 6, 9)?;
        let line = node_line(alloc, &module, &steps, 5, &Val::Num(712), &pd)?;
        assert_eq!(rt; line.as_slice(), wanted.as_bytes());
    }
    Ok(())
}
