//! Direct cases through the dispatch, as tables: what each base type reads and how it spells.
use crate::{Arg, Args, Base, labels_fit, read_base, spell_base};
use pads_bases::{Label, Labels, Order};
use pads_code::Coding;
use pads_int::Kind;
use pads_value::{Bytes, Cause, Items, Memory, Read, Val};
use std::alloc::Global;
use std::process::Abort;
use std::test::Fail;

const ASCII: Coding = Coding::Ascii;

const BAD: Read<Content> = Read::Hard(Cause::BadParam);

/// What an argument or a value holds.
#[derive(Clone, Copy)]
enum Content<'a> {
    Nothing,
    Num(i128),
    Text(&'a [u8]),
}

fn args_of(alloc: Global, content: Content<'_>) -> Result<Args, Memory> {
    let mut args = Items::new(alloc);
    match content {
        Content::Nothing => {}
        Content::Num(number) => args.push(Arg::Num(number))?,
        Content::Text(text) => args.push(Arg::Text(Bytes::from_slice(alloc, text)?))?,
    }
    Ok(args)
}

fn value_of(alloc: Global, content: Content<'_>) -> Result<Val, Memory> {
    Ok(match content {
        Content::Nothing => Val::Unit,
        Content::Num(number) => Val::Num(number),
        Content::Text(text) => Val::Text(Bytes::from_slice(alloc, text)?),
    })
}

/// The reading is the wanted one.
fn assert_read(
    rt: &impl Abort,
    alloc: Global,
    read: Read<Val>,
    wanted: Read<Content>,
) -> Result<(), Memory> {
    match (read, wanted) {
        (Read::Good(size, value), Read::Good(wanted_size, content)) => {
            assert_eq!(rt; size, wanted_size);
            assert!(rt; value.same(&value_of(alloc, content)?));
        }
        (Read::Soft(size, cause), Read::Soft(wanted_size, wanted_cause)) => {
            assert_eq!(rt; size, wanted_size);
            assert_eq!(rt; cause, wanted_cause);
        }
        (Read::Hard(cause), Read::Hard(wanted_cause)) => assert_eq!(rt; cause, wanted_cause),
        _ => assert!(rt; false),
    }
    Ok(())
}

/// The base type with this argument reads so.
fn assert_reads(
    rt: &impl Abort,
    alloc: Global,
    base: &Base,
    arg: Content<'_>,
    bytes: &[u8],
    wanted: Read<Content>,
) -> Result<(), Memory> {
    let args = args_of(alloc, arg)?;
    if labels_fit(base) {
        let read = read_base(alloc, base, &args, bytes)?;
        assert_read(rt, alloc, read, wanted)
    } else {
        Ok(assert!(rt; false))
    }
}

/// The base type with this argument spells the value so.
fn assert_spells(
    rt: &impl Abort,
    alloc: Global,
    base: &Base,
    arg: Content<'_>,
    value: &Val,
    wanted: Option<&[u8]>,
) -> Result<(), Memory> {
    let args = args_of(alloc, arg)?;
    match (spell_base(alloc, base, &args, value)?, wanted) {
        (Some(spelled), Some(wanted)) => assert!(rt; spelled.as_slice() == wanted),
        (None, None) => {}
        _ => assert!(rt; false),
    }
    Ok(())
}

#[test]
fn numbers_are_read(rt: HostRuntime) -> Result<(), Fail> {
    let nothing = Content::Nothing;
    let int = Base::Int(Kind::I8, Coding::Ebcdic);
    let field = Base::IntFw(Kind::U16, ASCII);
    let high = Base::Bin(Kind::I16, Order::High);
    let ip = Base::Ip(ASCII);
    let cases: [(&Base, Content, &[u8], Read<Content>); 12] = [
        (&int, nothing, b"\x60\xf1", Read::Good(2, Content::Num(-1))),
        (&int, nothing, b"\xf9\xf9\xf9", Read::Soft(3, Cause::Range)),
        (&int, Content::Num(1), b"\xf1", BAD),
        (
            &field,
            Content::Num(4),
            b"  12",
            Read::Good(4, Content::Num(12)),
        ),
        (&field, nothing, b"  12", BAD),
        (
            &high,
            nothing,
            b"\x80\x00",
            Read::Good(2, Content::Num(-32768)),
        ),
        (
            &high,
            Content::Num(1),
            b"\x80",
            Read::Good(1, Content::Num(-128)),
        ),
        (&high, Content::Num(0), b"\x80", BAD),
        (&high, Content::Num(9), b"\x80", BAD),
        (&high, nothing, b"\x80", Read::Hard(Cause::Width)),
        (&ip, nothing, b"1.2.3.256", Read::Hard(Cause::Invalid)),
        (&ip, nothing, b"0.0.1.0 ", Read::Good(7, Content::Num(256))),
    ];
    for (base, arg, bytes, wanted) in cases {
        assert_reads(&rt, rt.alloc(), base, arg, bytes, wanted)?;
    }
    Ok(())
}

#[test]
fn texts_are_read(rt: HostRuntime) -> Result<(), Fail> {
    let class = Base::Class(ASCII);
    let until = Base::Until(ASCII);
    let fixed = Base::Fixed(ASCII);
    let rest = Base::UntilEor(ASCII);
    let ab = Read::Good(2, Content::Text(b"AB"));
    let cases: [(&Base, Content, &[u8], Read<Content>); 10] = [
        (&class, Content::Text(b"A-C"), b"ABD", ab),
        (&class, Content::Text(b"C-A"), b"ABD", BAD),
        (&class, Content::Num(1), b"ABD", BAD),
        (&until, Content::Text(b"|"), b"AB|c", ab),
        (&until, Content::Text(b"||"), b"AB|c", BAD),
        (&until, Content::Text(b""), b"AB|c", BAD),
        (&fixed, Content::Num(2), b"ABD", ab),
        (&fixed, Content::Text(b"|"), b"ABD", BAD),
        (&rest, Content::Nothing, b"AB", ab),
        (&rest, Content::Text(b"|"), b"AB", BAD),
    ];
    for (base, arg, bytes, wanted) in cases {
        assert_reads(&rt, rt.alloc(), base, arg, bytes, wanted)?;
    }
    Ok(())
}

#[test]
fn values_are_spelled(rt: HostRuntime) -> Result<(), Fail> {
    let nothing = Content::Nothing;
    let int = Base::Int(Kind::I8, Coding::Ebcdic);
    let fixed = Base::Fixed(ASCII);
    let class = Base::Class(ASCII);
    let cases: [(&Base, Content, Content, Option<&[u8]>); 6] = [
        (&int, nothing, Content::Num(-1), Some(b"\x60\xf1")),
        (&int, nothing, Content::Num(128), None),
        (&int, nothing, Content::Text(b"1"), None),
        (&fixed, Content::Num(2), Content::Text(b"AB"), Some(b"AB")),
        (&fixed, Content::Num(3), Content::Text(b"AB"), None),
        (&class, Content::Text(b"B-C"), Content::Text(b"AB"), None),
    ];
    for (base, arg, content, wanted) in cases {
        let value = value_of(rt.alloc(), content)?;
        assert_spells(&rt, rt.alloc(), base, arg, &value, wanted)?;
    }
    Ok(())
}

fn label(alloc: Global, name: &[u8], spelling: &[u8]) -> Result<Label, Memory> {
    Ok(Label {
        name: Bytes::from_slice(alloc, name)?,
        spelling: Bytes::from_slice(alloc, spelling)?,
    })
}

#[test]
fn labels_go_by_their_spelling(rt: HostRuntime) -> Result<(), Fail> {
    let mut labels: Labels = Items::new(rt.alloc());
    labels.push(label(rt.alloc(), b"A", b"a")?)?;
    labels.push(label(rt.alloc(), b"B", b"ab")?)?;
    let letters = Base::Enum(ASCII, labels);
    let none = Content::Nothing;
    assert_spells(&rt, rt.alloc(), &letters, none, &Val::Enum(1), Some(b"ab"))?;
    assert_spells(&rt, rt.alloc(), &letters, none, &Val::Enum(2), None)?;
    assert_reads(
        &rt,
        rt.alloc(),
        &letters,
        none,
        b"c",
        Read::Hard(Cause::Enum),
    )?;
    Ok(())
}
