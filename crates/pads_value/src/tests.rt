use super::*;
use std::alloc::Global;
use std::test::Fail;

fn crosses_threads<T: Send + Sync>(_value: &T) {}

fn text(alloc: Global, bytes: &[u8]) -> Result<Bytes, Memory> {
    Items::from_slice(alloc, bytes)
}

/// `(7, "ab", [no value], some ())`
fn tuple(alloc: Global) -> Result<Val, Memory> {
    let mut elements = Items::new(alloc);
    elements.push(Val::Missing)?;
    let mut parts = Items::new(alloc);
    parts.push(Val::Num(7))?;
    parts.push(Val::Text(text(alloc, b"ab")?))?;
    parts.push(Val::Array(elements))?;
    parts.push(Val::Branch(0, Boxed::new(alloc, Val::Unit)?))?;
    Ok(Val::Tuple(parts))
}

#[test]
fn a_copy_is_the_same_and_a_changed_value_is_not(rt: HostRuntime) -> Result<(), Fail> {
    let value = tuple(rt.alloc())?;
    let copied = value.copy(rt.alloc())?;
    assert!(rt; copied.same(&value));
    assert!(rt; !copied.same(&Val::Enum(7)));
    Ok(())
}

#[test]
fn a_struct_counts_the_faults_below_it(rt: HostRuntime) -> Result<(), Fail> {
    let span = Span { begin: 0, end: 3 };
    let own = Own {
        cause: Cause::Range,
        fails: false,
    };
    let mut kids = Items::new(rt.alloc());
    kids.push(Pd::of(Some(own), span, Items::new(rt.alloc())))?;
    let mut late = Pd::of(None, span, Items::new(rt.alloc()));
    if late.class == Class::Ok {
        late.add_cause(Cause::Skipped, 2);
    }
    kids.push(late)?;
    let node = Pd::of(None, span, kids);
    assert_eq!(rt; node.nerr, 2);
    assert!(rt; node.class == Class::Err);
    assert!(rt; node.cause.is_none());
    Ok(())
}

#[test]
fn a_kept_frame_lends_the_same_bytes(rt: HostRuntime) -> Result<(), Fail> {
    let bytes = b"3,7";
    let frame = Frame {
        first: 4,
        end: 7,
        bytes,
        mark: Mark::Plain,
    };
    let kept = frame.keep(rt.alloc())?;
    crosses_threads(&kept);
    let lent = kept.lend();
    assert_eq!(rt; lent.bytes, bytes.as_slice());
    assert_eq!(rt; lent.first, 4);
    assert!(rt; lent.mark == Mark::Plain);
    Ok(())
}

#[test]
fn names_are_numbered_as_they_first_come(rt: HostRuntime) -> Result<(), Fail> {
    let mut table = NameTable::new(rt.alloc());
    let mut numbers = [9; 3];
    for (i, name) in [b"x", b"y", b"x"].iter().enumerate() {
        if table.len() < 65_535 {
            numbers[i] = table.add(name.as_slice())?;
        }
    }
    assert_eq!(rt; numbers, [0, 1, 0]);
    assert_eq!(rt; table.at(1), Some(b"y".as_slice()));
    assert_eq!(rt; table.at(2), None);
    Ok(())
}

#[test]
fn a_list_gives_back_what_it_took(rt: HostRuntime) -> Result<(), Fail> {
    let mut list = text(rt.alloc(), b"ab")?;
    list.push(b'c')?;
    list.extend_from_slice(b"de")?;
    assert_eq!(rt; list.pop(), Some(b'e'));
    assert_eq!(rt; list.len(), 4);
    assert_eq!(rt; list.get(2).copied(), Some(b'c'));
    assert_eq!(rt;
        Items::from_vec(list.into_vec()).as_slice(),
        b"abcd".as_slice()
    );
    Ok(())
}

#[test]
fn rows_cross_threads(rt: HostRuntime) -> Result<(), Fail> {
    let row = Row {
        number: 0,
        value: tuple(rt.alloc())?,
        pd: Pd::of(None, Span { begin: 0, end: 0 }, Items::new(rt.alloc())),
        next: 0,
    };
    crosses_threads(&row);
    let mut rows: Rows = Items::new(rt.alloc());
    rows.push(row)?;
    crosses_threads(&rows);
    Ok(())
}
