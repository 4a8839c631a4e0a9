//! Direct cases: what each call answers, as tables.
use crate::{
    Label, Labels, Order, Range, decode_text, encode_text, in_class, read_bin, read_char,
    read_class, read_enum, read_fixed, read_ip, read_until, spell_bin, spell_ip,
};
use pads_code::Coding;
use pads_value::{Bytes, Cause, Items, Memory, Read};
use std::alloc::Global;
use std::process::Abort;
use std::test::Fail;

const ASCII: Coding = Coding::Ascii;

const INT16: Range = Range {
    low: -32768,
    high: 32767,
};

const UINT64: Range = Range {
    low: 0,
    high: 18446744073709551615,
};

fn assert_text(rt: &impl Abort, read: Read<Bytes>, wanted: &[u8]) {
    match read {
        Read::Good(size, text) => {
            assert_eq!(rt; size, wanted.len() as u64);
            assert!(rt; text.as_slice() == wanted);
        }
        _ => assert!(rt; false),
    }
}

fn assert_hard(rt: &impl Abort, read: Read<Bytes>, wanted: Cause) {
    match read {
        Read::Hard(cause) => assert!(rt; cause == wanted),
        _ => assert!(rt; false),
    }
}

#[test]
fn classes_take_their_longest_run(rt: HostRuntime) -> Result<(), Fail> {
    assert_text(&rt, read_class(rt.alloc(), ASCII, b"A-C", b"ABD")?, b"AB");
    assert_text(&rt, read_class(rt.alloc(), ASCII, b"-a", b"-")?, b"-");
    assert_text(&rt, read_class(rt.alloc(), ASCII, b"a-", b"-")?, b"-");
    assert_hard(
        &rt,
        read_class(rt.alloc(), ASCII, b"C-A", b"ABD")?,
        Cause::BadParam,
    );
    assert_hard(
        &rt,
        read_class(rt.alloc(), ASCII, b"", b"ABD")?,
        Cause::BadParam,
    );
    assert_hard(
        &rt,
        read_class(rt.alloc(), ASCII, b"x", b"ABD")?,
        Cause::Invalid,
    );
    Ok(())
}

#[test]
fn a_class_text_is_read_from_the_left(rt: HostRuntime) {
    assert_eq!(rt; in_class(b"--a", b'`'), Some(true));
    assert_eq!(rt; in_class(b"--a", b'b'), Some(false));
    assert_eq!(rt; in_class(b"x--", b'x'), None);
    assert_eq!(rt; in_class(b"A-Za-z0-9", b'7'), Some(true));
}

#[test]
fn texts_end_where_they_should(rt: HostRuntime) -> Result<(), Fail> {
    assert_text(
        &rt,
        read_until(rt.alloc(), ASCII, Some(b'|'), b"ab|c")?,
        b"ab",
    );
    assert_text(
        &rt,
        read_until(rt.alloc(), ASCII, Some(b'|'), b"abc")?,
        b"abc",
    );
    assert_text(&rt, read_until(rt.alloc(), ASCII, None, b"ab|c")?, b"ab|c");
    assert_text(&rt, read_fixed(rt.alloc(), ASCII, 2, b"abc")?, b"ab");
    assert_hard(&rt, read_fixed(rt.alloc(), ASCII, 4, b"abc")?, Cause::Width);
    assert_hard(
        &rt,
        read_fixed(rt.alloc(), ASCII, -1, b"abc")?,
        Cause::BadParam,
    );
    assert_text(
        &rt,
        read_char(rt.alloc(), Coding::Ebcdic, b"\xc1\xc2")?,
        b"A",
    );
    assert_hard(&rt, read_char(rt.alloc(), ASCII, b"")?, Cause::Width);
    Ok(())
}

#[test]
fn all_code_points_go_through_ebcdic_and_back(rt: HostRuntime) -> Result<(), Fail> {
    let mut points = Vec::new(rt.alloc());
    for point in 0..=255u8 {
        points.push(point)?;
    }
    let bytes = encode_text(rt.alloc(), Coding::Ebcdic, &points)?;
    let back = decode_text(rt.alloc(), Coding::Ebcdic, bytes.as_slice())?;
    assert!(rt; back.as_slice() == points.as_slice());
    assert!(rt; bytes.as_slice() != points.as_slice());
    Ok(())
}

#[test]
fn addresses_are_four_octets(rt: HostRuntime) {
    let cases: [(&[u8], Read<i128>); 6] = [
        (b"207.136.97.49 ", Read::Good(13, 3481821489)),
        (b"1.2.3.256", Read::Hard(Cause::Invalid)),
        (b"001.2.3.4", Read::Good(9, 16909060)),
        (b"0001.2.3.4", Read::Hard(Cause::Invalid)),
        (b"1.2.3", Read::Hard(Cause::Invalid)),
        (b"255.255.255.255", Read::Good(15, 4294967295)),
    ];
    for (bytes, wanted) in cases {
        assert_eq!(rt; read_ip(ASCII, bytes), wanted);
    }
    if let Some(spelled) = spell_ip(ASCII, 3481821489) {
        assert_eq!(rt; spelled.as_slice(), b"207.136.97.49".as_slice());
    } else {
        assert!(rt; false);
    }
    assert!(rt; spell_ip(ASCII, -1).is_none());
    assert!(rt; spell_ip(ASCII, 4294967296).is_none());
}

#[test]
fn binary_integers_have_an_order_and_a_size(rt: HostRuntime) {
    let bytes = b"\x80\x00\x00\x00\x00\x00\x00\x01\x00";
    let cases: [(Range, Order, i128, Read<i128>); 9] = [
        (INT16, Order::High, 2, Read::Good(2, -32768)),
        (INT16, Order::Low, 2, Read::Good(2, 128)),
        (INT16, Order::High, 1, Read::Good(1, -128)),
        (INT16, Order::High, 3, Read::Soft(3, Cause::Range)),
        (UINT64, Order::High, 8, Read::Good(8, 9223372036854775809)),
        (UINT64, Order::Low, 8, Read::Good(8, 72057594037928064)),
        (UINT64, Order::High, 0, Read::Hard(Cause::BadParam)),
        (UINT64, Order::High, 9, Read::Hard(Cause::BadParam)),
        (UINT64, Order::High, 4, Read::Good(4, 2147483648)),
    ];
    for (range, order, size, wanted) in cases {
        assert_eq!(rt; read_bin(range, order, size, bytes), wanted);
    }
    assert_eq!(rt;
        read_bin(INT16, Order::Low, 2, b"a"),
        Read::Hard(Cause::Width)
    );
    if let Some(spelled) = spell_bin(INT16, Order::High, 2, -32768) {
        assert_eq!(rt; spelled.as_slice(), b"\x80\x00".as_slice());
    } else {
        assert!(rt; false);
    }
    assert!(rt; spell_bin(INT16, Order::High, 1, 128).is_none());
}

fn label(alloc: Global, spelling: &[u8]) -> Result<Label, Memory> {
    Ok(Label {
        name: Bytes::from_slice(alloc, spelling)?,
        spelling: Bytes::from_slice(alloc, spelling)?,
    })
}

#[test]
fn the_longest_spelling_is_chosen(rt: HostRuntime) -> Result<(), Fail> {
    let mut labels: Labels = Items::new(rt.alloc());
    labels.push(label(rt.alloc(), b"a")?)?;
    labels.push(label(rt.alloc(), b"ab")?)?;
    labels.push(label(rt.alloc(), b"ab")?)?;
    if labels.len() <= 3 {
        assert_eq!(rt; read_enum(ASCII, &labels, b"abc"), Read::Good(2, 1));
        assert_eq!(rt; read_enum(ASCII, &labels, b"ac"), Read::Good(1, 0));
        assert_eq!(rt; read_enum(ASCII, &labels, b"c"), Read::Hard(Cause::Enum));
    }
    Ok(())
}
