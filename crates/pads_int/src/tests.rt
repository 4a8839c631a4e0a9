//! Direct cases: what the readings answer and what is spelled, as tables.
use crate::{Kind, read_int, read_int_fw, spell_int, spell_int_fw};
use pads_code::Coding;
use pads_value::{Cause, Read};
use std::test::Fail;

const RANGE: Cause = Cause::Range;

#[test]
fn integers_are_as_long_as_their_digits(rt: HostRuntime) {
    let cases: [(Kind, &[u8], Read<i128>); 12] = [
        (Kind::I8, b"-128", Read::Good(4, -128)),
        (Kind::I8, b"127,", Read::Good(3, 127)),
        (Kind::I8, b"128", Read::Soft(3, RANGE)),
        (Kind::I8, b"-0007x", Read::Good(5, -7)),
        (Kind::U8, b"+255", Read::Good(4, 255)),
        (Kind::U8, b"-0", Read::Hard(Cause::Invalid)),
        (Kind::I16, b"-0", Read::Good(2, 0)),
        (Kind::I16, b"+-1", Read::Hard(Cause::Invalid)),
        (
            Kind::U64,
            b"18446744073709551615",
            Read::Good(20, 18446744073709551615),
        ),
        (Kind::U64, b"18446744073709551616", Read::Soft(20, RANGE)),
        (
            Kind::I64,
            b"-9223372036854775808",
            Read::Good(20, -9223372036854775808),
        ),
        (Kind::I64, b"", Read::Hard(Cause::Invalid)),
    ];
    for (kind, bytes, wanted) in cases {
        assert_eq!(rt; read_int(kind, Coding::Ascii, bytes), wanted);
    }
}

#[test]
fn ebcdic_digits_are_read_and_spelled(rt: HostRuntime) {
    assert_eq!(rt;
        read_int(Kind::U16, Coding::Ebcdic, b"\xf6\xf5\xf5\xf3\xf5\n"),
        Read::Good(5, 65535)
    );
    assert_eq!(rt;
        read_int(Kind::I8, Coding::Ebcdic, b"\x60\xf1\xf2\xf8"),
        Read::Good(4, -128)
    );
    assert_eq!(rt;
        read_int(Kind::I8, Coding::Ebcdic, b"-128"),
        Read::Hard(Cause::Invalid)
    );
    let Some(spelled) = spell_int(Kind::I8, Coding::Ebcdic, -128) else {
        return assert!(rt; false);
    };
    assert_eq!(rt; spelled.as_slice(), b"\x60\xf1\xf2\xf8".as_slice());
}

#[test]
fn a_field_has_blanks_and_one_integer(rt: HostRuntime) {
    let cases: [(i128, &[u8], Read<i128>); 9] = [
        (4, b"12 4", Read::Soft(4, Cause::Invalid)),
        (4, b"  12", Read::Good(4, 12)),
        (4, b" -12", Read::Good(4, -12)),
        (3, b"0127", Read::Good(3, 12)),
        (4, b"0128", Read::Soft(4, RANGE)),
        (4, b"    ", Read::Soft(4, Cause::Invalid)),
        (5, b"0127", Read::Hard(Cause::Width)),
        (0, b"0127", Read::Hard(Cause::BadParam)),
        (-1, b"0127", Read::Hard(Cause::BadParam)),
    ];
    for (width, bytes, wanted) in cases {
        assert_eq!(rt; read_int_fw(Kind::I8, Coding::Ascii, width, bytes), wanted);
    }
}

#[test]
fn a_million_digits_are_out_of_range(rt: HostRuntime) -> Result<(), Fail> {
    let digits = vec![in rt.alloc(); b'9'; 1_000_000]?;
    assert_eq!(rt;
        read_int(Kind::U64, Coding::Ascii, &digits),
        Read::Soft(1_000_000, RANGE)
    );
    assert_eq!(rt;
        read_int_fw(Kind::U64, Coding::Ascii, 1_000_000, &digits),
        Read::Soft(1_000_000, RANGE)
    );
    Ok(())
}

#[test]
fn numbers_are_plain_decimal(rt: HostRuntime) {
    let cases: [(Kind, i128, &[u8]); 4] = [
        (Kind::I8, -128, b"-128"),
        (Kind::I8, 127, b"127"),
        (Kind::U64, 18446744073709551615, b"18446744073709551615"),
        (Kind::I32, 0, b"0"),
    ];
    for (kind, number, wanted) in cases {
        if let Some(spelled) = spell_int(kind, Coding::Ascii, number) {
            assert_eq!(rt; spelled.as_slice(), wanted);
        } else {
            assert!(rt; false);
        }
    }
    assert!(rt; spell_int(Kind::I8, Coding::Ascii, 128).is_none());
    assert!(rt; spell_int(Kind::U8, Coding::Ascii, -1).is_none());
}

#[test]
fn a_field_is_filled_with_zeros(rt: HostRuntime) -> Result<(), Fail> {
    let Some(field) = spell_int_fw(rt.alloc(), Kind::I8, Coding::Ascii, 4, -5)? else {
        return Ok(assert!(rt; false));
    };
    assert_eq!(rt; field.as_slice(), b"-005".as_slice());
    assert!(rt; spell_int_fw(rt.alloc(), Kind::I8, Coding::Ascii, 2, -10)?.is_none());
    assert!(rt; spell_int_fw(rt.alloc(), Kind::I8, Coding::Ascii, 0, 1)?.is_none());
    assert!(rt; spell_int_fw(rt.alloc(), Kind::I8, Coding::Ascii, 16_777_217, 1)?.is_none());
    Ok(())
}
