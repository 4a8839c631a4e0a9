//! Direct cases: what each call answers, as tables. All fields of two bytes are compared in `test_decimal`.
use crate::{read_packed, read_zoned, spell_packed, spell_zoned};
use pads_value::{Cause, Read};

const INVALID: Cause = Cause::Invalid;

#[test]
fn packed_fields_are_read(rt: HostRuntime) {
    let cases: [(i128, bool, &[u8], Read<i128>); 14] = [
        (4, true, b"\x01\x23\x4c", Read::Good(3, 1234)),
        (4, true, b"\x11\x23\x4c", Read::Soft(3, Cause::Range)),
        (4, true, b"\x01\x23\x4a", Read::Soft(3, INVALID)),
        (4, true, b"\x01\x23", Read::Hard(Cause::Width)),
        (4, true, b"\xa1\x23\x4c", Read::Soft(3, INVALID)),
        (7, true, b"\x01\x23\x45\x6d\xf0", Read::Good(4, -123456)),
        (7, false, b"\x01\x23\x45\x6f", Read::Good(4, 123456)),
        (7, false, b"\x01\x23\x45\x6d", Read::Soft(4, INVALID)),
        (1, true, b"\x0d", Read::Good(1, 0)),
        (1, true, b"", Read::Hard(Cause::Width)),
        (0, true, b"\x0c", Read::Hard(Cause::BadParam)),
        (-1, true, b"\x0c", Read::Hard(Cause::BadParam)),
        (19, true, b"", Read::Hard(Cause::BadParam)),
        (
            18,
            true,
            b"\x09\x99\x99\x99\x99\x99\x99\x99\x99\x9d",
            Read::Good(10, -999999999999999999),
        ),
    ];
    for (digits, signed, bytes, wanted) in cases {
        assert_eq!(rt; read_packed(digits, signed, bytes), wanted);
    }
}

#[test]
fn zoned_fields_are_read(rt: HostRuntime) {
    let cases: [(i128, bool, &[u8], Read<i128>); 11] = [
        (3, true, b"\xf1\xf2\xd3", Read::Good(3, -123)),
        (3, true, b"\xf0\xf5\xc0", Read::Good(3, 50)),
        (3, false, b"\xf0\xf5\xf0\xff", Read::Good(3, 50)),
        (3, false, b"\xf1\xf2\xd3", Read::Soft(3, INVALID)),
        (3, true, b"\xd1\xf2\xf3", Read::Soft(3, INVALID)),
        (3, true, b"\xf1\xe2\xf3", Read::Soft(3, INVALID)),
        (3, true, b"\xf1\xf2\xfa", Read::Soft(3, INVALID)),
        (3, true, b"123", Read::Soft(3, INVALID)),
        (3, true, b"\xf1\xf2", Read::Hard(Cause::Width)),
        (19, true, b"", Read::Hard(Cause::BadParam)),
        (
            18,
            true,
            b"\xf9\xf9\xf9\xf9\xf9\xf9\xf9\xf9\xf9\xf9\xf9\xf9\xf9\xf9\xf9\xf9\xf9\xd9",
            Read::Good(18, -999999999999999999),
        ),
    ];
    for (digits, signed, bytes, wanted) in cases {
        assert_eq!(rt; read_zoned(digits, signed, bytes), wanted);
    }
}

#[test]
fn numbers_are_spelled_packed(rt: HostRuntime) {
    let cases: [(i128, bool, i128, &[u8]); 7] = [
        (4, true, 1234, b"\x01\x23\x4c"),
        (4, true, -1234, b"\x01\x23\x4d"),
        (7, false, 123456, b"\x01\x23\x45\x6f"),
        (1, true, 0, b"\x0c"),
        (3, true, -5, b"\x00\x5d"),
        (2, false, 99, b"\x09\x9f"),
        (
            18,
            true,
            -999999999999999999,
            b"\x09\x99\x99\x99\x99\x99\x99\x99\x99\x9d",
        ),
    ];
    for (digits, signed, number, wanted) in cases {
        if let Some(spelled) = spell_packed(digits, signed, number) {
            assert_eq!(rt; spelled.as_slice(), wanted);
        } else {
            assert!(rt; false);
        }
    }
}

#[test]
fn numbers_are_spelled_zoned(rt: HostRuntime) {
    let cases: [(i128, bool, i128, &[u8]); 5] = [
        (3, true, 123, b"\xf1\xf2\xc3"),
        (3, true, -123, b"\xf1\xf2\xd3"),
        (3, false, 50, b"\xf0\xf5\xf0"),
        (1, true, 0, b"\xc0"),
        (
            18,
            false,
            999999999999999999,
            b"\xf9\xf9\xf9\xf9\xf9\xf9\xf9\xf9\xf9\xf9\xf9\xf9\xf9\xf9\xf9\xf9\xf9\xf9",
        ),
    ];
    for (digits, signed, number, wanted) in cases {
        if let Some(spelled) = spell_zoned(digits, signed, number) {
            assert_eq!(rt; spelled.as_slice(), wanted);
        } else {
            assert!(rt; false);
        }
    }
}

#[test]
fn numbers_that_have_no_spelling(rt: HostRuntime) {
    let cases: [(i128, bool, i128); 8] = [
        (0, true, 0),
        (19, true, 0),
        (3, true, 1000),
        (3, true, -1000),
        (3, false, -1),
        (18, true, 1000000000000000000),
        (18, true, i128::MIN),
        (18, false, i128::MAX),
    ];
    for (digits, signed, number) in cases {
        assert!(rt; spell_packed(digits, signed, number).is_none());
        assert!(rt; spell_zoned(digits, signed, number).is_none());
    }
}
