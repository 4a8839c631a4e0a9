use super::*;
use pads_bases::Order;
use pads_int::Kind;
use std::test::Fail;

#[test]
fn names_by_prefix(rt: HostRuntime) -> Result<(), Fail> {
    for (word, want) in [
        (
            b"Puint8".as_slice(),
            Some(BaseName::Int(NamedCoding::Ambient, Kind::U8)),
        ),
        (
            b"Pa_int64_FW".as_slice(),
            Some(BaseName::IntFw(NamedCoding::Ascii, Kind::I64)),
        ),
        (
            b"Pe_string_in".as_slice(),
            Some(BaseName::Class(NamedCoding::Ebcdic)),
        ),
        (b"Pb_uint16".as_slice(), Some(BaseName::Bin(Kind::U16))),
        (
            b"Psbh_int32".as_slice(),
            Some(BaseName::SizedBin(Order::High, Kind::I32)),
        ),
        (b"Pip".as_slice(), Some(BaseName::Ip(NamedCoding::Ambient))),
        (b"Ppacked".as_slice(), Some(BaseName::Packed(true))),
        (b"Pupacked".as_slice(), Some(BaseName::Packed(false))),
        (b"Pzoned".as_slice(), Some(BaseName::Zoned(true))),
        (b"Puzoned".as_slice(), Some(BaseName::Zoned(false))),
    ] {
        assert_eq!(rt; base_name(word), want);
    }
    Ok(())
}

#[test]
fn names_of_no_base_type(rt: HostRuntime) -> Result<(), Fail> {
    for word in [
        b"Pb_string".as_slice(),
        b"Pa_".as_slice(),
        b"Puint8 ".as_slice(),
        b"Psbl_int8_FW".as_slice(),
        b"int8".as_slice(),
        b"Pe_zoned".as_slice(),
        b"packed".as_slice(),
        b"".as_slice(),
    ] {
        assert_eq!(rt; base_name(word), None);
    }
    Ok(())
}
