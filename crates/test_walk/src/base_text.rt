//! Base types as text: the form's name and, in brackets, its kind or order and its coding. An enum has its
//! labels behind them, each with its spelling.
use crate::line::Line;
use pads_bases::{Label, Order};
use pads_calc::Base;
use pads_code::Coding;
use pads_int::Kind;

fn kind_name(kind: Kind) -> &'static str {
    match kind {
        Kind::I8 => "i8 ",
        Kind::I16 => "i16 ",
        Kind::I32 => "i32 ",
        Kind::I64 => "i64 ",
        Kind::U8 => "u8 ",
        Kind::U16 => "u16 ",
        Kind::U32 => "u32 ",
        Kind::U64 => "u64 ",
    }
}

fn coding_name(coding: Coding) -> &'static str {
    match coding {
        Coding::Ascii => "ascii",
        Coding::Ebcdic => "ebcdic",
    }
}

fn put_coded(out: &mut Line, form: &str, kind: &str, coding: Coding) {
    out.put(form);
    out.put(kind);
    out.put(coding_name(coding));
}

fn put_binary(out: &mut Line, kind: Kind, order: Order) {
    out.put("Bin(");
    out.put(kind_name(kind));
    match order {
        Order::Low => out.put("low"),
        Order::High => out.put("high"),
    }
}

fn put_decimal(out: &mut Line, form: &str, signed: bool) {
    out.put(form);
    out.put(if signed { "signed" } else { "unsigned" });
}

fn put_labels(out: &mut Line, labels: &[Label]) {
    for label in labels {
        out.put("; ");
        out.put_points(label.name.as_slice());
        out.put(" ");
        out.put_quoted(label.spelling.as_slice());
    }
}

/// A base type without its arguments and the closing bracket.
pub(crate) fn put_base(out: &mut Line, base: &Base) {
    match base {
        Base::Int(kind, coding) => put_coded(out, "Int(", kind_name(*kind), *coding),
        Base::IntFw(kind, coding) => put_coded(out, "IntFw(", kind_name(*kind), *coding),
        Base::Bin(kind, order) => put_binary(out, *kind, *order),
        Base::Until(coding) => put_coded(out, "Until(", "", *coding),
        Base::UntilEor(coding) => put_coded(out, "UntilEor(", "", *coding),
        Base::Fixed(coding) => put_coded(out, "Fixed(", "", *coding),
        Base::Class(coding) => put_coded(out, "Class(", "", *coding),
        Base::Char(coding) => put_coded(out, "Char(", "", *coding),
        Base::Ip(coding) => put_coded(out, "Ip(", "", *coding),
        Base::Enum(coding, labels) => {
            put_coded(out, "Enum(", "", *coding);
            put_labels(out, labels.as_slice());
        }
        Base::Packed(signed) => put_decimal(out, "Packed(", *signed),
        Base::Zoned(signed) => put_decimal(out, "Zoned(", *signed),
    }
}
