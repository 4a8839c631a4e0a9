//! A table of texts and what they lex as, written by hand from the rules.

use crate::{Token, TokenKind, lex};
use pads_value::Refusal;
use std::alloc::{AllocError, Global};
use std::fmt::Write;
use std::test::Fail;

/// What a token carries, in words.
fn write_kind(alloc: Global, out: &mut String, kind: &TokenKind) -> Result<(), AllocError> {
    match kind {
        TokenKind::Keyword(keyword) => write!(out, "{keyword:?}"),
        TokenKind::Mark(mark) => write!(out, "{mark:?}"),
        TokenKind::Name(name) => {
            let name = String::from_utf8_lossy(alloc, name.as_slice())?;
            write!(out, "Name {name}")
        }
        TokenKind::Number(number) => write!(out, "Number {number}"),
        TokenKind::Char(point) => write!(out, "Char {point}"),
        TokenKind::Text(points) => {
            let points = points.as_slice();
            write!(out, "Text {points:?}")
        }
        TokenKind::End => write!(out, "End"),
    }
}

/// The tokens of a text with their places, or its fault and where it stands.
fn shown(alloc: Global, text: &[u8]) -> Result<String, AllocError> {
    let mut out = String::new(alloc);
    match lex(alloc, text) {
        Ok(tokens) => {
            for token in tokens.as_slice() {
                let Token { kind, begin, end } = token;
                if !out.is_empty() {
                    out.push_str(", ")?;
                }
                write_kind(alloc, &mut out, kind)?;
                write!(out, " {begin} {end}")?;
            }
        }
        Err(Refusal::Fault(fault)) => {
            let kind = fault.kind;
            let at = fault.at;
            write!(out, "{kind:?} at {at}")?;
        }
        Err(Refusal::Memory) => out.push_str("out of memory")?,
    }
    Ok(out)
}

#[test]
fn texts_lex_by_the_rules(rt: HostRuntime) -> Result<(), Fail> {
    let cases: [(&[u8], &str); 37] = [
        (
            b"Pstruct Punion Parray Penum Popt Ptypedef Pswitch Pcase Pdefault Pwhere Precord Psource Psep Pterm Plast Peor Pforall Pin Pcompute Pfrom Pis Plen true false Precursive",
            "Pstruct 0 7, Punion 8 14, Parray 15 21, Penum 22 27, Popt 28 32, Ptypedef 33 41, Pswitch 42 49, Pcase 50 55, Pdefault 56 64, Pwhere 65 71, Precord 72 79, Psource 80 87, Psep 88 92, Pterm 93 98, Plast 99 104, Peor 105 109, Pforall 110 117, Pin 118 121, Pcompute 122 130, Pfrom 131 136, Pis 137 140, Plen 141 145, True 146 150, False 151 156, Precursive 157 167, End 167 167",
        ),
        (
            b"(: :) { } [ ] ( ) ; , : . .. = == => != ! < <= > >= + - * / % && || $",
            "OpenParams 0 2, CloseParams 3 5, OpenBrace 6 7, CloseBrace 8 9, OpenBracket 10 11, CloseBracket 12 13, OpenParen 14 15, CloseParen 16 17, Semicolon 18 19, Comma 20 21, Colon 22 23, Dot 24 25, DotDot 26 28, Equals 29 30, EqualTo 31 33, Arrow 34 36, NotEqualTo 37 39, Not 40 41, LessThan 42 43, AtMost 44 46, GreaterThan 47 48, AtLeast 49 51, Plus 52 53, Minus 54 55, Star 56 57, Slash 58 59, Percent 60 61, And 62 64, Or 65 67, Dollar 68 69, End 69 69",
        ),
        (b"", "End 0 0"),
        (b" \t\r\n", "End 4 4"),
        (
            b"elts length it Pstructs _ a1",
            "Name elts 0 4, Name length 5 11, Name it 12 14, Name Pstructs 15 23, Name _ 24 25, Name a1 26 28, End 28 28",
        ),
        (
            b"a==b=>c..d",
            "Name a 0 1, EqualTo 1 3, Name b 3 4, Arrow 4 6, Name c 6 7, DotDot 7 9, Name d 9 10, End 10 10",
        ),
        (b"...", "DotDot 0 2, Dot 2 3, End 3 3"),
        (
            b"a / -b",
            "Name a 0 1, Slash 2 3, Minus 4 5, Name b 5 6, End 6 6",
        ),
        (b"a /-b", "Name a 0 1, End 5 5"),
        (b"a// b\nc", "Name a 0 1, Name c 6 7, End 7 7"),
        (b"/**/x/* * / */y", "Name x 4 5, Name y 14 15, End 15 15"),
        (
            b"0 7 10 0x0 0xfF",
            "Number 0 0 1, Number 7 2 3, Number 10 4 6, Number 0 7 10, Number 255 11 15, End 15 15",
        ),
        (
            b"170141183460469231731687303715884105727",
            "Number 170141183460469231731687303715884105727 0 39, End 39 39",
        ),
        (
            b"0x7fffffffffffffffffffffffffffffff",
            "Number 170141183460469231731687303715884105727 0 34, End 34 34",
        ),
        (
            b"'a' '\"' '\\'' '\\x4A'",
            "Char 97 0 3, Char 34 4 7, Char 39 8 12, Char 74 13 19, End 19 19",
        ),
        (
            b"\"\" \"a'\" \"\\n\\r\\t\\0\\\\\\'\\\"\\xfe\"",
            "Text [] 0 2, Text [97, 39] 3 7, Text [10, 13, 9, 0, 92, 39, 34, 254] 8 28, End 28 28",
        ),
        (b"Pstruct p { 007", "BadNumber at 12"),
        (b"0x", "BadNumber at 0"),
        (b"1x", "BadNumber at 0"),
        (b"0x1g", "BadNumber at 0"),
        (
            b"170141183460469231731687303715884105728",
            "NumberTooWide at 0",
        ),
        (b" 0x80000000000000000000000000000000", "NumberTooWide at 1"),
        (
            b"999999999999999999999999999999999999999999999a",
            "BadNumber at 0",
        ),
        (b"'ab'", "BadChar at 0"),
        (b" ''", "BadChar at 1"),
        (b"\"a\\q\"", "BadEscape at 2"),
        (b"\"\\x4\"", "BadEscape at 1"),
        (b"'\\", "BadEscape at 1"),
        (b"\"\\\n\"", "BadEscape at 1"),
        (b"Precord Pstruct r { Puint8 @x; };", "BadByte at 27"),
        (b"a & b", "BadByte at 2"),
        (b"\"a\tb\"", "BadByte at 2"),
        (b"\"\xe4\"", "BadByte at 1"),
        (b"x \"abc\n\"", "OpenText at 2"),
        (b"'a", "OpenText at 0"),
        (b"a /* b", "OpenComment at 2"),
        (b"/*/", "OpenComment at 0"),
    ];
    for (text, expected) in cases {
        assert_eq!(rt; shown(rt.alloc(), text)?.as_str(), expected);
    }
    Ok(())
}
