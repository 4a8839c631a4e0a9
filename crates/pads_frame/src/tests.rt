//! Frames against rows that the disciplines' rules give, in pieces of several sizes.
ghost use Rattle.std.specs.Prelude.{◌≡◌, OnOk};

use crate::{Discipline, Fed, Framer, TooLong};
use pads_value::Frame;
use std::alloc::Global;
use std::fmt::Write;
use std::process::Abort;
use std::test::Fail;

/// Writes a frame as `first-end Mark bytes; `.
fn describe(frame: &Frame<'_>, out: &mut String) -> Result<(), Fail> {
    let mark = frame.mark;
    write!(out, "{}-{} {mark:?} ", frame.first, frame.end)?;
    for byte in frame.bytes {
        out.push(char::from(*byte))?;
    }
    out.push_str("; ")?;
    Ok(())
}

/// Describes all frames that are closed.
fn drain(framer: &mut Framer, out: &mut String) -> Result<(), Fail>
    ensures { OnOk result (framer.new.ended ≡ framer.old.ended) }
{
    while let Some(frame) = framer.next() {
        describe(&frame, out)?;
    }
    Ok(())
}

/// Describes the frames of an input that comes in pieces of this size.
fn frames_of(
    alloc: Global,
    discipline: Discipline,
    max: u64,
    input: &[u8],
    piece: usize,
) -> Result<String, Fail> {
    let mut out = String::new(alloc);
    if max == 0 || max > 16_777_216 || !discipline.fits(max) {
        return Ok(out);
    }
    let mut framer = Framer::new(alloc, discipline, max, 0)?;
    let mut left = input;
    for _turn in 0..1000u64 {
        let want = piece.min(left.len());
        let Ok(fed) = framer.feed(&left[..want]) else {
            return Ok(out);
        };
        left = &left[(fed.took as usize).min(left.len())..];
        drain(&mut framer, &mut out)?;
    }
    framer.finish();
    drain(&mut framer, &mut out)?;
    Ok(out)
}

/// A discipline, the limit, an input, and its frames.
type Row = (Discipline, u64, &'static [u8], &'static str);

const LINES: [Row; 8] = [
    (Discipline::Term(10), 16, b"", ""),
    (
        Discipline::Term(10),
        16,
        b"3,7\n300,4\n",
        "0-3 Plain 3,7; 4-9 Plain 300,4; ",
    ),
    (
        Discipline::Term(10),
        16,
        b"3,7\n,5",
        "0-3 Plain 3,7; 4-6 Plain ,5; ",
    ),
    (
        Discipline::Term(10),
        16,
        b"\n\nx\n",
        "0-0 Plain ; 1-1 Plain ; 2-3 Plain x; ",
    ),
    (
        Discipline::Term(10),
        2,
        b"12\n123\n4",
        "0-2 Plain 12; 3-6 Long ; 7-8 Plain 4; ",
    ),
    (
        Discipline::Term(10),
        2,
        b"4\n12345",
        "0-1 Plain 4; 2-7 Long ; ",
    ),
    (
        Discipline::Term(0),
        2,
        b"123\x0045\x00",
        "0-3 Long ; 4-6 Plain 45; ",
    ),
    (Discipline::Term(b';'), 4, b"0007;", "0-4 Plain 0007; "),
];

const BLOCKS: [Row; 8] = [
    (Discipline::Fixed(4), 4, b"", ""),
    (
        Discipline::Fixed(4),
        4,
        b"00010002",
        "0-4 Plain 0001; 4-8 Plain 0002; ",
    ),
    (
        Discipline::Fixed(4),
        16,
        b"000100",
        "0-4 Plain 0001; 4-6 Short 00; ",
    ),
    (Discipline::Fixed(1), 1, b"12", "0-1 Plain 1; 1-2 Plain 2; "),
    (Discipline::Whole, 5, b"", ""),
    (Discipline::Whole, 5, b"300,4", "0-5 Plain 300,4; "),
    (Discipline::Whole, 4, b"300,4", "0-5 Long ; "),
    (Discipline::Whole, 4, b"3\n4", "0-3 Plain 3\n4; "),
];

const WORDS: [Row; 11] = [
    (Discipline::Rdw, 4, b"", ""),
    (
        Discipline::Rdw,
        4,
        b"\x00\x07\x00\x003,7\x00\x05\x00\x001",
        "4-7 Plain 3,7; 11-12 Plain 1; ",
    ),
    (
        Discipline::Rdw,
        4,
        b"\x00\x04\x00\x00\x00\x04\x00\x00",
        "4-4 Plain ; 8-8 Plain ; ",
    ),
    (
        Discipline::Rdw,
        4,
        b"\x00\x08\x00\x000007\x00\x05\x00\x001",
        "4-8 Plain 0007; 12-13 Plain 1; ",
    ),
    (
        Discipline::Rdw,
        3,
        b"\x00\x08\x00\x000007\x00\x05\x00\x001",
        "4-8 Long ; 12-13 Plain 1; ",
    ),
    (Discipline::Rdw, 3, b"\x00\x08\x00\x00000", "0-7 Broken ; "),
    (Discipline::Rdw, 4, b"\x00\x03\x00\x003,7", "0-7 Broken ; "),
    (Discipline::Rdw, 4, b"\x00\x07\x01\x003,7", "0-7 Broken ; "),
    (Discipline::Rdw, 4, b"\x00\x07\x00\x013,7", "0-7 Broken ; "),
    (
        Discipline::Rdw,
        4,
        b"\x00\x05\x00\x001\x00\x07",
        "4-5 Plain 1; 5-7 Broken ; ",
    ),
    (Discipline::Rdw, 16, b"0007", "0-4 Broken ; "),
];

/// Compares the frames of each row, in pieces of several sizes.
fn compare(rt: &(impl Abort + Alloc<A = Global>), rows: &[Row]) -> Result<(), Fail> {
    for (discipline, max, input, want) in rows {
        for piece in [1, 2, 3, 7, 64] {
            let got = frames_of(rt.alloc(), *discipline, *max, input, piece)?;
            assert_eq!(rt; got.as_str(), *want, "in pieces of {piece}");
        }
    }
    Ok(())
}

#[test]
fn rows_in_any_pieces(rt: HostRuntime) -> Result<(), Fail> {
    compare(&rt, &LINES)?;
    compare(&rt, &BLOCKS)?;
    compare(&rt, &WORDS)?;
    Ok(())
}

#[test]
fn long_line_takes_no_room(rt: HostRuntime) -> Result<(), Fail> {
    let mut input = vec![in rt.alloc(); b'a'; 20_000]?;
    input.extend_from_slice(b"\nx\n")?;
    let got = frames_of(rt.alloc(), Discipline::Term(10), 1, input.as_slice(), 4096)?;
    assert_eq!(rt; got.as_str(), "0-20000 Long ; 20001-20002 Plain x; ");
    Ok(())
}

#[test]
fn room_is_full(rt: HostRuntime) -> Result<(), Fail> {
    let input = vec![in rt.alloc(); b'a'; 5000]?;
    let mut framer = Framer::new(rt.alloc(), Discipline::Fixed(1), 1, 0)?;
    let fed = framer.feed(input.as_slice());
    assert_eq!(rt;
        fed,
        Ok(Fed {
            took: 4101,
            full: true
        })
    );
    let fed = framer.feed(input.as_slice());
    assert_eq!(rt;
        fed,
        Ok(Fed {
            took: 0,
            full: true
        })
    );
    Ok(())
}

#[test]
fn input_ends_at_the_last_offset(rt: HostRuntime) -> Result<(), Fail> {
    let mut out = String::new(rt.alloc());
    let start = (1u64 << 62) - 3;
    let mut framer = Framer::new(rt.alloc(), Discipline::Term(10), 16, start)?;
    let fed = framer.feed(b"1,2\n");
    assert_eq!(rt;
        fed,
        Ok(Fed {
            took: 3,
            full: false
        })
    );
    let fed = framer.feed(b"\n");
    assert_eq!(rt; fed, Err(TooLong));
    drain(&mut framer, &mut out)?;
    assert_eq!(rt; out.as_str(), "");
    framer.finish();
    drain(&mut framer, &mut out)?;
    assert_eq!(rt;
        out.as_str(),
        "4611686018427387901-4611686018427387904 Plain 1,2; "
    );
    Ok(())
}
