use crate::{Order, Usage, Word, Words, read_order};
use pads_code::Coding;
use pads_erase::{Mask, Mode};
use pads_frame::Discipline;
use pads_value::{Memory, Refusal};
use std::alloc::Global;
use std::process::Abort;
use std::test::Fail;

/// The words of a command line, which stand here between single blanks.
fn words_of(alloc: Global, line: &str) -> Result<Words, Memory> {
    let mut words = Words::new(alloc);
    for word in line.split(' ') {
        words.push(Word::new(String::from_str(alloc, word)?))?;
    }
    Ok(words)
}

fn read(alloc: Global, line: &str) -> Result<Order, Refusal<Usage>> {
    read_order(alloc, &words_of(alloc, line)?)
}

/// The order is `parse` of the file `a` with this coding and cutting.
fn is_parse(order: &Order, wanted: Coding, discipline: Discipline, max: u64) -> bool {
    let Order::Parse {
        description,
        settings,
        ..
    } = order
    else {
        return false;
    };
    description.as_str() == "a"
        && settings.coding == wanted
        && settings.cutting.discipline == discipline
        && settings.cutting.max == max
}

/// The order is `check` of the file `a` with this coding.
fn is_check(order: &Order, wanted: Coding) -> bool {
    let Order::Check {
        description,
        settings,
    } = order
    else {
        return false;
    };
    description.as_str() == "a" && settings.coding == wanted
}

/// The order is `print` of the file `a` with this coding and cutting.
fn is_print(order: &Order, wanted: Coding, discipline: Discipline, max: u64) -> bool {
    let Order::Print {
        description,
        settings,
    } = order
    else {
        return false;
    };
    description.as_str() == "a"
        && settings.coding == wanted
        && settings.cutting.discipline == discipline
        && settings.cutting.max == max
}

/// The line is `parse` of the file `a` with this coding and cutting.
fn parses(
    rt: &impl Abort,
    alloc: Global,
    line: &str,
    coding: Coding,
    discipline: Discipline,
    max: u64,
) -> Result<(), Fail> {
    let parses = match read(alloc, line) {
        Ok(order) => is_parse(&order, coding, discipline, max),
        Err(_refusal) => false,
    };
    assert!(rt; parses);
    Ok(())
}

/// The line is `print` of the file `a` with this coding and cutting.
fn prints(
    rt: &impl Abort,
    alloc: Global,
    line: &str,
    coding: Coding,
    discipline: Discipline,
    max: u64,
) -> Result<(), Fail> {
    let prints = match read(alloc, line) {
        Ok(order) => is_print(&order, coding, discipline, max),
        Err(_refusal) => false,
    };
    assert!(rt; prints);
    Ok(())
}

/// The line is `check` of the file `a` with this coding.
fn checks(rt: &impl Abort, alloc: Global, line: &str, coding: Coding) -> Result<(), Fail> {
    let checks = match read(alloc, line) {
        Ok(order) => is_check(&order, coding),
        Err(_refusal) => false,
    };
    assert!(rt; checks);
    Ok(())
}

/// The mask is that of all declarations, and these named ones behind it.
fn is_mask(mask: &Mask, all: Mode, named: &[(&[u8], Mode)]) -> bool {
    let items = mask.named.as_slice();
    mask.all == all
        && items.len() == named.len()
        && items.iter().zip(named).all(|(item, wanted)| item.name.as_slice() == wanted.0
            && item.mode == wanted.1)
}

/// The order is `parse` or `summary` with this mask.
fn is_masked(order: &Order, all: Mode, named: &[(&[u8], Mode)]) -> bool {
    match order {
        Order::Parse { mask, .. } | Order::Summary { mask, .. } => is_mask(mask, all, named),
        _ => false,
    }
}

/// The line is `parse` or `summary` with this mask.
fn masks(
    rt: &impl Abort,
    alloc: Global,
    line: &str,
    all: Mode,
    named: &[(&[u8], Mode)],
) -> Result<(), Fail> {
    let masks = match read(alloc, line) {
        Ok(order) => is_masked(&order, all, named),
        Err(_refusal) => false,
    };
    assert!(rt; masks, "another mask");
    Ok(())
}

/// Whether a word is this text, where there is one.
fn is_filter(filter: &Option<Word>, wanted: Option<&str>) -> bool {
    match (filter, wanted) {
        (Some(word), Some(wanted)) => word.as_str() == wanted,
        (None, None) => true,
        _ => false,
    }
}

/// The order is a query of the file `a` with this path and filter.
fn is_query(order: &Order, path: &str, filter: Option<&str>) -> bool {
    let Order::Query { question, .. } = order else {
        return false;
    };
    question.description.as_str() == "a"
        && question.path.as_str() == path
        && is_filter(&question.filter, filter)
}

/// The line is a query of the file `a` with this path and filter.
fn queries(
    rt: &impl Abort,
    alloc: Global,
    line: &str,
    path: &str,
    filter: Option<&str>,
) -> Result<(), Fail> {
    let queries = match read(alloc, line) {
        Ok(order) => is_query(&order, path, filter),
        Err(_refusal) => false,
    };
    assert!(rt; queries, "another query");
    Ok(())
}

/// These lines are no orders.
fn none_are(rt: &impl Abort, alloc: Global, lines: &[&str]) -> Result<(), Fail> {
    for line in lines {
        let is_usage = matches!(read(alloc, line), Err(Refusal::Fault(Usage)));
        assert!(rt; is_usage, "an order");
    }
    Ok(())
}

#[test]
fn usual_values(rt: HostRuntime) -> Result<(), Fail> {
    parses(
        &rt,
        rt.alloc(),
        "parse a",
        Coding::Ascii,
        Discipline::Term(b'\n'),
        1_048_576,
    )?;
    checks(&rt, rt.alloc(), "check a", Coding::Ascii)
}

#[test]
fn options_anywhere_behind_the_command(rt: HostRuntime) -> Result<(), Fail> {
    parses(
        &rt,
        rt.alloc(),
        "parse --max=4 a --coding=ebcdic",
        Coding::Ebcdic,
        Discipline::Term(b'\n'),
        4,
    )?;
    checks(&rt, rt.alloc(), "check --coding=ebcdic a", Coding::Ebcdic)?;
    checks(&rt, rt.alloc(), "check a --coding=ascii", Coding::Ascii)
}

#[test]
fn the_options_of_print(rt: HostRuntime) -> Result<(), Fail> {
    prints(
        &rt,
        rt.alloc(),
        "print a",
        Coding::Ascii,
        Discipline::Term(b'\n'),
        1_048_576,
    )?;
    prints(
        &rt,
        rt.alloc(),
        "print --records=fixed:256 a --coding=ebcdic --max=256",
        Coding::Ebcdic,
        Discipline::Fixed(256),
        256,
    )?;
    none_are(
        &rt,
        rt.alloc(),
        &[
            "print a b",
            "print a --top=3",
            "print a --mask=check",
            "print a --max=4 --records=fixed:8",
            "print a --max=4 --max=4",
        ],
    )
}

#[test]
fn disciplines(rt: HostRuntime) -> Result<(), Fail> {
    parses(
        &rt,
        rt.alloc(),
        "parse a --records=nl",
        Coding::Ascii,
        Discipline::Term(b'\n'),
        1_048_576,
    )?;
    parses(
        &rt,
        rt.alloc(),
        "parse a --records=rdw",
        Coding::Ascii,
        Discipline::Rdw,
        1_048_576,
    )?;
    parses(
        &rt,
        rt.alloc(),
        "parse a --records=whole",
        Coding::Ascii,
        Discipline::Whole,
        1_048_576,
    )?;
    parses(
        &rt,
        rt.alloc(),
        "parse a --records=term:1e",
        Coding::Ascii,
        Discipline::Term(30),
        1_048_576,
    )?;
    parses(
        &rt,
        rt.alloc(),
        "parse a --records=term:fF",
        Coding::Ascii,
        Discipline::Term(255),
        1_048_576,
    )?;
    parses(
        &rt,
        rt.alloc(),
        "parse a --records=fixed:80",
        Coding::Ascii,
        Discipline::Fixed(80),
        1_048_576,
    )
}

#[test]
fn blocks_up_to_the_most_bytes(rt: HostRuntime) -> Result<(), Fail> {
    parses(
        &rt,
        rt.alloc(),
        "parse --records=fixed:8 a --max=8",
        Coding::Ascii,
        Discipline::Fixed(8),
        8,
    )?;
    parses(
        &rt,
        rt.alloc(),
        "parse a --max=16777216",
        Coding::Ascii,
        Discipline::Term(b'\n'),
        16_777_216,
    )?;
    none_are(
        &rt,
        rt.alloc(),
        &[
            "parse a --max=4 --records=fixed:8",
            "parse a --records=fixed:0",
            "parse a --max=16777217",
            "parse a --max=0",
        ],
    )
}

#[test]
fn wrong_numbers_of_words(rt: HostRuntime) -> Result<(), Fail> {
    none_are(
        &rt,
        rt.alloc(),
        &["", "parse", "parse a b", "check", "check a b", "print", "a"],
    )
}

#[test]
fn wrong_options(rt: HostRuntime) -> Result<(), Fail> {
    none_are(
        &rt,
        rt.alloc(),
        &[
            "parse a --jobs=0",
            "check a --top=3",
            "check a --max=5",
            "check a --records=nl",
            "parse a --max=5 --max=5",
            "parse a --coding",
            "parse a --coding=utf8",
            "parse a --",
        ],
    )
}

#[test]
fn wrong_numbers(rt: HostRuntime) -> Result<(), Fail> {
    none_are(
        &rt,
        rt.alloc(),
        &[
            "parse a --max=05",
            "parse a --max=+5",
            "parse a --max=",
            "parse a --max=5x",
            "parse a --max=99999999999999999999999",
        ],
    )
}

#[test]
fn wrong_disciplines(rt: HostRuntime) -> Result<(), Fail> {
    none_are(
        &rt,
        rt.alloc(),
        &[
            "parse a --records=",
            "parse a --records=NL",
            "parse a --records=term:",
            "parse a --records=term:a",
            "parse a --records=term:abc",
            "parse a --records=term:0g",
            "parse a --records=fixed:",
            "parse a --records=fixed:08",
        ],
    )
}

#[test]
fn masks_of_all(rt: HostRuntime) -> Result<(), Fail> {
    masks(&rt, rt.alloc(), "parse a", Mode::Both, &[])?;
    masks(&rt, rt.alloc(), "parse --mask=both a", Mode::Both, &[])?;
    masks(&rt, rt.alloc(), "parse a --mask=check", Mode::Check, &[])?;
    masks(&rt, rt.alloc(), "parse a --mask=set", Mode::Set, &[])?;
    masks(&rt, rt.alloc(), "summary a --mask=none", Mode::None, &[])
}

#[test]
fn masks_of_named_declarations(rt: HostRuntime) -> Result<(), Fail> {
    masks(
        &rt,
        rt.alloc(),
        "parse a --mask=both,entry_t:check",
        Mode::Both,
        &[(b"entry_t", Mode::Check)],
    )?;
    masks(
        &rt,
        rt.alloc(),
        "summary --mask=none,_b2:set,both:both,Pip:none a --top=3",
        Mode::None,
        &[
            (b"_b2", Mode::Set),
            (b"both", Mode::Both),
            (b"Pip", Mode::None),
        ],
    )
}

#[test]
fn wrong_jobs(rt: HostRuntime) -> Result<(), Fail> {
    none_are(
        &rt,
        rt.alloc(),
        &[
            "parse a --jobs=",
            "parse a --jobs=0",
            "parse a --jobs=03",
            "parse a --jobs=65",
            "parse a --jobs=+3",
            "print a --jobs=3 --jobs=3",
            "check a --jobs=3",
            "selftest 3 --jobs=0",
        ],
    )
}

#[test]
fn wrong_bounds_on_searches(rt: HostRuntime) -> Result<(), Fail> {
    none_are(
        &rt,
        rt.alloc(),
        &[
            "parse a --scan=",
            "parse a --scan=01",
            "parse a --scan=16777217",
            "print a --scan=-1",
            "summary a --scan=3 --scan=3",
            "check a --scan=3",
            "selftest 3 --scan=3",
        ],
    )
}

#[test]
fn wrong_masks(rt: HostRuntime) -> Result<(), Fail> {
    none_are(
        &rt,
        rt.alloc(),
        &[
            "parse a --mask=",
            "parse a --mask=Both",
            "parse a --mask=both,",
            "parse a --mask=,b:set",
            "parse a --mask=b:set",
            "parse a --mask=both,b",
            "parse a --mask=both,b:",
            "parse a --mask=both,:set",
            "parse a --mask=both,b:sets",
            "parse a --mask=both,b:set:set",
            "parse a --mask=both,2b:set",
            "parse a --mask=both,b-c:set",
            "parse a --mask=both,Pstruct:set",
            "parse a --mask=both,true:set",
            "parse a --mask=both,b:set,c:set,b:check",
            "parse a --mask=both --mask=both",
            "check a --mask=both",
            "print a --mask=both",
            "selftest 3 --mask=both",
        ],
    )
}

#[test]
fn questions(rt: HostRuntime) -> Result<(), Fail> {
    queries(&rt, rt.alloc(), "query a y", "y", None)?;
    queries(
        &rt,
        rt.alloc(),
        "query a $.y[*] it>2",
        "$.y[*]",
        Some("it>2"),
    )?;
    queries(&rt, rt.alloc(), "query a y ", "y", Some(""))?;
    queries(
        &rt,
        rt.alloc(),
        "query --mask=set a --max=9 y --records=whole --jobs=64 --coding=ebcdic it",
        "y",
        Some("it"),
    )?;
    none_are(
        &rt,
        rt.alloc(),
        &[
            "query",
            "query a",
            "query a ",
            "query  y",
            "query a y it more",
            "query a y --top=3",
            "query a y --mask=all",
        ],
    )
}
