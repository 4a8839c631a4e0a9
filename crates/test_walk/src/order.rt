//! What a line of a table asks for.
use pads_code::Coding;
use pads_value::Mark;

/// A line of a table.
#[derive(Clone, Copy, Debug)]
pub(crate) enum Order<'t> {
    /// An empty line, or one that begins with `#`.
    Note,
    /// `ascii D` or `ebcdic D`: what follows is about the description `D`, whose data is in that coding.
    Describe(Coding, &'t str),
    /// `nest N`: what follows is about a record whose type is the last of N typedefs, each of the one before.
    Nest(u64),
    /// `mask M` or `mask M,D:M,..`: what follows is about the same description under this mask.
    Mask(&'t str),
    /// `terms`: the description's module.
    Terms,
    /// `same` and a record: whether it reads the same by the description's terms and by their image.
    Same(Record<'t>),
    /// What a record reads as.
    Read(Record<'t>),
    /// `json` and a record: its line of JSON.
    Json(Record<'t>),
}

/// `N MARK FIRST BYTES`: the record of number N, whose frame has this mark and begins at this offset. The
/// bytes are a text in quotes or hex digits. Under `long` and `broken` the end of the frame stands in their
/// place.
#[derive(Clone, Copy, Debug)]
pub(crate) struct Record<'t> {
    pub(crate) number: u64,
    pub(crate) mark: Mark,
    pub(crate) first: u64,
    pub(crate) rest: &'t str,
}

fn mark_of(word: &str) -> Option<Mark> {
    if word == "plain" {
        Some(Mark::Plain)
    } else if word == "short" {
        Some(Mark::Short)
    } else if word == "long" {
        Some(Mark::Long)
    } else if word == "broken" {
        Some(Mark::Broken)
    } else {
        None
    }
}

fn record_of<'t>(number: &str, rest: &'t str) -> Option<Record<'t>> {
    let number = number.parse::<u64>().ok()?;
    let (mark, rest) = rest.split_once(' ')?;
    let mark = mark_of(mark)?;
    let (first, rest) = rest.split_once(' ')?;
    let first = first.parse::<u64>().ok()?;
    Some(Record {
        number,
        mark,
        first,
        rest,
    })
}

/// What a line asks for; `None` where it is no line of a table.
pub(crate) fn order_of(line: &str) -> Option<Order<'_>> {
    if line.is_empty() || line.starts_with('#') {
        return Some(Order::Note);
    }
    if line == "terms" {
        return Some(Order::Terms);
    }
    let (word, rest) = line.split_once(' ')?;
    if word == "ascii" {
        return Some(Order::Describe(Coding::Ascii, rest));
    }
    if word == "ebcdic" {
        return Some(Order::Describe(Coding::Ebcdic, rest));
    }
    if word == "mask" {
        return Some(Order::Mask(rest));
    }
    if word == "nest" {
        return Some(Order::Nest(rest.parse::<u64>().ok()?));
    }
    if word == "same" {
        let (number, rest) = rest.split_once(' ')?;
        return Some(Order::Same(record_of(number, rest)?));
    }
    if word == "json" {
        let (number, rest) = rest.split_once(' ')?;
        return Some(Order::Json(record_of(number, rest)?));
    }
    Some(Order::Read(record_of(word, rest)?))
}
