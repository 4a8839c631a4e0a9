//! The row of a record, by what its type reads as at its first byte.
ghost use Rattle.std.specs.Prelude.{◌≡◌, ◌⊎◌, ◌≤◌, ◌∷◌, length, IfOk, IfSome, IfNone};
ghost use Rattle.pads_calc.specs.Rows.{extra as extra_kids, read_row, row_by, unread_row};
ghost use Rattle.pads_value.specs.Cuts.{cut_of_frame};
ghost use Rattle.pads_value.specs.declared.frame.Mark.TheVariants as mark;

use pads_calc::Reading;
use pads_value::{Cause, Frame, Items, Mark, Memory, Own, Pd, Pds, Row, Span, Val};
use std::alloc::Global;

/// The descriptors below the record's: that of the body, and one over the bytes behind it.
fn kids(alloc: Global, frame: &Frame, body: Pd, place: u64) -> Result<Pds, Memory>
    requires { place ≤ length frame.now.bytes.now }
    ensures kids { IfOk result (λ kids. kids ≡ body ∷ extra_kids (cut_of_frame frame.now) place) }
{
    let end = frame.bytes.len() as u64;
    let mut kids = Items::new(alloc);
    kids.push(body)?;
    if place < end {
        kids.push(Reading::faulty(alloc, frame.first, Cause::ExtraBeforeEor, place, end).pd)?;
    }
    Ok(kids)
}

/// The row of a record that is read, with this cause of its own or without.
fn row_read(
    alloc: Global,
    record_no: u64,
    frame: &Frame,
    own: Option<Own>,
    body: Reading,
) -> Result<Row, Memory>
    requires { body.place ≤ length frame.now.bytes.now }
    ensures row { IfOk result (λ row. row ≡ read_row record_no (cut_of_frame frame.now) own body) }
{
    let Reading { value, pd, place } = body;
    let span = Span {
        begin: frame.first,
        end: frame.end,
    };
    Ok(Row {
        number: record_no,
        value,
        pd: Pd::of(own, span, kids(alloc, frame, pd, place)?),
        next: frame.first + place,
    })
}

/// The row of a record that isn't read.
fn row_unread(alloc: Global, record_no: u64, frame: &Frame, cause: Cause) -> Row
    ensures row { result ≡ unread_row record_no (cut_of_frame frame.now) cause }
{
    let own = Own { cause, fails: true };
    let span = Span {
        begin: frame.first,
        end: frame.end,
    };
    Row {
        number: record_no,
        value: Val::Missing,
        pd: Pd::of(Some(own), span, Items::new(alloc)),
        next: frame.first,
    }
}

/// The row of a record whose bytes weren't kept. Its type isn't read, and the row has the cause of the
/// frame's mark. None exactly where the bytes were kept.
pub fn row_without(alloc: Global, record_no: u64, frame: &Frame) -> Option<Row>
    ensures row { IfSome result (λ row. (body : Reading) → row ≡ row_by frame.now.mark record_no (cut_of_frame frame.now) body) }
    ensures kept { IfNone result ((frame.now.mark ≡ mark.Plain) ⊎ (frame.now.mark ≡ mark.Short)) }
{
    let cause = match frame.mark {
        Mark::Plain | Mark::Short => return None,
        Mark::Long => Cause::RecordLong,
        Mark::Broken => Cause::RecordBroken,
    };
    Some(row_unread(alloc, record_no, frame, cause))
}

/// The row of a record whose type reads so at its first byte: one node over the record with the type's
/// below it, and the cause of the frame's mark.
pub fn row_over(alloc: Global, record_no: u64, frame: &Frame, body: Reading) -> Result<Row, Memory>
    requires { body.place ≤ length frame.now.bytes.now }
    ensures row { IfOk result (λ row. row ≡ row_by frame.now.mark record_no (cut_of_frame frame.now) body) }
{
    match frame.mark {
        Mark::Plain => row_read(alloc, record_no, frame, None, body),
        Mark::Short => {
            let own = Own {
                cause: Cause::RecordShort,
                fails: false,
            };
            row_read(alloc, record_no, frame, Some(own), body)
        }
        Mark::Long => Ok(row_unread(alloc, record_no, frame, Cause::RecordLong)),
        Mark::Broken => Ok(row_unread(alloc, record_no, frame, Cause::RecordBroken)),
    }
}
