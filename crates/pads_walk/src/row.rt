ghost use Rattle.std.specs.Prelude.{◌≡◌, ◌≤◌, length, IfOk};
ghost use Rattle.pads_calc.specs.Rows.{body_reading, row_of, type_of};
ghost use Rattle.pads_value.specs.Cuts.{cut_of_frame};

use crate::reader::Reader;
use pads_calc::{DEEPEST, Reading};
use pads_expr::Env;
use pads_module::Module;
use pads_steps::{Record, row_over, row_without};
use pads_value::{Frame, Memory, Row};
use std::alloc::Global;

/// The reading of a record's type at its first byte.
fn read_body<'x>(
    alloc: Global,
    rules: &'x Module,
    record_no: u64,
    frame: &'x Frame<'x>,
) -> Result<Reading, Memory>
    ensures body { IfOk result (λ r. r ≡ body_reading rules.now.decls rules.now.scan (type_of rules.now.shape record_no) (cut_of_frame frame.now)) }
    ensures within { IfOk result (λ r. r.place ≤ length frame.now.bytes.now) }
{
    let reader = Reader {
        alloc,
        decls: rules.decls.as_slice(),
        record: Record {
            origin: frame.first,
            bytes: frame.bytes,
            scan: rules.scan,
        },
    };
    let number = rules.shape.type_of(record_no);
    let env = Env::new(alloc, 0)?;
    reader.read_call(number, &[], &env, 0, DEEPEST)
}

/// The row of a record, by recursion on terms: its value, its descriptor and where its reading ended.
/// A frame without its bytes isn't read, and its row has the cause of its mark. The values of declarations
/// that keep none of their own are missing in it; where each keeps them, nothing is looked at for that.
pub fn walk(alloc: Global, rules: &Module, record_no: u64, frame: &Frame) -> Result<Row, Memory>
    ensures row { IfOk result (λ row. row ≡ row_of rules.now.decls rules.now.shape rules.now.scan record_no (cut_of_frame frame.now)) }
{
    if let Some(row) = row_without(alloc, record_no, frame) {
        return Ok(row);
    }
    let body = read_body(alloc, rules, record_no, frame)?;
    let kept = rules.kept(alloc, rules.shape.type_of(record_no), body)?;
    row_over(alloc, record_no, frame, kept)
}
