ghost use Rattle.std.specs.Prelude.{◌≡◌, ◌<◌, ◌≤◌, IfOk};
ghost use Rattle.pads_frame.specs.Fits.{FitsLimit};
ghost use Rattle.pads_image.specs.Answers.{StandsFor};
ghost use Rattle.pads_module.specs.Modules.{contents};
ghost use Rattle.pads_print.specs.Printing.{PrintGives, canonical};

use crate::Printed;
use crate::reading::Reader;
use crate::writer::Writer;
use pads_calc::DEEPEST;
use pads_frame::{Discipline, frame_of};
use pads_image::Image;
use pads_machine::Machine;
use pads_module::Module;
use pads_value::{Bytes, Items, Memory, Val};
use std::alloc::Global;

/// How many bytes an input may have; no memory is as large.
const INPUT_LIMIT: u64 = 1 << 62;

/// The canonical bytes of a value of the record of this number, where it has any.
fn canonical_bytes(
    alloc: Global,
    rules: &Module,
    record_no: u64,
    value: &Val,
) -> Result<Option<Bytes>, Memory>
    ensures canonical { IfOk result (λ bytes. bytes ≡ canonical (contents rules.now) record_no value.now) }
{
    let writer = Writer {
        alloc,
        decls: rules.decls.as_slice(),
    };
    let mut out = Items::new(alloc);
    let number = rules.shape.type_of(record_no);
    if writer.write_call(number, &[], value, &[], &mut out, DEEPEST)? {
        Ok(Some(out))
    } else {
        Ok(None)
    }
}

/// A value of the record of this number as an input of its own, where a frame has at most `max` bytes.
///
/// The value's canonical bytes are framed and read back, by the machine and an image that stands for the
/// rules: `Framed` exactly where they are one record that reads without a fault as this very value,
/// `Ambiguous` exactly where there are canonical bytes that read otherwise or can't be framed, and
/// `NotAValue` exactly where there are no canonical bytes.
pub fn print(
    alloc: Global,
    machine: &mut Machine,
    image: &Image,
    rules: &Module,
    discipline: Discipline,
    max: u64,
    record_no: u64,
    value: &Val,
) -> Result<Printed, Memory>
    requires room { image.now.need ≤ machine.old }
    requires stands { StandsFor image.now.code image.now.entries image.now.shape image.now.need rules.now.decls }
    requires shape { image.now.shape ≡ rules.now.shape }
    requires scan { image.now.scan ≡ rules.now.scan }
    requires some { 0 < max }
    requires limit { max ≤ 16777216 }
    requires fits_limit { FitsLimit discipline max }
    ensures printed { IfOk result (PrintGives (contents rules.now) discipline max record_no value.now) }
    ensures room { machine.new ≡ machine.old }
{
    let Some(bytes) = canonical_bytes(alloc, rules, record_no, value)? else {
        return Ok(Printed::NotAValue);
    };
    let Some(input) = frame_of(alloc, discipline, bytes.as_slice())? else {
        let rows = Items::new(alloc);
        return Ok(Printed::Ambiguous { bytes, rows });
    };
    if input.len() > INPUT_LIMIT {
        return Err(Memory);
    }
    let reader = Reader {
        alloc,
        image,
        discipline,
        max,
        record_no,
    };
    if reader.reads_as(machine, input.as_slice(), bytes.as_slice(), value)? {
        return Ok(Printed::Framed(input));
    }
    let rows = reader.rows(machine, input.as_slice())?;
    Ok(Printed::Ambiguous { bytes, rows })
}
