//! Reading back: what framed bytes are as an input.
ghost use Rattle.std.specs.Prelude.{◌≡◌, ◌<◌, ◌≤◌, ◌^◌, length, map, IfOk};
ghost use Rattle.pads_frame.specs.Cutting.{records};
ghost use Rattle.pads_frame.specs.Fits.{FitsLimit};
ghost use Rattle.pads_frame.specs.OnlyFrame.{only};
ghost use Rattle.pads_module.specs.Modules.{Contents};
ghost use Rattle.pads_print.specs.ReadBack.{is_back, is_of as is_of_value, is_plain as is_plain_of, row_in};
ghost use Rattle.pads_print.specs.Reads.{Reads};
ghost use Rattle.pads_print.specs.Same.{holds_of, same};
ghost use Rattle.pads_value.specs.Cuts.{cut_of_frame};

use pads_frame::{Discipline, first_frame, only_frame};
use pads_image::Image;
use pads_machine::Machine;
use pads_value::{Class, Frame, Items, Mark, Memory, Row, Rows, Val};
use std::alloc::Global;

/// Whether a frame is an ordinary record.
fn is_plain(mark: Mark) -> bool
    ensures plain { result ≡ is_plain_of mark }
{
    match mark {
        Mark::Plain => true,
        Mark::Short | Mark::Long | Mark::Broken => false,
    }
}

/// Whether a row has this value.
fn has_value(row: &Row, value: &Val) -> bool
    ensures same { result ≡ same row.now.value value.now }
{
    row.value.same(value)
}

/// Whether a row is without a fault and has this value.
fn is_of(row: &Row, value: &Val) -> bool
    ensures of { result ≡ is_of_value row.now value.now }
{
    match row.pd.class {
        Class::Ok => has_value(row, value),
        Class::Err | Class::Fail => false,
    }
}

/// Reads inputs back: as records of one number, by an image.
#[derive(Drop)]
pub(crate) struct Reader<'a> {
    pub(crate) alloc: Global,
    pub(crate) image: &'a Image,
    pub(crate) discipline: Discipline,
    pub(crate) max: u64,
    pub(crate) record_no: u64,
}

impl Reader<'_> {
    /// What a frame reads as.
    fn row(&self, machine: &mut Machine, frame: &Frame) -> Result<Row, Memory>
        requires room { self.now.image.now.need ≤ machine.old }
        ensures row { IfOk result (λ row. (m : Contents) → Reads self.now.image.now m → row ≡ row_in m self.now.record_no (cut_of_frame frame.now)) }
        ensures room { machine.new ≡ machine.old }
    {
        machine.read_record(self.alloc, self.image, self.record_no, frame)
    }

    /// Whether an input is one record of just these bytes that reads without a fault as the value.
    pub(crate) fn reads_as(
        &self,
        machine: &mut Machine,
        input: &[u8],
        bytes: &[u8],
        value: &Val,
    ) -> Result<bool, Memory>
        requires room { self.now.image.now.need ≤ machine.old }
        requires limit { self.now.max ≤ 16777216 }
        requires fits_limit { FitsLimit self.now.discipline self.now.max }
        requires within { length input.now ≤ 2 ^ 62 }
        ensures back { IfOk result (λ back. (m : Contents) → Reads self.now.image.now m
            → back ≡ holds_of (is_back m self.now.record_no bytes.now value.now) (only (records self.now.discipline self.now.max input.now))) }
        ensures room { machine.new ≡ machine.old }
    {
        let Some(frame) = only_frame(self.discipline, self.max, input) else {
            return Ok(false);
        };
        if !is_plain(frame.mark) || frame.bytes != bytes {
            return Ok(false);
        }
        let row = self.row(machine, &frame)?;
        Ok(is_of(&row, value))
    }

    /// What each frame of an input reads as.
    pub(crate) fn rows(&self, machine: &mut Machine, input: &[u8]) -> Result<Rows, Memory>
        requires room { self.now.image.now.need ≤ machine.old }
        requires limit { self.now.max ≤ 16777216 }
        requires fits_limit { FitsLimit self.now.discipline self.now.max }
        requires within { length input.now ≤ 2 ^ 62 }
        ensures rows { IfOk result (λ rows. (m : Contents) → Reads self.now.image.now m
            → rows ≡ map (row_in m self.now.record_no) (records self.now.discipline self.now.max input.now)) }
        ensures room { machine.new ≡ machine.old }
    {
        let mut rows = Items::new(self.alloc);
        let mut at = 0;
        'frames: while let Some(first) = first_frame(
            self.discipline,
            self.max,
            at as u64,
            &input[at..],
        ) {
            rows.push(self.row(machine, &first.frame)?)?;
            at += first.size;
        }
        Ok(rows)
    }
}
