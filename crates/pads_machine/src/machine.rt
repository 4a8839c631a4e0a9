ghost use Rattle.std.specs.Prelude.{◌≡◌, ℕ, ◌≤◌, List, length, slice_get, IfOk};
ghost use Rattle.pads_calc.specs.declared.decl.Decl.{Decl};
ghost use Rattle.pads_calc.specs.declared.reading.Reading.{Reading};
ghost use Rattle.pads_calc.specs.Rows.{row_of, subject_of_cut, type_of};
ghost use Rattle.pads_image.specs.Answers.{Answers, HaltsWith, StandsFor, first_of, start};
ghost use Rattle.pads_machine.specs.Held.{Roomy};
ghost use Rattle.pads_machine.specs.Ran.{Halting};
ghost use Rattle.pads_value.specs.Cuts.{cut_of_frame};

use crate::state::State;
use pads_calc::Reading;
use pads_idle::Program;
use pads_image::{Entry, Image};
use pads_steps::{Record, row_over, row_without};
use pads_value::{Frame, Memory, Row};
use std::alloc::Global;
use std::marker::Model;

/// How deep calls may be nested inside the declaration of a record.
pub(crate) const INSIDE: u8 = 127;

/// A machine that reads records by images. Its stacks don't grow.
///
/// Contracts see it as its room: the number of entries that each stack takes.
#[derive(Drop)]
pub struct Machine {
    state: State,
}

impl Model for Machine {
    ghost use Rattle.std.specs.Prelude.{ℕ};
    ghost use Rattle.std.specs.Coded.{coded_ℕ};

    ghost Value = { ℕ };

    ghost coded = { coded_ℕ };

    ghost use Rattle.pads_machine.specs.Held.{Roomy};

    ghost view = { λ machine. machine.state.room };

    ghost invariant = { λ machine. Roomy machine.state.room machine.state };
}

/// The address of a declaration's first instruction.
fn first(entries: &[Entry], number: u16) -> usize
    ensures first { result ≡ first_of (slice_get entries.now number) }
{
    match entries.get(usize::from(number)) {
        None => 0,
        Some(entry) => entry.first as usize,
    }
}

/// What a record's type reads as at its first byte.
fn read_body<'x>(
    alloc: Global,
    state: &mut State,
    image: &'x Image,
    record_no: u64,
    frame: &'x Frame<'x>,
) -> Result<Reading, Memory>
    ghost steps: { ℕ }
    requires room { image.now.need ≤ state.old.room }
    requires roomy { Roomy state.old.room state.old }
    requires halts { Halting image.now.code image.now.entries (subject_of_cut image.now.scan (cut_of_frame frame.now)) image.now.need steps (start image.now.entries (subject_of_cut image.now.scan (cut_of_frame frame.now)) (type_of image.now.shape record_no)) }
    ensures body { IfOk result (λ body. (r : Reading) → HaltsWith image.now.code image.now.entries (subject_of_cut image.now.scan (cut_of_frame frame.now)) image.now.need (start image.now.entries (subject_of_cut image.now.scan (cut_of_frame frame.now)) (type_of image.now.shape record_no)) r → body ≡ r) }
    ensures within { IfOk result (λ body. body.place ≤ length frame.now.bytes.now) }
    ensures roomy { Roomy state.old.room state.new }
{
    let number = image.shape.type_of(record_no);
    let address = first(image.entries.as_slice(), number);
    state.start(alloc, frame.first, address, INSIDE, 0);
    let program = Program {
        code: image.code.as_slice(),
        entries: image.entries.as_slice(),
        record: Record {
            origin: frame.first,
            bytes: frame.bytes,
            scan: image.scan,
        },
    };
    state.run(alloc, &program)?;
    Ok(state.take_last(alloc, frame.first))
}

impl Machine {
    /// A machine with room for what an image needs.
    pub fn new(alloc: Global, image: &Image) -> Result<Machine, Memory>
        ensures room { IfOk result (λ machine. machine ≡ image.now.need) }
    {
        Ok(Machine {
            state: State::new(alloc, image.code.as_slice(), image.need as usize)?,
        })
    }

    /// How many entries each of its stacks takes.
    pub fn room(&self) -> u64
        ensures room { result ≡ self.now }
    {
        self.state.room as u64
    }

    /// The row of a record by an image: its value, its descriptor and where its
    /// reading ended. A frame without its bytes isn't read, and its row has the cause of its mark. After
    /// either answer the machine is ready for the next record.
    pub fn read_record(
        &mut self,
        alloc: Global,
        image: &Image,
        record_no: u64,
        frame: &Frame,
    ) -> Result<Row, Memory>
        requires room { image.now.need ≤ self.old }
        ensures answer { IfOk result (λ row. Answers image.now.code image.now.entries image.now.shape image.now.scan image.now.need record_no (cut_of_frame frame.now) row) }
        ensures row { IfOk result (λ row. (decls : List Decl) → StandsFor image.now.code image.now.entries image.now.shape image.now.need decls → row ≡ row_of decls image.now.shape image.now.scan record_no (cut_of_frame frame.now)) }
        ensures room { self.new ≡ self.old }
    {
        if let Some(row) = row_without(alloc, record_no, frame) {
            return Ok(row);
        }
        let body = read_body(alloc, &mut self.state, image, record_no, frame)?;
        let number = image.shape.type_of(record_no);
        let left = image.kept(alloc, number, body)?;
        row_over(alloc, record_no, frame, left)
    }
}
