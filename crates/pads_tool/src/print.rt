ghost use Rattle.std.specs.Prelude.{◌≡◌, ◌≢◌, ◌<◌, ◌≤◌, true, IfOk};
ghost use Rattle.pads_module.specs.Modules.{contents};
ghost use Rattle.pads_frame.specs.Fits.{FitsLimit};
ghost use Rattle.pads_io.specs.Calls.{Calls};
ghost use Rattle.pads_orders.specs.Orders.{KeepSettings};
ghost use Rattle.pads_tool.specs.Describing.{described};
ghost use Rattle.pads_tool.specs.Endings.{status_of};
ghost use Rattle.pads_tool.specs.FileReads.{ReadsOnce};
ghost use Rattle.pads_tool.specs.Limits.{FitsLimit-prop};
ghost use Rattle.pads_tool.specs.Printing.{prints, told_of};
ghost use Rattle.pads_tool.specs.Promises.{Keeps, counts, printing, seen};
ghost use Rattle.pads_tool.specs.Reading.{RecordsGive};
ghost use Rattle.pads_tool.specs.Running.{IsBeforeInput};
ghost use Rattle.pads_tool.specs.declared.ending.Ending.TheVariants as ending;

use crate::ending::Ending;
use crate::reader::Reader;
use crate::rows::{ending_of, is_clean};
use crate::telling::Told;
use crate::text::read_in;
use pads_drive::{Command, Gate, Limit, Output, drive};
use pads_io::{Files, Sink, Source};
use pads_machine::Machine;
use pads_orders::{Cutting, Settings};
use pads_print::Printed;
use pads_value::{Bytes, Frame, Memory, Refusal, Row};
use std::alloc::Global;
use std::thread::Threads;

/// The command that prints each clean record whose canonical bytes read back.
#[derive(Drop)]
pub(crate) struct Prints {
    pub(crate) reader: Reader,
    pub(crate) cutting: Cutting,
    pub(crate) ghost some: { 0 < cutting.max },
    pub(crate) ghost limit: { cutting.max ≤ 16777216 },
    pub(crate) ghost fits: { FitsLimit cutting.discipline cutting.max } by { FitsLimit-prop cutting.discipline cutting.max },
}

impl Command for Prints {
    ghost use Rattle.std.specs.List.{list_all};
    ghost use Rattle.std.specs.Prelude.{◌≤◌};
    ghost use Rattle.pads_tool.specs.Describing.{described};
    ghost use Rattle.pads_tool.specs.Printing.{is_printed, prints, told_of};
    ghost use Rattle.pads_module.specs.Modules.{contents};

    type Row = Row;

    /// Whether all records are printed.
    type Tally = bool;

    /// The same of the records of a piece.
    type Share = bool;

    type Reader = Machine;

    ghost work = { λ command. prints (described (contents command.reader.module) command.cutting) };

    ghost share_of = { λ command rows. list_all (λ row. is_printed (told_of (described (contents command.reader.module) command.cutting) row)) rows };

    ghost suits = { λ command machine. command.reader.image.need ≤ machine };

    fn reader(&self, alloc: Global) -> Result<Machine, Memory> {
        self.reader.machine(alloc)
    }

    fn none(&self, _alloc: Global) -> Result<bool, Memory> {
        Ok(true)
    }

    fn read(
        &self,
        alloc: Global,
        machine: &mut Machine,
        number: u64,
        frame: &Frame,
    ) -> Result<Row, Memory> {
        self.reader.read(alloc, machine, number, frame)
    }

    fn give(
        &self,
        alloc: Global,
        machine: &mut Machine,
        row: &Row,
        output: &mut Output,
        share: &mut bool,
    ) -> Result<(), Refusal<Limit>> {
        let Ok(told) = told(alloc, self, machine, row) else {
            return Err(Refusal::Memory);
        };
        let Ok(()) = told.put(row.number, output) else {
            return Err(Refusal::Memory);
        };
        *share = told.are_printed(*share);
        Ok(())
    }

    fn add(&self, tally: &mut bool, share: bool) -> Result<(), Refusal<Limit>> {
        *tally = *tally && share;
        Ok(())
    }

    ghost stays_over = { λ _ _ _ _ over. over };
}

/// What is told of a record.
pub(crate) fn told(
    alloc: Global,
    command: &Prints,
    machine: &mut Machine,
    row: &Row,
) -> Result<Told, Memory>
    requires room { command.now.reader.image.need ≤ machine.old }
    ensures told { IfOk result (λ told. told ≡ told_of (described (contents command.now.reader.module) command.now.cutting) row.now) }
    ensures room { machine.new ≡ machine.old }
{
    if !is_clean(row) {
        return Ok(Told::NotClean);
    }
    let Cutting { discipline, max } = command.cutting;
    match pads_print::print(
        alloc,
        machine,
        &command.reader.image,
        &command.reader.module,
        discipline,
        max,
        row.number,
        &row.value,
    )? {
        Printed::Framed(bytes) => Ok(Told::Printed(bytes)),
        Printed::Ambiguous { .. } => Ok(Told::Ambiguous),
        // It doesn't come: the value of a clean record has canonical bytes.
        Printed::NotAValue => Ok(Told::Printed(Bytes::new(alloc))),
    }
}

/// Prints each clean record of the source whose canonical bytes read back, and notes the others.
fn print_records<R: Threads + Sync, S: Source, K: Sink, E: Sink, G: Gate + Sync>(
    rt: &R,
    alloc: Global,
    command: &Prints,
    jobs: u32,
    source: &mut S,
    out: &mut K,
    notes: &mut E,
    gate: &G,
) -> Ending
    requires jobs { 0 < jobs }
    ensures gives { RecordsGive prints true (described (contents command.now.reader.module) command.now.cutting)
        (S.left source.old) (S.left source.new) (K.written out.old) (K.written out.new) (E.written notes.old) (E.written notes.new)
        (S.faults source.old) (S.faults source.new) (K.faults out.old) (K.faults out.new) (E.faults notes.old) (E.faults notes.new) result }
    ensures calls { Calls S.reads K.writes E.writes source.old out.old notes.old source.new out.new notes.new }
    ensures out_kept { result ≢ ending.WriteFault → K.faults out.new ≡ K.faults out.old }
    ensures notes_kept { result ≢ ending.WriteFault → E.faults notes.new ≡ E.faults notes.old }
    ensures source_kept { result ≢ ending.ReadFault → result ≢ ending.WriteFault → result ≢ ending.Memory → S.faults source.new ≡ S.faults source.old }
{
    let cutting = command.cutting;
    ending_of(drive(
        rt,
        command,
        alloc,
        jobs,
        gate,
        true,
        cutting.discipline,
        cutting.max,
        source,
        out,
        notes,
    ))
}

/// Prints each clean record of the source whose canonical bytes read back, by the description in a file, and notes the
/// others.
pub(crate) fn print<R: Threads + Sync, F: Files, S: Source, K: Sink, E: Sink, G: Gate + Sync>(
    rt: &R,
    alloc: Global,
    name: &str,
    settings: &Settings,
    files: &mut F,
    source: &mut S,
    out: &mut K,
    notes: &mut E,
    gate: &G,
) -> Ending
    requires limits { KeepSettings settings.now }
    ensures gives { Keeps (printing name.now settings.now)
        (seen (F.content files.old) (S.left source.old) (S.left source.new) (K.written out.old) (K.written out.new)
        (E.written notes.old) (E.written notes.new))
        (counts (F.faults files.old) (F.faults files.new) (S.faults source.old) (S.faults source.new) (K.faults out.old) (K.faults out.new)
        (E.faults notes.old) (E.faults notes.new)) result }
    ensures untouched { IsBeforeInput (status_of result) → source.new ≡ source.old }
    ensures quiet { IsBeforeInput (status_of result) → notes.new ≡ notes.old }
    ensures reads { ReadsOnce F.reads name.now files.old files.new }
    ensures calls { Calls S.reads K.writes E.writes source.old out.old notes.old source.new out.new notes.new }
    ensures files_kept { result ≢ ending.FileFault → F.faults files.new ≡ F.faults files.old }
    ensures out_kept { result ≢ ending.WriteFault → K.faults out.new ≡ K.faults out.old }
    ensures notes_kept { result ≢ ending.WriteFault → E.faults notes.new ≡ E.faults notes.old }
    ensures source_kept { result ≢ ending.ReadFault → result ≢ ending.WriteFault → result ≢ ending.Memory → S.faults source.new ≡ S.faults source.old }
{
    let cutting = settings.cutting;
    match read_in(alloc, files, name, settings.coding, settings.scan) {
        Ok(reader) => print_records(
            rt,
            alloc,
            &Prints { reader, cutting },
            settings.jobs,
            source,
            out,
            notes,
            gate,
        ),
        Err(ending) => ending,
    }
}
