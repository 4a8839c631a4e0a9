ghost use Rattle.std.specs.Prelude.{◌≡◌, ◌≢◌, ℕ, List, Option, false};
ghost use Rattle.pads_io.specs.Calls.{CallsOfTwo};
ghost use Rattle.pads_orders.specs.Orders.{KeepSettings};
ghost use Rattle.pads_tool.specs.Describing.{described, lines};
ghost use Rattle.pads_tool.specs.Endings.{status_of};
ghost use Rattle.pads_tool.specs.Reading.{RecordsGive};
ghost use Rattle.pads_tool.specs.FileReads.{ReadsOnce};
ghost use Rattle.pads_tool.specs.Promises.{Keeps, counts, parsing, seen};
ghost use Rattle.pads_tool.specs.Running.{IsBeforeInput};
ghost use Rattle.pads_tool.specs.declared.ending.Ending.TheVariants as ending;
ghost use Rattle.pads_module.specs.Modules.{contents};

use crate::ending::Ending;
use crate::reader::Reader;
use crate::rows::{are_clean, ending_of};
use crate::text::read_under;
use crate::unused::unused;
use pads_drive::{Command, Gate, Limit, Output, drive};
use pads_erase::Mask;
use pads_io::{Files, Sink, Source};
use pads_json::LineKeys;
use pads_machine::Machine;
use pads_orders::{Cutting, Settings};
use pads_value::{Frame, Memory, Refusal, Row};
use std::alloc::Global;
use std::thread::Threads;

/// The command that writes one line for each record.
#[derive(Drop)]
pub(crate) struct Lines {
    pub(crate) reader: Reader,
    pub(crate) keys: LineKeys,
    pub(crate) ghost known: { keys ≡ reader.module.names },
}

impl Command for Lines {
    ghost use Rattle.std.specs.List.{list_all};
    ghost use Rattle.std.specs.Prelude.{◌≤◌};
    ghost use Rattle.pads_tool.specs.Describing.{is_clean, lines};
    ghost use Rattle.pads_module.specs.Modules.{contents};

    type Row = Row;

    /// Whether all records are clean.
    type Tally = bool;

    /// The same of the records of a piece.
    type Share = bool;

    type Reader = Machine;

    ghost work = { λ command. lines (contents command.reader.module) };

    ghost share_of = { λ command rows. list_all is_clean rows };

    ghost suits = { λ command machine. command.reader.image.need ≤ machine };

    fn reader(&self, alloc: Global) -> Result<Machine, Memory> {
        self.reader.machine(alloc)
    }

    fn none(&self, _alloc: Global) -> Result<bool, Memory> {
        Ok(true)
    }

    fn read(
        &self,
        alloc: Global,
        machine: &mut Machine,
        number: u64,
        frame: &Frame,
    ) -> Result<Row, Memory> {
        self.reader.read(alloc, machine, number, frame)
    }

    fn give(
        &self,
        alloc: Global,
        _machine: &mut Machine,
        row: &Row,
        output: &mut Output,
        share: &mut bool,
    ) -> Result<(), Refusal<Limit>> {
        let description = &self.reader.module;
        let Ok(()) = self
            .keys
            .write_record(alloc, description, &mut output.out, row)
        else {
            return Err(Refusal::Memory);
        };
        *share = are_clean(*share, row);
        Ok(())
    }

    fn add(&self, tally: &mut bool, share: bool) -> Result<(), Refusal<Limit>> {
        *tally = *tally && share;
        Ok(())
    }

    ghost stays_over = { λ _ _ _ _ over. over };
}

/// Writes one line for each record of the source. While it reads, nothing is noted, and so the notes
/// of the run aren't handed in.
fn write_lines<R: Threads + Sync, S: Source, K: Sink, G: Gate + Sync>(
    rt: &R,
    alloc: Global,
    command: &Lines,
    settings: &Settings,
    source: &mut S,
    out: &mut K,
    gate: &G,
) -> Ending
    requires limits { KeepSettings settings.now }
    ensures gives { (noted : Option (List ℕ)) (notes : ℕ) → RecordsGive (λ d. lines d.made) false (described (contents command.now.reader.module) settings.now.cutting)
        (S.left source.old) (S.left source.new) (K.written out.old) (K.written out.new) noted noted
        (S.faults source.old) (S.faults source.new) (K.faults out.old) (K.faults out.new) notes notes result }
    ensures calls { CallsOfTwo S.reads K.writes source.old out.old source.new out.new }
    ensures out_kept { result ≢ ending.WriteFault → K.faults out.new ≡ K.faults out.old }
    ensures source_kept { result ≢ ending.ReadFault → result ≢ ending.WriteFault → result ≢ ending.Memory → S.faults source.new ≡ S.faults source.old }
{
    let Cutting { discipline, max } = settings.cutting;
    ending_of(drive(
        rt,
        command,
        alloc,
        settings.jobs,
        gate,
        true,
        discipline,
        max,
        source,
        out,
        &mut unused(alloc),
    ))
}

/// Writes one line for each record of the source, by the description in a file under a mask.
pub(crate) fn parse<R: Threads + Sync, F: Files, S: Source, K: Sink, G: Gate + Sync>(
    rt: &R,
    alloc: Global,
    name: &str,
    settings: &Settings,
    mask: &Mask,
    files: &mut F,
    source: &mut S,
    out: &mut K,
    gate: &G,
) -> Ending
    requires limits { KeepSettings settings.now }
    ensures gives { (noted : Option (List ℕ)) (notes : ℕ) → Keeps (parsing name.now settings.now mask.now)
        (seen (F.content files.old) (S.left source.old) (S.left source.new) (K.written out.old) (K.written out.new) noted noted)
        (counts (F.faults files.old) (F.faults files.new) (S.faults source.old) (S.faults source.new) (K.faults out.old) (K.faults out.new)
        notes notes) result }
    ensures untouched { IsBeforeInput (status_of result) → source.new ≡ source.old }
    ensures reads { ReadsOnce F.reads name.now files.old files.new }
    ensures calls { CallsOfTwo S.reads K.writes source.old out.old source.new out.new }
    ensures files_kept { result ≢ ending.FileFault → F.faults files.new ≡ F.faults files.old }
    ensures out_kept { result ≢ ending.WriteFault → K.faults out.new ≡ K.faults out.old }
    ensures source_kept { result ≢ ending.ReadFault → result ≢ ending.WriteFault → result ≢ ending.Memory → S.faults source.new ≡ S.faults source.old }
{
    match read_under(alloc, files, name, settings.coding, mask, settings.scan) {
        Ok(reader) => match LineKeys::new(alloc, &reader.module) {
            Ok(keys) => {
                let command = Lines { reader, keys };
                write_lines(rt, alloc, &command, settings, source, out, gate)
            }
            Err(_) => Ending::Memory,
        },
        Err(ending) => ending,
    }
}
