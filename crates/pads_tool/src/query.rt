ghost use Rattle.std.specs.Prelude.{◌≡◌, ◌≢◌, ◌++◌, ℕ, List, Option, false, OnOk};
ghost use Rattle.pads_module.specs.Modules.{contents};
ghost use Rattle.pads_io.specs.Calls.{CallsOfTwo};
ghost use Rattle.pads_orders.specs.Orders.{KeepSettings};
ghost use Rattle.pads_tool.specs.Describing.{described};
ghost use Rattle.pads_tool.specs.Endings.{status_of};
ghost use Rattle.pads_tool.specs.FileReads.{ReadsOnce};
ghost use Rattle.pads_tool.specs.Promises.{Keeps, counts, querying, seen};
ghost use Rattle.pads_tool.specs.Querying.{answer_to, answers, is_header, is_kept, lines_of};
ghost use Rattle.pads_tool.specs.Reading.{RecordsGive};
ghost use Rattle.pads_tool.specs.Running.{IsBeforeInput};
ghost use Rattle.pads_tool.specs.declared.ending.Ending.TheVariants as ending;

use crate::ending::Ending;
use crate::reader::Reader;
use crate::rows::{are_clean, ending_of};
use crate::text::asked_in;
use crate::unused::unused;
use pads_calc::Shape;
use pads_drive::{Command, Gate, Limit, Output, drive};
use pads_erase::Mask;
use pads_expr::Expr;
use pads_io::{Files, Sink, Source};
use pads_json::LineKeys;
use pads_machine::Machine;
use pads_nodes::Cursor;
use pads_orders::{Cutting, Question, Settings};
use pads_question::{Asked, keeps};
use pads_value::{Frame, Memory, Pd, Refusal, Row, Val};
use std::alloc::Global;
use std::thread::Threads;

/// The command that writes one line for each node that is asked for.
#[derive(Drop)]
pub(crate) struct Answers {
    pub(crate) reader: Reader,
    pub(crate) asked: Asked,
    pub(crate) keys: LineKeys,
    pub(crate) ghost known: { keys ≡ reader.module.names },
}

impl Command for Answers {
    ghost use Rattle.std.specs.List.{list_all};
    ghost use Rattle.std.specs.Prelude.{◌≤◌};
    ghost use Rattle.pads_module.specs.Modules.{contents};
    ghost use Rattle.pads_tool.specs.Describing.{is_clean};
    ghost use Rattle.pads_tool.specs.Querying.{answers};

    type Row = Row;

    /// Whether all records are clean.
    type Tally = bool;

    /// The same of the records of a piece.
    type Share = bool;

    type Reader = Machine;

    ghost work = { λ command. answers (contents command.reader.module) command.asked };

    ghost share_of = { λ command rows. list_all is_clean rows };

    ghost suits = { λ command machine. command.reader.image.need ≤ machine };

    fn reader(&self, alloc: Global) -> Result<Machine, Memory> {
        self.reader.machine(alloc)
    }

    fn none(&self, _alloc: Global) -> Result<bool, Memory> {
        Ok(true)
    }

    fn read(
        &self,
        alloc: Global,
        machine: &mut Machine,
        number: u64,
        frame: &Frame,
    ) -> Result<Row, Memory> {
        self.reader.read(alloc, machine, number, frame)
    }

    fn give(
        &self,
        alloc: Global,
        _machine: &mut Machine,
        row: &Row,
        output: &mut Output,
        share: &mut bool,
    ) -> Result<(), Refusal<Limit>> {
        let Ok(()) = put_answer(alloc, self, row, output) else {
            return Err(Refusal::Memory);
        };
        *share = are_clean(*share, row);
        Ok(())
    }

    fn add(&self, tally: &mut bool, share: bool) -> Result<(), Refusal<Limit>> {
        *tally = *tally && share;
        Ok(())
    }

    ghost stays_over = { λ _ _ _ _ over. over };
}

/// Whether the record of this number is a header.
fn is_header(shape: Shape, number: u64) -> bool
    ensures header { result ≡ is_header shape number }
{
    number == 0 && shape.head.is_some()
}

/// Whether a node with this value is kept.
fn is_kept(filter: &Option<Expr>, value: &Val, pd: &Pd) -> bool
    ensures kept { result ≡ is_kept filter.now (value.now, pd.now) }
{
    match filter {
        None => true,
        Some(filter) => keeps(filter, value),
    }
}

/// Puts the lines of the nodes that are left, of the record of this number, behind the output.
fn put_lines(
    alloc: Global,
    command: &Answers,
    number: u64,
    cursor: &mut Cursor<'_>,
    output: &mut Output,
) -> Result<(), Memory>
    ensures put { OnOk result (output.new ≡ record { out = output.old.out ++ lines_of (contents command.now.reader.module) command.now.asked number cursor.old; notes = output.old.notes }) }
{
    'nodes: while let Some((value, pd)) = cursor.next() {
        if is_kept(&command.asked.filter, value, pd) {
            let description = &command.reader.module;
            let steps = &command.asked.steps;
            let out = &mut output.out;
            command
                .keys
                .write_node(alloc, description, out, steps, number, value, pd)?;
        }
    }
    Ok(())
}

/// Puts the lines of a record behind the output.
fn put_answer(
    alloc: Global,
    command: &Answers,
    row: &Row,
    output: &mut Output,
) -> Result<(), Memory>
    ensures put { OnOk result (output.new ≡ record { out = output.old.out ++ answer_to (contents command.now.reader.module) command.now.asked row.now; notes = output.old.notes }) }
{
    if is_header(command.reader.module.shape, row.number) {
        return Ok(());
    }
    let mut cursor = Cursor::new(alloc, &command.asked.steps, row)?;
    put_lines(alloc, command, row.number, &mut cursor, output)
}

/// Writes one line for each node of a record of the source that is asked for. While it reads, nothing is noted, and so
/// the notes of the run aren't handed in.
fn write_answers<R: Threads + Sync, S: Source, K: Sink, G: Gate + Sync>(
    rt: &R,
    alloc: Global,
    command: &Answers,
    settings: &Settings,
    source: &mut S,
    out: &mut K,
    gate: &G,
) -> Ending
    requires limits { KeepSettings settings.now }
    ensures gives { (noted : Option (List ℕ)) (notes : ℕ) → RecordsGive (λ d. answers d.made command.now.asked) false (described (contents command.now.reader.module) settings.now.cutting)
        (S.left source.old) (S.left source.new) (K.written out.old) (K.written out.new) noted noted
        (S.faults source.old) (S.faults source.new) (K.faults out.old) (K.faults out.new) notes notes result }
    ensures calls { CallsOfTwo S.reads K.writes source.old out.old source.new out.new }
    ensures out_kept { result ≢ ending.WriteFault → K.faults out.new ≡ K.faults out.old }
    ensures source_kept { result ≢ ending.ReadFault → result ≢ ending.WriteFault → result ≢ ending.Memory → S.faults source.new ≡ S.faults source.old }
{
    let Cutting { discipline, max } = settings.cutting;
    ending_of(drive(
        rt,
        command,
        alloc,
        settings.jobs,
        gate,
        true,
        discipline,
        max,
        source,
        out,
        &mut unused(alloc),
    ))
}

/// Writes one line for each node of a record of the source that a question asks for, by the description in a file under a
/// mask.
pub(crate) fn query<R: Threads + Sync, F: Files, S: Source, K: Sink, G: Gate + Sync>(
    rt: &R,
    alloc: Global,
    question: &Question,
    settings: &Settings,
    mask: &Mask,
    files: &mut F,
    source: &mut S,
    out: &mut K,
    gate: &G,
) -> Ending
    requires limits { KeepSettings settings.now }
    ensures gives { (noted : Option (List ℕ)) (notes : ℕ) → Keeps (querying question.now settings.now mask.now)
        (seen (F.content files.old) (S.left source.old) (S.left source.new) (K.written out.old) (K.written out.new) noted noted)
        (counts (F.faults files.old) (F.faults files.new) (S.faults source.old) (S.faults source.new) (K.faults out.old) (K.faults out.new)
        notes notes) result }
    ensures untouched { IsBeforeInput (status_of result) → source.new ≡ source.old }
    ensures reads { ReadsOnce F.reads question.now.description files.old files.new }
    ensures calls { CallsOfTwo S.reads K.writes source.old out.old source.new out.new }
    ensures files_kept { result ≢ ending.FileFault → F.faults files.new ≡ F.faults files.old }
    ensures out_kept { result ≢ ending.WriteFault → K.faults out.new ≡ K.faults out.old }
    ensures source_kept { result ≢ ending.ReadFault → result ≢ ending.WriteFault → result ≢ ending.Memory → S.faults source.new ≡ S.faults source.old }
{
    match asked_in(alloc, files, question, settings.coding, mask, settings.scan) {
        Ok(answers) => write_answers(rt, alloc, &answers, settings, source, out, gate),
        Err(ending) => ending,
    }
}
