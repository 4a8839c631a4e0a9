ghost use Rattle.std.specs.Coded.{Coded-set, coded_list};
ghost use Rattle.std.specs.Prelude.{◌≡◌, ◌≢◌, ◌≤◌, ℕ, [], Bool, List, Option, false, IfErr, IfOk, OnErr, OnOk};
ghost use Rattle.pads_accum.specs.States.{IsSummaryOf};
ghost use Rattle.pads_io.specs.Calls.{CallsOfTwo, Reads, Writes};
ghost use Rattle.pads_module.specs.Modules.{contents};
ghost use Rattle.pads_orders.specs.Orders.{KeepSettings};
ghost use Rattle.pads_plan.specs.Plans.{lists_of, most, size};
ghost use Rattle.pads_plan.specs.contracts.part.PlanList as plan_list;
ghost use Rattle.pads_report.specs.Reports.{report_text};
ghost use Rattle.pads_tool.specs.Describing.{described};
ghost use Rattle.pads_tool.specs.Endings.{status_of};
ghost use Rattle.pads_tool.specs.FileReads.{ReadsOnce};
ghost use Rattle.pads_tool.specs.Promises.{Keeps, counts, seen, summarizing};
ghost use Rattle.pads_tool.specs.Running.{IsBeforeInput};
ghost use Rattle.pads_tool.specs.Summing.{HasNoSummary, SumsGive};
ghost use Rattle.pads_tool.specs.Telling.{Tells};
ghost use Rattle.pads_tool.specs.declared.ending.Ending.TheVariants as ending;

use crate::ending::Ending;
use crate::reader::Reader;
use crate::reason::Reason;
use crate::rows::{are_both, are_clean};
use crate::summed::{PieceSummed, Summed};
use crate::tell::tell;
use crate::text::read_under;
use crate::unused::unused;
use pads_accum::Summary;
use pads_drive::{Command, Ended, Gate, Limit, Output, Stop, drive};
use pads_erase::Mask;
use pads_io::{Files, Sink, Source};
use pads_machine::Machine;
use pads_module::Module;
use pads_orders::{Cutting, Settings};
use pads_report::report;
use pads_value::{Frame, Memory, Refusal, Row};
use std::alloc::Global;
use std::thread::Threads;

/// The command that sums up what the parts of records gave.
#[derive(Drop)]
pub(crate) struct Sums {
    pub(crate) reader: Reader,
    /// The summary of no records, which makes the workers' chunks.
    pub(crate) blank: Summary,
    pub(crate) ghost plan: { blank.plan ≡ lists_of (contents reader.module) } by { Coded-set (coded_list plan_list.the_row.coded) blank.plan (lists_of (contents reader.module)) },
}

impl Command for Sums {
    ghost use Rattle.std.specs.Prelude.{◌≤◌};
    ghost use Rattle.pads_module.specs.Modules.{contents};
    ghost use Rattle.pads_tool.specs.Among.{passes-among};
    ghost use Rattle.pads_tool.specs.Summing.{piece_summed, sums};
    ghost use Rattle.pads_plan.specs.Plans.{lists_of};

    type Row = Row;

    type Tally = Summed;

    type Share = PieceSummed;

    type Reader = Machine;

    ghost work = { λ command. sums (contents command.reader.module) };

    ghost share_of = { λ command. piece_summed (contents command.reader.module) };

    ghost suits = { λ command machine. command.reader.image.need ≤ machine };

    fn reader(&self, alloc: Global) -> Result<Machine, Memory> {
        self.reader.machine(alloc)
    }

    fn none(&self, _alloc: Global) -> Result<PieceSummed, Memory> {
        let chunk = self.blank.blank_chunk()?;
        Ok(PieceSummed { chunk, clean: true })
    }

    fn read(
        &self,
        alloc: Global,
        machine: &mut Machine,
        number: u64,
        frame: &Frame,
    ) -> Result<Row, Memory> {
        self.reader.read(alloc, machine, number, frame)
    }

    fn give(
        &self,
        _alloc: Global,
        _machine: &mut Machine,
        row: &Row,
        _output: &mut Output,
        share: &mut PieceSummed,
    ) -> Result<(), Refusal<Limit>> {
        match share.chunk.add(row) {
            Ok(()) => {
                share.clean = are_clean(share.clean, row);
                Ok(())
            }
            Err(Refusal::Fault(_)) => Err(Refusal::Fault(Limit)),
            Err(Refusal::Memory) => Err(Refusal::Memory),
        }
    }

    fn add(&self, tally: &mut Summed, share: PieceSummed) -> Result<(), Refusal<Limit>> {
        let PieceSummed { chunk, clean } = share;
        match tally.summary.merge(chunk) {
            Ok(()) => {
                tally.clean = are_both(tally.clean, clean);
                Ok(())
            }
            Err(Refusal::Fault(_)) => Err(Refusal::Fault(Limit)),
            Err(Refusal::Memory) => Err(Refusal::Memory),
        }
    }

    ghost stays_over = { λ command before rows more over. passes-among (lists_of (contents command.reader.module)) before rows more over };
}

/// Sums up all records of the source.
fn summed<R: Threads + Sync, S: Source, G: Gate + Sync>(
    rt: &R,
    alloc: Global,
    command: &Sums,
    summary: Summary,
    settings: &Settings,
    source: &mut S,
    gate: &G,
) -> Result<Summed, Ending>
    requires limits { KeepSettings settings.now }
    requires plan { summary.plan ≡ lists_of (contents command.now.reader.module) }
    requires empty { IsSummaryOf summary [] }
    requires unspent { summary.spent ≡ false }
    ensures gives { SumsGive (S.left source.new) (S.left source.old) (S.faults source.old) (S.faults source.new)
        (described (contents command.now.reader.module) settings.now.cutting) result }
    ensures calls { Reads S.reads source.old source.new }
    ensures source_kept { IfErr result (λ stop. stop ≢ ending.ReadFault → stop ≢ ending.Memory → stop ≢ ending.Limit → S.faults source.new ≡ S.faults source.old) }
    ensures source_well { IfOk result (λ all. S.faults source.new ≡ S.faults source.old) }
{
    let Cutting { discipline, max } = settings.cutting;
    let none = Summed {
        summary,
        clean: true,
    };
    match drive(
        rt,
        command,
        alloc,
        settings.jobs,
        gate,
        none,
        discipline,
        max,
        source,
        &mut unused(alloc),
        &mut unused(alloc),
    ) {
        Ok(Ended::Finished(summed)) => Ok(summed),
        Ok(Ended::ReadFault) => Err(Ending::ReadFault),
        Ok(Ended::TooLong) => Err(Ending::TooLong),
        Err(Stop::Limit) => Err(Ending::Limit),
        // Nothing is written on the sinks.
        Err(Stop::Out | Stop::Notes | Stop::Memory) => Err(Ending::Memory),
    }
}

/// The summary of no records, or how the run ends without it.
fn empty_summary(alloc: Global, made: &Module) -> Result<Summary, Ending>
    ensures plan { IfOk result (λ summary. summary.plan ≡ lists_of (contents made.now)) }
    ensures empty { IfOk result (λ summary. IsSummaryOf summary []) }
    ensures unspent { IfOk result (λ summary. summary.spent ≡ false) }
    ensures few { OnOk result (size (lists_of (contents made.now)) ≤ most) }
    ensures stops { IfErr result (HasNoSummary (contents made.now)) }
{
    match Summary::new(alloc, made) {
        Ok(summary) => Ok(summary),
        Err(Refusal::Fault(_)) => Err(Ending::Refused(Reason::SummaryTooLarge)),
        Err(Refusal::Memory) => Err(Ending::Memory),
    }
}

/// Reports what was summed up, with at most so many values of each part.
fn tell_report<K: Sink>(alloc: Global, summed: &Summed, top: u32, out: &mut K) -> Ending
    ensures tells { Tells (report_text top summed.now.summary.lists) summed.now.clean
        (K.written out.old) (K.written out.new) (K.faults out.old) (K.faults out.new) result }
    ensures calls { (well : Bool) × Writes K.writes out.old out.new well }
    ensures kept { result ≢ ending.WriteFault → K.faults out.new ≡ K.faults out.old }
{
    let Ok(text) = report(alloc, summed.summary.lists(), top) else {
        return Ending::Memory;
    };
    tell(out, text.as_slice(), summed.clean)
}

/// Reports what all records of the source come to, by the description in a file under a mask.
pub(crate) fn summary<R: Threads + Sync, F: Files, S: Source, K: Sink, G: Gate + Sync>(
    rt: &R,
    alloc: Global,
    name: &str,
    settings: &Settings,
    mask: &Mask,
    files: &mut F,
    source: &mut S,
    out: &mut K,
    gate: &G,
) -> Ending
    requires limits { KeepSettings settings.now }
    ensures gives { (noted noted' : Option (List ℕ)) (notes notes' : ℕ) → Keeps (summarizing name.now settings.now mask.now)
        (seen (F.content files.old) (S.left source.old) (S.left source.new) (K.written out.old) (K.written out.new) noted noted')
        (counts (F.faults files.old) (F.faults files.new) (S.faults source.old) (S.faults source.new) (K.faults out.old) (K.faults out.new)
        notes notes') result }
    ensures untouched { IsBeforeInput (status_of result) → source.new ≡ source.old }
    ensures reads { ReadsOnce F.reads name.now files.old files.new }
    ensures calls { CallsOfTwo S.reads K.writes source.old out.old source.new out.new }
    ensures files_kept { result ≢ ending.FileFault → F.faults files.new ≡ F.faults files.old }
    ensures out_kept { result ≢ ending.WriteFault → K.faults out.new ≡ K.faults out.old }
    ensures source_kept { result ≢ ending.ReadFault → result ≢ ending.WriteFault → result ≢ ending.Memory → result ≢ ending.Limit
        → S.faults source.new ≡ S.faults source.old }
{
    let reader = match read_under(alloc, files, name, settings.coding, mask, settings.scan) {
        Ok(reader) => reader,
        Err(ending) => return ending,
    };
    let none = match empty_summary(alloc, &reader.module) {
        Ok(none) => none,
        Err(ending) => return ending,
    };
    let blank = match empty_summary(alloc, &reader.module) {
        Ok(blank) => blank,
        Err(ending) => return ending,
    };
    match summed(
        rt,
        alloc,
        &Sums { reader, blank },
        none,
        settings,
        source,
        gate,
    ) {
        Ok(summed) => tell_report(alloc, &summed, settings.top, out),
        Err(ending) => ending,
    }
}
