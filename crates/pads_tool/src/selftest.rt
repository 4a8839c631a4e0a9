ghost use Rattle.std.specs.Prelude.{◌≡◌, ◌≢◌, ◌^◌, ◌<◌, ◌≤◌, ℕ, Bool, List, Option, Some, IfErr, IfOk, length};
ghost use Rattle.pads_module.specs.Modules.{contents};
ghost use Rattle.pads_io.specs.Calls.{Writes};
ghost use Rattle.pads_orders.specs.Orders.{KeepSettings};
ghost use Rattle.pads_selftest.specs.Description.{description as description_text};
ghost use Rattle.pads_selftest.specs.Records.{made};
ghost use Rattle.pads_tool.specs.Describing.{described};
ghost use Rattle.pads_tool.specs.Images.{IsReadIn, IsUnreadFor};
ghost use Rattle.pads_tool.specs.Promises.{Keeps, counts, seen, testing};
ghost use Rattle.pads_tool.specs.Testing.{rows_tested, tallied};
ghost use Rattle.pads_tool.specs.Texts.{StopsFor};
ghost use Rattle.pads_tool.specs.declared.ending.Ending.TheVariants as ending;

use crate::ending::Ending;
use crate::print::{Prints, told};
use crate::reader::Reader;
use crate::rows::is_clean;
use crate::tell::tell;
use crate::test_tally::TestTally;
use crate::text::described_by;
use crate::unused::unused;
use pads_code::Coding;
use pads_drive::{Command, Ended, Gate, Limit, Output, Stop, drive};
use pads_io::Sink;
use pads_machine::Machine;
use pads_orders::Settings;
use pads_selftest::{MadeRecords, bytes_made, description};
use pads_value::{Frame, Memory, Refusal, Row};
use std::alloc::Global;
use std::thread::Threads;

/// The command that counts records, and the bytes that are printed of them.
#[derive(Drop)]
pub(crate) struct Tests {
    pub(crate) prints: Prints,
}

impl Command for Tests {
    ghost use Rattle.std.specs.Prelude.{◌≤◌, ◌^◌, length};
    ghost use Rattle.pads_module.specs.Modules.{contents};
    ghost use Rattle.pads_tool.specs.Among.{over-among};
    ghost use Rattle.pads_tool.specs.Describing.{described};
    ghost use Rattle.pads_tool.specs.Testing.{tallied, tests};

    type Row = Row;

    type Tally = TestTally;

    type Share = TestTally;

    type Reader = Machine;

    ghost work = { λ command. tests (described (contents command.prints.reader.module) command.prints.cutting) };

    ghost share_of = { λ command. tallied (described (contents command.prints.reader.module) command.prints.cutting) };

    ghost suits = { λ command machine. command.prints.reader.image.need ≤ machine };

    fn reader(&self, alloc: Global) -> Result<Machine, Memory> {
        self.prints.reader.machine(alloc)
    }

    fn none(&self, _alloc: Global) -> Result<TestTally, Memory> {
        Ok(TestTally::none())
    }

    fn read(
        &self,
        alloc: Global,
        machine: &mut Machine,
        number: u64,
        frame: &Frame,
    ) -> Result<Row, Memory> {
        self.prints.reader.read(alloc, machine, number, frame)
    }

    fn give(
        &self,
        alloc: Global,
        machine: &mut Machine,
        row: &Row,
        _output: &mut Output,
        share: &mut TestTally,
    ) -> Result<(), Refusal<Limit>> {
        let Ok(told) = told(alloc, &self.prints, machine, row) else {
            return Err(Refusal::Memory);
        };
        match share.add(TestTally::one(is_clean(row), told.size())) {
            Ok(()) => Ok(()),
            Err(limit) => Err(Refusal::Fault(limit)),
        }
    }

    fn add(&self, tally: &mut TestTally, share: TestTally) -> Result<(), Refusal<Limit>> {
        match tally.add(share) {
            Ok(()) => Ok(()),
            Err(limit) => Err(Refusal::Fault(limit)),
        }
    }

    ghost stays_over = { λ command before rows more over. over-among (described (contents command.prints.reader.module) command.prints.cutting) before rows more over };
}

/// What the records that are made for a self-test come to.
fn tested<R: Threads + Sync, G: Gate + Sync>(
    rt: &R,
    alloc: Global,
    command: &Tests,
    jobs: u32,
    records: u32,
    gate: &G,
) -> Result<TestTally, Memory>
    requires jobs { 0 < jobs }
    requires few { length (made records) ≤ 2 ^ 27 }
    ensures tally { IfOk result (λ tally. tally ≡ tallied (described (contents command.now.prints.reader.module) command.now.prints.cutting)
        (rows_tested (described (contents command.now.prints.reader.module) command.now.prints.cutting) records)) }
{
    let cutting = command.prints.cutting;
    match drive(
        rt,
        command,
        alloc,
        jobs,
        gate,
        TestTally::none(),
        cutting.discipline,
        cutting.max,
        &mut MadeRecords::new(records),
        &mut unused(alloc),
        &mut unused(alloc),
    ) {
        Ok(Ended::Finished(tally)) => Ok(tally),
        // The source never fails, it isn't long, and so few records can be counted.
        Ok(Ended::ReadFault) => unreachable!(),
        Ok(Ended::TooLong) => unreachable!(),
        Err(Stop::Limit) => unreachable!(),
        // Nothing is written on the sinks.
        Err(Stop::Out | Stop::Notes | Stop::Memory) => Err(Memory),
    }
}

/// What reads the records that are made, or how the run ends without it.
fn test_reader(alloc: Global, coding: Coding) -> Result<Reader, Ending>
    ensures read { IfOk result (λ reader. IsReadIn (Some description_text) coding (contents reader.module)) }
    ensures stops { IfErr result (StopsFor (IsUnreadFor (Some description_text) coding)) }
{
    match described_by(alloc, description(), coding) {
        Ok(module) => Reader::new(alloc, module),
        Err(ending) => Err(ending),
    }
}

/// Tells what so many records come to that are made for this.
pub(crate) fn selftest<R: Threads + Sync, K: Sink, G: Gate + Sync>(
    rt: &R,
    alloc: Global,
    records: u32,
    settings: &Settings,
    out: &mut K,
    gate: &G,
) -> Ending
    requires limits { KeepSettings settings.now }
    requires few { records ≤ 1000000 }
    ensures gives { (content : List ℕ → Option (List ℕ)) (left left' noted noted' : Option (List ℕ)) (files files' source source' notes notes' : ℕ)
        → Keeps (testing records settings.now)
        (seen content left left' (K.written out.old) (K.written out.new) noted noted')
        (counts files files' source source' (K.faults out.old) (K.faults out.new) notes notes') result }
    ensures calls { (well : Bool) × Writes K.writes out.old out.new well }
    ensures out_kept { result ≢ ending.WriteFault → K.faults out.new ≡ K.faults out.old }
{
    let reader = match test_reader(alloc, settings.coding) {
        Ok(reader) => reader,
        Err(ending) => return ending,
    };
    let cutting = settings.cutting;
    let bytes = bytes_made(records);
    let tests = Tests {
        prints: Prints { reader, cutting },
    };
    match tested(rt, alloc, &tests, settings.jobs, records, gate) {
        Ok(tally) => tell(out, tally.line(bytes).as_slice(), tally.are_clean()),
        Err(Memory) => Ending::Memory,
    }
}
