ghost use Rattle.std.specs.Prelude.{List, ◌<◌, ◌≡◌, ◌≢◌, ◌+◌, ◌^◌, ◌≤◌, [], false, length, IfOk, OnOk, OnErr, IfErr, Ok};
ghost use Rattle.pads_frame.specs.State.{reach, rest};
ghost use Rattle.pads_io.specs.Calls.{CallsBy};
ghost use Rattle.pads_drive.specs.declared.refill.Refill.TheVariants as refilled;
ghost use Rattle.pads_drive.specs.Ends.{Anything, ReadsToEnd, StopsAt};
ghost use Rattle.pads_drive.specs.Halting.{Caught, HaltsAt, IsFilled};
ghost use Rattle.pads_drive.specs.Moments.{moment_of};
ghost use Rattle.pads_drive.specs.Outputs.{Tallies};
ghost use Rattle.pads_drive.specs.Stopping.{HasSinkCause};

use crate::command::Command;
use crate::driving::{Reading, refill};
use crate::gate::Gate;
use crate::pump::pump;
use crate::refill::Refill;
use crate::stop::Stop;
use pads_io::{Sink, Source};
use std::alloc::Global;
use std::thread::Threads;

/// Reads a source to its end, in pieces of at most 4,096 bytes. Each full batch is read and written
/// before more is read.
pub(crate) fn read_to_end<
    R: Threads + Sync,
    C: Command,
    G: Gate + Sync,
    S: Source,
    K: Sink,
    E: Sink,
>(
    rt: &R,
    command: &C,
    alloc: Global,
    jobs: u32,
    gate: &G,
    reading: &mut Reading<C::Tally>,
    source: &mut S,
    out: &mut K,
    notes: &mut E,
) -> Result<Refill, Stop>
    requires jobs { 0 < jobs }
    requires small { reading.old.number + length reading.old.batch.frames ≤ reading.old.framer.first }
    requires within { reach reading.old.framer ≤ 2 ^ 62 }
    requires open { reading.old.framer.ended ≡ false }
    requires filled { IsFilled reading.old.batch }
    requires fresh { rest false reading.old.framer [] ≡ [] }
    requires counted { (before : List C.Row) × Tallies (C.work command.now) before reading.old.tally }
    ensures ok { IfOk result (ReadsToEnd (C.work command.now)
        (S.left source.old) (S.left source.new) (K.written out.old) (K.written out.new)
        (E.written notes.old) (E.written notes.new) (S.faults source.old) (S.faults source.new)
        (moment_of reading.old) (moment_of reading.new)) }
    ensures within { OnOk result (reach reading.new.framer ≤ 2 ^ 62) }
    ensures filled { OnOk result (IsFilled reading.new.batch) }
    ensures caught { OnOk result (Caught (S.left source.old) (S.left source.new) (moment_of reading.old) (moment_of reading.new)) }
    ensures halts { OnErr result (HaltsAt (C.work command.now) (S.left source.old) (S.left source.new)
        (K.written out.old) (K.written out.new) (E.written notes.old) (E.written notes.new) (moment_of reading.old) Anything) }
    ensures err { IfErr result (StopsAt (C.work command.now)
        (S.left source.old) (S.left source.new) (K.written out.old) (K.written out.new)
        (E.written notes.old) (E.written notes.new) (moment_of reading.old)) }
    ensures calls { CallsBy S.reads K.writes E.writes source.old out.old notes.old source.new out.new notes.new result }
    ensures later { S.faults source.old ≤ S.faults source.new }
    ensures kept { result ≢ Ok refilled.ReadFault → S.faults source.new ≡ S.faults source.old }
    ensures cause { HasSinkCause (K.faults out.old) (K.faults out.new) (E.faults notes.old) (E.faults notes.new)
        ((row : C.Row) → (C.work command.now).notes row ≡ []) result }
{
    let mut piece = [0; 4096];
    'reads: loop {
        if let Err(stop) = pump(rt, command, alloc, jobs, gate, reading, out, notes) {
            return Err(stop);
        }
        match refill(source, &mut reading.framer, &mut piece) {
            Refill::More => {}
            Refill::End => return Ok(Refill::End),
            Refill::ReadFault => return Ok(Refill::ReadFault),
            Refill::TooLong => return Ok(Refill::TooLong),
        }
    }
}
