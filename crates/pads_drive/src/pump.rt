ghost use Rattle.std.specs.Prelude.{List, ◌<◌, ◌≡◌, ◌+◌, ◌^◌, ◌≤◌, [], length, OnOk, OnErr, IfErr};
ghost use Rattle.pads_frame.specs.State.{MayCome, reach};
ghost use Rattle.pads_io.specs.Calls.{WritesBy};
ghost use Rattle.pads_drive.specs.Driving.{IsWaiting};
ghost use Rattle.pads_drive.specs.Halting.{Halts, IsFilled, met};
ghost use Rattle.pads_drive.specs.Moments.{moment_of};
ghost use Rattle.pads_drive.specs.Outputs.{Tallies};
ghost use Rattle.pads_drive.specs.Progress.{Progresses, Stops};
ghost use Rattle.pads_drive.specs.Stopping.{HasSinkCause};

use crate::command::Command;
use crate::driving::{Reading, collect};
use crate::flush::flush;
use crate::gate::Gate;
use crate::stop::Stop;
use pads_io::Sink;
use std::alloc::Global;
use std::thread::Threads;

/// Reads and writes each batch that is full, until the framer wants more bytes.
pub(crate) fn pump<R: Threads + Sync, C: Command, G: Gate + Sync, K: Sink, E: Sink>(
    rt: &R,
    command: &C,
    alloc: Global,
    jobs: u32,
    gate: &G,
    reading: &mut Reading<C::Tally>,
    out: &mut K,
    notes: &mut E,
) -> Result<(), Stop>
    requires jobs { 0 < jobs }
    requires small { reading.old.number + length reading.old.batch.frames ≤ reading.old.framer.first }
    requires within { reach reading.old.framer ≤ 2 ^ 62 }
    requires filled { IsFilled reading.old.batch }
    requires counted { (before : List C.Row) × Tallies (C.work command.now) before reading.old.tally }
    ensures ok { OnOk result (Progresses (C.work command.now)
        (K.written out.old) (K.written out.new) (E.written notes.old) (E.written notes.new)
        (moment_of reading.old) (moment_of reading.new) []) }
    ensures met { OnOk result (met (moment_of reading.old) ≤ met (moment_of reading.new)) }
    ensures filled { OnOk result (IsFilled reading.new.batch) }
    ensures waiting { OnOk result (IsWaiting reading.new.framer) }
    ensures ended { OnOk result (reading.new.framer.ended ≡ reading.old.framer.ended) }
    ensures err { IfErr result (Stops (C.work command.now)
        (K.written out.old) (K.written out.new) (E.written notes.old) (E.written notes.new)
        (moment_of reading.old) [] (MayCome reading.old.framer)) }
    ensures halts { OnErr result (Halts (C.work command.now)
        (K.written out.old) (K.written out.new) (E.written notes.old) (E.written notes.new)
        (moment_of reading.old) [] (MayCome reading.old.framer)) }
    ensures calls { WritesBy K.writes E.writes out.old notes.old out.new notes.new result }
    ensures cause { HasSinkCause (K.faults out.old) (K.faults out.new) (E.faults notes.old) (E.faults notes.new)
        ((row : C.Row) → (C.work command.now).notes row ≡ []) result }
{
    'batches: loop {
        match collect(alloc, jobs, &mut reading.framer, &mut reading.batch) {
            Err(_) => return Err(Stop::Memory),
            Ok(false) => return Ok(()),
            Ok(true) => {}
        }
        if let Err(stop) = flush(rt, command, alloc, jobs, gate, reading, out, notes) {
            return Err(stop);
        }
    }
}
