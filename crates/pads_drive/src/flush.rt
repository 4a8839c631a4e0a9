ghost use Rattle.std.specs.Prelude.{List, ◌<◌, ◌≡◌, ◌+◌, ◌^◌, ◌≤◌, [], length, OnOk, OnErr, IfErr};
ghost use Rattle.pads_frame.specs.State.{MayCome};
ghost use Rattle.pads_io.specs.Calls.{WritesBy};
ghost use Rattle.pads_drive.specs.Halting.{Halts, IsFilled, met};
ghost use Rattle.pads_drive.specs.Moments.{moment_of};
ghost use Rattle.pads_drive.specs.Outputs.{Tallies};
ghost use Rattle.pads_drive.specs.Progress.{Progresses, Stops};
ghost use Rattle.pads_drive.specs.Stopping.{HasSinkCause};

use crate::command::Command;
use crate::driving::{Batch, Reading, write_output};
use crate::gate::Gate;
use crate::gather::give_batch;
use crate::limit::Limit;
use crate::stop::Stop;
use pads_io::Sink;
use pads_value::Refusal;
use std::alloc::Global;
use std::thread::Threads;

/// Reads the records that wait, counts their rows, and writes what the command writes for them.
pub(crate) fn flush<R: Threads + Sync, C: Command, G: Gate + Sync, K: Sink, E: Sink>(
    rt: &R,
    command: &C,
    alloc: Global,
    jobs: u32,
    gate: &G,
    reading: &mut Reading<C::Tally>,
    out: &mut K,
    notes: &mut E,
) -> Result<(), Stop>
    requires jobs { 0 < jobs }
    requires few { reading.old.number + length reading.old.batch.frames ≤ 2 ^ 62 }
    requires filled { IsFilled reading.old.batch }
    requires counted { (before : List C.Row) × Tallies (C.work command.now) before reading.old.tally }
    ensures ok { OnOk result (Progresses (C.work command.now)
        (K.written out.old) (K.written out.new) (E.written notes.old) (E.written notes.new)
        (moment_of reading.old) (moment_of reading.new) []) }
    ensures err { IfErr result (Stops (C.work command.now)
        (K.written out.old) (K.written out.new) (E.written notes.old) (E.written notes.new)
        (moment_of reading.old) [] (MayCome reading.old.framer)) }
    ensures met { OnOk result (met (moment_of reading.new) ≡ met (moment_of reading.old)) }
    ensures filled { OnOk result (IsFilled reading.new.batch) }
    ensures emptied { OnOk result (reading.new.batch.frames ≡ []) }
    ensures framer { reading.new.framer ≡ reading.old.framer }
    ensures halts { OnErr result (Halts (C.work command.now)
        (K.written out.old) (K.written out.new) (E.written notes.old) (E.written notes.new)
        (moment_of reading.old) [] (MayCome reading.old.framer)) }
    ensures calls { WritesBy K.writes E.writes out.old notes.old out.new notes.new result }
    ensures cause { HasSinkCause (K.faults out.old) (K.faults out.new) (E.faults notes.old) (E.faults notes.new)
        ((row : C.Row) → (C.work command.now).notes row ≡ []) result }
{
    let frames = reading.batch.frames.as_slice();
    let output = match give_batch(
        rt,
        command,
        alloc,
        jobs,
        gate,
        reading.number,
        frames,
        &mut reading.tally,
    ) {
        Ok(output) => output,
        Err(Refusal::Fault(Limit)) => return Err(Stop::Limit),
        Err(Refusal::Memory) => return Err(Stop::Memory),
    };
    if let Err(stop) = write_output(&output, out, notes) {
        return Err(stop);
    }
    reading.number += reading.batch.frames.len();
    reading.batch = Batch::new(alloc);
    Ok(())
}
