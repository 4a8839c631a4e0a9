ghost use Rattle.std.specs.Prelude.{◌≡◌, ◌≢◌, ◌<◌, ◌≤◌, [], true, List, Ok, IfErr, OnErr, IfSome, IfOk};
ghost use Rattle.pads_frame.specs.Fits.{FitsLimit};
ghost use Rattle.pads_io.specs.Calls.{CallsBy};
ghost use Rattle.pads_io.specs.Faults.{Rose};
ghost use Rattle.pads_drive.specs.Drives.{DriveGives};
ghost use Rattle.pads_drive.specs.LittleAhead.{IsLittleAhead};
ghost use Rattle.pads_drive.specs.Outputs.{Tallies};
ghost use Rattle.pads_drive.specs.Stopping.{AtLimit, HasSinkCause};
ghost use Rattle.pads_drive.specs.declared.ended.Ended.TheVariants as ended;

use crate::command::Command;
use crate::driving::{Batch, Reading};
use crate::ended::Ended;
use crate::finish::finish;
use crate::gate::Gate;
use crate::refill::Refill;
use crate::source::read_to_end;
use crate::stop::Stop;
use pads_frame::{Discipline, Framer};
use pads_io::{Sink, Source};
use std::alloc::Global;
use std::thread::Threads;

/// Reads a source to its end, cuts its bytes into records, and writes on `out` and the notes what the
/// command says of the row of each, in the order of the input. The tally, of no rows yet, counts them.
/// What is left of the source is the whole input: its first byte has offset 0, and its first record
/// number 0. A record has at most `max` bytes, or else is marked as too long.
///
/// The records of a batch are read by at most `jobs` workers, which pass the gate before each. What
/// comes of it is the same for any number of them.
///
/// Nothing is read once the source has ended or failed, and nothing is read or written once a write has
/// failed: the calls of the three objects come in such an order, and there are no others.
///
/// The source is read in pieces of at most 4,096 bytes, and the frames that they complete are gathered
/// into batches: one has at most 256 frames, or 8,192 that several workers share, and takes no more once
/// they have 4,194,304 bytes. A full batch is written before more is read, and the rest as soon as the
/// input has ended, failed, or proved too long.
///
/// `Ended` and `Stop` say what was written at each answer. `Ended::ReadFault` comes only where the
/// source's count of failures rose, `Stop::Out` and `Stop::Notes` only where that sink's did, and
/// `Ended::TooLong` only where the source tells more than 2^62 bytes. `Stop::Limit` comes where the
/// tally can't count the rows of all records, and `Ended::Finished` only where it can. At each `Stop`,
/// where no record of the input is too long or broken, the output of all records that the bytes read
/// complete was written on both sinks, but for those in at most 2 `max` + 4,259,840 of the last bytes.
/// What a source or sink doesn't tell, nothing is said of.
pub fn drive<R: Threads + Sync, C: Command, G: Gate + Sync, S: Source, K: Sink, E: Sink>(
    rt: &R,
    command: &C,
    alloc: Global,
    jobs: u32,
    gate: &G,
    tally: C::Tally,
    discipline: Discipline,
    max: u64,
    source: &mut S,
    out: &mut K,
    notes: &mut E,
) -> Result<Ended<C::Tally>, Stop>
    requires jobs { 0 < jobs }
    requires some { 0 < max }
    requires limit { max ≤ 16777216 }
    requires fits_limit { FitsLimit discipline max }
    requires none_counted { Tallies (C.work command.now) [] tally }
    ensures gives { IfSome (S.left source.old) (λ input. DriveGives (C.work command.now) discipline max input (S.left source.new)
        (K.written out.old) (K.written out.new) (E.written notes.old) (E.written notes.new) result) }
    ensures ahead { OnErr result (IfSome (S.left source.old) (IsLittleAhead (C.work command.now) discipline max
        (S.left source.new) (K.written out.old) (K.written out.new) (E.written notes.old) (E.written notes.new))) }
    ensures limit { IfErr result (AtLimit ((rows : List C.Row) × ((C.work command.now).is_over rows ≡ true))) }
    ensures read_fault { result ≡ Ok ended.ReadFault → Rose (S.faults source.old) (S.faults source.new) }
    ensures calls { CallsBy S.reads K.writes E.writes source.old out.old notes.old source.new out.new notes.new result }
    ensures later { S.faults source.old ≤ S.faults source.new }
    ensures kept { IfOk result (λ outcome. outcome ≢ ended.ReadFault → S.faults source.new ≡ S.faults source.old) }
    ensures cause { HasSinkCause (K.faults out.old) (K.faults out.new) (E.faults notes.old) (E.faults notes.new)
        ((row : C.Row) → (C.work command.now).notes row ≡ []) result }
{
    let Ok(framer) = Framer::new(alloc, discipline, max, 0) else {
        return Err(Stop::Memory);
    };
    let mut reading = Reading {
        framer,
        batch: Batch::new(alloc),
        number: 0,
        tally,
    };
    let refill = match read_to_end(
        rt,
        command,
        alloc,
        jobs,
        gate,
        &mut reading,
        source,
        out,
        notes,
    ) {
        Ok(refill) => refill,
        Err(stop) => return Err(stop),
    };
    if let Err(stop) = finish(rt, command, alloc, jobs, gate, &mut reading, out, notes) {
        return Err(stop);
    }
    match refill {
        Refill::End => Ok(Ended::Finished(reading.tally)),
        Refill::ReadFault => Ok(Ended::ReadFault),
        Refill::TooLong => Ok(Ended::TooLong),
        Refill::More => unreachable!(),
    }
}
