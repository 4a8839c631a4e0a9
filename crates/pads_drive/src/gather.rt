ghost use Rattle.std.specs.Prelude.{◌≡◌, ◌+◌, ◌<◌, ◌^◌, ◌++◌, List, length, map, IfOk, OnOk};
ghost use Rattle.pads_value.specs.Cuts.{cut_of_kept};
ghost use Rattle.pads_drive.specs.Counting.{Counts};
ghost use Rattle.pads_drive.specs.Outputs.{Tallies, output_of, rows_of};
ghost use Rattle.pads_drive.specs.Sharing.{AreGiven, IsGiven, IsShare};

use crate::command::Command;
use crate::gate::Gate;
use crate::given::{Given, give_piece};
use crate::limit::Limit;
use crate::output::Output;
use crate::pieces::{in_pieces, pieces_for};
use pads_value::{Items, Kept, Refusal};
use std::alloc::Global;
use std::thread::Threads;

/// Adds what a worker gave of the rows of its piece to what was given of those before them.
fn take_part<C: Command>(
    command: &C,
    part: Result<Given<C::Share>, Refusal<Limit>>,
    output: &mut Output,
    tally: &mut C::Tally,
) -> Result<(), Refusal<Limit>>
    requires counted { (before : List C.Row) × Tallies (C.work command.now) before tally.old }
    requires given { (rows : List C.Row) × IsGiven (C.work command.now) (C.share_of command.now) rows part }
    ensures output { (before rows : List C.Row) → output.old ≡ output_of (C.work command.now) before
        → IsGiven (C.work command.now) (C.share_of command.now) rows part
        → OnOk result (output.new ≡ output_of (C.work command.now) (before ++ rows)) }
    ensures tally { (before rows : List C.Row) → Tallies (C.work command.now) before tally.old
        → IsGiven (C.work command.now) (C.share_of command.now) rows part
        → Counts (C.work command.now) before rows tally.new result }
{
    let Given {
        output: more,
        share,
    } = match part {
        Ok(given) => given,
        Err(refusal) => return Err(refusal),
    };
    if let Err(refusal) = command.add(tally, share) {
        return Err(refusal);
    }
    let Ok(()) = output.put_behind(more) else {
        return Err(Refusal::Memory);
    };
    Ok(())
}

/// Puts together what workers gave of rows, each of a piece.
fn gather<C: Command>(
    command: &C,
    alloc: Global,
    parts: Items<Result<Given<C::Share>, Refusal<Limit>>>,
    tally: &mut C::Tally,
) -> Result<Output, Refusal<Limit>>
    requires counted { (before : List C.Row) × Tallies (C.work command.now) before tally.old }
    requires given { (rows : List C.Row) × AreGiven (C.work command.now) (C.share_of command.now) rows parts }
    ensures output { (rows : List C.Row) → AreGiven (C.work command.now) (C.share_of command.now) rows parts
        → IfOk result (λ output. output ≡ output_of (C.work command.now) rows) }
    ensures tally { (before rows : List C.Row) → Tallies (C.work command.now) before tally.old
        → AreGiven (C.work command.now) (C.share_of command.now) rows parts
        → Counts (C.work command.now) before rows tally.new result }
{
    let mut output = Output::new(alloc);
    'parts: for part in parts.into_vec() {
        if let Err(refusal) = take_part(command, part, &mut output, tally) {
            return Err(refusal);
        }
    }
    Ok(output)
}

/// What is to be written for the rows of these frames, the first of which has this number. The tally
/// counts them behind the rows before them. The frames are divided among at most so many workers, which
/// pass the gate before each record.
pub(crate) fn give_batch<R: Threads + Sync, C: Command, G: Gate + Sync>(
    rt: &R,
    command: &C,
    alloc: Global,
    jobs: u32,
    gate: &G,
    number: u64,
    frames: &[Kept],
    tally: &mut C::Tally,
) -> Result<Output, Refusal<Limit>>
    requires jobs { 0 < jobs }
    requires numbered { number + length frames.now < 2 ^ 64 }
    requires counted { (before : List C.Row) × Tallies (C.work command.now) before tally.old }
    ensures output { IfOk result (λ output. output ≡ output_of (C.work command.now)
        (rows_of (C.work command.now) number (map cut_of_kept frames.now))) }
    ensures tally { (before : List C.Row) → Tallies (C.work command.now) before tally.old
        → Counts (C.work command.now) before (rows_of (C.work command.now) number (map cut_of_kept frames.now)) tally.new result }
{
    let give = |before: usize, piece: &[Kept]| -> Result<Given<C::Share>, Refusal<Limit>>
        requires { number + before + length piece.now < 2 ^ 64 }
        ensures { IsGiven (C.work command.entry.now) (C.share_of command.entry.now) (rows_of (C.work command.entry.now) (number + before) (map cut_of_kept piece.entry.now)) result }
    { give_piece(command, alloc, number + before as u64, piece, gate) };
    let Ok(parts) = in_pieces(rt, alloc, frames, pieces_for(jobs), jobs, &give) else {
        return Err(Refusal::Memory);
    };
    gather(command, alloc, parts, tally)
}
