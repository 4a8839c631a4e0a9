ghost use Rattle.std.specs.Prelude.{◌≡◌, ◌+◌, ◌<◌, ◌^◌, ◌∷◌, ◌++◌, [], List, length, map, OnOk};
ghost use Rattle.pads_value.specs.Cuts.{cut_of_kept};
ghost use Rattle.pads_drive.specs.Outputs.{added, rows_of};
ghost use Rattle.pads_drive.specs.Sharing.{IsGiven, IsShare, Shares};

use crate::command::Command;
use crate::gate::Gate;
use crate::limit::Limit;
use crate::output::Output;
use pads_value::{Kept, Refusal};
use std::alloc::Global;

/// What a worker gives of the rows of its piece: what is to be written for them, and its share.
#[derive(Drop)]
pub(crate) struct Given<S> {
    pub(crate) output: Output,
    pub(crate) share: S,
}

/// Reads a record and gives its row.
fn give_record<C: Command>(
    command: &C,
    alloc: Global,
    reader: &mut C::Reader,
    number: u64,
    kept: &Kept,
    output: &mut Output,
    share: &mut C::Share,
) -> Result<(), Refusal<Limit>>
    requires suits { C.suits command.now reader.old }
    requires shared { (rows : List C.Row) × IsShare (C.work command.now) (C.share_of command.now) rows share.old }
    ensures output { OnOk result (output.new ≡ added (C.work command.now) ((C.work command.now).row number (cut_of_kept kept.now)) output.old) }
    ensures share { (rows : List C.Row) → IsShare (C.work command.now) (C.share_of command.now) rows share.old
        → Shares (C.work command.now) (C.share_of command.now) (rows ++ (C.work command.now).row number (cut_of_kept kept.now) ∷ []) share.new result }
    ensures suits { C.suits command.now reader.new }
{
    let Ok(row) = command.read(alloc, reader, number, &kept.lend()) else {
        return Err(Refusal::Memory);
    };
    command.give(alloc, reader, &row, output, share)
}

/// Reads the records in these frames, the first of which has this number, one after another, and gives
/// their rows. The gate is passed before each record.
pub(crate) fn give_piece<C: Command, G: Gate>(
    command: &C,
    alloc: Global,
    first_no: u64,
    frames: &[Kept],
    gate: &G,
) -> Result<Given<C::Share>, Refusal<Limit>>
    requires numbered { first_no + length frames.now < 2 ^ 64 }
    ensures given { IsGiven (C.work command.now) (C.share_of command.now) (rows_of (C.work command.now) first_no (map cut_of_kept frames.now)) result }
{
    let Ok(mut reader) = command.reader(alloc) else {
        return Err(Refusal::Memory);
    };
    let Ok(mut share) = command.none(alloc) else {
        return Err(Refusal::Memory);
    };
    let mut output = Output::new(alloc);
    let mut number = first_no;
    'frames: for kept in frames {
        gate.pass(number);
        if let Err(refusal) = give_record(
            command,
            alloc,
            &mut reader,
            number,
            kept,
            &mut output,
            &mut share,
        ) {
            return Err(refusal);
        }
        number += 1;
    }
    Ok(Given { output, share })
}
