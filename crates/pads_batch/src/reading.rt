ghost use Rattle.std.specs.Prelude.{◌≡◌, ℕ, ◌+◌, ◌<◌, ◌^◌, List, length, map, IfOk};
ghost use Rattle.pads_calc.specs.declared.decl.Decl.{Decl};
ghost use Rattle.pads_value.specs.declared.row.Row.{Row};
ghost use Rattle.pads_value.specs.Cuts.{Cut, cut_of_kept};
ghost use Rattle.pads_batch.specs.Reading.{AreRows, IsAnswer, IsRead, IsWhole, StandsForThem, rows_of};

use pads_drive::{Gate, in_pieces, pieces_for};
use pads_image::Image;
use pads_machine::Machine;
use pads_value::{Items, Kept, Memory, Rows};
use std::alloc::Global;
use std::thread::Threads;

/// The rows of the records in these frames, the first of which has this number, by a machine of its own.
fn read_records<G: Gate>(
    alloc: Global,
    image: &Image,
    first_no: u64,
    frames: &[Kept],
    gate: &G,
) -> Result<Rows, Memory>
    requires numbered { first_no + length frames.now < 2 ^ 64 }
    ensures rows { IfOk result (λ rows. AreRows (IsRead image.now) first_no (map cut_of_kept frames.now) rows) }
{
    let mut machine = Machine::new(alloc, image)?;
    let mut rows = Rows::new(alloc);
    let mut number = first_no;
    'frames: for kept in frames {
        gate.pass(number);
        let row = machine.read_record(alloc, image, number, &kept.lend())?;
        rows.push(row)?;
        number += 1;
    }
    Ok(rows)
}

/// The parts of a list put together, where each was made.
fn put_together<T: Drop>(
    alloc: Global,
    parts: Items<Result<Items<T>, Memory>>,
) -> Result<Items<T>, Memory>
    ensures whole { IfOk result (λ whole. IsWhole parts whole) }
{
    let mut whole = Vec::new(alloc);
    'parts: for part in parts.into_vec() {
        let items = part?;
        whole.append(&mut items.into_vec())?;
    }
    Ok(Items::from_vec(whole))
}

/// What reads the records of pieces. Workers share it.
trait Reads: Sync {
    // This is the row of the record of a number in a frame.
    ghost is_row: { Self → ℕ → Cut → Row → Type 0 };

    /// The rows of the records in these frames, the first of which has this number. The gate is passed
    /// before each record.
    fn read_piece<G: Gate>(
        &self,
        alloc: Global,
        first_no: u64,
        frames: &[Kept],
        gate: &G,
    ) -> Result<Rows, Memory>
        requires numbered { first_no + length frames.now < 2 ^ 64 }
        ensures rows { IfOk result (AreRows (is_row self.now) first_no (map cut_of_kept frames.now)) };
}

impl Reads for Image {
    ghost is_row = { IsRead };

    fn read_piece<G: Gate>(
        &self,
        alloc: Global,
        first_no: u64,
        frames: &[Kept],
        gate: &G,
    ) -> Result<Rows, Memory> {
        read_records(alloc, self, first_no, frames, gate)
    }
}

/// The rows of the records in these frames, divided among workers that share a reader.
fn read_shared<R: Threads + Sync, C: Reads, G: Gate + Sync>(
    rt: &R,
    alloc: Global,
    reader: &C,
    first_no: u64,
    frames: &[Kept],
    jobs: u32,
    gate: &G,
) -> Result<Rows, Memory>
    requires jobs { 0 < jobs }
    requires numbered { first_no + length frames.now < 2 ^ 64 }
    ensures rows { IfOk result (AreRows (C.is_row reader.now) first_no (map cut_of_kept frames.now)) }
{
    let read = |before: usize, piece: &[Kept]| -> Result<Rows, Memory>
        requires { first_no + before + length piece.now < 2 ^ 64 }
        ensures { IfOk result (AreRows (C.is_row reader.entry.now) (first_no + before) (map cut_of_kept piece.entry.now)) }
    { reader.read_piece(alloc, first_no + before as u64, piece, gate) };
    let parts = in_pieces(rt, alloc, frames, pieces_for(jobs), jobs, &read)?;
    put_together(alloc, parts)
}

/// The rows of the records in these frames, the first of which has this number. The frames are divided
/// among at most so many workers, each with a machine of its own, which pass the gate before each record.
pub fn read_batch<R: Threads + Sync, G: Gate + Sync>(
    rt: &R,
    alloc: Global,
    image: &Image,
    first_no: u64,
    frames: &[Kept],
    jobs: u32,
    gate: &G,
) -> Result<Rows, Memory>
    requires jobs { 0 < jobs }
    requires numbered { first_no + length frames.now < 2 ^ 64 }
    ensures answers { IfOk result (λ rows. AreRows (IsAnswer image.now) first_no (map cut_of_kept frames.now) rows) }
    ensures rows { IfOk result (λ rows. (decls : List Decl) → StandsForThem image.now decls
        → rows ≡ rows_of decls image.now.shape image.now.scan first_no (map cut_of_kept frames.now)) }
{
    read_shared(rt, alloc, image, first_no, frames, jobs, gate)
}
