ghost use Rattle.std.specs.Prelude.{◌≡◌, ℕ, ◌+◌, ◌<◌, ◌^◌, [], ◌∷◌, ◌++◌, List, length, map, IfOk};
ghost use Rattle.pads_calc.specs.declared.decl.Decl.{Decl};
ghost use Rattle.pads_value.specs.declared.row.Row.{Row as RowOf};
ghost use Rattle.pads_value.specs.Cuts.{Cut, cut_of_kept};
ghost use Rattle.pads_plan.specs.declared.part.PlanList.{PlanList};
ghost use Rattle.pads_batch.specs.Reading.{IsAnswer, IsRead, StandsForThem, rows_of};
ghost use Rattle.pads_batch.specs.Summing.{AreSums, IsSum, IsSummed, Sums, SumsRows, Takes};

use pads_accum::{Chunk, Limit, Summary};
use pads_drive::{Gate, in_pieces, pieces_for};
use pads_image::Image;
use pads_machine::Machine;
use pads_value::{Items, Kept, Memory, Refusal, Row};
use std::alloc::Global;
use std::thread::Threads;

/// What makes the chunks of workers.
trait Blanks {
    // The plan of each chunk.
    ghost plan: { Self → List PlanList };

    /// The chunk of no rows.
    fn blank(&self) -> Result<Chunk, Memory>
        ensures empty { IfOk result (IsSum (plan self.now) []) };
}

impl Blanks for Summary {
    ghost plan = { λ summary. summary.plan };

    fn blank(&self) -> Result<Chunk, Memory> {
        self.blank_chunk()
    }
}

/// Adds a row to a chunk.
fn add_row(chunk: &mut Chunk, row: &Row) -> Result<(), Refusal<Limit>>
    requires fits { (plan : List PlanList) × (rows : List RowOf) × IsSum plan rows chunk.old }
    ensures takes { (plan : List PlanList) (rows : List RowOf) → IsSum plan rows chunk.old → Takes plan (rows ++ row.now ∷ []) chunk.new result }
{
    chunk.add(row)
}

/// The chunk of the rows of the records in these frames, the first of which has this number, by a machine
/// of its own.
fn sum_records<S: Blanks, G: Gate>(
    alloc: Global,
    image: &Image,
    summary: &S,
    first_no: u64,
    frames: &[Kept],
    gate: &G,
) -> Result<Chunk, Refusal<Limit>>
    requires numbered { first_no + length frames.now < 2 ^ 64 }
    ensures sums { SumsRows (IsRead image.now) (S.plan summary.now) first_no (map cut_of_kept frames.now) result }
{
    let Ok(mut machine) = Machine::new(alloc, image) else {
        return Err(Refusal::Memory);
    };
    let Ok(mut chunk) = summary.blank() else {
        return Err(Refusal::Memory);
    };
    let mut number = first_no;
    'frames: for kept in frames {
        gate.pass(number);
        let Ok(row) = machine.read_record(alloc, image, number, &kept.lend()) else {
            return Err(Refusal::Memory);
        };
        if let Err(refusal) = add_row(&mut chunk, &row) {
            return Err(refusal);
        }
        number += 1;
    }
    Ok(chunk)
}

/// Merges what a worker made of later rows into a chunk.
fn take_part(whole: &mut Chunk, part: Result<Chunk, Refusal<Limit>>) -> Result<(), Refusal<Limit>>
    requires fits { (plan : List PlanList) × (before : List RowOf) × (rows : List RowOf) × IsSum plan before whole.old × Sums plan rows part }
    ensures takes { (plan : List PlanList) (before rows : List RowOf) → IsSum plan before whole.old → Sums plan rows part
        → Takes plan (before ++ rows) whole.new result }
{
    match part {
        Ok(chunk) => whole.merge(chunk),
        Err(refusal) => Err(refusal),
    }
}

/// Merges what workers made of rows into the chunk of no rows, one part after another.
fn merge_parts(
    blank: Chunk,
    parts: Items<Result<Chunk, Refusal<Limit>>>,
) -> Result<Chunk, Refusal<Limit>>
    requires fits { (plan : List PlanList) × (rows : List RowOf) × IsSum plan [] blank × AreSums plan rows parts }
    ensures sums { (plan : List PlanList) (rows : List RowOf) → IsSum plan [] blank → AreSums plan rows parts → Sums plan rows result }
{
    let mut whole = blank;
    'parts: for part in parts.into_vec() {
        if let Err(refusal) = take_part(&mut whole, part) {
            return Err(refusal);
        }
    }
    Ok(whole)
}

/// What reads the records of pieces and sums up their rows. Workers share it.
trait SumsUp: Sync {
    // This is the row of the record of a number in a frame.
    ghost is_row: { Self → ℕ → Cut → RowOf → Type 0 };

    /// The chunk of the rows of the records in these frames, the first of which has this number. The gate
    /// is passed before each record.
    fn sum_piece<S: Blanks, G: Gate>(
        &self,
        alloc: Global,
        summary: &S,
        first_no: u64,
        frames: &[Kept],
        gate: &G,
    ) -> Result<Chunk, Refusal<Limit>>
        requires numbered { first_no + length frames.now < 2 ^ 64 }
        ensures sums { IsSummed (is_row self.now) (S.plan summary.now) first_no (map cut_of_kept frames.now) result };
}

impl SumsUp for Image {
    ghost is_row = { IsRead };

    fn sum_piece<S: Blanks, G: Gate>(
        &self,
        alloc: Global,
        summary: &S,
        first_no: u64,
        frames: &[Kept],
        gate: &G,
    ) -> Result<Chunk, Refusal<Limit>> {
        sum_records(alloc, self, summary, first_no, frames, gate)
    }
}

/// The chunk of the rows of the records in these frames, divided among workers that share a reader and what
/// makes their chunks.
fn sum_shared<R: Threads + Sync, C: SumsUp, S: Blanks + Sync, G: Gate + Sync>(
    rt: &R,
    alloc: Global,
    reader: &C,
    summary: &S,
    first_no: u64,
    frames: &[Kept],
    jobs: u32,
    gate: &G,
) -> Result<Chunk, Refusal<Limit>>
    requires jobs { 0 < jobs }
    requires numbered { first_no + length frames.now < 2 ^ 64 }
    ensures sums { SumsRows (C.is_row reader.now) (S.plan summary.now) first_no (map cut_of_kept frames.now) result }
{
    let sum = |before: usize, piece: &[Kept]| -> Result<Chunk, Refusal<Limit>>
        requires { first_no + before + length piece.now < 2 ^ 64 }
        ensures { IsSummed (C.is_row reader.entry.now) (S.plan summary.entry.now) (first_no + before) (map cut_of_kept piece.entry.now) result }
    { reader.sum_piece(alloc, summary, first_no + before as u64, piece, gate) };
    let Ok(blank) = summary.blank() else {
        return Err(Refusal::Memory);
    };
    let Ok(parts) = in_pieces(rt, alloc, frames, pieces_for(jobs), jobs, &sum) else {
        return Err(Refusal::Memory);
    };
    merge_parts(blank, parts)
}

/// The chunk of the rows of the records in these frames, the first of which has this number, with the
/// summary's plan. The frames are divided among at most so many workers, each with a machine and a chunk of
/// its own, which pass the gate before each record; the chunks are merged in the order of the frames.
/// `Limit` comes exactly where these rows make a count pass 2^62.
pub fn summarise_batch<R: Threads + Sync, G: Gate + Sync>(
    rt: &R,
    alloc: Global,
    summary: &Summary,
    image: &Image,
    first_no: u64,
    frames: &[Kept],
    jobs: u32,
    gate: &G,
) -> Result<Chunk, Refusal<Limit>>
    requires jobs { 0 < jobs }
    requires numbered { first_no + length frames.now < 2 ^ 64 }
    ensures answers { SumsRows (IsAnswer image.now) summary.now.plan first_no (map cut_of_kept frames.now) result }
    ensures rows { (decls : List Decl) → StandsForThem image.now decls
        → Sums summary.now.plan (rows_of decls image.now.shape image.now.scan first_no (map cut_of_kept frames.now)) result }
{
    sum_shared(rt, alloc, image, summary, first_no, frames, jobs, gate)
}
