ghost use Rattle.std.specs.Prelude.{◌≡◌, [], ◌∷◌, ◌++◌, List, true, IfOk, OnOk};
ghost use Rattle.pads_value.specs.Cuts.{cut_of_frame};
ghost use Rattle.pads_drive.specs.Counting.{Counts};
ghost use Rattle.pads_drive.specs.Outputs.{Work, Tallies, added};
ghost use Rattle.pads_drive.specs.Sharing.{IsShare, Shares};

use crate::limit::Limit;
use crate::output::Output;
use pads_value::{Frame, Memory, Refusal};
use std::alloc::Global;

/// What is done with the records of an input. The records of a batch are divided into pieces, and each
/// piece is done by a worker, which shares the command with the others: it makes a reader, and reads
/// one record after another and gives its row, that is, it says what the row writes on the sinks `out`
/// and notes and counts the row in the worker's share. The shares are added, in the order of the
/// pieces, to a tally, by which a command learns of all rows, as whether each is clean. A row follows
/// from its record's number, counted from 0, and its frame, whose offsets are bytes in the whole input;
/// what is written for it follows from the row; and a share and the tally from the list of their rows.
/// So it doesn't matter how many workers there are.
pub trait Command: Sync {
    /// What a record reads as. It stays with the worker that read it.
    type Row: Send + Drop;

    /// What is counted over all rows.
    type Tally: Send + Drop;

    /// What a worker counts over the rows of its piece.
    type Share: Send + Drop;

    /// What a worker reads by, such as the stacks of a machine: one for each piece.
    type Reader: Send + Drop;

    // All that the command does, as plain data.
    ghost work: { Self → Work Self.Row Self.Tally };

    // The share of rows that follow each other.
    ghost share_of: { Self → List Self.Row → Self.Share };

    // Records can be read by this reader.
    ghost suits: { Self → Self.Reader → Type 0 };

    /// A reader for the records of a piece.
    fn reader(&self, alloc: Global) -> Result<Self::Reader, Memory>
        ensures suits { IfOk result (suits self.now) };

    /// The share of no rows.
    fn none(&self, alloc: Global) -> Result<Self::Share, Memory>
        ensures none { IfOk result (IsShare (work self.now) (share_of self.now) []) };

    /// The row of the record of this number in a frame.
    fn read(
        &self,
        alloc: Global,
        reader: &mut Self::Reader,
        number: u64,
        frame: &Frame,
    ) -> Result<Self::Row, Memory>
        requires suits { suits self.now reader.old }
        ensures row { IfOk result (λ row. row ≡ (work self.now).row number (cut_of_frame frame.now)) }
        ensures suits { suits self.now reader.new };

    /// Puts what is to be written for a row behind the output, and counts the row in the share. `Limit`
    /// comes exactly where it and the rows before it in the share are more than the tally can count.
    /// Where the call refuses, the reading stops and nothing of the output is written, so no clause
    /// says what then stands in it.
    fn give(
        &self,
        alloc: Global,
        reader: &mut Self::Reader,
        row: &Self::Row,
        output: &mut Output,
        share: &mut Self::Share,
    ) -> Result<(), Refusal<Limit>>
        requires suits { suits self.now reader.old }
        requires shared { (rows : List Self.Row) × IsShare (work self.now) (share_of self.now) rows share.old }
        ensures output { OnOk result (output.new ≡ added (work self.now) row.now output.old) }
        ensures share { (rows : List Self.Row) → IsShare (work self.now) (share_of self.now) rows share.old
            → Shares (work self.now) (share_of self.now) (rows ++ row.now ∷ []) share.new result }
        ensures suits { suits self.now reader.new };

    /// Adds the share of later rows to the tally of those before them. `Limit` comes exactly where it
    /// can't count them all.
    fn add(&self, tally: &mut Self::Tally, share: Self::Share) -> Result<(), Refusal<Limit>>
        requires counted { (before : List Self.Row) × Tallies (work self.now) before tally.old }
        requires shared { (rows : List Self.Row) × IsShare (work self.now) (share_of self.now) rows share }
        ensures tally { (before rows : List Self.Row) → Tallies (work self.now) before tally.old
            → IsShare (work self.now) (share_of self.now) rows share → Counts (work self.now) before rows tally.new result };

    // Rows that can't be counted aren't counted among others either.
    ghost stays_over: { (command : Self) (before rows more : List Self.Row) → (work command).is_over rows ≡ true
        → (work command).is_over (before ++ rows ++ more) ≡ true };
}
