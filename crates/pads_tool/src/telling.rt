ghost use Rattle.std.specs.Prelude.{◌≡◌, ◌≤◌, ◌&&◌, ◌++◌, length, OnOk};
ghost use Rattle.pads_tool.specs.Printing.{bytes_told, is_printed, note, note_told};

use pads_describe::{Line, put, put_number};
use pads_drive::Output;
use pads_value::{Bytes, Memory};

/// What is told of a record.
#[derive(Drop)]
pub(crate) enum Told {
    /// Something is wrong with it.
    NotClean,
    /// The canonical bytes of its value read otherwise.
    Ambiguous,
    /// The framed canonical bytes of its value.
    Printed(Bytes),
}

/// The line for a record that isn't printed, with the reason.
fn note(number: u64, why: &[u8]) -> Line
    requires short { length why.now ≤ 16 }
    ensures line { result.items ≡ note number why.now }
{
    let mut line = Line::new();
    put(&mut line, b"pads: record ");
    put_number(&mut line, number);
    put(&mut line, why);
    line.push(b'\n');
    line
}

/// Puts a line behind the notes.
fn put_note(output: &mut Output, number: u64, why: &[u8]) -> Result<(), Memory>
    requires short { length why.now ≤ 16 }
    ensures noted { OnOk result (output.new ≡ record { out = output.old.out; notes = output.old.notes ++ note number why.now }) }
{
    let line = note(number, why);
    output.notes.extend_from_slice(line.as_slice())
}

impl Told {
    /// Whether the record is printed.
    fn is_printed(&self) -> bool
        ensures printed { result ≡ is_printed self.now }
    {
        match self {
            Told::NotClean | Told::Ambiguous => false,
            Told::Printed(_) => true,
        }
    }

    /// How many bytes are written on `out` for the record.
    pub(crate) fn size(&self) -> u64
        ensures size { result ≡ length (bytes_told self.now) }
    {
        match self {
            Told::NotClean | Told::Ambiguous => 0,
            Told::Printed(bytes) => bytes.len(),
        }
    }

    /// Whether all records are printed, with one more.
    pub(crate) fn are_printed(&self, before: bool) -> bool
        ensures printed { result ≡ (before && is_printed self.now) }
    {
        before && self.is_printed()
    }

    /// Puts what is told of the record of this number behind the output.
    pub(crate) fn put(&self, number: u64, output: &mut Output) -> Result<(), Memory>
        ensures put { OnOk result (output.new ≡ record { out = output.old.out ++ bytes_told self.now; notes = output.old.notes ++ note_told number self.now }) }
    {
        match self {
            Told::NotClean => put_note(output, number, b" not clean"),
            Told::Ambiguous => put_note(output, number, b" ambiguous"),
            Told::Printed(bytes) => output.out.extend_from_slice(bytes.as_slice()),
        }
    }
}
