ghost use Rattle.std.specs.Prelude.{◌≡◌, ◌≢◌, ℕ, Bool, List, Option};
ghost use Rattle.pads_io.specs.Calls.{Writes};
ghost use Rattle.pads_tool.specs.Checking.{accepted_line};
ghost use Rattle.pads_tool.specs.FileReads.{ReadsOnce};
ghost use Rattle.pads_tool.specs.Promises.{Keeps, checking, counts, seen};
ghost use Rattle.pads_tool.specs.declared.ending.Ending.TheVariants as ending;

use crate::ending::Ending;
use crate::text::accepted_in;
use pads_describe::{Line, put, put_number};
use pads_io::{Files, Sink, write_all};
use pads_orders::Settings;
use std::alloc::Global;

/// The line that tells of so many declarations.
fn accepted_line(count: u64) -> Line
    ensures line { result.items ≡ accepted_line count }
{
    let mut line = Line::new();
    put(&mut line, b"accepted ");
    put_number(&mut line, count);
    line.push(b'\n');
    line
}

/// Tells how many declarations the description in a file has.
pub(crate) fn check<F: Files, K: Sink>(
    alloc: Global,
    name: &str,
    settings: &Settings,
    files: &mut F,
    out: &mut K,
) -> Ending
    ensures gives { (left left' noted noted' : Option (List ℕ)) (source source' notes notes' : ℕ) → Keeps (checking name.now settings.now)
        (seen (F.content files.old) left left' (K.written out.old) (K.written out.new) noted noted')
        (counts (F.faults files.old) (F.faults files.new) source source' (K.faults out.old) (K.faults out.new) notes notes') result }
    ensures reads { ReadsOnce F.reads name.now files.old files.new }
    ensures calls { (well : Bool) × Writes K.writes out.old out.new well }
    ensures files_kept { result ≢ ending.FileFault → F.faults files.new ≡ F.faults files.old }
    ensures out_kept { result ≢ ending.WriteFault → K.faults out.new ≡ K.faults out.old }
{
    let count = match accepted_in(alloc, files, name, settings.coding) {
        Ok(count) => count,
        Err(ending) => return ending,
    };
    let line = accepted_line(count);
    match write_all(out, line.as_slice()) {
        Ok(()) => Ending::Done,
        Err(_) => Ending::WriteFault,
    }
}
