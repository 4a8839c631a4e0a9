ghost use Rattle.std.specs.Prelude.{◌≡◌, ◌≢◌, ◌↔◌, ◌⊎◌, true, false, None};
ghost use Rattle.pads_io.specs.Calls.{Calls};
ghost use Rattle.pads_io.specs.Faults.{Rose};
ghost use Rattle.pads_orders.specs.Orders.{KeepsLimits, order_of};
ghost use Rattle.pads_tool.specs.Causes.{SinkFailed};
ghost use Rattle.pads_tool.specs.Endings.{status_of};
ghost use Rattle.pads_tool.specs.FileReads.{ReadsFor, ReadsItsFile, file_of};
ghost use Rattle.pads_tool.specs.Promises.{Keeps, counts, promise_of, seen};
ghost use Rattle.pads_tool.specs.RunCalls.{RunCalls};
ghost use Rattle.pads_tool.specs.Running.{Ordered, RunGives, BeforeLastWords, IsFair, IsQuiet, EndsOrWantsMemory, IsBeforeInput};
ghost use Rattle.pads_tool.specs.declared.status.Status.TheVariants as status;
ghost use Rattle.pads_tool.specs.declared.ending.Ending.TheVariants as ending;

use crate::check::check;
use crate::close::close;
use crate::ending::Ending;
use crate::parse::parse;
use crate::print::print;
use crate::query::query;
use crate::selftest::selftest;
use crate::status::Status;
use crate::summary::summary;
use pads_drive::Gate;
use pads_io::{Files, Sink, Source};
use pads_orders::{Order, Words, read_order};
use pads_value::Refusal;
use std::alloc::Global;
use std::thread::Threads;

/// Does what is ordered, up to the last words.
fn perform<R: Threads + Sync, F: Files, S: Source, K: Sink, E: Sink, G: Gate + Sync>(
    rt: &R,
    alloc: Global,
    order: &Order,
    files: &mut F,
    source: &mut S,
    out: &mut K,
    notes: &mut E,
    gate: &G,
) -> Ending
    requires limits { KeepsLimits order.now }
    ensures gives { Keeps (promise_of order.now)
        (seen (F.content files.old) (S.left source.old) (S.left source.new) (K.written out.old) (K.written out.new)
        (E.written notes.old) (E.written notes.new))
        (counts (F.faults files.old) (F.faults files.new) (S.faults source.old) (S.faults source.new) (K.faults out.old) (K.faults out.new)
        (E.faults notes.old) (E.faults notes.new)) result }
    ensures unopened { (promise_of order.now).reads_files ≡ false → files.new ≡ files.old }
    ensures unread { (promise_of order.now).reads_source ≡ false → source.new ≡ source.old }
    ensures unnoted { (promise_of order.now).writes_notes ≡ false → notes.new ≡ notes.old }
    ensures untouched { IsBeforeInput (status_of result) → source.new ≡ source.old }
    ensures quiet { IsBeforeInput (status_of result) → notes.new ≡ notes.old }
    ensures reads { ReadsFor F.reads (file_of order.now) files.old files.new }
    ensures calls { Calls S.reads K.writes E.writes source.old out.old notes.old source.new out.new notes.new }
    ensures files_kept { result ≢ ending.FileFault → F.faults files.new ≡ F.faults files.old }
    ensures out_kept { result ≢ ending.WriteFault → K.faults out.new ≡ K.faults out.old }
    ensures notes_kept { result ≢ ending.WriteFault → E.faults notes.new ≡ E.faults notes.old }
    ensures source_kept { result ≢ ending.ReadFault → result ≢ ending.WriteFault → result ≢ ending.Memory → result ≢ ending.Limit
        → S.faults source.new ≡ S.faults source.old }
{
    match order {
        Order::Check {
            description,
            settings,
        } => check(alloc, description.as_str(), settings, files, out),
        Order::Parse {
            description,
            settings,
            mask,
        } => parse(
            rt,
            alloc,
            description.as_str(),
            settings,
            mask,
            files,
            source,
            out,
            gate,
        ),
        Order::Print {
            description,
            settings,
        } => print(
            rt,
            alloc,
            description.as_str(),
            settings,
            files,
            source,
            out,
            notes,
            gate,
        ),
        Order::Summary {
            description,
            settings,
            mask,
        } => summary(
            rt,
            alloc,
            description.as_str(),
            settings,
            mask,
            files,
            source,
            out,
            gate,
        ),
        Order::Query {
            question,
            settings,
            mask,
        } => query(
            rt, alloc, question, settings, mask, files, source, out, gate,
        ),
        Order::Selftest { records, settings } => {
            selftest(rt, alloc, *records, settings, out, gate)
        }
    }
}

/// A run up to its last words.
fn obey<R: Threads + Sync, F: Files, S: Source, K: Sink, E: Sink, G: Gate + Sync>(
    rt: &R,
    alloc: Global,
    words: &Words,
    files: &mut F,
    source: &mut S,
    out: &mut K,
    notes: &mut E,
    gate: &G,
) -> Ending
    ensures gives { RunGives words.now
        (seen (F.content files.old) (S.left source.old) (S.left source.new) (K.written out.old) (K.written out.new)
        (E.written notes.old) (E.written notes.new))
        (counts (F.faults files.old) (F.faults files.new) (S.faults source.old) (S.faults source.new) (K.faults out.old) (K.faults out.new)
        (E.faults notes.old) (E.faults notes.new)) result }
    ensures unread { Ordered words.now (λ promise. promise.reads_source ≡ false) → source.new ≡ source.old }
    ensures untouched { IsBeforeInput (status_of result) → source.new ≡ source.old }
    ensures quiet { IsQuiet words.now (status_of result) → notes.new ≡ notes.old }
    ensures reads { ReadsItsFile F.reads words.now files.old files.new }
    ensures calls { Calls S.reads K.writes E.writes source.old out.old notes.old source.new out.new notes.new }
    ensures files_kept { result ≢ ending.FileFault → F.faults files.new ≡ F.faults files.old }
    ensures out_kept { result ≢ ending.WriteFault → K.faults out.new ≡ K.faults out.old }
    ensures notes_kept { result ≢ ending.WriteFault → E.faults notes.new ≡ E.faults notes.old }
    ensures source_kept { result ≢ ending.ReadFault → result ≢ ending.WriteFault → result ≢ ending.Memory → result ≢ ending.Limit
        → S.faults source.new ≡ S.faults source.old }
    ensures unopened { order_of words.now ≡ None → files.new ≡ files.old }
    ensures without_files { Ordered words.now (λ promise. promise.reads_files ≡ false) → files.new ≡ files.old }
{
    match read_order(alloc, words) {
        Ok(order) => perform(rt, alloc, &order, files, source, out, notes, gate),
        Err(Refusal::Fault(_)) => Ending::Usage,
        Err(Refusal::Memory) => Ending::Memory,
    }
}

/// Does what the words of the command line ask for, and tells how it ended. The description is read
/// from the files and the records from the source; the output goes to `out` and, where the command
/// has some for them, to the notes, and behind it the last words go to the notes.
///
/// Records are read by as many workers as `--jobs` asks for. All that is said here holds whatever their
/// number, and where a thread can't be started its work is done without it. Each worker passes the gate
/// before a record, which changes nothing.
pub fn run<R: Threads + Sync, F: Files, S: Source, K: Sink, E: Sink, G: Gate + Sync>(
    rt: &R,
    alloc: Global,
    words: &Words,
    files: &mut F,
    source: &mut S,
    out: &mut K,
    notes: &mut E,
    gate: &G,
) -> Status
    // All was read and written that the order asks for.
    ensures done { result ≡ status.Done → Ordered words.now (λ promise. promise.finishes true
        (seen (F.content files.old) (S.left source.old) (S.left source.new) (K.written out.old) (K.written out.new)
        (E.written notes.old) (E.written notes.new))) }
    ensures dirty { result ≡ status.Dirty → Ordered words.now (λ promise. promise.finishes false
        (seen (F.content files.old) (S.left source.old) (S.left source.new) (K.written out.old) (K.written out.new)
        (E.written notes.old) (E.written notes.new))) }

    // Where it prints records, each clean one is printed as bytes that read back as its value, or is noted as ambiguous.
    ensures kept { (result ≡ status.Done) ⊎ (result ≡ status.Dirty)
        → Ordered words.now (λ promise. promise.keeps_records (F.content files.old) (S.left source.old)) }

    // When each other answer may come; that of want of memory is free. Why a description is refused, the last words tell.
    ensures usage { (result ≡ status.Usage) ↔ (order_of words.now ≡ None) }
    ensures file_fault { result ≡ status.FileFault → Rose (F.faults files.old) (F.faults files.new) × Ordered words.now (λ promise. promise.reads_files ≡ true) }
    ensures read_fault { result ≡ status.ReadFault → Rose (S.faults source.old) (S.faults source.new) }
    ensures write_fault { result ≡ status.WriteFault → BeforeLastWords words.now (F.content files.old) result (E.written notes.new) (E.faults notes.new)
        (λ noted count. Ordered words.now (λ promise.
        SinkFailed promise.writes_notes (K.faults out.old) (K.faults out.new) (E.faults notes.old) count)) }
    ensures limit { result ≡ status.Limit → BeforeLastWords words.now (F.content files.old) result (E.written notes.new) (E.faults notes.new)
        (λ noted count. Ordered words.now (λ promise. promise.stops_at_count
        (seen (F.content files.old) (S.left source.old) (S.left source.new) (K.written out.old) (K.written out.new) (E.written notes.old) noted))) }

    // A failure is told. One of the source may be followed by one of a sink, by want of memory, or by a count that passes its
    // limit, for what was read before it.
    // That the last words couldn't be written is told by nothing but the count of the notes.
    ensures files_told { result ≢ status.FileFault → F.faults files.new ≡ F.faults files.old }
    ensures out_told { result ≢ status.WriteFault → K.faults out.new ≡ K.faults out.old }
    ensures notes_told { result ≢ status.WriteFault → BeforeLastWords words.now (F.content files.old) result (E.written notes.new) (E.faults notes.new)
        (λ noted count. count ≡ E.faults notes.old) }
    ensures source_told { result ≢ status.ReadFault → result ≢ status.WriteFault → result ≢ status.Memory → result ≢ status.Limit
        → S.faults source.new ≡ S.faults source.old }

    ensures completeness { IsFair words.now (F.content files.old) (S.left source.old)
        (counts (F.faults files.old) (F.faults files.new) (S.faults source.old) (S.faults source.new) (K.faults out.old) (K.faults out.new)
        (E.faults notes.old) (E.faults notes.new))
        → EndsOrWantsMemory result }

    // What stands on the sinks where not all was read and written; the last words stand on the notes behind it.
    ensures nothing { IsBeforeInput result ⊎ (result ≡ status.Limit) → K.written out.new ≡ K.written out.old }
    ensures complete { result ≡ status.ReadFault → BeforeLastWords words.now (F.content files.old) result (E.written notes.new) (E.faults notes.new)
        (λ noted count. Ordered words.now (λ promise. promise.stops_reading
        (seen (F.content files.old) (S.left source.old) (S.left source.new) (K.written out.old) (K.written out.new) (E.written notes.old) noted))) }
    ensures too_long { result ≡ status.TooLong → BeforeLastWords words.now (F.content files.old) result (E.written notes.new) (E.faults notes.new)
        (λ noted count. Ordered words.now (λ promise. promise.stops_at_limit
        (seen (F.content files.old) (S.left source.old) (S.left source.new) (K.written out.old) (K.written out.new) (E.written notes.old) noted))) }
    ensures prefix { result ≡ status.WriteFault → BeforeLastWords words.now (F.content files.old) result (E.written notes.new) (E.faults notes.new)
        (λ noted count. Ordered words.now (λ promise. promise.stops_writing
        (seen (F.content files.old) (S.left source.old) (S.left source.new) (K.written out.old) (K.written out.new) (E.written notes.old) noted))) }
    ensures memory { result ≡ status.Memory → BeforeLastWords words.now (F.content files.old) result (E.written notes.new) (E.faults notes.new)
        (λ noted count. Ordered words.now (λ promise. promise.stops_early
        (seen (F.content files.old) (S.left source.old) (S.left source.new) (K.written out.old) (K.written out.new) (E.written notes.old) noted))) }

    // Where a write fails, little more was read than was written for, on each sink.
    ensures ahead { result ≡ status.WriteFault → BeforeLastWords words.now (F.content files.old) result (E.written notes.new) (E.faults notes.new)
        (λ noted count. Ordered words.now (λ promise. promise.stays_near
        (seen (F.content files.old) (S.left source.old) (S.left source.new) (K.written out.old) (K.written out.new) (E.written notes.old) noted))) }

    // A command as `check` reads no source, and no run does that ends at its words or at the description. Words that are no
    // order reach no file, nor does a command as `selftest`.
    ensures unread { Ordered words.now (λ promise. promise.reads_source ≡ false) → source.new ≡ source.old }
    ensures untouched { IsBeforeInput result → source.new ≡ source.old }
    ensures unopened { order_of words.now ≡ None → files.new ≡ files.old }
    ensures without_files { Ordered words.now (λ promise. promise.reads_files ≡ false) → files.new ≡ files.old }

    // The description is read once, in order, from its first byte on, and no other file is. From the source nothing is read once
    // it has ended or failed, and nothing is read or written once a write has failed, but for the last words.
    ensures reads { ReadsItsFile F.reads words.now files.old files.new }
    ensures calls { RunCalls S.reads K.writes E.writes source.old out.old notes.old source.new out.new notes.new }

    // The last words come last on the notes, and tell the verdict on a description that is refused. Where the command writes
    // nothing else there, or the input wasn't reached, nothing else does stand there behind what stood there before.
    ensures last_words { BeforeLastWords words.now (F.content files.old) result (E.written notes.new) (E.faults notes.new)
        (λ noted count. IsQuiet words.now result → (noted ≡ E.written notes.old) × (count ≡ E.faults notes.old)) }
{
    let ending = obey(rt, alloc, words, files, source, out, notes, gate);
    close(ending, notes)
}
