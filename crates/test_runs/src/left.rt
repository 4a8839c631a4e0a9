//! What a run leaves.

use crate::row::{Asked, Moves};
use pads_drive::{Gate, NoGate};
use pads_io::{
    MemFiles, MemSink, MemSource, NamedFile, NamedFiles, SureFiles, SureSink, SureSource,
};
use pads_tool::{Status, run};
use pads_value::{Bytes, Items, Memory};
use std::alloc::Global;
use std::thread::Threads;

/// How a run ended, and what stands on its objects.
#[derive(Drop)]
pub(crate) struct Left {
    pub(crate) status: Status,
    /// How many bytes of the input weren't read.
    pub(crate) unread: u64,
    pub(crate) out: Bytes,
    pub(crate) notes: Bytes,
    /// How many calls failed.
    pub(crate) faults: u64,
}

/// The file `d` alone.
fn files_of(alloc: Global, description: Bytes) -> Result<NamedFiles, Memory> {
    let mut named = Items::new(alloc);
    named.push(NamedFile {
        name: Bytes::from_slice(alloc, b"d")?,
        bytes: description,
    })?;
    Ok(named)
}

/// What stands on these objects behind a run.
fn left_on(
    alloc: Global,
    status: Status,
    unread: &[u8],
    out: &[u8],
    notes: &[u8],
    faults: u64,
) -> Result<Left, Memory> {
    Ok(Left {
        status,
        unread: unread.len() as u64,
        out: Bytes::from_slice(alloc, out)?,
        notes: Bytes::from_slice(alloc, notes)?,
        faults,
    })
}

/// Makes the run over objects that fail at listed calls.
pub(crate) fn left_over_failing<R: Threads + Sync, G: Gate + Sync>(
    rt: &R,
    alloc: Global,
    asked: Asked,
    gate: &G,
) -> Result<Left, Memory> {
    let Moves { most, failing } = asked.source;
    let mut source = MemSource::new(asked.input, most, failing);
    let Moves { most, failing } = asked.out;
    let mut out = MemSink::new(alloc, most, failing);
    let Moves { most, failing } = asked.notes;
    let mut notes = MemSink::new(alloc, most, failing);
    let mut files = MemFiles::new(files_of(alloc, asked.description)?, asked.files);
    let status = run(
        rt,
        alloc,
        &asked.words,
        &mut files,
        &mut source,
        &mut out,
        &mut notes,
        gate,
    );
    let faults = files
        .fault_count()
        .saturating_add(source.fault_count())
        .saturating_add(out.fault_count())
        .saturating_add(notes.fault_count());
    left_on(
        alloc,
        status,
        source.unread(),
        out.bytes(),
        notes.bytes(),
        faults,
    )
}

/// Makes the run over objects that never fail but where the room is used up.
fn left_over_sure<R: Threads + Sync>(
    rt: &R,
    alloc: Global,
    asked: Asked,
    room: u64,
) -> Result<Left, Memory> {
    let mut source = SureSource::new(asked.input, asked.source.most);
    let mut out = SureSink::new(alloc, asked.out.most, room)?;
    let mut notes = SureSink::new(alloc, asked.notes.most, room)?;
    let mut files = SureFiles::new(files_of(alloc, asked.description)?);
    let status = run(
        rt,
        alloc,
        &asked.words,
        &mut files,
        &mut source,
        &mut out,
        &mut notes,
        &NoGate,
    );
    let faults = out.fault_count().saturating_add(notes.fault_count());
    left_on(
        alloc,
        status,
        source.unread(),
        out.bytes(),
        notes.bytes(),
        faults,
    )
}

/// Makes the run.
pub(crate) fn left_by<R: Threads + Sync>(
    rt: &R,
    alloc: Global,
    asked: Asked,
) -> Result<Left, Memory> {
    match asked.room {
        None => left_over_failing(rt, alloc, asked, &NoGate),
        Some(room) => left_over_sure(rt, alloc, asked, room),
    }
}
