ghost use Rattle.std.specs.Prelude.{◌≡◌, None, ⊤};
ghost use Rattle.std.specs.Io.{ReadsAtMost, WritesAtMost};
ghost use Rattle.std.specs.Io.KnownBytes.{ReadConsumes, WriteAppends};
ghost use Rattle.pads_io.specs.Faults.{HasCause};
ghost use Rattle.pads_io.specs.Transfer.{TakesSome};

use crate::moves::raised;
use crate::traits::{Failed, Files, Sink, Source};
use std::alloc::Global;
use std::fs;
use std::io::{self, ErrorKind, Read, Seek, SeekFrom, Write};
use std::rt::Files as FileSystem;

/// A reader, as standard input, as a source. What is left to read is known where the reader tells
/// it, which those of the outside world never do.
#[derive(Drop)]
pub struct RealSource<R> {
    reader: R,
    faults: u64,
}

impl<R: Read + Drop> RealSource<R> {
    pub fn new(reader: R) -> RealSource<R>
        ensures left { ⟦<RealSource<R> as Source>⟧.left result ≡ R.remaining reader }
        ensures faults { ⟦<RealSource<R> as Source>⟧.faults result ≡ 0 }
    {
        RealSource { reader, faults: 0 }
    }
}

impl<R: Read + Drop> Source for RealSource<R> {
    ghost left = { λ s. R.remaining s.reader };

    ghost faults = { λ s. s.faults };

    ghost reads = { λ _ _ _. ⊤ };

    fn read(&mut self, into: &mut [u8]) -> Result<usize, Failed> {
        let Ok(count) = read_some(&mut self.reader, into) else {
            self.faults = raised(self.faults);
            return Err(Failed);
        };
        Ok(count)
    }
}

/// A writer, as standard output, as a sink. What was written is known where the writer tells it,
/// which those of the outside world never do.
#[derive(Drop)]
pub struct RealSink<W> {
    writer: W,
    faults: u64,
}

impl<W: Write + Drop> RealSink<W> {
    pub fn new(writer: W) -> RealSink<W>
        ensures written { ⟦<RealSink<W> as Sink>⟧.written result ≡ W.contents writer }
        ensures faults { ⟦<RealSink<W> as Sink>⟧.faults result ≡ 0 }
    {
        RealSink { writer, faults: 0 }
    }
}

impl<W: Write + Drop> Sink for RealSink<W> {
    ghost written = { λ s. W.contents s.writer };

    ghost faults = { λ s. s.faults };

    ghost writes = { λ _ _ _. ⊤ };

    fn write(&mut self, piece: &[u8]) -> Result<usize, Failed> {
        let Ok(count) = write_some(&mut self.writer, piece) else {
            self.faults = raised(self.faults);
            return Err(Failed);
        };
        Ok(count)
    }
}

/// The files of a file system. Nothing is known of their bytes, and a name that isn't there is a
/// failure.
///
/// The file that was read last stays open, so that a file is opened once where it is read from its
/// start on, and a pipe can be read by its name.
#[derive(Drop)]
pub struct RealFiles<R: FileSystem> {
    alloc: Global,
    system: R,
    open: Option<OpenFile<R::File>>,
    faults: u64,
}

/// A file that is open at an offset.
#[derive(Drop)]
struct OpenFile<F> {
    name: String,
    file: F,
    at: u64,
}

impl<R: FileSystem + Drop> RealFiles<R> {
    pub fn new(alloc: Global, system: R) -> RealFiles<R>
        ensures faults { ⟦<RealFiles<R> as Files>⟧.faults result ≡ 0 }
    {
        RealFiles {
            alloc,
            system,
            open: None,
            faults: 0,
        }
    }
}

impl<R: FileSystem + Drop> RealFiles<R> {
    /// The file of this name at this offset: the one that is open, or else one that is opened now.
    fn file_at(&mut self, name: &str, at: u64) -> io::Result<R::File>
        ensures faults { self.new.faults ≡ self.old.faults }
    {
        let Some(
            OpenFile {
                name: open_name,
                file,
                at: open_at,
            },
        ) = self.open.take()
        else {
            return open_file(&self.system, name, at);
        };
        if open_at == at && open_name.as_str() == name {
            return Ok(file);
        }
        open_file(&self.system, name, at)
    }

    /// Reads from a file, which then stays open.
    fn read_file(&mut self, name: &str, at: u64, into: &mut [u8]) -> io::Result<usize>
        ensures within { ReadsAtMost result into.new }
        ensures faults { self.new.faults ≡ self.old.faults }
    {
        let mut file = self.file_at(name, at)?;
        let count = read_some(&mut file, into)?;
        // Without memory for the name, the next call opens the file again.
        if let Ok(name) = String::from_str(self.alloc, name) {
            let at = at.saturating_add(count as u64);
            self.open = Some(OpenFile { name, file, at });
        }
        Ok(count)
    }
}

impl<R: FileSystem + Drop> Files for RealFiles<R> {
    ghost content = { λ _ _. None };

    ghost faults = { λ s. s.faults };

    ghost reads = { λ _ _ _. ⊤ };

    fn read_at(&mut self, name: &str, at: u64, into: &mut [u8]) -> Result<usize, Failed> {
        let Ok(count) = self.read_file(name, at, into) else {
            self.faults = raised(self.faults);
            return Err(Failed);
        };
        Ok(count)
    }
}

/// Opens a file for reading, at an offset.
fn open_file<R: FileSystem>(system: &R, name: &str, at: u64) -> io::Result<R::File> {
    let mut file = fs::open(system, name)?;
    if at > 0 {
        file.seek(SeekFrom::Start(at))?;
    }
    Ok(file)
}

/// Reads once, and again after a signal.
fn read_some<R: Read>(reader: &mut R, into: &mut [u8]) -> io::Result<usize>
    ensures within { ReadsAtMost result into.new }
    ensures bytes { ReadConsumes (R.remaining reader.old) (R.remaining reader.new) result into.new }
{
    for _ in 0..u64::MAX {
        match reader.read(into) {
            Err(error) if error.kind() == ErrorKind::Interrupted => {}
            outcome => return outcome,
        }
    }
    Err(io::Error::from(ErrorKind::Interrupted))
}

/// Writes once, and again after a signal. To take nothing of a piece that isn't empty is an error.
fn write_some<W: Write>(writer: &mut W, piece: &[u8]) -> io::Result<usize>
    ensures within { WritesAtMost result piece.now }
    ensures takes { TakesSome result piece.now }
    ensures bytes { WriteAppends (W.contents writer.old) (W.contents writer.new) result piece.now }
{
    for _ in 0..u64::MAX {
        match writer.write(piece) {
            Err(error) if error.kind() == ErrorKind::Interrupted => {}
            Ok(0) if !piece.is_empty() => return Err(io::Error::from(ErrorKind::WriteZero)),
            outcome => return outcome,
        }
    }
    Err(io::Error::from(ErrorKind::Interrupted))
}
