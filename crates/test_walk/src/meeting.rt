//! Gates at which workers of a batch wait. At one three of them meet: what reads the batch on one thread passes it,
//! but nobody meets there. At the other a worker is held up until all other records have been read: what gives each
//! worker its share beforehand passes it, but some are still to be read.
ghost use Rattle.std.specs.Prelude.{◌<◌};

use crate::tell::described;
use crate::trouble::Trouble;
use pads_batch::read_batch;
use pads_code::Coding;
use pads_compile::compile;
use pads_drive::Gate;
use pads_value::{Frame, Frames, Mark, Refusal};
use std::alloc::Global;
use std::hint;
use std::sync::atomic::{AtomicBool, AtomicU64, Ordering};
use std::thread::Threads;

/// How often a worker looks for the others at most.
const MOST_LOOKS: u64 = 100_000_000;

/// The description of the records.
const DESCRIPTION: &str = "Precord Pstruct r { Puint8 x; };";

/// One of three workers.
#[derive(Drop)]
struct Worker {
    came: AtomicBool,
    /// It saw the others come.
    saw: AtomicBool,
}

/// Where the workers of the records 0, 1 and 2 wait for each other, for some time.
#[derive(Drop)]
struct Meeting {
    first: Worker,
    second: Worker,
    third: Worker,
}

impl Worker {
    fn new() -> Worker {
        Worker {
            came: AtomicBool::new(false),
            saw: AtomicBool::new(false),
        }
    }

    /// Comes, and looks for the others.
    fn meet(&self, one: &Worker, other: &Worker) {
        self.came.store(true, Ordering::SeqCst);
        for _ in 0..MOST_LOOKS {
            if one.came.load(Ordering::SeqCst) && other.came.load(Ordering::SeqCst) {
                self.saw.store(true, Ordering::SeqCst);
                return;
            }
            hint::spin_loop();
        }
    }
}

impl Meeting {
    fn new() -> Meeting {
        Meeting {
            first: Worker::new(),
            second: Worker::new(),
            third: Worker::new(),
        }
    }

    /// Whether each of the three saw the others.
    fn is_held(&self) -> bool {
        self.first.saw.load(Ordering::SeqCst)
            && self.second.saw.load(Ordering::SeqCst)
            && self.third.saw.load(Ordering::SeqCst)
    }
}

impl Gate for Meeting {
    fn pass(&self, record_no: u64) {
        match record_no {
            0 => self.first.meet(&self.second, &self.third),
            1 => self.second.meet(&self.first, &self.third),
            _ => self.third.meet(&self.first, &self.second),
        }
    }
}

/// How many records are read while the worker of record 0 is held up.
const OTHERS: u64 = 7;

/// Where the worker of record 0 waits for some time until the others have been read.
#[derive(Drop)]
struct Delay {
    others: AtomicU64,
    /// It saw that all others have been read.
    saw: AtomicBool,
}

impl Gate for Delay {
    fn pass(&self, record_no: u64) {
        if record_no != 0 {
            self.others.fetch_add(1, Ordering::SeqCst);
            return;
        }
        for _ in 0..MOST_LOOKS {
            if self.others.load(Ordering::SeqCst) == OTHERS {
                self.saw.store(true, Ordering::SeqCst);
                return;
            }
            hint::spin_loop();
        }
    }
}

/// So many frames, each of the record `7`.
fn frames_of(alloc: Global, count: u32) -> Result<Frames, Trouble> {
    let mut frames = Frames::new(alloc);
    for place in 0..count {
        let first = 2 * place as u64;
        let frame = Frame {
            first,
            end: first + 1,
            bytes: b"7",
            mark: Mark::Plain,
        };
        frames.push(frame.keep(alloc)?)?;
    }
    Ok(frames)
}

/// How many rows a batch of so many records has, which is read by so many workers.
fn rows_read<R: Threads + Sync, G: Gate + Sync>(
    rt: &R,
    alloc: Global,
    count: u32,
    jobs: u32,
    gate: &G,
) -> Result<u64, Trouble>
    requires jobs { 0 < jobs }
{
    let module = described(alloc, DESCRIPTION, Coding::Ascii)?;
    let image = match compile(alloc, &module) {
        Ok(image) => image,
        Err(Refusal::Fault(_)) => return Err(Trouble::Line("the image is too large")),
        Err(Refusal::Memory) => return Err(Trouble::Memory),
    };
    let frames = frames_of(alloc, count)?;
    let rows = read_batch(rt, alloc, &image, 0, frames.as_slice(), jobs, gate)?;
    Ok(rows.len())
}

/// Whether three workers that read a batch of three records meet.
pub(crate) fn workers_meet<R: Threads + Sync>(rt: &R, alloc: Global) -> Result<bool, Trouble> {
    let meeting = Meeting::new();
    let rows = rows_read(rt, alloc, 3, 3, &meeting)?;
    Ok(rows == 3 && meeting.is_held())
}

/// Whether one of two workers that read a batch of eight records reads seven while the other is held up.
pub(crate) fn others_go_on<R: Threads + Sync>(rt: &R, alloc: Global) -> Result<bool, Trouble> {
    let delay = Delay {
        others: AtomicU64::new(0),
        saw: AtomicBool::new(false),
    };
    let rows = rows_read(rt, alloc, 8, 2, &delay)?;
    Ok(rows == 8 && delay.saw.load(Ordering::SeqCst))
}
