//! A gate at which two workers meet: a run by one worker passes it, but nobody meets there.

use crate::left::left_over_failing;
use crate::row::row_of;
use pads_drive::Gate;
use pads_tool::Status;
use std::alloc::Global;
use std::hint;
use std::sync::atomic::{AtomicBool, Ordering};
use std::thread::Threads;
use test_rows::Trouble;

/// How often a worker looks for the other at most.
const MOST_LOOKS: u64 = 200_000_000;

/// One of two workers.
#[derive(Drop)]
struct Worker {
    came: AtomicBool,
    /// It saw the other come.
    saw: AtomicBool,
}

/// Where the workers of the records 0 and 1 wait for each other, for some time.
#[derive(Drop)]
struct Meeting {
    first: Worker,
    second: Worker,
}

impl Worker {
    fn new() -> Worker {
        Worker {
            came: AtomicBool::new(false),
            saw: AtomicBool::new(false),
        }
    }

    /// Comes, and looks for the other.
    fn meet(&self, other: &Worker) {
        self.came.store(true, Ordering::SeqCst);
        for _ in 0..MOST_LOOKS {
            if other.came.load(Ordering::SeqCst) {
                self.saw.store(true, Ordering::SeqCst);
                return;
            }
            hint::spin_loop();
        }
    }
}

impl Gate for Meeting {
    fn pass(&self, record_no: u64) {
        if record_no == 0 {
            self.first.meet(&self.second);
        } else {
            self.second.meet(&self.first);
        }
    }
}

/// Whether each of two workers of a run saw the other.
pub(crate) fn workers_meet<R: Threads + Sync>(rt: &R, alloc: Global) -> Result<bool, Trouble> {
    let row = row_of(
        alloc,
        &[
            "words: parse d --jobs=2",
            "description: \"Precord Pstruct pt { Puint8 x; ','; Puint8 y : y >= x; };\"",
            "input: \"1,2\\n3,4\\n\"",
        ],
    )?;
    let meeting = Meeting {
        first: Worker::new(),
        second: Worker::new(),
    };
    let left = left_over_failing(rt, alloc, row.asked, &meeting)?;
    Ok(
        left.status == Status::Done
            && meeting.first.saw.load(Ordering::SeqCst)
            && meeting.second.saw.load(Ordering::SeqCst),
    )
}
