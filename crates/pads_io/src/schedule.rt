ghost use Rattle.std.specs.Prelude.{◌≡◌, ◌↔◌, ◌≤◌, Contains, IsTrue};
ghost use Rattle.std.specs.Bool.{OnTrue};
ghost use Rattle.pads_io.specs.Faults.{Rose};

use crate::moves::raised;
use pads_value::Items;

/// The numbers of calls, counted from 0.
pub type Calls = Items<u64>;

/// Which calls of an object fail, and how many there were and failed.
#[derive(Drop)]
pub(crate) struct Schedule {
    failing: Calls,
    calls: u64,
    faults: u64,
}

impl Schedule {
    ghost use Rattle.pads_io.specs.InMemory.{counted};

    pub(crate) fn new(failing: Calls) -> Schedule
        ensures failing { result.failing ≡ failing }
        ensures calls { result.calls ≡ 0 }
        ensures faults { result.faults ≡ 0 }
    {
        Schedule {
            failing,
            calls: 0,
            faults: 0,
        }
    }

    /// Whether the next call is one that fails.
    pub(crate) fn fails_now(&self) -> bool
        ensures { IsTrue result ↔ Contains self.now.failing self.now.calls }
    {
        self.failing.as_slice().contains(&self.calls)
    }

    pub(crate) fn faults(&self) -> u64
        ensures { result ≡ self.now.faults }
    {
        self.faults
    }

    /// Counts a call that failed or didn't.
    pub(crate) fn count(&mut self, failed: bool)
        ensures counted { self.new ≡ counted self.old failed }
        ensures later { self.old.faults ≤ self.new.faults }
        ensures rose { OnTrue failed (Rose self.old.faults self.new.faults) }
    {
        self.calls = raised(self.calls);
        if failed {
            self.faults = raised(self.faults);
        }
    }
}
