//! Searches, one byte after another, or to where a literal stands.
ghost use Rattle.std.specs.Prelude.{◌≡◌, ◌≤◌, ◌<◌, ◌^◌, ◌∷◌, ℕ, List, length, Some, IsTrue, IfSome};
ghost use Rattle.pads_image.specs.Answers.{Reaches};
ghost use Rattle.pads_image.specs.States.{entries};
ghost use Rattle.pads_image.specs.Steps.{cause_or, scan_step};
ghost use Rattle.pads_machine.specs.Held.{Held, Placed, Roomy};
ghost use Rattle.pads_machine.specs.Ran.{GoesWithin, IsSearch, Tells};
ghost use Rattle.pads_machine.specs.Searched.{Remembered};
ghost use Rattle.pads_machine.specs.Shown.{IsSearching, shown};
ghost use Rattle.pads_steps.specs.Records.{subject_of};

use crate::node::Mark;
use crate::searches::Past;
use crate::state::State;
use crate::step::Next;
use pads_calc::Reading;
use pads_idle::{Program, absorbs, at, searches};
use pads_image::Op;
use pads_steps::Record;
use pads_value::Cause;
use std::alloc::Global;

/// The literal that is searched for from an address on, whether its value is kept or not.
fn sought(code: &[Op], address: usize) -> Option<&[u8]>
    requires { address < 2 ^ 32 }
    ensures sought { IfSome result (λ literal. IsSearch code.now address literal.now) }
{
    let Some(Op::Lit(literal)) = at(code, address) else {
        return None;
    };
    if searches(code, address + 1, address) {
        return Some(literal.as_slice());
    }
    if !absorbs(code, address + 1) {
        return None;
    }
    if !searches(code, address + 2, address) {
        return None;
    }
    Some(literal.as_slice())
}

/// The cause for which a search gives up: that of its first place.
fn kept(cause: Option<Cause>, found: Cause) -> Cause
    ensures kept { result ≡ cause_or cause found }
{
    match cause {
        None => found,
        Some(kept) => kept,
    }
}

impl State {
    /// Ends a search that found something, or that came to its last place; else it goes on one byte behind
    /// where the last reading began.
    pub(crate) fn scan(&mut self, alloc: Global, from: &Record, to: u32) -> Next
        requires address { self.old.address < 2 ^ 32 }
        requires placed { Placed (length from.now.bytes.now) self.old }
        requires within { GoesWithin self.old.room (scan_step (subject_of from.now) to (shown self.old) (shown self.old).marks) }
        requires roomy { Roomy self.old.room self.old }
        requires held { Held self.old }
        ensures scan { Tells result (scan_step (subject_of from.now) to (shown self.old) (shown self.old).marks) (shown self.old) (shown self.new) }
        ensures placed { Placed (length from.now.bytes.now) self.new }
        ensures held { Held self.new }
        ensures roomy { Roomy self.old.room self.new }
    {
        let mark = self.mark();
        let at = self.began(from.origin);
        self.marks.pop();
        if self.last.is_ok() {
            let reading = self.take_last(alloc, from.origin);
            self.last = reading.found(from.origin, mark.place, at);
            self.address += 1;
            return Next::Goes;
        }
        let cause = kept(mark.cause, self.last.blame());
        if from.last_place(mark.place) <= at {
            self.last = Reading::fails(alloc, from.origin, cause, mark.place);
            self.address += 1;
            return Next::Goes;
        }
        self.marks.push_reserved(Mark {
            place: mark.place,
            cause: Some(cause),
        });
        self.last.place = at + 1;
        self.address = to as usize;
        Next::Searches
    }

    /// Whether a search goes on that has a cause for which it gives up.
    fn is_searching(&self) -> bool
        ensures searching { IsTrue result → IsSearching (shown self.now).marks }
    {
        if self.marks.len() == 0 {
            return false;
        }
        self.mark().cause.is_some()
    }

    /// Where a literal is searched for: goes to the first place from here on at which it stands, or to the
    /// last one of the search, over the steps that would find at each place before that it isn't there.
    pub(crate) fn leap(&mut self, alloc: Global, program: &Program, past: &mut Past)
        requires address { self.old.address < 2 ^ 32 }
        requires placed { Placed (length program.now.record.bytes.now) self.old }
        requires within { entries (shown self.old) ≤ self.old.room }
        requires remembered { Remembered program.now.code.now program.now.record.bytes.now past.old }
        requires roomy { Roomy self.old.room self.old }
        requires held { Held self.old }
        ensures leap { Reaches program.now.code.now program.now.entries.now (subject_of program.now.record) self.old.room (shown self.old) (shown self.new) }
        ensures placed { Placed (length program.now.record.bytes.now) self.new }
        ensures remembered { Remembered program.now.code.now program.now.record.bytes.now past.new }
        ensures held { Held self.new }
        ensures roomy { Roomy self.old.room self.new }
    {
        let Some(literal) = sought(program.code, self.address) else {
            return;
        };
        if !self.is_searching() {
            return;
        }
        let record = &program.record;
        let last = record.last_place(self.mark().place);
        let next = past.next_place(program, literal, self.address, self.last.place, last);
        if self.last.place < next {
            self.last = Reading::fails(alloc, record.origin, Cause::MissingLiteral, next - 1);
            self.last.place = next;
        }
    }
}
