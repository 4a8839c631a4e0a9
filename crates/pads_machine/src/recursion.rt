//! Calls that may be made again at the same place: where one that is a branch is known not to be clean, it isn't read
//! again.
ghost use Rattle.std.specs.Prelude.{◌≡◌, ℕ, ◌+◌, ◌<◌, ◌≤◌, ◌^◌, false, None, IfOk, IfSome, List, length};
ghost use Rattle.pads_calc.specs.declared.decl.Decl.{Decl};
ghost use Rattle.pads_image.specs.Code.{IsCodeOf};
ghost use Rattle.pads_machine.specs.Held.{Held, Placed, Roomy};
ghost use Rattle.pads_machine.specs.Known.{HasOutcome, IsBranch, IsCall};
ghost use Rattle.pads_machine.specs.Missing.{EndsBranch};
ghost use Rattle.pads_machine.specs.Ran.{Halting, Leads};
ghost use Rattle.pads_machine.specs.Shown.{shown};
ghost use Rattle.pads_steps.specs.Records.{subject_of};

use crate::constraint::Constraint;
use crate::known::{Call, Known, Outcome};
use crate::misses::branch_end;
use crate::state::State;
use pads_calc::Reading;
use pads_idle::{Program, at};
use pads_image::Op;
use pads_steps::arguments_in;
use pads_value::{Memory, Val};
use std::alloc::Global;

/// How many branches, turns and searches may be open before branches are remembered whatever they are calls of.
const NESTED: usize = 16;

impl State {
    /// Whether a call of a declaration is open that begins at this place.
    fn is_open_here(&self, number: u16) -> bool {
        let place = self.last.place;
        self.callers
            .iter()
            .rev()
            .take_while(|caller| caller.place == place)
            .any(|caller| caller.number == number)
    }

    /// The call at an address, if its arguments stand for something.
    pub(crate) fn call_at(
        &self,
        alloc: Global,
        program: &Program,
        address: usize,
    ) -> Result<Option<Call>, Memory>
        ensures call { IfOk result (λ found. IfSome found (λ call. IsCall program.now.code.now address call self.now)) }
        ensures bare { IfOk result (λ found. IfSome found (λ call. call.constraint ≡ None)) }
    {
        let Some(Op::Call(number, args)) = at(program.code, address) else {
            return Ok(None);
        };
        if self.depth == 0 || self.bindings.len() < self.base() {
            return Ok(None);
        }
        let args = arguments_in(alloc, args.as_slice(), self.seen())?;
        let Some(args) = args else {
            return Ok(None);
        };
        Ok(Some(Call {
            number: *number,
            args,
            depth: self.depth - 1,
            place: self.last.place,
            constraint: None,
        }))
    }

    /// Whether so much is open that may be read again that a branch may be made again and again.
    fn is_nested(&self) -> bool {
        self.marks.len() > NESTED
    }

    /// Whether the call at the address may be made again: one of its declaration is open that begins at the same place,
    /// many branches are open, or a fact was kept.
    fn recurs(&self, program: &Program, known: &Known) -> bool {
        if known.is_used() || self.is_nested() {
            return true;
        }
        match at(program.code, self.address) {
            Some(Op::Call(number, _)) => self.is_open_here(*number),
            _ => false,
        }
    }

    /// The call at the address with the constraint behind it, if it has one, up to the address where the branch ends, if
    /// it may be made again.
    pub(crate) fn branch_call(
        &self,
        alloc: Global,
        program: &Program,
        known: &Known,
        end: usize,
    ) -> Result<Option<Call>, Memory>
        requires address { self.now.address < 2 ^ 32 }
        requires end { EndsBranch program.now.code.now (self.now.address + 1) end }
        ensures branch { IfOk result (λ found. IfSome found (λ call. IsBranch program.now.code.now end call self.now)) }
    {
        if !self.recurs(program, known) {
            return Ok(None);
        }
        let Some(call) = self.call_at(alloc, program, self.address)? else {
            return Ok(None);
        };
        let behind = self.address + 1;
        if behind == end {
            return Ok(Some(call));
        }
        let constraint = Constraint::over(alloc, behind, self.seen())?;
        Ok(Some(Call {
            constraint: Some(constraint),
            ..call
        }))
    }

    /// The call that is asked for: the one at the address, or the one behind the turn that begins there.
    pub(crate) fn asked(
        &self,
        alloc: Global,
        program: &Program,
        known: &Known,
    ) -> Result<Option<Call>, Memory>
        requires address { self.now.address < 2 ^ 32 }
    {
        match at(program.code, self.address) {
            Some(Op::Turn(_)) => self.call_at(alloc, program, self.address + 1),
            _ => match branch_end(program.code, self.address + 1) {
                Some(end) => self.branch_call(alloc, program, known, end),
                None => Ok(None),
            },
        }
    }

    /// Leaves a branch that is a call which is known not to be clean, over the steps that would read it.
    pub(crate) fn pass_call(
        &mut self,
        alloc: Global,
        program: &Program,
        call: &Call,
        outcome: Outcome,
        end: usize,
    )
        requires code { (decls : List Decl) × IsCodeOf decls program.now.code.now program.now.entries.now }
        requires branch { IsBranch program.now.code.now end call.now self.old }
        requires marked { 0 < length self.old.marks.items }
        requires end { EndsBranch program.now.code.now (self.old.address + 1) end }
        requires outcome { HasOutcome program.now.code.now program.now.entries.now (subject_of program.now.record) call.now outcome }
        requires unclean { outcome.clean ≡ false }
        requires halts { (steps : ℕ) × Halting program.now.code.now program.now.entries.now (subject_of program.now.record) self.old.room steps (shown self.old) }
        requires address { self.old.address < 2 ^ 32 }
        requires placed { Placed (length program.now.record.bytes.now) self.old }
        requires roomy { Roomy self.old.room self.old }
        requires held { Held self.old }
        ensures leads { Leads program.now.code.now program.now.entries.now (subject_of program.now.record) self.old.room (shown self.old) (shown self.new) }
        ensures placed { Placed (length program.now.record.bytes.now) self.new }
        ensures held { Held self.new }
        ensures roomy { Roomy self.old.room self.new }
    {
        let place = self.mark().place;
        self.last = Reading::leaf(alloc, program.record.origin, Val::Unit, place, place);
        self.address = end + 1;
    }
}
