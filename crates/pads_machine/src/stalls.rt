//! Turns that are sure to be undone: the array has an element, and the next one is a call that takes no byte.
ghost use Rattle.std.specs.Prelude.{◌≡◌, ℕ, [], ◌+◌, ◌<◌, ◌≤◌, ◌^◌, IfOk, IfSome, IsTrue, List, OnOk, Some, length, reverse, slice_get};
ghost use Rattle.pads_expr.specs.declared.expr.Expr.{Expr};
ghost use Rattle.pads_expr.specs.Seen.{seen as seen_worth};
ghost use Rattle.pads_dispatch.specs.declared.base.Arg.{Arg};
ghost use Rattle.pads_calc.specs.declared.decl.Decl.{Decl};
ghost use Rattle.pads_calc.specs.Arguments.{arg_of_worth, argument};
ghost use Rattle.pads_image.specs.Code.{IsCodeOf};
ghost use Rattle.pads_image.specs.States.{seen};
ghost use Rattle.pads_image.specs.declared.op.Op.TheVariants as instruction;
ghost use Rattle.pads_idle.specs.Idle.{HasValues, IdlesTo};
ghost use Rattle.pads_machine.specs.Held.{Held, Placed, Roomy};
ghost use Rattle.pads_machine.specs.Ran.{Advances, AsksNothing, Halting};
ghost use Rattle.pads_machine.specs.Shown.{shown};
ghost use Rattle.pads_machine.specs.Known.{IsCall, Knows};
ghost use Rattle.pads_machine.specs.Stalled.{IsStalled, IsStanding};
ghost use Rattle.pads_steps.specs.Records.{subject_of};

use crate::known::{Call, Known};
use crate::state::State;
use crate::step::Next;
use pads_expr::{Binding, Expr, Res, eval_in};
use pads_idle::{Link, Program, at, idles, optional_at, shuts};
use pads_image::Op;
use pads_value::{Cause, Memory};
use std::alloc::Global;

/// The address where the array ends whose turn ends at an address.
fn end_at(code: &[Op], address: usize) -> Option<u32>
    ensures elem { IfSome result (λ to. (again : ℕ) × (slice_get code.now address ≡ Some (instruction.Elem to again))) }
{
    match at(code, address) {
        Some(Op::Elem(end, _)) => Some(*end),
        _ => None,
    }
}

/// Whether what an expression is worth is an argument.
fn is_argument(found: Res) -> bool
    ensures argument { IsTrue result → (arg : Arg) × (arg_of_worth (seen_worth found.entry) ≡ Some arg) }
{
    match found {
        Res::Num(_) => true,
        Res::Text(_) => true,
        _ => false,
    }
}

/// Whether an expression stands for an argument.
fn has_value(e: &Expr, bindings: &[Binding]) -> bool
    ensures value { IsTrue result → (arg : Arg) × (argument e.now (reverse bindings.now) ≡ Some arg) }
{
    match eval_in(e, bindings) {
        Some(found) => is_argument(found),
        None => false,
    }
}

/// Whether all arguments have values.
fn have_values(args: &[Expr], bindings: &[Binding]) -> bool
    ensures values { IsTrue result → HasValues args.now (reverse bindings.now) }
{
    let mut rest = args;
    'arguments: while let [e, more @ ..] = rest {
        if !has_value(e, bindings) {
            return false;
        }
        rest = more;
    }
    true
}

impl State {
    /// Whether the latest array has an element, and took no byte so far.
    #[inline]
    pub(crate) fn is_standing(&self) -> bool
        requires some { 0 < length self.now.nodes.items }
        ensures standing { IsTrue result → IsStanding self.now }
    {
        let node = self.node();
        if self.last.place != node.begin {
            return false;
        }
        if node.values.len() == 0 {
            return false;
        }
        node.base == self.bindings.len()
    }

    /// The declaration that is called behind the turn that begins here, if its arguments have values.
    fn next_call(&self, program: &Program) -> Option<u16>
        requires address { self.now.address < 2 ^ 32 }
        ensures call { IfSome result (λ number. (args : List Expr) × (slice_get program.now.code.now (self.now.address + 1) ≡ Some (instruction.Call number args)) × HasValues args (seen (shown self.now))) }
    {
        match at(program.code, self.address + 1) {
            Some(Op::Call(number, args)) => {
                if have_values(args.as_slice(), self.seen()) {
                    Some(*number)
                } else {
                    None
                }
            }
            _ => None,
        }
    }

    /// The address behind the call behind the turn that begins here, if that takes no byte and doesn't fail.
    fn behind_call(&self, program: &Program) -> Option<usize>
        requires address { self.now.address < 2 ^ 32 }
        ensures idles { IfSome result (λ behind. IdlesTo program.now.code.now program.now.entries.now (subject_of program.now.record) self.now.last.place (seen (shown self.now)) self.now.depth (self.now.address + 1) behind) }
    {
        let link = Link {
            number: self.next_call(program)?,
            wanted: true,
        };
        if !idles(
            *self.bindings.allocator(),
            program,
            self.last.place,
            self.depth,
            link,
        ) {
            return None;
        }
        Some(self.address + 2)
    }

    /// The address behind the optional call behind the turn that begins here, if that takes no byte.
    fn behind_optional(&self, program: &Program) -> Option<usize>
        requires address { self.now.address < 2 ^ 32 }
        ensures idles { IfSome result (λ behind. IdlesTo program.now.code.now program.now.entries.now (subject_of program.now.record) self.now.last.place (seen (shown self.now)) self.now.depth (self.now.address + 1) behind) }
    {
        let called = optional_at(program.code, self.address + 1)?;
        let link = Link {
            number: called.number,
            wanted: false,
        };
        if !idles(
            *self.bindings.allocator(),
            program,
            self.last.place,
            self.depth,
            link,
        ) {
            return None;
        }
        Some(called.next)
    }

    /// The address behind the element of the turn that begins here, if that takes no byte and doesn't fail.
    fn behind_element(&self, program: &Program) -> Option<usize>
        requires address { self.now.address < 2 ^ 32 }
        ensures idles { IfSome result (λ behind. IdlesTo program.now.code.now program.now.entries.now (subject_of program.now.record) self.now.last.place (seen (shown self.now)) self.now.depth (self.now.address + 1) behind) }
    {
        match self.behind_call(program) {
            Some(behind) => Some(behind),
            None => self.behind_optional(program),
        }
    }

    /// The address where the latest array ends, if the turn that begins here is sure to be undone.
    #[cold]
    #[inline(never)]
    pub(crate) fn stalls_at(&self, program: &Program) -> Option<u32>
        requires standing { IsStanding self.now }
        requires address { self.now.address < 2 ^ 32 }
        ensures stalled { IfSome result (λ to. IsStalled program.now.code.now program.now.entries.now (subject_of program.now.record) to self.now) }
    {
        let behind = self.behind_element(program)?;
        let end = end_at(program.code, behind)?;
        if !shuts(program.code, end as usize) {
            return None;
        }
        Some(end)
    }

    /// The address where the latest array ends, if the call behind the turn that begins here is known to take no
    /// byte and not to fail.
    pub(crate) fn stalls_by(&self, program: &Program, known: &Known, call: &Call) -> Option<u32>
        requires standing { IsStanding self.now }
        requires address { self.now.address < 2 ^ 32 }
        requires call { IsCall program.now.code.now (self.now.address + 1) call.now self.now }
        requires knows { Knows program.now.code.now program.now.entries.now (subject_of program.now.record) known.now }
        ensures stalled { IfSome result (λ to. IsStalled program.now.code.now program.now.entries.now (subject_of program.now.record) to self.now) }
    {
        let outcome = known.outcome(call)?;
        if outcome.failed || outcome.place != call.place {
            return None;
        }
        let end = end_at(program.code, self.address + 2)?;
        if !shuts(program.code, end as usize) {
            return None;
        }
        Some(end)
    }

    /// Ends the latest array, over the steps that would begin a turn, read its element and undo it.
    #[cold]
    #[inline(never)]
    pub(crate) fn pass_turn(
        &mut self,
        alloc: Global,
        program: &Program,
        to: u32,
    ) -> Result<Next, Memory>
        requires code { (decls : List Decl) × IsCodeOf decls program.now.code.now program.now.entries.now }
        requires there { (first : ℕ) × (slice_get program.now.code.now self.old.address ≡ Some (instruction.Turn first)) }
        requires stalled { IsStalled program.now.code.now program.now.entries.now (subject_of program.now.record) to self.old }
        requires halts { (steps : ℕ) × Halting program.now.code.now program.now.entries.now (subject_of program.now.record) self.old.room steps (shown self.old) }
        requires placed { Placed (length program.now.record.bytes.now) self.old }
        requires roomy { Roomy self.old.room self.old }
        requires held { Held self.old }
        ensures advance { IfOk result (λ next. Advances program.now.code.now program.now.entries.now (subject_of program.now.record) self.old.room next (shown self.old) (shown self.new)) }
        ensures asks { IfOk result (λ next. AsksNothing next) }
        ensures placed { OnOk result (Placed (length program.now.record.bytes.now) self.new) }
        ensures held { OnOk result (Held self.new) }
        ensures roomy { Roomy self.old.room self.new }
    {
        let Some(shut) = at(program.code, to as usize) else {
            unreachable!()
        };
        let place = self.last.place;
        self.undo(Cause::ArrayStall, place, to);
        let next = self.step(alloc, program, shut)?;
        Ok(next)
    }
}
