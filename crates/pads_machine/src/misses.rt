//! Branches that can't be clean: a declaration is called that begins with a literal, and it is missing.
ghost use Rattle.std.specs.Prelude.{◌≡◌, ℕ, ◌+◌, ◌<◌, ◌≤◌, ◌^◌, IfSome, IsTrue, List, Some, drop, length, slice_get};
ghost use Rattle.pads_calc.specs.declared.decl.Decl.{Decl};
ghost use Rattle.pads_expr.specs.declared.expr.Expr.{Expr};
ghost use Rattle.pads_image.specs.Beginnings.{begins_with};
ghost use Rattle.pads_image.specs.Code.{IsCodeOf};
ghost use Rattle.pads_image.specs.declared.op.Op.TheVariants as instruction;
ghost use Rattle.pads_machine.specs.Held.{Held, Placed, Roomy};
ghost use Rattle.pads_machine.specs.Missing.{BeginsWith, EndsBranch, IsHopeless, IsMissing, IsTry};
ghost use Rattle.pads_machine.specs.Ran.{Halting, Leads};
ghost use Rattle.pads_machine.specs.Shown.{shown};
ghost use Rattle.pads_steps.specs.Records.{subject_of};

use crate::state::State;
use pads_calc::Reading;
use pads_idle::{Program, at, behind_guard, entry_at};
use pads_image::{Entry, Op};
use pads_value::Val;
use std::alloc::Global;

/// The literal that code begins with.
fn beginning(code: &[Op]) -> Option<&[u8]>
    ensures begins { IfSome result (λ literal. begins_with code.now ≡ Some literal.now) }
{
    let mut rest = code;
    'instructions: while let [op, more @ ..] = rest {
        match op {
            Op::Open | Op::ScanFrom => rest = more,
            Op::Lit(literal) => return Some(literal.as_slice()),
            _ => return None,
        }
    }
    None
}

/// The literal that code begins with at an address.
fn beginning_from(code: &[Op], address: u32) -> Option<&[u8]>
    ensures begins { IfSome result (λ literal. begins_with (drop address code.now) ≡ Some literal.now) }
{
    let address = address as usize;
    if address < code.len() {
        beginning(&code[address..])
    } else {
        None
    }
}

/// The literal that a declaration's code begins with.
fn beginning_of<'x>(code: &'x [Op], entries: &[Entry], number: u16) -> Option<&'x [u8]>
    ensures begins { IfSome result (λ literal. BeginsWith code.now entries.now number literal.now) }
{
    match entry_at(entries, number) {
        Some(entry) => beginning_from(code, entry.first),
        None => None,
    }
}

/// Whether a declaration begins with a literal that is missing at a place.
fn is_missing(program: &Program, alloc: Global, number: u16, place: u64) -> bool
    requires place { place ≤ length program.now.record.bytes.now }
    ensures missing { IsTrue result → IsMissing program.now.code.now program.now.entries.now (subject_of program.now.record) number place }
{
    let Some(literal) = beginning_of(program.code, program.entries, number) else {
        return false;
    };
    !program.record.literal(alloc, literal, place).is_ok()
}

/// Whether a branch ends at an address.
fn tries(code: &[Op], address: usize) -> bool
    ensures tries { IsTrue result → IsTry code.now address }
{
    matches!(at(code, address), Some(Op::Try(_, _)))
}

/// The address where a branch ends of which no more is left from an address on but its constraint, if it has one.
pub(crate) fn branch_end(code: &[Op], address: usize) -> Option<usize>
    requires address { address < 2 ^ 35 }
    ensures end { IfSome result (λ end. EndsBranch code.now address end) }
{
    let end = behind_guard(code, address);
    if !tries(code, end) {
        return None;
    }
    Some(end)
}

impl State {
    /// Whether a call at the address can't be clean.
    pub(crate) fn is_hopeless(&self, alloc: Global, program: &Program, number: u16) -> bool
        requires placed { Placed (length program.now.record.bytes.now) self.now }
        ensures hopeless { IsTrue result → IsHopeless program.now.code.now program.now.entries.now (subject_of program.now.record) number self.now }
    {
        if self.bindings.len() < self.base() {
            return false;
        }
        is_missing(program, alloc, number, self.last.place)
    }

    /// Leaves a branch that is a call which can't be clean, over the steps that would read it and find so.
    pub(crate) fn pass_branch(&mut self, alloc: Global, program: &Program, number: u16, end: usize)
        requires code { (decls : List Decl) × IsCodeOf decls program.now.code.now program.now.entries.now }
        requires there { (args : List Expr) × (slice_get program.now.code.now self.old.address ≡ Some (instruction.Call number args)) }
        requires hopeless { IsHopeless program.now.code.now program.now.entries.now (subject_of program.now.record) number self.old }
        requires marked { 0 < length self.old.marks.items }
        requires end { EndsBranch program.now.code.now (self.old.address + 1) end }
        requires halts { (steps : ℕ) × Halting program.now.code.now program.now.entries.now (subject_of program.now.record) self.old.room steps (shown self.old) }
        requires address { self.old.address < 2 ^ 32 }
        requires placed { Placed (length program.now.record.bytes.now) self.old }
        requires roomy { Roomy self.old.room self.old }
        requires held { Held self.old }
        ensures leads { Leads program.now.code.now program.now.entries.now (subject_of program.now.record) self.old.room (shown self.old) (shown self.new) }
        ensures placed { Placed (length program.now.record.bytes.now) self.new }
        ensures held { Held self.new }
        ensures roomy { Roomy self.old.room self.new }
    {
        let place = self.mark().place;
        self.last = Reading::leaf(alloc, program.record.origin, Val::Unit, place, place);
        self.address = end + 1;
    }
}
