//! Structs that can't be clean, in a call that is a branch: what is left of them needn't be read.
ghost use Rattle.std.specs.Prelude.{◌≡◌, ℕ, ◌+◌, ◌-◌, ◌*◌, ◌<◌, ◌≤◌, ◌^◌, Option, Some, IfSome, IsTrue, List, OnOk, length, reverse, slice_get};
ghost use Rattle.pads_value.specs.Header.{all_clean};
ghost use Rattle.pads_calc.specs.declared.decl.Decl.{Decl};
ghost use Rattle.pads_image.specs.Code.{IsCodeOf};
ghost use Rattle.pads_image.specs.declared.op.Op.TheVariants as instruction;
ghost use Rattle.pads_machine.specs.Doomed.{AreParts, EndsStruct, IsDoomed, IsOne, IsPart, IsTerm};
ghost use Rattle.pads_machine.specs.Held.{Held, Placed, Roomy};
ghost use Rattle.pads_machine.specs.Ran.{Halting, Leads};
ghost use Rattle.pads_machine.specs.Shown.{shown};
ghost use Rattle.pads_steps.specs.Records.{subject_of};

use crate::misses::branch_end;
use crate::node::Caller;
use crate::state::State;
use pads_calc::Reading;
use pads_idle::{
    Program, absorbs, at, begins_search, behind_guard, ends, marks, part_at, searches,
};
use pads_image::Op;
use pads_value::{Class, Pd, Val};
use std::alloc::Global;

/// How many parts are looked at, one behind another.
const MOST: usize = 65_536;

/// Whether all of these descriptors are clean.
fn all_ok(kids: &[Pd]) -> bool
    ensures all { result ≡ all_clean kids.now }
{
    kids.iter().all(|kid| kid.class == Class::Ok)
}

/// Whether one instruction at an address is all of a term: a call, a base type or a computed value.
fn is_one(code: &[Op], address: usize) -> bool
    ensures term { IsTrue result → IsOne code.now address }
{
    match at(code, address) {
        Some(Op::Call(_, _)) => true,
        Some(Op::Base(_, _)) => true,
        Some(Op::Compute(_, _)) => true,
        _ => false,
    }
}

/// The literal that is read at an address.
fn literal_at(code: &[Op], address: usize) -> Option<&[u8]>
    ensures literal { IfSome result (λ literal. slice_get code.now address ≡ Some (instruction.Lit literal.now)) }
{
    match at(code, address) {
        Some(Op::Lit(literal)) => Some(literal.as_slice()),
        _ => None,
    }
}

/// Whether a literal is searched for from an address on, and its value is dropped.
fn is_search(code: &[Op], address: usize) -> bool
    requires address { address < 2 ^ 34 }
    ensures term { IsTrue result → IsTerm code.now address (address + 4) }
{
    let Some(_) = literal_at(code, address + 1) else {
        return false;
    };
    if !begins_search(code, address) {
        return false;
    }
    if !absorbs(code, address + 2) {
        return false;
    }
    searches(code, address + 3, address + 1)
}

/// Whether a branch of a number ends at an address, and where it is clean its union ends at another one.
fn tries_to(code: &[Op], address: usize, branch: u16, to: usize) -> bool
    ensures tries { IsTrue result → slice_get code.now address ≡ Some (instruction.Try branch to) }
{
    match at(code, address) {
        Some(Op::Try(number, end)) => *number == branch && *end as usize == to,
        _ => false,
    }
}

/// Whether nothing is read at an address.
fn is_unit(code: &[Op], address: usize) -> bool
    ensures unit { IsTrue result → slice_get code.now address ≡ Some instruction.Unit }
{
    matches!(at(code, address), Some(Op::Unit))
}

/// Whether a union of which no branch was clean ends at an address.
fn has_no_arm(code: &[Op], address: usize) -> bool
    ensures none { IsTrue result → slice_get code.now address ≡ Some instruction.NoArm }
{
    matches!(at(code, address), Some(Op::NoArm))
}

/// Whether from an address on one instruction that is all of a term is optional.
fn is_optional(code: &[Op], address: usize) -> bool
    requires address { address < 2 ^ 34 }
    ensures term { IsTrue result → IsTerm code.now address (address + 6) }
{
    if !marks(code, address) {
        return false;
    }
    if !is_one(code, address + 1) {
        return false;
    }
    if !tries_to(code, address + 2, 0, address + 6) {
        return false;
    }
    if !is_unit(code, address + 3) {
        return false;
    }
    if !tries_to(code, address + 4, 1, address + 6) {
        return false;
    }
    has_no_arm(code, address + 5)
}

/// The address behind the term from an address on, where it is one of these.
fn behind_term(code: &[Op], address: usize) -> Option<usize>
    requires address { address < 2 ^ 34 }
    ensures term { IfSome result (λ behind. IsTerm code.now address behind) }
    ensures near { IfSome result (λ behind. behind ≤ address + 6) }
{
    if is_one(code, address) {
        return Some(address + 1);
    }
    if is_search(code, address) {
        return Some(address + 4);
    }
    if is_optional(code, address) {
        return Some(address + 6);
    }
    None
}

/// The address behind the term from an address on, with its constraint if it has one.
fn behind_guarded(code: &[Op], address: usize) -> Option<usize>
    requires address { address < 2 ^ 34 }
    ensures term { IfSome result (λ behind. IsTerm code.now address behind) }
    ensures near { IfSome result (λ behind. behind ≤ address + 7) }
{
    let behind = behind_term(code, address)?;
    Some(behind_guard(code, behind))
}

/// The address behind the part of a struct from an address on.
fn behind_part(code: &[Op], address: usize) -> Option<usize>
    requires address { address < 2 ^ 34 }
    ensures part { IfSome result (λ behind. IsPart code.now address behind) }
    ensures near { IfSome result (λ behind. behind ≤ address + 8) }
{
    let kept = behind_guarded(code, address)?;
    part_at(code, kept)?;
    Some(kept + 1)
}

/// The address behind the parts of a struct from an address on.
fn behind_parts(code: &[Op], first: usize) -> usize
    requires first { first < 2 ^ 32 }
    ensures parts { (count : ℕ) × AreParts code.now first count result }
    ensures near { result ≤ first + 8 * 65536 }
{
    let mut next = first;
    for count in 0..MOST {
        let Some(behind) = behind_part(code, next) else {
            return next;
        };
        next = behind;
    }
    next
}

/// Whether a struct ends at an address.
fn closes(code: &[Op], address: usize) -> bool
    ensures close { IsTrue result → (names : ℕ) × (slice_get code.now address ≡ Some (instruction.Close names)) }
{
    matches!(at(code, address), Some(Op::Close(_)))
}

/// Whether a declaration's struct has such parts from an address on, and then both end.
fn ends_struct(code: &[Op], address: usize) -> bool
    requires address { address < 2 ^ 32 }
    ensures ends { IsTrue result → EndsStruct code.now address }
{
    let close = behind_parts(code, address);
    closes(code, close) && ends(code, close + 1)
}

/// A struct that can't be clean, in a call that is a branch.
#[derive(Clone, Copy)]
pub(crate) struct Doomed {
    /// How many bindings it has.
    pub(crate) names: u32,
    /// The address where the branch ends.
    pub(crate) end: usize,
}

impl State {
    /// The latest call.
    fn caller(&self) -> Caller
        requires some { 0 < length self.now.callers.items }
        ensures caller { slice_get (reverse self.now.callers.items) 0 ≡ Some result }
    {
        let [.., caller] = self.callers.as_slice() else {
            unreachable!()
        };
        *caller
    }

    /// The latest struct, if it can't be clean and is all of a call that is a branch.
    #[inline(never)]
    pub(crate) fn doomed(&self, program: &Program) -> Option<Doomed>
        requires short { length program.now.code.now < 2 ^ 32 }
        requires address { self.now.address < 2 ^ 32 }
        ensures doomed { IfSome result (λ doomed. IsDoomed program.now.code.now doomed self.now) }
    {
        if self.callers.len() == 0 || self.nodes.len() == 0 || self.marks.len() == 0 {
            return None;
        }
        let caller = self.caller();
        if caller.back >= program.code.len() {
            return None;
        }
        let end = branch_end(program.code, caller.back)?;
        if self.bindings.len() < caller.base {
            return None;
        }
        let node = self.node();
        if all_ok(node.pds.as_slice()) {
            return None;
        }
        if !ends_struct(program.code, self.address) {
            return None;
        }
        match u32::try_from(self.bindings.len().saturating_sub(node.base)) {
            Ok(names) => Some(Doomed { names, end }),
            Err(_) => None,
        }
    }

    /// Leaves a branch that is a struct which can't be clean, over the steps that would read what is left of it.
    pub(crate) fn pass_struct(&mut self, alloc: Global, program: &Program, doomed: Doomed)
        requires short { length program.now.code.now < 2 ^ 32 }
        requires code { (decls : List Decl) × IsCodeOf decls program.now.code.now program.now.entries.now }
        requires doomed { IsDoomed program.now.code.now doomed self.old }
        requires halts { (steps : ℕ) × Halting program.now.code.now program.now.entries.now (subject_of program.now.record) self.old.room steps (shown self.old) }
        requires address { self.old.address < 2 ^ 32 }
        requires placed { Placed (length program.now.record.bytes.now) self.old }
        requires roomy { Roomy self.old.room self.old }
        requires held { Held self.old }
        ensures leads { Leads program.now.code.now program.now.entries.now (subject_of program.now.record) self.old.room (shown self.old) (shown self.new) }
        ensures placed { Placed (length program.now.record.bytes.now) self.new }
        ensures held { Held self.new }
        ensures roomy { Roomy self.old.room self.new }
    {
        let origin = program.record.origin;
        let place = self.mark().place;
        self.close(origin, doomed.names);
        self.end();
        self.last = Reading::leaf(alloc, origin, Val::Unit, place, place);
        self.address = doomed.end + 1;
    }
}
