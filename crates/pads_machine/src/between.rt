//! Between two elements of an array: it has more where its terminator is missing, the record goes on, and its
//! separator stands here. What looks for these is done at once.
ghost use Rattle.std.specs.Prelude.{◌≡◌, ℕ, ◌+◌, ◌<◌, ◌≤◌, ◌^◌, None, Some, IfSome, IsTrue, length, slice_get};
ghost use Rattle.pads_image.specs.declared.op.Op.TheVariants as instruction;
ghost use Rattle.pads_machine.specs.Between.{HasMore, IsEdge, IsMissed, IsSeparated, IsSeparator, IsUnmet};
ghost use Rattle.pads_machine.specs.Held.{Held, Placed, Roomy};
ghost use Rattle.pads_machine.specs.Ran.{Halting, Leads};
ghost use Rattle.pads_machine.specs.Shown.{shown};
ghost use Rattle.pads_steps.specs.Records.{subject_of};

use crate::node::Mark;
use crate::state::State;
use pads_calc::Reading;
use pads_idle::{Program, absorbs, at, marks, stands};
use pads_image::Op;
use pads_steps::{Record, is_full};
use std::alloc::Global;

/// Whether what an instruction looks for is known to be missing at a place.
fn misses(from: &Record, op: &Op, place: u64) -> bool
    requires place { place ≤ length from.now.bytes.now }
    ensures unmet { IsTrue result → IsUnmet (subject_of from.now) op.now place }
{
    match op {
        Op::Eor => !from.is_end(place),
        Op::Lit(literal) => !stands(from, literal.as_slice(), place),
        _ => false,
    }
}

/// Whether an array ends at an address where its terminator was read before.
fn stops(code: &[Op], address: usize) -> bool
    ensures stops { IsTrue result → (to : ℕ) × (slice_get code.now address ≡ Some (instruction.Stop to)) }
{
    matches!(at(code, address), Some(Op::Stop(_)))
}

/// Whether an array ends at an address where the record does.
fn edges(code: &[Op], address: usize) -> bool
    ensures edges { IsTrue result → (to : ℕ) × (slice_get code.now address ≡ Some (instruction.Edge to)) }
{
    matches!(at(code, address), Some(Op::Edge(_)))
}

/// Whether a turn begins at an address.
fn turns(code: &[Op], address: usize) -> bool
    ensures turns { IsTrue result → (to : ℕ) × (slice_get code.now address ≡ Some (instruction.Turn to)) }
{
    matches!(at(code, address), Some(Op::Turn(_)))
}

/// Whether an array ends at an address where its separator wasn't read before.
fn separates(code: &[Op], address: usize) -> bool
    ensures separates { IsTrue result → (to : ℕ) × (slice_get code.now address ≡ Some (instruction.Sep to)) }
{
    matches!(at(code, address), Some(Op::Sep(_)))
}

/// Whether a terminator is looked for from an address on that is missing at a place.
fn misses_stop(program: &Program, address: usize, place: u64) -> bool
    requires address { address < 2 ^ 33 }
    requires place { place ≤ length program.now.record.bytes.now }
    ensures missed { IsTrue result → IsMissed program.now.code.now (subject_of program.now.record) address place }
{
    let Some(op) = at(program.code, address + 1) else {
        return false;
    };
    marks(program.code, address)
        && stops(program.code, address + 2)
        && misses(&program.record, op, place)
}

/// Where an array that isn't full goes on, which comes to an address.
fn edge_from(program: &Program, address: usize, place: u64) -> Option<usize>
    requires address { address < 2 ^ 33 }
    requires place { place ≤ length program.now.record.bytes.now }
    ensures edge { IfSome result (λ edge. IsEdge program.now.code.now (subject_of program.now.record) address place edge) }
    ensures near { IfSome result (λ edge. edge ≤ address + 3) }
{
    if !marks(program.code, address) {
        return Some(address);
    }
    if misses_stop(program, address, place) {
        Some(address + 3)
    } else {
        None
    }
}

/// The separator of an array that goes on at an address.
fn separator(code: &[Op], edge: usize) -> Option<&[u8]>
    requires edge { edge < 2 ^ 33 }
    ensures separator { IfSome result (λ literal. IsSeparator code.now edge literal.now) }
{
    if !edges(code, edge) {
        return None;
    }
    if !turns(code, edge + 1) {
        return None;
    }
    let Some(Op::Lit(literal)) = at(code, edge + 2) else {
        return None;
    };
    if !absorbs(code, edge + 3) {
        return None;
    }
    if !separates(code, edge + 4) {
        return None;
    }
    Some(literal.as_slice())
}

impl State {
    /// Where the latest array goes on, if it has elements, isn't full and misses its terminator here.
    pub(crate) fn more_at(&self, program: &Program) -> Option<usize>
        requires some { 0 < length self.now.nodes.items }
        requires address { self.now.address < 2 ^ 32 }
        requires placed { Placed (length program.now.record.bytes.now) self.now }
        ensures more { IfSome result (λ edge. HasMore program.now.code.now (subject_of program.now.record) edge self.now) }
        ensures near { IfSome result (λ edge. edge < 2 ^ 33) }
    {
        let node = self.node();
        let count = node.values.len();
        if count == 0 {
            return None;
        }
        if is_full(node.size, count as u64) {
            return None;
        }
        if program.record.is_end(self.last.place) {
            return None;
        }
        edge_from(program, self.address + 1, self.last.place)
    }

    /// What the separator reads as that an array which goes on at an address has, where it stands here.
    pub(crate) fn separator_at(
        &self,
        alloc: Global,
        program: &Program,
        edge: usize,
    ) -> Option<Reading>
        requires edge { edge < 2 ^ 33 }
        requires placed { Placed (length program.now.record.bytes.now) self.now }
        ensures separated { IfSome result (λ reading. IsSeparated program.now.code.now (subject_of program.now.record) edge self.now.last.place reading) }
        ensures within { IfSome result (λ reading. reading.place ≤ length program.now.record.bytes.now) }
    {
        let literal = separator(program.code, edge)?;
        let reading = program.record.literal(alloc, literal, self.last.place);
        if !reading.is_ok() {
            return None;
        }
        Some(reading)
    }

    /// Begins the latest array's next turn behind its separator, over the steps that look for its terminator
    /// and for the end of the record, begin the turn and read the separator.
    pub(crate) fn pass_separator(&mut self, program: &Program, edge: usize, reading: Reading)
        requires there { (name : ℕ) × (to : ℕ) × (slice_get program.now.code.now self.old.address ≡ Some (instruction.Full None name to)) }
        requires more { HasMore program.now.code.now (subject_of program.now.record) edge self.old }
        requires edge { edge < 2 ^ 33 }
        requires separated { IsSeparated program.now.code.now (subject_of program.now.record) edge self.old.last.place reading }
        requires place { reading.place ≤ length program.now.record.bytes.now }
        requires halts { (steps : ℕ) × Halting program.now.code.now program.now.entries.now (subject_of program.now.record) self.old.room steps (shown self.old) }
        requires placed { Placed (length program.now.record.bytes.now) self.old }
        requires roomy { Roomy self.old.room self.old }
        requires held { Held self.old }
        ensures leads { Leads program.now.code.now program.now.entries.now (subject_of program.now.record) self.old.room (shown self.old) (shown self.new) }
        ensures placed { Placed (length program.now.record.bytes.now) self.new }
        ensures held { Held self.new }
        ensures roomy { Roomy self.old.room self.new }
    {
        self.marks.push_reserved(Mark {
            place: self.last.place,
            cause: None,
        });
        self.last = reading;
        self.address = edge + 5;
    }
}
