//! Instructions that are done at once: those of a literal among the parts of a struct where it stands, and a
//! base type with what keeps it as a part.
ghost use Rattle.std.specs.Prelude.{◌≡◌, ℕ, List, ◌+◌, ◌<◌, ◌≤◌, ◌^◌, true, false, None, Some, IfOk, IfSome, IsTrue, OnOk, length, slice_get};
ghost use Rattle.pads_calc.specs.declared.decl.Decl.{Decl};
ghost use Rattle.pads_dispatch.specs.Labels.{labels_fit};
ghost use Rattle.pads_image.specs.Code.{IsCodeOf};
ghost use Rattle.pads_image.specs.declared.op.Op.TheVariants as instruction;
ghost use Rattle.pads_image.specs.Steps.{does};
ghost use Rattle.pads_machine.specs.Held.{Held, Placed, Roomy};
ghost use Rattle.pads_machine.specs.Known.{Knows};
ghost use Rattle.pads_machine.specs.Ran.{Advances, AsksNothing, GoesWithin, Halting, IsLiteralPart, StandsAsPart, labels_stand};
ghost use Rattle.pads_machine.specs.Shown.{shown};
ghost use Rattle.pads_steps.specs.Records.{subject_of};

use crate::known::Known;
use crate::misses::branch_end;
use crate::state::State;
use crate::step::Next;
use pads_calc::{Base, Reading};
use pads_expr::Expr;
use pads_idle::{Program, absorbs, at, begins_search, part_at, searches};
use pads_image::Op;
use pads_value::Memory;
use std::alloc::Global;

/// The literal that is a part of a struct from an address on, without a name and dropped as it is found.
fn literal_part(code: &[Op], address: usize) -> Option<&[u8]>
    requires { address < 2 ^ 32 }
    ensures part { IfSome result (λ literal. IsLiteralPart code.now address literal.now) }
{
    if !begins_search(code, address) {
        return None;
    }
    let Some(Op::Lit(literal)) = at(code, address + 1) else {
        return None;
    };
    if !absorbs(code, address + 2) {
        return None;
    }
    if !searches(code, address + 3, address + 1) {
        return None;
    }
    let Some(None) = part_at(code, address + 4) else {
        return None;
    };
    Some(literal.as_slice())
}

impl State {
    /// Whether a struct or an array is open.
    fn is_open(&self) -> bool
        ensures open { IsTrue result → 0 < length self.now.nodes.items }
    {
        self.nodes.len() > 0
    }

    /// Whether one more binding has room.
    fn has_room(&self) -> bool
        ensures room { IsTrue result → length self.now.bindings.items + 1 ≤ self.now.room }
    {
        self.bindings.len() < self.room
    }

    /// What a literal reads as that is a part of the latest struct from the address on, and stands here.
    fn literal_here(&self, alloc: Global, program: &Program) -> Option<Reading>
        requires address { self.now.address < 2 ^ 32 }
        requires placed { Placed (length program.now.record.bytes.now) self.now }
        ensures stands { IfSome result (λ reading. StandsAsPart program.now.code.now (subject_of program.now.record) (shown self.now) reading) }
        ensures within { IfSome result (λ reading. reading.place ≤ length program.now.record.bytes.now) }
        ensures open { IfSome result (λ reading. 0 < length self.now.nodes.items) }
    {
        let literal = literal_part(program.code, self.address)?;
        if !self.is_open() {
            return None;
        }
        let reading = program.record.literal(alloc, literal, self.last.place);
        if !reading.is_ok() {
            return None;
        }
        Some(reading)
    }

    /// The name of the part that the next instruction keeps, if it keeps one and there is room.
    fn part_here(&self, program: &Program) -> Option<Option<u16>>
        requires address { self.now.address < 2 ^ 32 }
        ensures part { IfSome result (λ name. slice_get program.now.code.now (self.now.address + 1) ≡ Some (instruction.Part name)) }
        ensures open { IfSome result (λ name. 0 < length self.now.nodes.items) }
        ensures room { IfSome result (λ name. length self.now.bindings.items + 1 ≤ self.now.room) }
    {
        if !self.is_open() {
            return None;
        }
        if !self.has_room() {
            return None;
        }
        part_at(program.code, self.address + 1)
    }

    /// Keeps what a literal reads as that is a part and stands here, over the steps that look for it, find it
    /// here, drop its value and keep it.
    fn pass_literal(
        &mut self,
        alloc: Global,
        program: &Program,
        reading: Reading,
    ) -> Result<Next, Memory>
        requires short { length program.now.code.now < 2 ^ 32 }
        requires address { self.old.address < 2 ^ 32 }
        requires stands { StandsAsPart program.now.code.now (subject_of program.now.record) (shown self.old) reading }
        requires place { reading.place ≤ length program.now.record.bytes.now }
        requires open { 0 < length self.old.nodes.items }
        requires placed { Placed (length program.now.record.bytes.now) self.old }
        requires within { GoesWithin self.old.room (does program.now.entries.now (subject_of program.now.record) instruction.ScanFrom (shown self.old)) }
        requires roomy { Roomy self.old.room self.old }
        requires held { Held self.old }
        ensures advance { IfOk result (λ next. Advances program.now.code.now program.now.entries.now (subject_of program.now.record) self.old.room next (shown self.old) (shown self.new)) }
        ensures asks { IfOk result (λ next. AsksNothing next) }
        ensures placed { OnOk result (Placed (length program.now.record.bytes.now) self.new) }
        ensures held { OnOk result (Held self.new) }
        ensures roomy { Roomy self.old.room self.new }
    {
        self.address += 3;
        self.put(alloc, program.record.origin, None, reading)?;
        Ok(Next::Goes)
    }

    /// Keeps what a base type reads as, over the steps that read it and keep it.
    fn pass_base(
        &mut self,
        alloc: Global,
        program: &Program,
        base: &Base,
        args: &[Expr],
        name: Option<u16>,
    ) -> Result<Next, Memory>
        requires there { slice_get program.now.code.now self.old.address ≡ Some (instruction.Base base.now args.now) }
        requires part { slice_get program.now.code.now (self.old.address + 1) ≡ Some (instruction.Part name) }
        requires labels { labels_fit base.now ≡ true }
        requires address { self.old.address < 2 ^ 32 }
        requires open { 0 < length self.old.nodes.items }
        requires room { length self.old.bindings.items + 1 ≤ self.old.room }
        requires placed { Placed (length program.now.record.bytes.now) self.old }
        requires within { GoesWithin self.old.room (does program.now.entries.now (subject_of program.now.record) (instruction.Base base.now args.now) (shown self.old)) }
        requires roomy { Roomy self.old.room self.old }
        requires held { Held self.old }
        ensures advance { IfOk result (λ next. Advances program.now.code.now program.now.entries.now (subject_of program.now.record) self.old.room next (shown self.old) (shown self.new)) }
        ensures asks { IfOk result (λ next. AsksNothing next) }
        ensures placed { OnOk result (Placed (length program.now.record.bytes.now) self.new) }
        ensures held { OnOk result (Held self.new) }
        ensures roomy { Roomy self.old.room self.new }
    {
        let record = &program.record;
        let place = self.last.place;
        let reading = self.base_reading(alloc, record, base, args, place)?;
        self.put(alloc, record.origin, name, reading)?;
        Ok(Next::Goes)
    }

    /// One instruction, told as steps.
    fn one(&mut self, alloc: Global, program: &Program, op: &Op) -> Result<Next, Memory>
        requires there { slice_get program.now.code.now self.old.address ≡ Some op.now }
        requires labels { labels_stand op.now ≡ true }
        requires address { self.old.address < 2 ^ 32 }
        requires placed { Placed (length program.now.record.bytes.now) self.old }
        requires within { GoesWithin self.old.room (does program.now.entries.now (subject_of program.now.record) op.now (shown self.old)) }
        requires roomy { Roomy self.old.room self.old }
        requires held { Held self.old }
        ensures advance { IfOk result (λ next. Advances program.now.code.now program.now.entries.now (subject_of program.now.record) self.old.room next (shown self.old) (shown self.new)) }
        ensures asks { IfOk result (λ next. AsksNothing next) }
        ensures placed { OnOk result (Placed (length program.now.record.bytes.now) self.new) }
        ensures held { OnOk result (Held self.new) }
        ensures roomy { Roomy self.old.room self.new }
    {
        let next = self.step(alloc, program, op)?;
        Ok(next)
    }

    /// A call, or what it needn't be read for: a branch is left that can't be clean by it. It asks what the call
    /// reads as, where that isn't known and may be read again and again.
    fn advance_call(
        &mut self,
        alloc: Global,
        program: &Program,
        known: &Known,
        asking: bool,
        op: &Op,
        number: u16,
        args: &[Expr],
    ) -> Result<Next, Memory>
        requires short { length program.now.code.now < 2 ^ 32 }
        requires there { slice_get program.now.code.now self.old.address ≡ Some op.now }
        requires call { op.now ≡ instruction.Call number args.now }
        requires labels { labels_stand op.now ≡ true }
        requires address { self.old.address < 2 ^ 32 }
        requires placed { Placed (length program.now.record.bytes.now) self.old }
        requires within { GoesWithin self.old.room (does program.now.entries.now (subject_of program.now.record) op.now (shown self.old)) }
        requires roomy { Roomy self.old.room self.old }
        requires held { Held self.old }
        requires code { (decls : List Decl) × IsCodeOf decls program.now.code.now program.now.entries.now }
        requires halts { (steps : ℕ) × Halting program.now.code.now program.now.entries.now (subject_of program.now.record) self.old.room steps (shown self.old) }
        requires knows { Knows program.now.code.now program.now.entries.now (subject_of program.now.record) known.now }
        ensures advance { IfOk result (λ next. Advances program.now.code.now program.now.entries.now (subject_of program.now.record) self.old.room next (shown self.old) (shown self.new)) }
        ensures asking { IfOk result (λ next. asking ≡ false → AsksNothing next) }
        ensures placed { OnOk result (Placed (length program.now.record.bytes.now) self.new) }
        ensures held { OnOk result (Held self.new) }
        ensures roomy { Roomy self.old.room self.new }
    {
        if self.marks.len() == 0 {
            return self.one(alloc, program, op);
        }
        if let Some(end) = branch_end(program.code, self.address + 1) {
            if self.is_hopeless(alloc, program, number) {
                self.pass_branch(alloc, program, number, end);
                return Ok(Next::Goes);
            }
            if let Some(call) = self.branch_call(alloc, program, known, end)? {
                match known.outcome(&call) {
                    Some(outcome) if !outcome.clean => {
                        self.pass_call(alloc, program, &call, outcome, end);
                        return Ok(Next::Goes);
                    }
                    None if asking => return Ok(Next::Asks),
                    _ => {}
                }
            }
        }
        if let Some(doomed) = self.doomed(program) {
            self.pass_struct(alloc, program, doomed);
            return Ok(Next::Goes);
        }
        self.one(alloc, program, op)
    }

    /// The beginning of a turn, or of a turn that is sure to be undone all of it. It asks what the element's call
    /// reads as, where that isn't known and may be read again and again.
    fn advance_turn(
        &mut self,
        alloc: Global,
        program: &Program,
        known: &Known,
        asking: bool,
        op: &Op,
    ) -> Result<Next, Memory>
        requires short { length program.now.code.now < 2 ^ 32 }
        requires there { slice_get program.now.code.now self.old.address ≡ Some op.now }
        requires turn { (first : ℕ) × (op.now ≡ instruction.Turn first) }
        requires labels { labels_stand op.now ≡ true }
        requires address { self.old.address < 2 ^ 32 }
        requires placed { Placed (length program.now.record.bytes.now) self.old }
        requires within { GoesWithin self.old.room (does program.now.entries.now (subject_of program.now.record) op.now (shown self.old)) }
        requires roomy { Roomy self.old.room self.old }
        requires held { Held self.old }
        requires code { (decls : List Decl) × IsCodeOf decls program.now.code.now program.now.entries.now }
        requires halts { (steps : ℕ) × Halting program.now.code.now program.now.entries.now (subject_of program.now.record) self.old.room steps (shown self.old) }
        requires knows { Knows program.now.code.now program.now.entries.now (subject_of program.now.record) known.now }
        ensures advance { IfOk result (λ next. Advances program.now.code.now program.now.entries.now (subject_of program.now.record) self.old.room next (shown self.old) (shown self.new)) }
        ensures asking { IfOk result (λ next. asking ≡ false → AsksNothing next) }
        ensures placed { OnOk result (Placed (length program.now.record.bytes.now) self.new) }
        ensures held { OnOk result (Held self.new) }
        ensures roomy { Roomy self.old.room self.new }
    {
        if !self.is_standing() {
            return self.one(alloc, program, op);
        }
        if let Some(end) = self.stalls_at(program) {
            return self.pass_turn(alloc, program, end);
        }
        if let Some(call) = self.call_at(alloc, program, self.address + 1)? {
            if asking && known.outcome(&call).is_none() {
                return Ok(Next::Asks);
            }
            if let Some(end) = self.stalls_by(program, known, &call) {
                return self.pass_turn(alloc, program, end);
            }
        }
        self.one(alloc, program, op)
    }

    /// One instruction of a run that is tried, at once where it is a call or the beginning of a turn. So that the
    /// loop of all others stays one piece of code, this is another one.
    pub(crate) fn try_step(
        &mut self,
        alloc: Global,
        program: &Program,
        known: &Known,
        asking: bool,
        op: &Op,
    ) -> Result<Next, Memory>
        requires short { length program.now.code.now < 2 ^ 32 }
        requires there { slice_get program.now.code.now self.old.address ≡ Some op.now }
        requires labels { labels_stand op.now ≡ true }
        requires address { self.old.address < 2 ^ 32 }
        requires placed { Placed (length program.now.record.bytes.now) self.old }
        requires within { GoesWithin self.old.room (does program.now.entries.now (subject_of program.now.record) op.now (shown self.old)) }
        requires roomy { Roomy self.old.room self.old }
        requires held { Held self.old }
        requires code { (decls : List Decl) × IsCodeOf decls program.now.code.now program.now.entries.now }
        requires halts { (steps : ℕ) × Halting program.now.code.now program.now.entries.now (subject_of program.now.record) self.old.room steps (shown self.old) }
        requires knows { Knows program.now.code.now program.now.entries.now (subject_of program.now.record) known.now }
        ensures advance { IfOk result (λ next. Advances program.now.code.now program.now.entries.now (subject_of program.now.record) self.old.room next (shown self.old) (shown self.new)) }
        ensures asking { IfOk result (λ next. asking ≡ false → AsksNothing next) }
        ensures placed { OnOk result (Placed (length program.now.record.bytes.now) self.new) }
        ensures held { OnOk result (Held self.new) }
        ensures roomy { Roomy self.old.room self.new }
    {
        match op {
            Op::Call(number, args) => {
                self.advance_call(alloc, program, known, asking, op, *number, args.as_slice())
            }
            Op::Turn(_) => self.advance_turn(alloc, program, known, asking, op),
            _ => self.one(alloc, program, op),
        }
    }

    /// One instruction, or several at once. Where it may ask, it may ask what a call reads as.
    pub(crate) fn advance(
        &mut self,
        alloc: Global,
        program: &Program,
        known: &Known,
        asking: bool,
        op: &Op,
    ) -> Result<Next, Memory>
        requires short { length program.now.code.now < 2 ^ 32 }
        requires there { slice_get program.now.code.now self.old.address ≡ Some op.now }
        requires labels { labels_stand op.now ≡ true }
        requires address { self.old.address < 2 ^ 32 }
        requires placed { Placed (length program.now.record.bytes.now) self.old }
        requires within { GoesWithin self.old.room (does program.now.entries.now (subject_of program.now.record) op.now (shown self.old)) }
        requires roomy { Roomy self.old.room self.old }
        requires held { Held self.old }
        requires code { (decls : List Decl) × IsCodeOf decls program.now.code.now program.now.entries.now }
        requires halts { (steps : ℕ) × Halting program.now.code.now program.now.entries.now (subject_of program.now.record) self.old.room steps (shown self.old) }
        requires knows { Knows program.now.code.now program.now.entries.now (subject_of program.now.record) known.now }
        ensures advance { IfOk result (λ next. Advances program.now.code.now program.now.entries.now (subject_of program.now.record) self.old.room next (shown self.old) (shown self.new)) }
        ensures asking { IfOk result (λ next. asking ≡ false → AsksNothing next) }
        ensures placed { OnOk result (Placed (length program.now.record.bytes.now) self.new) }
        ensures held { OnOk result (Held self.new) }
        ensures roomy { Roomy self.old.room self.new }
    {
        match op {
            Op::ScanFrom => {
                if let Some(reading) = self.literal_here(alloc, program) {
                    return self.pass_literal(alloc, program, reading);
                }
            }
            Op::Base(base, args) => {
                if let Some(name) = self.part_here(program) {
                    return self.pass_base(alloc, program, base, args.as_slice(), name);
                }
            }
            Op::Call(number, args) => {
                return self.advance_call(
                    alloc,
                    program,
                    known,
                    asking,
                    op,
                    *number,
                    args.as_slice(),
                );
            }
            Op::Full(None, _, _) => {
                if let Some(edge) = self.more_at(program) {
                    if let Some(reading) = self.separator_at(alloc, program, edge) {
                        self.pass_separator(program, edge, reading);
                        return Ok(Next::Goes);
                    }
                }
            }
            Op::Turn(_) => return self.advance_turn(alloc, program, known, asking, op),
            _ => {}
        }
        self.one(alloc, program, op)
    }
}
