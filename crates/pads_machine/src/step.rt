//! Instructions, one after another.
ghost use Rattle.std.specs.Prelude.{◌≡◌, ℕ, ◌<◌, ◌≤◌, ◌^◌, true, List, [], length, IfOk, OnOk};
ghost use Rattle.std.specs.List.{list_all};
ghost use Rattle.pads_calc.specs.declared.decl.Decl.{Decl};
ghost use Rattle.pads_calc.specs.declared.reading.Reading.{Reading};
ghost use Rattle.pads_steps.specs.Records.{subject_of};
ghost use Rattle.pads_image.specs.Answers.{HaltsWith};
ghost use Rattle.pads_calc.specs.Arguments.{arguments as arguments_of};
ghost use Rattle.pads_calc.specs.Leaves.{base_of, compute_of};
ghost use Rattle.pads_calc.specs.Places.{EndsWithin};
ghost use Rattle.pads_calc.specs.Readings.{fails};
ghost use Rattle.pads_calc.specs.Wrappers.{absorb_of, guard_of};
ghost use Rattle.pads_dispatch.specs.Labels.{labels_fit};
ghost use Rattle.pads_expr.specs.Value.{value};
ghost use Rattle.pads_expr.specs.Worth.{worth_or_none};
ghost use Rattle.pads_image.specs.Code.{IsCodeOf};
ghost use Rattle.pads_image.specs.States.{seen};
ghost use Rattle.pads_image.specs.Steps.{Goes, call_step, does, reads, return_step};
ghost use Rattle.pads_machine.specs.Held.{Held, Placed, Roomy};
ghost use Rattle.pads_machine.specs.Known.{AreCounted};
ghost use Rattle.pads_machine.specs.Ran.{GoesWithin, Halting, StaysPlaced, Tells, is_leaf, is_of_array, labels_stand};
ghost use Rattle.pads_machine.specs.Shown.{shown};

use crate::known::Known;
use crate::learning::learn;
use crate::searches::Past;
use crate::state::State;
use pads_calc::{Base, ComputedForm, Reading};
use pads_expr::Expr;
use pads_idle::{Program, at};
use pads_image::{Entry, Op};
use pads_steps::{Record, arguments_in, guarded_in};
use pads_value::{Cause, Memory, Val};
use std::alloc::Global;

/// What came of an instruction.
#[derive(Clone, Copy, PartialEq, Eq)]
pub(crate) enum Next {
    Goes,
    /// It goes on with a search, one byte further.
    Searches,
    Halts,
    /// Nothing was done: it is to be known first what a call reads.
    Asks,
}

impl State {
    /// Goes on at the next address where no reading is to be had.
    fn fail(&mut self, alloc: Global, origin: u64, cause: Cause)
        requires origin { origin ≤ 2 ^ 62 }
        requires address { self.old.address < 2 ^ 32 }
        requires place { self.old.last.place ≤ 2 ^ 62 }
        requires roomy { Roomy self.old.room self.old }
        requires held { Held self.old }
        ensures fail { reads (fails origin cause self.old.last.place) (shown self.old) ≡ Goes (shown self.new) }
        ensures placed { StaysPlaced self.old self.new }
        ensures held { Held self.new }
        ensures roomy { Roomy self.old.room self.new }
    {
        let place = self.last.place;
        self.read(Reading::fails(alloc, origin, cause, place));
    }

    /// What a base type reads as with its arguments.
    pub(crate) fn base_reading(
        &self,
        alloc: Global,
        from: &Record,
        base: &Base,
        args: &[Expr],
        place: u64,
    ) -> Result<Reading, Memory>
        requires labels { labels_fit base.now ≡ true }
        requires place { place ≤ length from.now.bytes.now }
        ensures base { IfOk result (λ r. r ≡ base_of (subject_of from.now) base.now (arguments_of args.now (seen (shown self.now))) place) }
        ensures within { IfOk result (λ r. EndsWithin from.now.bytes.now place r) }
    {
        match self.literals.of_args(self.address, args) {
            Some(args) => from.base_with(alloc, base, args, place),
            None => from.base_in(alloc, base, args, self.seen(), place),
        }
    }

    /// Reads a base type with its arguments.
    fn base_type(
        &mut self,
        alloc: Global,
        from: &Record,
        base: &Base,
        args: &[Expr],
    ) -> Result<(), Memory>
        requires labels { labels_fit base.now ≡ true }
        requires address { self.old.address < 2 ^ 32 }
        requires place { self.old.last.place ≤ length from.now.bytes.now }
        requires roomy { Roomy self.old.room self.old }
        requires held { Held self.old }
        ensures read { OnOk result (reads (base_of (subject_of from.now) base.now (arguments_of args.now (seen (shown self.old))) self.old.last.place) (shown self.old) ≡ Goes (shown self.new)) }
        ensures place { OnOk result (self.new.last.place ≤ length from.now.bytes.now) }
        ensures marks { OnOk result (self.new.marks ≡ self.old.marks) }
        ensures held { OnOk result (Held self.new) }
        ensures roomy { Roomy self.old.room self.new }
    {
        let place = self.last.place;
        let reading = self.base_reading(alloc, from, base, args, place)?;
        self.read(reading);
        Ok(())
    }

    /// Computes a value.
    fn compute(
        &mut self,
        alloc: Global,
        from: &Record,
        e: &Expr,
        form: &ComputedForm,
    ) -> Result<(), Memory>
        requires address { self.old.address < 2 ^ 32 }
        requires place { self.old.last.place ≤ length from.now.bytes.now }
        requires roomy { Roomy self.old.room self.old }
        requires held { Held self.old }
        ensures read { OnOk result (reads (compute_of from.now.origin form.now (worth_or_none (value e.now (seen (shown self.old)))) self.old.last.place) (shown self.old) ≡ Goes (shown self.new)) }
        ensures place { OnOk result (self.new.last.place ≤ length from.now.bytes.now) }
        ensures marks { OnOk result (self.new.marks ≡ self.old.marks) }
        ensures held { OnOk result (Held self.new) }
        ensures roomy { Roomy self.old.room self.new }
    {
        let place = self.last.place;
        let reading = from.computed_in(alloc, e, form, self.seen(), place)?;
        self.read(reading);
        Ok(())
    }

    /// Drops the value that was read.
    fn absorb(&mut self)
        requires address { self.old.address < 2 ^ 32 }
        requires roomy { Roomy self.old.room self.old }
        requires held { Held self.old }
        ensures absorb { reads (absorb_of self.old.last) (shown self.old) ≡ Goes (shown self.new) }
        ensures placed { StaysPlaced self.old self.new }
        ensures held { Held self.new }
        ensures roomy { Roomy self.old.room self.new }
    {
        self.last.value = if self.last.is_ok() {
            Val::Unit
        } else {
            Val::Missing
        };
        self.address += 1;
    }

    /// Constrains the value that was read, by its name in the condition.
    fn guard(&mut self, alloc: Global, origin: u64, binder: u16, condition: &Expr)
        requires origin { origin ≤ 2 ^ 62 }
        requires address { self.old.address < 2 ^ 32 }
        requires place { self.old.last.place ≤ 2 ^ 62 }
        requires roomy { Roomy self.old.room self.old }
        requires held { Held self.old }
        ensures guard { reads (guard_of binder condition.now (seen (shown self.old)) self.old.last) (shown self.old) ≡ Goes (shown self.new) }
        ensures placed { StaysPlaced self.old self.new }
        ensures held { Held self.new }
        ensures roomy { Roomy self.old.room self.new }
    {
        let reading = self.take_last(alloc, origin);
        let reading = guarded_in(reading, binder, condition, self.seen());
        self.read(reading);
    }

    /// Reads a declaration. It fails where calls are nested too deep, or where an argument has no value.
    fn call(
        &mut self,
        alloc: Global,
        origin: u64,
        entries: &[Entry],
        number: u16,
        args: &[Expr],
    ) -> Result<(), Memory>
        requires origin { origin ≤ 2 ^ 62 }
        requires address { self.old.address < 2 ^ 32 }
        requires place { self.old.last.place ≤ 2 ^ 62 }
        requires within { GoesWithin self.old.room (call_step origin entries.now number args.now self.old.depth (shown self.old)) }
        requires roomy { Roomy self.old.room self.old }
        requires held { Held self.old }
        ensures call { OnOk result (call_step origin entries.now number args.now self.old.depth (shown self.old) ≡ Goes (shown self.new)) }
        ensures placed { OnOk result (StaysPlaced self.old self.new) }
        ensures held { OnOk result (Held self.new) }
        ensures roomy { Roomy self.old.room self.new }
    {
        if self.depth == 0 {
            self.fail(alloc, origin, Cause::Depth);
            return Ok(());
        }
        let args = arguments_in(alloc, args, self.seen())?;
        let Some(args) = args else {
            self.fail(alloc, origin, Cause::BadParam);
            return Ok(());
        };
        let Some(entry) = entries.get(usize::from(number)) else {
            self.fail(alloc, origin, Cause::BadParam);
            return Ok(());
        };
        self.enter(number, entry, args);
        Ok(())
    }

    /// Ends a declaration: the run halts, or goes on behind the call.
    pub(crate) fn end(&mut self) -> Next
        requires within { GoesWithin self.old.room (return_step (shown self.old) (shown self.old).callers) }
        requires roomy { Roomy self.old.room self.old }
        requires held { Held self.old }
        ensures end { Tells result (return_step (shown self.old) (shown self.old).callers) (shown self.old) (shown self.new) }
        ensures last { self.new.last ≡ self.old.last }
        ensures placed { StaysPlaced self.old self.new }
        ensures held { Held self.new }
        ensures roomy { Roomy self.old.room self.new }
    {
        match self.callers.pop() {
            None => Next::Halts,
            Some(caller) => {
                self.leave(caller);
                Next::Goes
            }
        }
    }

    /// An instruction of a term without a term in it, or around one.
    fn leaf(&mut self, alloc: Global, from: &Record, op: &Op) -> Result<(), Memory>
        requires leaf { is_leaf op.now ≡ true }
        requires labels { labels_stand op.now ≡ true }
        requires address { self.old.address < 2 ^ 32 }
        requires placed { Placed (length from.now.bytes.now) self.old }
        requires roomy { Roomy self.old.room self.old }
        requires held { Held self.old }
        ensures leaf { OnOk result (does [] (subject_of from.now) op.now (shown self.old) ≡ Goes (shown self.new)) }
        ensures placed { OnOk result (Placed (length from.now.bytes.now) self.new) }
        ensures held { OnOk result (Held self.new) }
        ensures roomy { Roomy self.old.room self.new }
    {
        let place = self.last.place;
        match op {
            Op::Unit => self.read(from.unit(alloc, place)),
            Op::Lit(literal) => self.read(from.literal(alloc, literal.as_slice(), place)),
            Op::Eor => self.read(from.end(alloc, place)),
            Op::Base(base, args) => self.base_type(alloc, from, base, args.as_slice())?,
            Op::Compute(e, form) => self.compute(alloc, from, e, form)?,
            Op::Absorb => self.absorb(),
            Op::Guard(binder, condition) => self.guard(alloc, from.origin, *binder, condition),
            _ => unreachable!(),
        }
        Ok(())
    }

    /// An instruction of an array.
    fn array_step(&mut self, alloc: Global, from: &Record, op: &Op) -> Result<(), Memory>
        requires array { is_of_array op.now ≡ true }
        requires address { self.old.address < 2 ^ 32 }
        requires placed { Placed (length from.now.bytes.now) self.old }
        requires within { GoesWithin self.old.room (does [] (subject_of from.now) op.now (shown self.old)) }
        requires roomy { Roomy self.old.room self.old }
        requires held { Held self.old }
        ensures array { OnOk result (does [] (subject_of from.now) op.now (shown self.old) ≡ Goes (shown self.new)) }
        ensures placed { OnOk result (Placed (length from.now.bytes.now) self.new) }
        ensures held { OnOk result (Held self.new) }
        ensures roomy { Roomy self.old.room self.new }
    {
        let origin = from.origin;
        match op {
            Op::Size(size, to) => self.array(alloc, origin, size.as_ref(), *to),
            Op::Full(last, name, to) => self.full(alloc, last.as_ref(), *name, *to),
            Op::Stop(to) => self.stop(*to),
            Op::Edge(to) => self.edge(from, *to),
            Op::Turn(to) => self.turn(*to),
            Op::Sep(to) => self.separate(*to),
            Op::Elem(to, again) => self.element(alloc, origin, *to, *again)?,
            Op::Shut => self.shut(origin),
            _ => unreachable!(),
        }
        Ok(())
    }

    /// One instruction.
    pub(crate) fn step(&mut self, alloc: Global, program: &Program, op: &Op) -> Result<Next, Memory>
        requires labels { labels_stand op.now ≡ true }
        requires address { self.old.address < 2 ^ 32 }
        requires placed { Placed (length program.now.record.bytes.now) self.old }
        requires within { GoesWithin self.old.room (does program.now.entries.now (subject_of program.now.record) op.now (shown self.old)) }
        requires roomy { Roomy self.old.room self.old }
        requires held { Held self.old }
        ensures step { IfOk result (λ next. Tells next (does program.now.entries.now (subject_of program.now.record) op.now (shown self.old)) (shown self.old) (shown self.new)) }
        ensures placed { OnOk result (Placed (length program.now.record.bytes.now) self.new) }
        ensures held { OnOk result (Held self.new) }
        ensures roomy { Roomy self.old.room self.new }
    {
        let origin = program.record.origin;
        match op {
            Op::Open => self.open(alloc, None),
            Op::Part(name) => self.part(alloc, origin, *name)?,
            Op::Close(count) => self.close(origin, *count),
            Op::Mark | Op::ScanFrom => self.note(),
            Op::Try(number, to) => self.branch(alloc, &program.record, *number, *to)?,
            Op::NoArm => self.no_branch(alloc, origin),
            Op::Switch(e, targets, to) => {
                self.switch(alloc, origin, e, targets.as_slice(), *to)?
            }
            Op::Arm(number, to) => self.case(alloc, origin, *number, *to)?,
            Op::ScanOn(to) => return Ok(self.scan(alloc, &program.record, *to)),
            Op::Call(number, args) => {
                self.call(alloc, origin, program.entries, *number, args.as_slice())?
            }
            Op::Return => return Ok(self.end()),
            Op::Size(_, _)
            | Op::Full(_, _, _)
            | Op::Stop(_)
            | Op::Edge(_)
            | Op::Turn(_)
            | Op::Sep(_)
            | Op::Elem(_, _)
            | Op::Shut => self.array_step(alloc, &program.record, op)?,
            _ => self.leaf(alloc, &program.record, op)?,
        }
        Ok(Next::Goes)
    }

    /// Runs until it halts.
    pub(crate) fn run(&mut self, alloc: Global, program: &Program) -> Result<(), Memory>
        ghost steps: { ℕ }
        requires short { length program.now.code.now < 2 ^ 32 }
        requires counted { AreCounted program.now.code.now program.now.entries.now }
        requires labels { list_all labels_stand program.now.code.now ≡ true }
        requires placed { Placed (length program.now.record.bytes.now) self.old }
        requires halts { Halting program.now.code.now program.now.entries.now (subject_of program.now.record) self.old.room steps (shown self.old) }
        requires roomy { Roomy self.old.room self.old }
        requires held { Held self.old }
        requires code { (decls : List Decl) × IsCodeOf decls program.now.code.now program.now.entries.now }
        ensures ran { OnOk result ((r : Reading) → HaltsWith program.now.code.now program.now.entries.now (subject_of program.now.record) self.old.room (shown self.old) r → self.new.last ≡ r) }
        ensures place { OnOk result (self.new.last.place ≤ length program.now.record.bytes.now) }
        ensures roomy { Roomy self.old.room self.new }
    {
        let mut past = Past::new(alloc);
        let mut known = Known::new(alloc);
        let mut spare = None;
        let mut quiet: u64 = 0;
        'run: while let Some(op) = at(program.code, self.address) {
            match self.advance(alloc, program, &known, quiet == 0, op)? {
                Next::Goes => quiet = quiet.saturating_sub(1),
                Next::Searches => {
                    self.leap(alloc, program, &mut past);
                    quiet = quiet.saturating_sub(1);
                }
                Next::Halts => return Ok(()),
                Next::Asks => {
                    let call = self.asked(alloc, program, &known)?;
                    quiet = learn(alloc, program, &mut spare, &mut known, call)?;
                }
            }
        }
        unreachable!()
    }
}
