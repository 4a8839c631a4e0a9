//! What is known of calls in a record: what a call that may be made again reads as, in short. It says sooner what a run
//! would come to, and changes nothing that is read.
ghost use Rattle.std.specs.Prelude.{◌≡◌, All, IfOk, IfSome, IsTrue, List};
ghost use Rattle.pads_calc.specs.Readings.{Subject};
ghost use Rattle.pads_image.specs.declared.entry.Entry.{Entry as Declared};
ghost use Rattle.pads_image.specs.declared.op.Op.{Op as Instruction};
ghost use Rattle.pads_machine.specs.Known.{HasOutcome, Holds, Knows};

use crate::constraint::{Constraint, same_constraints};
use pads_dispatch::{Arg, Args, same_args};
use pads_value::{Boxed, Memory};
use std::alloc::Global;

/// How many slots there are at first.
const FEW: usize = 1_024;

/// How many slots there are at most.
const MOST: usize = 1_048_576;

/// A call of a declaration.
#[derive(Drop)]
pub(crate) struct Call {
    /// The declaration, by its number.
    pub(crate) number: u16,
    /// What its arguments stand for.
    pub(crate) args: Args,
    /// How deep calls may be nested in it.
    pub(crate) depth: u8,
    /// The place where it begins.
    pub(crate) place: u64,
    /// The constraint of the branch that it is, if it is one that has a constraint of its own.
    pub(crate) constraint: Option<Constraint>,
}

/// What a call reads as, in short.
#[derive(Clone, Copy)]
pub(crate) struct Outcome {
    /// Whether it is clean, with its constraint.
    pub(crate) clean: bool,
    /// Whether it fails.
    pub(crate) failed: bool,
    /// The place where it ends.
    pub(crate) place: u64,
}

/// A call whose outcome is known.
#[derive(Drop)]
pub(crate) struct Fact {
    pub(crate) call: Call,
    pub(crate) outcome: Outcome,
}

/// The calls of a record whose outcome is known, each in a slot that another one may take.
#[derive(Drop)]
pub(crate) struct Known {
    pub(crate) slots: Vec<Option<Boxed<Fact>>>,
}

/// A number that is another one for most other texts.
fn text_key(text: &[u8]) -> u64 {
    let mut key: u64 = 0;
    'bytes: for byte in text {
        key = key.wrapping_mul(31).wrapping_add(u64::from(*byte));
    }
    key
}

/// A number that is another one for most other arguments.
fn arg_key(arg: &Arg) -> u64 {
    match arg {
        Arg::Num(number) => (number.unsigned_abs() & 0xffff_ffff) as u64,
        Arg::Text(text) => text_key(text.as_slice()),
    }
}

/// A key with more in it.
fn mixed(key: u64, more: u64) -> u64 {
    key.wrapping_add(more.wrapping_add(1).wrapping_mul(1_000_003))
}

impl Call {
    /// The slot of a call among so many. Calls at nearby places have other ones.
    fn slot(&self, count: usize) -> usize {
        if count == 0 {
            return 0;
        }
        let number = u64::from(self.number);
        let mut key = self
            .place
            .wrapping_mul(509)
            .wrapping_add(u64::from(self.depth) * 4)
            .wrapping_add(number % 4)
            .wrapping_add(number / 4 * 40_503);
        'args: for arg in self.args.as_slice() {
            key = mixed(key, arg_key(arg));
        }
        if let Some(constraint) = &self.constraint {
            key = mixed(key, constraint.address as u64);
        }
        key as usize % count
    }

    /// Whether both are the same call.
    fn same(&self, other: &Call) -> bool
        ensures same { IsTrue result → self.now ≡ other.now }
    {
        self.number == other.number
            && self.depth == other.depth
            && self.place == other.place
            && same_args(self.args.as_slice(), other.args.as_slice())
            && same_constraints(&self.constraint, &other.constraint)
    }
}

/// So many slots, all of them empty.
fn empty_slots(alloc: Global, count: usize) -> Result<Vec<Option<Boxed<Fact>>>, Memory>
    ensures knows { IfOk result (λ slots. (code : List Instruction) (of_entries : List Declared) (subject : Subject) → All (Holds code of_entries subject) slots.items) }
{
    let mut slots = Vec::with_capacity(alloc, count)?;
    'slots: for slot in 0..count {
        slots.push(None)?;
    }
    Ok(slots)
}

impl Known {
    /// Nothing is known yet.
    pub(crate) fn new(alloc: Global) -> Known
        ensures knows { (code : List Instruction) (of_entries : List Declared) (subject : Subject) → Knows code of_entries subject result }
    {
        Known {
            slots: Vec::new(alloc),
        }
    }

    /// Whether a fact was kept.
    pub(crate) fn is_used(&self) -> bool {
        self.slots.len() > 0
    }

    /// What is kept in the slot of a call.
    fn kept(&self, call: &Call) -> Option<&Fact>
        ensures holds { IfSome result (λ fact. (code : List Instruction) (of_entries : List Declared) (subject : Subject) → Knows code of_entries subject self.now → HasOutcome code of_entries subject fact.now.call fact.now.outcome) }
    {
        match self.slots.get(call.slot(self.slots.len())) {
            Some(Some(fact)) => Some(fact.get()),
            _ => None,
        }
    }

    /// The outcome of a call, if it is known.
    pub(crate) fn outcome(&self, call: &Call) -> Option<Outcome>
        ensures outcome { IfSome result (λ outcome. (code : List Instruction) (of_entries : List Declared) (subject : Subject) → Knows code of_entries subject self.now → HasOutcome code of_entries subject call.now outcome) }
    {
        let fact = self.kept(call)?;
        if !fact.call.same(call) {
            return None;
        }
        Some(fact.outcome)
    }

    /// Whether the slot of a call is another one's, or there is none yet.
    fn is_taken(&self, call: &Call) -> bool {
        match self.kept(call) {
            Some(fact) => !fact.call.same(call),
            None => self.slots.len() == 0,
        }
    }

    /// Makes four times as many slots, all of them empty, where that of a call is taken, if they may be so many and
    /// there is memory for them.
    fn prepare(&mut self, alloc: Global, call: &Call)
        ensures knows { (code : List Instruction) (of_entries : List Declared) (subject : Subject) → Knows code of_entries subject self.old → Knows code of_entries subject self.new }
    {
        let count = self.slots.len().saturating_mul(4).max(FEW);
        if self.is_taken(call) && count <= MOST {
            if let Ok(slots) = empty_slots(alloc, count) {
                self.slots = slots;
            }
        }
    }

    /// Keeps a fact in the slot of its call, if there is memory for it. Where that is another one's, all others are forgotten, as long as there
    /// may be more slots: what is still of use is learned again.
    pub(crate) fn keep(&mut self, alloc: Global, fact: Fact)
        ensures knows { (code : List Instruction) (of_entries : List Declared) (subject : Subject) → Knows code of_entries subject self.old → HasOutcome code of_entries subject fact.call fact.outcome → Knows code of_entries subject self.new }
    {
        self.prepare(alloc, &fact.call);
        let slot = fact.call.slot(self.slots.len());
        if slot < self.slots.len() {
            if let Ok(fact) = Boxed::new(alloc, fact) {
                self.slots[slot] = Some(fact);
            }
        }
    }
}
