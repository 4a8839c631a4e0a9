//! What calls read as is learned by reading them over stacks of their own, the calls in them first.
ghost use Rattle.std.specs.Prelude.{◌≡◌, ℕ, ◌<◌, ◌≤◌, ◌^◌, true, List, length, get_or, IfOk, OnOk, Some};
ghost use Rattle.std.specs.List.{list_all};
ghost use Rattle.std.specs.Option.{ForSome};
ghost use Rattle.pads_calc.specs.declared.decl.Decl.{Decl};
ghost use Rattle.pads_calc.specs.declared.reading.Reading.{Reading};
ghost use Rattle.pads_image.specs.Answers.{HaltsWith};
ghost use Rattle.pads_image.specs.Code.{IsCodeOf};
ghost use Rattle.pads_machine.specs.Held.{Held, Placed, Roomy};
ghost use Rattle.pads_machine.specs.Known.{AreCounted, HasRead, IsSpare, Knows, outcome_with};
ghost use Rattle.pads_machine.specs.Ran.{Halting, labels_stand};
ghost use Rattle.pads_machine.specs.declared.learning.Tried.TheVariants as tried;
ghost use Rattle.pads_machine.specs.Shown.{shown};
ghost use Rattle.pads_steps.specs.Records.{subject_of};

use crate::constraint::holds;
use crate::known::{Call, Fact, Known, Outcome};
use crate::machine::INSIDE;
use crate::searches::Past;
use crate::state::State;
use crate::step::Next;
use pads_dispatch::copy_args;
use pads_idle::{Program, at, entry_at};
use pads_image::needs_inside;
use pads_value::{Class, Memory};
use std::alloc::Global;
use std::mem;

/// How many calls are tried to learn of one.
const TRIES: usize = 1_048_576;

/// How many steps a call is tried for at first, with nothing asked.
const FEW: u64 = 4_096;

/// After how many steps a call that is tried is given up.
const MOST: u64 = 4_294_967_296;

/// The largest of these numbers; 0 if there are none.
fn largest(numbers: &[u64]) -> u64
    ensures largest { (index : ℕ) → get_or numbers.now index 0 ≤ result }
{
    let mut most = 0;
    'numbers: for number in numbers {
        most = most.max(*number);
    }
    most
}

/// What came of a call that was tried.
#[derive(Drop)]
enum Tried {
    /// It was read to its end.
    Ends,
    /// This call is to be known first.
    Asks(Call),
}

impl State {
    /// Runs until it halts, or, if it may ask, until it is to be known what a call reads as. None where it doesn't
    /// come so far in so many steps.
    fn try_run(
        &mut self,
        alloc: Global,
        program: &Program,
        known: &Known,
        asking: bool,
        most: u64,
    ) -> Result<Option<Tried>, Memory>
        requires short { length program.now.code.now < 2 ^ 32 }
        requires labels { list_all labels_stand program.now.code.now ≡ true }
        requires placed { Placed (length program.now.record.bytes.now) self.old }
        requires halts { (steps : ℕ) × Halting program.now.code.now program.now.entries.now (subject_of program.now.record) self.old.room steps (shown self.old) }
        requires roomy { Roomy self.old.room self.old }
        requires held { Held self.old }
        requires code { (decls : List Decl) × IsCodeOf decls program.now.code.now program.now.entries.now }
        requires knows { Knows program.now.code.now program.now.entries.now (subject_of program.now.record) known.now }
        ensures ran { IfOk result (λ found. (r : Reading) → HaltsWith program.now.code.now program.now.entries.now (subject_of program.now.record) self.old.room (shown self.old) r → found ≡ Some tried.Ends → self.new.last ≡ r) }
        ensures roomy { Roomy self.old.room self.new }
    {
        let mut past = Past::new(alloc);
        'run: for step in 0..most {
            let Some(op) = at(program.code, self.address) else {
                return Ok(None);
            };
            match self.try_step(alloc, program, known, asking, op)? {
                Next::Goes => {}
                Next::Searches => self.leap(alloc, program, &mut past),
                Next::Halts => return Ok(Some(Tried::Ends)),
                Next::Asks => {
                    let asked = self.asked(alloc, program, known)?;
                    return Ok(asked.map(Tried::Asks));
                }
            }
        }
        Ok(None)
    }

    /// What was read last of a call, with its constraint, in short.
    fn outcome(&self, program: &Program, call: &Call) -> Outcome
        ensures outcome { result ≡ outcome_with program.now.code.now call.now.constraint self.now.last }
    {
        Outcome {
            clean: self.last.is_ok() && holds(&call.constraint, program.code, &self.last.value),
            failed: self.last.pd.class == Class::Fail,
            place: self.last.place,
        }
    }
}

/// Tries to read a call over other stacks, by what is known of others. None where there is no such call, or where
/// its reading doesn't come to an end in so many steps.
fn try_call(
    alloc: Global,
    program: &Program,
    spare: &mut State,
    known: &Known,
    call: &Call,
    asking: bool,
    most: u64,
) -> Result<Option<Tried>, Memory>
    requires short { length program.now.code.now < 2 ^ 32 }
    requires labels { list_all labels_stand program.now.code.now ≡ true }
    requires code { (decls : List Decl) × IsCodeOf decls program.now.code.now program.now.entries.now }
    requires knows { Knows program.now.code.now program.now.entries.now (subject_of program.now.record) known.now }
    requires spare { IsSpare program.now.code.now program.now.entries.now spare.old }
    ensures read { IfOk result (λ found. found ≡ Some tried.Ends → HasRead program.now.code.now program.now.entries.now (subject_of program.now.record) call.now spare.new) }
    ensures spare { OnOk result (IsSpare program.now.code.now program.now.entries.now spare.new) }
{
    if call.depth > INSIDE {
        return Ok(None);
    }
    if call.place > program.record.bytes.len() as u64 {
        return Ok(None);
    }
    let Some(entry) = entry_at(program.entries, call.number) else {
        return Ok(None);
    };
    let args = copy_args(alloc, call.args.as_slice())?;
    let origin = program.record.origin;
    spare.start_call(alloc, origin, entry, args, call.depth, call.place);
    spare.try_run(alloc, program, known, asking, most)
}

/// Learns what a call reads as over other stacks, and what calls in it do that are asked for.
fn learn_over(
    alloc: Global,
    program: &Program,
    spare: &mut State,
    known: &mut Known,
    call: Call,
) -> Result<(), Memory>
    requires short { length program.now.code.now < 2 ^ 32 }
    requires labels { list_all labels_stand program.now.code.now ≡ true }
    requires code { (decls : List Decl) × IsCodeOf decls program.now.code.now program.now.entries.now }
    requires knows { Knows program.now.code.now program.now.entries.now (subject_of program.now.record) known.old }
    requires spare { IsSpare program.now.code.now program.now.entries.now spare.old }
    ensures knows { OnOk result (Knows program.now.code.now program.now.entries.now (subject_of program.now.record) known.new) }
    ensures spare { OnOk result (IsSpare program.now.code.now program.now.entries.now spare.new) }
{
    let mut wanted = Vec::new(alloc);
    wanted.push(call)?;
    'tries: for attempt in 0..TRIES {
        let Some(call) = wanted.pop() else {
            return Ok(());
        };
        let Some(tried) = try_call(alloc, program, spare, known, &call, true, MOST)? else {
            return Ok(());
        };
        match tried {
            Tried::Asks(inner) => {
                wanted.push(call)?;
                wanted.push(inner)?;
            }
            Tried::Ends => {
                let outcome = spare.outcome(program, &call);
                known.keep(alloc, Fact { call, outcome });
            }
        }
    }
    Ok(())
}

/// Other stacks, on which any call has room.
fn spare_for(alloc: Global, program: &Program) -> Result<State, Memory>
    requires counted { AreCounted program.now.code.now program.now.entries.now }
    ensures spare { IfOk result (λ spare. IsSpare program.now.code.now program.now.entries.now spare) }
{
    let table = needs_inside(alloc, program.code, program.entries)?;
    let room = largest(table.as_slice());
    State::new(alloc, program.code, room as usize)
}

/// Learns what a call reads as over other stacks, and tells for how many steps nothing is to be asked then: for as
/// long as it was tried with nothing asked, if that was enough.
fn learn_soon(
    alloc: Global,
    program: &Program,
    spare: &mut State,
    known: &mut Known,
    call: Call,
) -> Result<u64, Memory>
    requires short { length program.now.code.now < 2 ^ 32 }
    requires labels { list_all labels_stand program.now.code.now ≡ true }
    requires code { (decls : List Decl) × IsCodeOf decls program.now.code.now program.now.entries.now }
    requires knows { Knows program.now.code.now program.now.entries.now (subject_of program.now.record) known.old }
    requires spare { IsSpare program.now.code.now program.now.entries.now spare.old }
    ensures knows { OnOk result (Knows program.now.code.now program.now.entries.now (subject_of program.now.record) known.new) }
    ensures spare { OnOk result (IsSpare program.now.code.now program.now.entries.now spare.new) }
    ensures quiet { IfOk result (λ quiet. 0 < quiet) }
{
    if let Some(tried) = try_call(alloc, program, spare, known, &call, false, FEW)? {
        if let Tried::Ends = tried {
            let outcome = spare.outcome(program, &call);
            known.keep(alloc, Fact { call, outcome });
            return Ok(FEW);
        }
    }
    learn_over(alloc, program, spare, known, call)?;
    Ok(1)
}

/// Learns what a call reads as, if there is one, and what calls in it do that are asked for, and tells for how many
/// steps nothing is to be asked then. The other stacks for that are made where there are none yet.
pub(crate) fn learn(
    alloc: Global,
    program: &Program,
    spare: &mut Option<State>,
    known: &mut Known,
    call: Option<Call>,
) -> Result<u64, Memory>
    requires short { length program.now.code.now < 2 ^ 32 }
    requires counted { AreCounted program.now.code.now program.now.entries.now }
    requires labels { list_all labels_stand program.now.code.now ≡ true }
    requires code { (decls : List Decl) × IsCodeOf decls program.now.code.now program.now.entries.now }
    requires knows { Knows program.now.code.now program.now.entries.now (subject_of program.now.record) known.old }
    requires spare { ForSome spare.old (IsSpare program.now.code.now program.now.entries.now) }
    ensures knows { OnOk result (Knows program.now.code.now program.now.entries.now (subject_of program.now.record) known.new) }
    ensures spare { OnOk result (ForSome spare.new (IsSpare program.now.code.now program.now.entries.now)) }
    ensures quiet { IfOk result (λ quiet. 0 < quiet) }
{
    let Some(call) = call else {
        return Ok(1);
    };
    let mut state = match mem::replace(spare, None) {
        Some(state) => state,
        None => spare_for(alloc, program)?,
    };
    let quiet = learn_soon(alloc, program, &mut state, known, call)?;
    *spare = Some(state);
    Ok(quiet)
}
