//! Unions: places to come back to, branches and cases.
ghost use Rattle.std.specs.Prelude.{◌≡◌, ◌≤◌, ◌<◌, ◌^◌, ◌∷◌, [], length, map, reverse, slice_get, Some, IfOk, OnOk};
ghost use Rattle.pads_calc.specs.Arguments.{argument};
ghost use Rattle.pads_calc.specs.Choices.{branch_of, chosen};
ghost use Rattle.pads_calc.specs.Readings.{fails};
ghost use Rattle.pads_image.specs.States.{seen};
ghost use Rattle.pads_image.specs.Steps.{Goes, began as began_at, marked, none_step, reads_to, switch_step, try_step};
ghost use Rattle.pads_machine.specs.Held.{Held, Placed, Roomy};
ghost use Rattle.pads_machine.specs.Ran.{GoesWithin, StaysPlaced};
ghost use Rattle.pads_machine.specs.Shown.{shown};

use crate::node::Mark;
use crate::state::State;
use pads_calc::Reading;
use pads_expr::Expr;
use pads_image::Target;
use pads_steps::{Record, chosen_in};
use pads_value::{Boxed, Cause, Items, Memory, Pd, Pds, Span, Val};
use std::alloc::Global;

impl State {
    /// The mark that was made last.
    pub(crate) fn mark(&self) -> Mark
        requires { 0 < length self.now.marks.items }
        ensures mark { slice_get (reverse self.now.marks.items) 0 ≡ Some result }
    {
        let [.., mark] = self.marks.as_slice() else {
            unreachable!()
        };
        *mark
    }

    /// Where what was read last began, counted from the record's first byte.
    pub(crate) fn began(&self, origin: u64) -> u64
        ensures began { result ≡ began_at origin self.now.last }
    {
        self.last.pd.span.begin.saturating_sub(origin)
    }

    /// Goes on at an address where no reading is to be had.
    pub(crate) fn fail_to(&mut self, alloc: Global, origin: u64, cause: Cause, to: u32)
        requires origin { origin ≤ 2 ^ 62 }
        requires place { self.old.last.place ≤ 2 ^ 62 }
        requires roomy { Roomy self.old.room self.old }
        requires held { Held self.old }
        ensures fail { reads_to to (fails origin cause self.old.last.place) (shown self.old) ≡ Goes (shown self.new) }
        ensures placed { StaysPlaced self.old self.new }
        ensures held { Held self.new }
        ensures roomy { Roomy self.old.room self.new }
    {
        let place = self.last.place;
        self.last = Reading::fails(alloc, origin, cause, place);
        self.address = to as usize;
    }

    /// Notes the place.
    pub(crate) fn note(&mut self)
        requires address { self.old.address < 2 ^ 32 }
        requires within { GoesWithin self.old.room (marked (shown self.old)) }
        requires roomy { Roomy self.old.room self.old }
        requires held { Held self.old }
        ensures note { marked (shown self.old) ≡ Goes (shown self.new) }
        ensures placed { StaysPlaced self.old self.new }
        ensures held { Held self.new }
        ensures roomy { Roomy self.old.room self.new }
    {
        self.marks.push_reserved(Mark {
            place: self.last.place,
            cause: None,
        });
        self.address += 1;
    }

    /// Ends a branch: a clean one is the union's, and else the next one is tried from the mark on.
    pub(crate) fn branch(
        &mut self,
        alloc: Global,
        from: &Record,
        number: u16,
        to: u32,
    ) -> Result<(), Memory>
        requires address { self.old.address < 2 ^ 32 }
        requires placed { Placed (length from.now.bytes.now) self.old }
        requires within { GoesWithin self.old.room (try_step from.now.origin number to (shown self.old) (shown self.old).marks) }
        requires roomy { Roomy self.old.room self.old }
        requires held { Held self.old }
        ensures branch { OnOk result (try_step from.now.origin number to (shown self.old) (shown self.old).marks ≡ Goes (shown self.new)) }
        ensures placed { OnOk result (Placed (length from.now.bytes.now) self.new) }
        ensures held { OnOk result (Held self.new) }
        ensures roomy { Roomy self.old.room self.new }
    {
        let mark = self.mark();
        if !self.last.is_ok() {
            self.last = Reading::leaf(alloc, from.origin, Val::Unit, mark.place, mark.place);
            self.address += 1;
            return Ok(());
        }
        self.marks.pop();
        let reading = self.take_last(alloc, from.origin);
        self.last = reading.branch(alloc, from.origin, number, mark.place)?;
        self.address = to as usize;
        Ok(())
    }

    /// Ends a union of which no branch was clean.
    pub(crate) fn no_branch(&mut self, alloc: Global, origin: u64)
        requires origin { origin ≤ 2 ^ 62 }
        requires address { self.old.address < 2 ^ 32 }
        requires place { self.old.last.place ≤ 2 ^ 62 }
        requires within { GoesWithin self.old.room (none_step origin (shown self.old) (shown self.old).marks) }
        requires roomy { Roomy self.old.room self.old }
        requires held { Held self.old }
        ensures none { none_step origin (shown self.old) (shown self.old).marks ≡ Goes (shown self.new) }
        ensures placed { StaysPlaced self.old self.new }
        ensures held { Held self.new }
        ensures roomy { Roomy self.old.room self.new }
    {
        let place = self.last.place;
        self.marks.pop();
        self.last = Reading::fails(alloc, origin, Cause::UnionMatch, place);
        self.address += 1;
    }

    /// Goes on at the case that an expression's value chooses.
    pub(crate) fn switch(
        &mut self,
        alloc: Global,
        origin: u64,
        e: &Expr,
        targets: &[Target],
        otherwise: u32,
    ) -> Result<(), Memory>
        requires origin { origin ≤ 2 ^ 62 }
        requires place { self.old.last.place ≤ 2 ^ 62 }
        requires roomy { Roomy self.old.room self.old }
        requires held { Held self.old }
        ensures switch { OnOk result (switch_step origin (chosen (argument e.now (seen (shown self.old))) (map (λ target. target.key) targets.now)) targets.now otherwise (shown self.old) ≡ Goes (shown self.new)) }
        ensures placed { OnOk result (StaysPlaced self.old self.new) }
        ensures held { OnOk result (Held self.new) }
        ensures roomy { Roomy self.old.room self.new }
    {
        let Some(number) = chosen_in(alloc, e, self.seen(), targets)? else {
            self.fail_to(alloc, origin, Cause::Switch, otherwise);
            return Ok(());
        };
        let Some(target) = targets.get(number) else {
            self.fail_to(alloc, origin, Cause::Switch, otherwise);
            return Ok(());
        };
        self.address = target.to as usize;
        Ok(())
    }

    /// Ends a case.
    pub(crate) fn case(
        &mut self,
        alloc: Global,
        origin: u64,
        number: u16,
        to: u32,
    ) -> Result<(), Memory>
        requires origin { origin ≤ 2 ^ 62 }
        requires place { self.old.last.place ≤ 2 ^ 62 }
        requires roomy { Roomy self.old.room self.old }
        requires held { Held self.old }
        ensures case { OnOk result (reads_to to (branch_of origin number self.old.last (began_at origin self.old.last)) (shown self.old) ≡ Goes (shown self.new)) }
        ensures placed { OnOk result (StaysPlaced self.old self.new) }
        ensures held { OnOk result (Held self.new) }
        ensures roomy { Roomy self.old.room self.new }
    {
        let reading = self.take_last(alloc, origin);
        self.last = branch_over(alloc, origin, number, reading)?;
        self.address = to as usize;
        Ok(())
    }
}

/// One descriptor, in a list with room for just it.
fn one(alloc: Global, pd: Pd) -> Result<Pds, Memory>
    ensures one { IfOk result (λ kids. kids ≡ pd ∷ []) }
{
    let mut kids = Vec::with_capacity(alloc, 1)?;
    kids.push_reserved(pd);
    Ok(Items::from_vec(kids))
}

/// A reading as a branch that begins where it begins.
fn branch_over(alloc: Global, origin: u64, number: u16, reading: Reading) -> Result<Reading, Memory>
    requires origin { origin ≤ 2 ^ 62 }
    requires place { reading.place ≤ 2 ^ 62 }
    ensures branch { IfOk result (λ r. r ≡ branch_of origin number reading (began_at origin reading)) }
{
    let Reading { value, pd, place } = reading;
    let span = Span {
        begin: pd.span.begin.max(origin),
        end: origin + place,
    };
    let value = Val::Branch(number, Boxed::new(alloc, value)?);
    let kids = one(alloc, pd)?;
    Ok(Reading {
        value,
        pd: Pd::of(None, span, kids),
        place,
    })
}
