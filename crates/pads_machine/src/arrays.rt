//! Arrays: their size, their endings, their turns.
ghost use Rattle.std.specs.Prelude.{◌≡◌, ◌≤◌, ◌<◌, ◌^◌, List, ◌∷◌, drop, length, reverse, slice_get, Some, IfOk, OnOk};
ghost use Rattle.std.specs.Option.{option_copied};
ghost use Rattle.pads_calc.specs.Arrays.{is_last as is_last_of_values, size_at};
ghost use Rattle.pads_image.specs.States.{floor_of, seen};
ghost use Rattle.pads_image.specs.Steps.{Goes, edge_step, elem_step, full_step, sep_step, shut_step, size_step, stop_step, turn_step};
ghost use Rattle.pads_machine.specs.Held.{Held, Roomy};
ghost use Rattle.pads_machine.specs.Ran.{GoesWithin, StaysPlaced, undone_by};
ghost use Rattle.pads_machine.specs.Shown.{has_own, latest_values, shown};

use crate::node::{Mark, Node};
use crate::state::State;
use pads_expr::Expr;
use pads_steps::{Record, Run, is_full, is_last_of, short_of, size_in};
use pads_value::{Cause, Class, Items, Memory};
use std::alloc::Global;
use std::mem;

/// A list whose room is given back where three quarters of it are free.
fn fitting<T: Drop>(list: Vec<T>) -> Items<T>
    ensures same { result ≡ list.items }
{
    let mut list = list;
    if list.len() <= list.capacity() / 4 {
        list.shrink_to_fit();
    }
    Items::from_vec(list)
}

impl State {
    /// The struct or the array that was begun last.
    pub(crate) fn node(&self) -> &Node
        requires { 0 < length self.now.nodes.items }
        ensures node { slice_get (reverse self.now.nodes.items) 0 ≡ Some result.now }
    {
        let [.., node] = self.nodes.as_slice() else {
            unreachable!()
        };
        node
    }

    /// Begins an array of the size that an expression is worth, or of any.
    pub(crate) fn array(&mut self, alloc: Global, origin: u64, size: Option<&Expr>, otherwise: u32)
        requires origin { origin ≤ 2 ^ 62 }
        requires address { self.old.address < 2 ^ 32 }
        requires place { self.old.last.place ≤ 2 ^ 62 }
        requires within { GoesWithin self.old.room (size_step origin (size_at (option_copied size) (seen (shown self.old))) otherwise (shown self.old)) }
        requires roomy { Roomy self.old.room self.old }
        requires held { Held self.old }
        ensures array { size_step origin (size_at (option_copied size.entry) (seen (shown self.old))) otherwise (shown self.old) ≡ Goes (shown self.new) }
        ensures placed { StaysPlaced self.old self.new }
        ensures held { Held self.new }
        ensures roomy { Roomy self.old.room self.new }
    {
        match size_in(size, self.seen()) {
            None => self.fail_to(alloc, origin, Cause::ArrayBound, otherwise),
            Some(size) => self.open(alloc, size),
        }
    }

    /// Says what is wrong with the latest array itself.
    fn own(&mut self, own: Option<Cause>)
        requires some { 0 < length self.old.nodes.items }
        requires roomy { Roomy self.old.room self.old }
        requires held { Held self.old }
        ensures own { shown self.new ≡ record (shown self.old) { nodes = has_own own (shown self.old).nodes } }
        ensures marks { self.new.marks ≡ self.old.marks }
        ensures held { Held self.new }
        ensures roomy { Roomy self.old.room self.new }
    {
        let Some(mut node) = self.nodes.pop() else {
            unreachable!()
        };
        node.own = own;
        self.nodes.push_reserved(node);
    }

    /// Whether the latest element is the last one, by a condition over the elements so far.
    fn is_last(&mut self, alloc: Global, last: Option<&Expr>, elements_name: u16) -> bool
        requires some { 0 < length self.old.nodes.items }
        requires own { length self.old.bindings.items ≤ floor_of (shown self.old).nodes }
        requires roomy { Roomy self.old.room self.old }
        requires held { Held self.old }
        ensures last { result ≡ is_last_of_values (option_copied last.entry) elements_name (latest_values (shown self.old).nodes) (seen (shown self.old)) }
        ensures shown { shown self.new ≡ shown self.old }
        ensures marks { self.new.marks ≡ self.old.marks }
        ensures held { Held self.new }
        ensures roomy { Roomy self.old.room self.new }
    {
        let Some(condition) = last else {
            return false;
        };
        let Some(mut node) = self.nodes.pop() else {
            unreachable!()
        };
        let elements = mem::replace(&mut node.values, Vec::new(alloc));
        let elements = Items::from_vec(elements);
        let (truth, elements) = is_last_of(condition, elements_name, elements, self.seen());
        node.values = elements.into_vec();
        self.nodes.push_reserved(node);
        truth
    }

    /// Goes on at the address where the latest array has all of its elements.
    pub(crate) fn full(&mut self, alloc: Global, last: Option<&Expr>, elements_name: u16, to: u32)
        requires address { self.old.address < 2 ^ 32 }
        requires within { GoesWithin self.old.room (full_step (option_copied last) elements_name to (shown self.old) (shown self.old).nodes) }
        requires roomy { Roomy self.old.room self.old }
        requires held { Held self.old }
        ensures full { full_step (option_copied last.entry) elements_name to (shown self.old) (shown self.old).nodes ≡ Goes (shown self.new) }
        ensures placed { StaysPlaced self.old self.new }
        ensures held { Held self.new }
        ensures roomy { Roomy self.old.room self.new }
    {
        let node = self.node();
        if is_full(node.size, node.values.len() as u64) {
            self.address = to as usize;
            return;
        }
        if self.is_last(alloc, last, elements_name) {
            self.address = to as usize;
        } else {
            self.address += 1;
        }
    }

    /// Ends the latest array where its terminator stands, which isn't consumed.
    pub(crate) fn stop(&mut self, to: u32)
        requires address { self.old.address < 2 ^ 32 }
        requires within { GoesWithin self.old.room (stop_step to (shown self.old) (shown self.old).nodes (shown self.old).marks) }
        requires roomy { Roomy self.old.room self.old }
        requires held { Held self.old }
        ensures stop { stop_step to (shown self.old) (shown self.old).nodes (shown self.old).marks ≡ Goes (shown self.new) }
        ensures placed { StaysPlaced self.old self.new }
        ensures held { Held self.new }
        ensures roomy { Roomy self.old.room self.new }
    {
        let mark = self.mark();
        let is_ok = self.last.is_ok();
        self.marks.pop();
        self.last.place = mark.place;
        if is_ok {
            let own = short_of(self.node().size);
            self.own(own);
            self.address = to as usize;
        } else {
            self.address += 1;
        }
    }

    /// Ends the latest array at the end of the record.
    pub(crate) fn edge(&mut self, from: &Record, to: u32)
        requires address { self.old.address < 2 ^ 32 }
        requires within { GoesWithin self.old.room (edge_step from.now.bytes.now to (shown self.old) (shown self.old).nodes) }
        requires roomy { Roomy self.old.room self.old }
        requires held { Held self.old }
        ensures edge { edge_step from.now.bytes.now to (shown self.old) (shown self.old).nodes ≡ Goes (shown self.new) }
        ensures placed { StaysPlaced self.old self.new }
        ensures held { Held self.new }
        ensures roomy { Roomy self.old.room self.new }
    {
        if from.is_end(self.last.place) {
            let own = short_of(self.node().size);
            self.own(own);
            self.address = to as usize;
        } else {
            self.address += 1;
        }
    }

    /// Begins a turn. The first element has no separator before it.
    pub(crate) fn turn(&mut self, to: u32)
        requires address { self.old.address < 2 ^ 32 }
        requires within { GoesWithin self.old.room (turn_step to (shown self.old) (shown self.old).nodes) }
        requires roomy { Roomy self.old.room self.old }
        requires held { Held self.old }
        ensures turn { turn_step to (shown self.old) (shown self.old).nodes ≡ Goes (shown self.new) }
        ensures placed { StaysPlaced self.old self.new }
        ensures held { Held self.new }
        ensures roomy { Roomy self.old.room self.new }
    {
        let is_first = self.node().values.len() == 0;
        self.marks.push_reserved(Mark {
            place: self.last.place,
            cause: None,
        });
        if is_first {
            self.address = to as usize;
        } else {
            self.address += 1;
        }
    }

    /// Ends the latest array, with what is wrong with it, at the place where its last turn began.
    pub(crate) fn undo(&mut self, own: Cause, place: u64, to: u32)
        requires some { 0 < length self.old.nodes.items }
        requires roomy { Roomy self.old.room self.old }
        requires held { Held self.old }
        ensures undo { shown self.new ≡ record (shown self.old) { at_ = to; last = record self.old.last { place = place }; nodes = has_own (Some own) (shown self.old).nodes } }
        ensures marks { self.new.marks ≡ self.old.marks }
        ensures place { self.new.last.place ≡ place }
        ensures held { Held self.new }
        ensures roomy { Roomy self.old.room self.new }
    {
        self.own(Some(own));
        self.last.place = place;
        self.address = to as usize;
    }

    /// Ends the latest array where the separator isn't there.
    pub(crate) fn separate(&mut self, to: u32)
        requires address { self.old.address < 2 ^ 32 }
        requires within { GoesWithin self.old.room (sep_step to (shown self.old) (shown self.old).nodes (shown self.old).marks) }
        requires roomy { Roomy self.old.room self.old }
        requires held { Held self.old }
        ensures separate { sep_step to (shown self.old) (shown self.old).nodes (shown self.old).marks ≡ Goes (shown self.new) }
        ensures placed { StaysPlaced self.old self.new }
        ensures held { Held self.new }
        ensures roomy { Roomy self.old.room self.new }
    {
        if self.last.is_ok() {
            self.address += 1;
            return;
        }
        let mark = self.mark();
        self.marks.pop();
        self.undo(Cause::ArraySep, mark.place, to);
    }

    /// Why a turn is undone that began at a place, if it is: its element fails over no byte, or it takes
    /// none and isn't the first.
    fn undone(&self, origin: u64, is_first: bool, place: u64) -> Option<Cause>
        ensures undone { result ≡ undone_by origin self.now.last is_first place }
    {
        if self.last.pd.class == Class::Fail && self.last.place == self.began(origin) {
            return Some(Cause::ArrayElem);
        }
        if !is_first && self.last.place == place {
            return Some(Cause::ArrayStall);
        }
        None
    }

    /// Ends a turn: its element is kept, or the array ends and the turn is undone.
    pub(crate) fn element(
        &mut self,
        alloc: Global,
        origin: u64,
        to: u32,
        again: u32,
    ) -> Result<(), Memory>
        requires origin { origin ≤ 2 ^ 62 }
        requires address { self.old.address < 2 ^ 32 }
        requires place { self.old.last.place ≤ 2 ^ 62 }
        requires within { GoesWithin self.old.room (elem_step origin to again (shown self.old) (shown self.old).nodes (shown self.old).marks) }
        requires roomy { Roomy self.old.room self.old }
        requires held { Held self.old }
        ensures element { OnOk result (elem_step origin to again (shown self.old) (shown self.old).nodes (shown self.old).marks ≡ Goes (shown self.new)) }
        ensures placed { OnOk result (StaysPlaced self.old self.new) }
        ensures held { OnOk result (Held self.new) }
        ensures roomy { Roomy self.old.room self.new }
    {
        let mark = self.mark();
        let is_first = self.node().values.len() == 0;
        self.marks.pop();
        if let Some(cause) = self.undone(origin, is_first, mark.place) {
            self.undo(cause, mark.place, to);
            return Ok(());
        }
        self.part(alloc, origin, None)?;
        self.address = again as usize;
        Ok(())
    }

    /// Makes the latest array of its elements.
    pub(crate) fn shut(&mut self, origin: u64)
        requires origin { origin ≤ 2 ^ 62 }
        requires address { self.old.address < 2 ^ 32 }
        requires place { self.old.last.place ≤ 2 ^ 62 }
        requires within { GoesWithin self.old.room (shut_step origin (shown self.old) (shown self.old).nodes) }
        requires roomy { Roomy self.old.room self.old }
        requires held { Held self.old }
        ensures shut { shut_step origin (shown self.old) (shown self.old).nodes ≡ Goes (shown self.new) }
        ensures placed { StaysPlaced self.old self.new }
        ensures held { Held self.new }
        ensures roomy { Roomy self.old.room self.new }
    {
        let Some(node) = self.nodes.pop() else {
            unreachable!()
        };
        let Node {
            opened: _,
            begin,
            base: _,
            size: _,
            values,
            pds,
            own,
        } = node;
        let elements = Run {
            values: fitting(values),
            pds: fitting(pds),
            place: self.last.place,
        };
        self.last = elements.into_array(origin, own, begin);
        self.address += 1;
    }
}
