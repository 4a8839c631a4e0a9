//! Where the machine stands: an address, what was read last, and its stacks.
ghost use Rattle.std.specs.Prelude.{◌≡◌, ℕ, ◌+◌, ◌-◌, ◌<◌, ◌≤◌, ◌^◌, [], length, min, reverse, vec_len, IfOk, OnOk};
ghost use Rattle.pads_calc.specs.Arguments.{bound_to};
ghost use Rattle.pads_calc.specs.Leaves.{unit_of};
ghost use Rattle.pads_image.specs.Blocks.{bindings_of};
ghost use Rattle.pads_image.specs.States.{base_of, entries, floor_of, seen as seen_of};
ghost use Rattle.pads_image.specs.Steps.{Goes, close_step, entered, part_step, reads, returned};
ghost use Rattle.pads_machine.specs.Held.{Held, Placed, Roomy};
ghost use Rattle.pads_machine.specs.Ran.{GoesWithin, opens};
ghost use Rattle.pads_machine.specs.Shown.{below, caller_shown, shown};

use crate::bindings::{bind, take_back};
use crate::literals::Literals;
use crate::node::{Caller, Mark, Node};
use pads_calc::Reading;
use pads_dispatch::Args;
use pads_expr::Binding;
use pads_image::{Entry, Op};
use pads_value::{Items, Memory, Val};
use std::alloc::Global;
use std::mem;

/// The machine between two instructions.
#[derive(Drop)]
pub(crate) struct State {
    /// The address of the next instruction.
    pub(crate) address: usize,
    /// What was read last.
    pub(crate) last: Reading,
    /// How deep calls may still be nested.
    pub(crate) depth: u8,
    /// How many entries each stack takes.
    pub(crate) room: usize,
    pub(crate) bindings: Vec<Binding>,
    /// For each binding the part of the latest struct at which its value is at home, if it has one.
    pub(crate) homes: Vec<Option<usize>>,
    pub(crate) nodes: Vec<Node>,
    pub(crate) marks: Vec<Mark>,
    pub(crate) callers: Vec<Caller>,
    /// For each address how many parts the struct had that began there, as far as one was closed: room for
    /// so many is made at once. It changes nothing that is read.
    pub(crate) parts: Vec<u16>,
    /// Arguments that base types have in the code, so that they aren't made anew at each reading.
    pub(crate) literals: Literals,
}

/// An empty list, with room for so many items where there is memory for that.
fn with_room<T: Drop>(alloc: Global, room: usize) -> Vec<T>
    ensures empty { result.items ≡ [] }
{
    match Vec::with_capacity(alloc, room) {
        Ok(list) => list,
        Err(_) => Vec::new(alloc),
    }
}

impl State {
    /// Nothing was read yet, by this code. Each stack takes so many entries.
    pub(crate) fn new(alloc: Global, code: &[Op], room: usize) -> Result<State, Memory>
        ensures roomy { IfOk result (λ m. Roomy room m) }
    {
        Ok(State {
            address: 0,
            last: Reading::leaf(alloc, 0, Val::Unit, 0, 0),
            depth: 0,
            room,
            bindings: Vec::with_capacity(alloc, room)?,
            homes: Vec::with_capacity(alloc, room)?,
            nodes: Vec::with_capacity(alloc, room)?,
            marks: Vec::with_capacity(alloc, room)?,
            callers: Vec::with_capacity(alloc, room)?,
            parts: Vec::from_elem(alloc, 0, code.len())?,
            literals: Literals::of(alloc, code)?,
        })
    }

    /// Stands at an address, at a place of a record, where calls may be nested so deep.
    pub(crate) fn start(
        &mut self,
        alloc: Global,
        origin: u64,
        address: usize,
        depth: u8,
        place: u64,
    )
        requires origin { origin ≤ 2 ^ 62 }
        requires place { place ≤ 2 ^ 62 }
        requires roomy { Roomy self.old.room self.old }
        ensures placed { (most : ℕ) → place ≤ most → Placed most self.new }
        ensures empty { (self.new.bindings.items ≡ []) × (self.new.homes.items ≡ []) × (self.new.nodes.items ≡ []) }
        ensures start { shown self.new ≡ record { at_ = address; last = unit_of origin place; depth = depth; bindings = []; nodes = []; marks = []; callers = [] } }
        ensures held { Held self.new }
        ensures roomy { Roomy self.old.room self.new }
    {
        self.address = address;
        self.last = Reading::leaf(alloc, origin, Val::Unit, place, place);
        self.depth = depth;
        self.bindings.clear();
        self.homes.clear();
        self.nodes.clear();
        self.marks.clear();
        self.callers.clear();
    }

    /// Stands where a declaration with arguments begins, at a place of a record, where calls may be nested so deep in it.
    pub(crate) fn start_call(
        &mut self,
        alloc: Global,
        origin: u64,
        entry: &Entry,
        args: Args,
        depth: u8,
        place: u64,
    )
        requires origin { origin ≤ 2 ^ 62 }
        requires place { place ≤ 2 ^ 62 }
        requires room { min (length entry.now.params) (length args) ≤ self.old.room }
        requires roomy { Roomy self.old.room self.old }
        ensures placed { (most : ℕ) → place ≤ most → Placed most self.new }
        ensures start { shown self.new ≡ record { at_ = entry.now.first; last = unit_of origin place; depth = depth; bindings = bound_to entry.now.params args []; nodes = []; marks = []; callers = [] } }
        ensures held { Held self.new }
        ensures roomy { Roomy self.old.room self.new }
    {
        self.start(alloc, origin, entry.first as usize, depth, place);
        bind(
            &mut self.bindings,
            &mut self.homes,
            entry.params.as_slice(),
            args,
        );
    }

    /// How many bindings are below those of the latest call.
    pub(crate) fn base(&self) -> usize
        ensures base { result ≡ base_of (shown self.now).callers }
    {
        match self.callers.as_slice() {
            [] => 0,
            [.., caller] => caller.base,
        }
    }

    /// The bindings that an expression sees: those above the latest call's base.
    pub(crate) fn seen(&self) -> &[Binding]
        ensures seen { reverse result.now ≡ seen_of (shown self.now) }
    {
        let base = self.base();
        let bindings = self.bindings.as_slice();
        if base < bindings.len() {
            &bindings[base..]
        } else {
            &[]
        }
    }

    /// Goes on at the next address with what was read.
    pub(crate) fn read(&mut self, reading: Reading)
        requires address { self.old.address < 2 ^ 32 }
        requires roomy { Roomy self.old.room self.old }
        requires held { Held self.old }
        ensures read { reads reading (shown self.old) ≡ Goes (shown self.new) }
        ensures last { self.new.last ≡ reading }
        ensures marks { self.new.marks ≡ self.old.marks }
        ensures held { Held self.new }
        ensures roomy { Roomy self.old.room self.new }
    {
        self.last = reading;
        self.address += 1;
    }

    /// Takes what was read last, and leaves nothing, read at the same place.
    pub(crate) fn take_last(&mut self, alloc: Global, origin: u64) -> Reading
        requires origin { origin ≤ 2 ^ 62 }
        requires place { self.old.last.place ≤ 2 ^ 62 }
        ensures last { result ≡ self.old.last }
        ensures left { self.new ≡ record self.old { last = unit_of origin self.old.last.place } }
    {
        let place = self.last.place;
        mem::replace(
            &mut self.last,
            Reading::leaf(alloc, origin, Val::Unit, place, place),
        )
    }

    /// How many parts the struct had that was begun at an address, as far as one was closed.
    fn parts_at(&self, address: usize) -> usize {
        match self.parts.get(address) {
            Some(parts) => usize::from(*parts),
            None => 0,
        }
    }

    /// Keeps how many parts a struct had that was begun at an address.
    fn learn(&mut self, address: usize, parts: usize)
        ensures same { self.new ≡ record self.old { parts = self.new.parts } }
    {
        if let Some(known) = self.parts.get_mut(address) {
            *known = parts.min(65_535) as u16;
        }
    }

    /// Begins a struct, or an array that is to have so many elements.
    pub(crate) fn open(&mut self, alloc: Global, size: Option<u128>)
        requires address { self.old.address < 2 ^ 32 }
        requires place { self.old.last.place ≤ 2 ^ 62 }
        requires within { GoesWithin self.old.room (opens size (shown self.old)) }
        requires roomy { Roomy self.old.room self.old }
        requires held { Held self.old }
        ensures open { opens size (shown self.old) ≡ Goes (shown self.new) }
        ensures place { self.new.last.place ≡ self.old.last.place }
        ensures marks { self.new.marks ≡ self.old.marks }
        ensures held { Held self.new }
        ensures roomy { Roomy self.old.room self.new }
    {
        let room = self.parts_at(self.address);
        self.nodes.push_reserved(Node {
            opened: self.address,
            begin: self.last.place,
            base: self.bindings.len(),
            size,
            values: with_room(alloc, room),
            pds: with_room(alloc, room),
            own: None,
        });
        self.address += 1;
    }

    /// Keeps what was read as the next part of the latest struct, and binds a named part's value.
    pub(crate) fn part(
        &mut self,
        alloc: Global,
        origin: u64,
        name: Option<u16>,
    ) -> Result<(), Memory>
        requires origin { origin ≤ 2 ^ 62 }
        requires place { self.old.last.place ≤ 2 ^ 62 }
        requires address { self.old.address < 2 ^ 32 }
        requires within { GoesWithin self.old.room (part_step origin name (shown self.old) (shown self.old).nodes) }
        requires roomy { Roomy self.old.room self.old }
        requires held { Held self.old }
        ensures part { OnOk result (part_step origin name (shown self.old) (shown self.old).nodes ≡ Goes (shown self.new)) }
        ensures place { OnOk result (self.new.last.place ≡ self.old.last.place) }
        ensures marks { OnOk result (self.new.marks ≡ self.old.marks) }
        ensures held { OnOk result (Held self.new) }
        ensures roomy { Roomy self.old.room self.new }
    {
        self.keep(alloc, origin, name)?;
        self.address += 1;
        Ok(())
    }

    /// Keeps what was read as the next part of the latest struct, binds a named part's value, and leaves
    /// nothing read at the same place.
    fn keep(&mut self, alloc: Global, origin: u64, name: Option<u16>) -> Result<(), Memory>
        requires origin { origin ≤ 2 ^ 62 }
        requires place { self.old.last.place ≤ 2 ^ 62 }
        requires some { 0 < length self.old.nodes.items }
        requires room { bindings_of name + length self.old.bindings.items ≤ self.old.room }
        requires roomy { Roomy self.old.room self.old }
        requires held { Held self.old }
        ensures keep { OnOk result ((address : ℕ) → part_step origin name (record (shown self.old) { at_ = address }) (shown self.old).nodes ≡ Goes (record (shown self.new) { at_ = address + 1 })) }
        ensures address { OnOk result (self.new.address ≡ self.old.address) }
        ensures last { OnOk result (self.new.last ≡ unit_of origin self.old.last.place) }
        ensures marks { OnOk result (self.new.marks ≡ self.old.marks) }
        ensures held { OnOk result (Held self.new) }
        ensures roomy { Roomy self.old.room self.new }
    {
        let latest = self.nodes.len() - 1;
        self.nodes[latest].keep(
            alloc,
            origin,
            name,
            &mut self.last,
            &mut self.bindings,
            &mut self.homes,
        )?;
        Ok(())
    }

    /// Keeps what the instruction at the address reads, and goes on behind the next one, which would keep it
    /// as a part.
    pub(crate) fn put(
        &mut self,
        alloc: Global,
        origin: u64,
        name: Option<u16>,
        reading: Reading,
    ) -> Result<(), Memory>
        requires origin { origin ≤ 2 ^ 62 }
        requires place { reading.place ≤ 2 ^ 62 }
        requires address { self.old.address < 2 ^ 32 }
        requires some { 0 < length self.old.nodes.items }
        requires room { bindings_of name + length self.old.bindings.items ≤ self.old.room }
        requires roomy { Roomy self.old.room self.old }
        requires held { Held self.old }
        ensures put { OnOk result (part_step origin name (record (shown self.old) { at_ = self.old.address + 1; last = reading }) (shown self.old).nodes ≡ Goes (shown self.new)) }
        ensures place { OnOk result (self.new.last.place ≡ reading.place) }
        ensures marks { OnOk result (self.new.marks ≡ self.old.marks) }
        ensures held { OnOk result (Held self.new) }
        ensures roomy { Roomy self.old.room self.new }
    {
        self.last = reading;
        self.keep(alloc, origin, name)?;
        self.address += 2;
        Ok(())
    }

    /// Ends the latest struct, which has so many named parts.
    pub(crate) fn close(&mut self, origin: u64, count: u32)
        requires origin { origin ≤ 2 ^ 62 }
        requires place { self.old.last.place ≤ 2 ^ 62 }
        requires address { self.old.address < 2 ^ 32 }
        requires within { GoesWithin self.old.room (close_step origin count (shown self.old) (shown self.old).nodes) }
        requires roomy { Roomy self.old.room self.old }
        requires held { Held self.old }
        ensures close { close_step origin count (shown self.old) (shown self.old).nodes ≡ Goes (shown self.new) }
        ensures place { self.new.last.place ≡ self.old.last.place }
        ensures marks { self.new.marks ≡ self.old.marks }
        ensures held { Held self.new }
        ensures roomy { Roomy self.old.room self.new }
    {
        let Some(node) = self.nodes.pop() else {
            unreachable!()
        };
        let Node {
            opened,
            begin,
            base,
            size: _,
            mut values,
            pds,
            own: _,
        } = node;
        take_back(&mut self.bindings, &mut self.homes, base, &mut values);
        self.learn(opened, values.len());
        let value = Val::Tuple(Items::from_vec(values));
        let place = self.last.place;
        self.last = Reading::node(origin, None, value, begin, place, Items::from_vec(pds));
        self.address += 1;
    }

    /// Begins a call of a declaration.
    pub(crate) fn enter(&mut self, number: u16, entry: &Entry, args: Args)
        requires address { self.old.address < 2 ^ 32 }
        requires depth { 0 < self.old.depth }
        requires within { entries (entered entry.now args (self.old.depth - 1) (shown self.old)) ≤ self.old.room }
        requires roomy { Roomy self.old.room self.old }
        requires held { Held self.old }
        ensures enter { shown self.new ≡ entered entry.now args (self.old.depth - 1) (shown self.old) }
        ensures last { self.new.last ≡ self.old.last }
        ensures marks { self.new.marks ≡ self.old.marks }
        ensures held { Held self.new }
        ensures roomy { Roomy self.old.room self.new }
    {
        let caller = Caller {
            back: self.address + 1,
            base: self.bindings.len(),
            number,
            place: self.last.place,
        };
        bind(
            &mut self.bindings,
            &mut self.homes,
            entry.params.as_slice(),
            args,
        );
        self.callers.push_reserved(caller);
        self.depth -= 1;
        self.address = entry.first as usize;
    }

    /// Takes the bindings above the first so many back.
    fn cut(&mut self, base: usize)
        requires base { floor_of (shown self.old).nodes ≤ base }
        requires roomy { Roomy self.old.room self.old }
        requires held { Held self.old }
        ensures cut { shown self.new ≡ record (shown self.old) { bindings = below base (shown self.old).bindings } }
        ensures depth { self.new.depth ≡ self.old.depth }
        ensures last { self.new.last ≡ self.old.last }
        ensures marks { self.new.marks ≡ self.old.marks }
        ensures callers { self.new.callers ≡ self.old.callers }
        ensures held { Held self.new }
        ensures roomy { Roomy self.old.room self.new }
    {
        if self.bindings.len() <= base {
            return;
        }
        match self.nodes.pop() {
            None => {
                self.bindings.truncate(base);
                self.homes.truncate(base);
            }
            Some(mut node) => {
                take_back(&mut self.bindings, &mut self.homes, base, &mut node.values);
                self.nodes.push_reserved(node);
            }
        }
    }

    /// Ends a call: its bindings go, and it goes on behind the instruction that made it.
    pub(crate) fn leave(&mut self, caller: Caller)
        requires depth { self.old.depth + length self.old.callers.items < 255 }
        requires base { floor_of (shown self.old).nodes ≤ caller.base }
        requires roomy { Roomy self.old.room self.old }
        requires held { Held self.old }
        ensures leave { shown self.new ≡ returned (caller_shown caller) (shown self.old).callers (shown self.old) }
        ensures last { self.new.last ≡ self.old.last }
        ensures marks { self.new.marks ≡ self.old.marks }
        ensures held { Held self.new }
        ensures roomy { Roomy self.old.room self.new }
    {
        self.cut(caller.base);
        self.depth += 1;
        self.address = caller.back;
    }
}
