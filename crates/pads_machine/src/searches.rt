//! What the searches of a record have found: where a literal is known to stand nowhere, a later search of it
//! doesn't look again.
ghost use Rattle.std.specs.Prelude.{◌≡◌, ℕ, ◌≤◌, ◌<◌, ◌==◌, ◌↔◌, List, [], Some, IsTrue, IfSome, length, position, slice_get, slice_set, vec_len};
ghost use Rattle.std.specs.Option.{ForSome};
ghost use Rattle.pads_image.specs.declared.op.Op.{Op as Instruction};
ghost use Rattle.pads_image.specs.declared.op.Op.TheVariants as instruction;
ghost use Rattle.pads_machine.specs.Searched.{Lacks, Remembered};
ghost use Rattle.pads_steps.specs.Searches.{StandsNowhere};

use pads_idle::Program;
use pads_steps::Record;
use std::alloc::Global;

/// How many stretches are remembered at most.
const MOST: usize = 64;

/// A stretch of a record in which the literal of an instruction is known to stand nowhere.
#[derive(Clone, Copy)]
pub(crate) struct Stretch {
    /// The address of the instruction.
    pub(crate) address: usize,
    /// The first of its places.
    pub(crate) from: u64,
    /// The place behind the last of them.
    pub(crate) to: u64,
}

impl Stretch {
    /// Whether it is of the instruction at an address, and a place lies in it or at its end.
    fn is_around(&self, address: usize, place: u64) -> bool
        ensures around { IsTrue result ↔ ((self.now.address ≡ address) × (self.now.from ≤ place) × (place ≤ self.now.to)) }
    {
        self.address == address && self.from <= place && place <= self.to
    }
}

/// The first place from one to another at which a literal stands, or else the other.
fn first_or_last(from: &Record, literal: &[u8], place: u64, last: u64) -> u64
    requires place { place ≤ last }
    requires last { last ≤ length from.now.bytes.now }
    ensures high { result ≤ last }
    ensures before { StandsNowhere from.now.bytes.now literal.now place result }
{
    match from.first_place(literal, place, last) {
        Some(at) => at,
        None => last,
    }
}

/// The searches of a record so far: of each instruction the stretch that was found last.
#[derive(Drop)]
pub(crate) struct Past {
    pub(crate) stretches: Vec<Stretch>,
}

impl Past {
    /// Nothing was searched for yet.
    pub(crate) fn new(alloc: Global) -> Past
        ensures empty { result.stretches.items ≡ [] }
        ensures remembered { (code : List Instruction) → (bytes : List ℕ) → Remembered code bytes result }
    {
        Past {
            stretches: Vec::new(alloc),
        }
    }

    /// Where the stretch of an instruction is remembered, if it is.
    fn found(&self, address: usize) -> Option<usize>
        ensures found { result ≡ position (λ stretch. stretch.address == address) self.now.stretches.items }
        ensures within { IfSome result (λ at. at < vec_len self.now.stretches) }
    {
        self.stretches
            .iter()
            .position(|stretch| stretch.address == address)
    }

    /// Where the stretch of an instruction is remembered, or is to be: in place of another one where there
    /// are many.
    fn index(&self, address: usize) -> usize
        ensures found { ForSome (position (λ stretch. stretch.address == address) self.now.stretches.items) (λ at. result ≡ at) }
        ensures few { vec_len self.now.stretches ≤ MOST → result < MOST }
    {
        match self.found(address) {
            Some(found) => found,
            None if self.stretches.len() < MOST => self.stretches.len(),
            None => address % MOST,
        }
    }

    /// The stretch at an index, if it is of the instruction at an address and around a place; else an empty one
    /// at the place.
    fn known(&self, index: usize, address: usize, place: u64) -> Stretch
        ensures address { result.address ≡ address }
        ensures from { result.from ≤ place }
        ensures to { place ≤ result.to }
        ensures used { ForSome (slice_get self.now.stretches.items index) (λ stretch. stretch.address ≡ address → stretch.from ≤ place → place ≤ stretch.to → result ≡ stretch) }
        ensures lacks { (code : List Instruction) → (bytes : List ℕ) → Remembered code bytes self.now → Lacks code bytes result }
    {
        match self.stretches.get(index) {
            Some(stretch) if stretch.is_around(address, place) => *stretch,
            _ => Stretch {
                address,
                from: place,
                to: place,
            },
        }
    }

    /// Remembers a stretch, or forgets it where there is no memory for it.
    fn keep(&mut self, index: usize, stretch: Stretch)
        ensures replaced { index < vec_len self.old.stretches → self.new.stretches.items ≡ slice_set self.old.stretches.items index stretch }
        ensures remembered { (code : List Instruction) → (bytes : List ℕ) → Remembered code bytes self.old → Lacks code bytes stretch → Remembered code bytes self.new }
        ensures few { index < MOST → vec_len self.old.stretches ≤ MOST → vec_len self.new.stretches ≤ MOST }
    {
        if index < self.stretches.len() {
            self.stretches[index] = stretch;
        } else {
            let _ = self.stretches.push(stretch);
        }
    }

    /// The first place from here on at which the literal of the instruction at an address stands, or else
    /// the last place of the search. What is known to have no such place isn't searched again.
    pub(crate) fn next_place(
        &mut self,
        program: &Program,
        literal: &[u8],
        address: usize,
        place: u64,
        last: u64,
    ) -> u64
        requires last { last ≤ length program.now.record.bytes.now }
        requires searched { slice_get program.now.code.now address ≡ Some (instruction.Lit literal.now) }
        requires remembered { Remembered program.now.code.now program.now.record.bytes.now self.old }
        ensures high { result ≤ last }
        ensures before { StandsNowhere program.now.record.bytes.now literal.now place result }
        ensures remembered { Remembered program.now.code.now program.now.record.bytes.now self.new }
        ensures few { vec_len self.old.stretches ≤ MOST → vec_len self.new.stretches ≤ MOST }
    {
        let index = self.index(address);
        let known = self.known(index, address, place);
        if last <= known.to {
            return last;
        }
        let next = first_or_last(&program.record, literal, known.to, last);
        let longer = Stretch {
            address,
            from: known.from,
            to: next,
        };
        self.keep(index, longer);
        next
    }
}
