//! Parts of structs that take no byte at a place, whatever names stand for.
ghost use Rattle.std.specs.Prelude.{◌≡◌, ℕ, ◌+◌, ◌*◌, ◌<◌, ◌≤◌, ◌^◌, true, IfSome, IsTrue, List, Option, Some, length, slice_get};
ghost use Rattle.pads_expr.specs.declared.expr.Expr.{Expr};
ghost use Rattle.pads_dispatch.specs.Labels.{labels_fit as labels_fit_of};
ghost use Rattle.pads_calc.specs.Leaves.{base_of};
ghost use Rattle.pads_calc.specs.Wrappers.{last_place};
ghost use Rattle.pads_image.specs.Blocks.{bindings_of};
ghost use Rattle.pads_image.specs.declared.op.Op.TheVariants as instruction;
ghost use Rattle.pads_idle.specs.Idle.{AreIdleParts, IsGuarded, IsIdleBase, IsIdlePart, IsKept, ReadsNone, SeeksNone};
ghost use Rattle.pads_steps.specs.Records.{subject_of};
ghost use Rattle.pads_steps.specs.Searches.{StandsNowhere};

use crate::literals::{are_literals, literal_in};
use crate::lookups::{absorbs, at, begins_search, part_at, searches};
use crate::program::Program;
use pads_dispatch::{Args, Base, labels_fit};
use pads_expr::Expr;
use pads_image::Op;
use pads_steps::Record;
use std::alloc::Global;

/// How many parts that take no byte are looked at, one behind another.
const MOST: usize = 65_536;

/// How a part is kept, and the address behind that.
#[derive(Clone, Copy)]
pub(crate) struct Kept {
    pub(crate) name: Option<u16>,
    pub(crate) next: usize,
}

/// Where parts end, and how many of them are named.
#[derive(Clone, Copy)]
pub(crate) struct Parts {
    pub(crate) next: usize,
    pub(crate) names: usize,
}

impl Kept {
    /// How many bindings the part makes.
    pub(crate) fn names(&self) -> usize
        ensures names { result ≡ bindings_of self.now.name }
        ensures most { result ≤ 1 }
    {
        match self.name {
            None => 0,
            Some(_) => 1,
        }
    }
}

/// Whether what was read is under a constraint at an address.
fn guards(code: &[Op], address: usize) -> bool
    ensures guards { IsTrue result → (binder : ℕ) × (condition : Expr) × (slice_get code.now address ≡ Some (instruction.Guard binder condition)) }
    ensures seen { (binder : ℕ) → (condition : Expr) → slice_get code.now address ≡ Some (instruction.Guard binder condition) → IsTrue result }
{
    matches!(at(code, address), Some(Op::Guard(_, _)))
}

/// The address behind the constraint at an address, if there is one. Else the address itself.
pub fn behind_guard(code: &[Op], address: usize) -> usize
    requires address { address < 2 ^ 35 }
    ensures guarded { IsGuarded code.now address result }
    ensures seen { (binder : ℕ) → (condition : Expr) → slice_get code.now address ≡ Some (instruction.Guard binder condition) → result ≡ address + 1 }
    ensures near { result ≤ address + 1 }
{
    if guards(code, address) {
        address + 1
    } else {
        address
    }
}

/// How what was read is kept from an address on.
pub(crate) fn kept_at(code: &[Op], address: usize) -> Option<Kept>
    requires address { address < 2 ^ 34 }
    ensures kept { IfSome result (λ kept. IsKept code.now address kept.name kept.next) }
    ensures near { IfSome result (λ kept. kept.next ≤ address + 2) }
{
    let part = behind_guard(code, address);
    let name = part_at(code, part)?;
    Some(Kept {
        name,
        next: part + 1,
    })
}

/// Whether a base type takes no byte at a place with these arguments.
fn takes_none(alloc: Global, from: &Record, base: &Base, args: &Args, place: u64) -> bool
    requires labels { labels_fit_of base.now ≡ true }
    requires place { place ≤ length from.now.bytes.now }
    ensures none { IsTrue result → (base_of (subject_of from.now) base.now (Some args.now) place).place ≡ place }
{
    match from.base_with(alloc, base, args, place) {
        Ok(reading) => reading.place == place,
        Err(_) => false,
    }
}

/// Whether a base type takes no byte at a place, with no argument or with a literal. For want of memory it
/// isn't known.
fn is_idle_base(alloc: Global, from: &Record, base: &Base, es: &[Expr], place: u64) -> bool
    ensures idle { IsTrue result → IsIdleBase (subject_of from.now) place base.now es.now }
{
    if place > from.bytes.len() as u64 {
        return false;
    }
    if !labels_fit(base) {
        return false;
    }
    match literal_in(alloc, es) {
        Ok(args) => are_literals(es, args.as_slice())
            && takes_none(alloc, from, base, &args, place),
        Err(_) => false,
    }
}

/// Whether a literal isn't found from a place on.
fn is_nowhere(from: &Record, literal: &[u8], place: u64) -> bool
    ensures within { IsTrue result → place ≤ last_place (subject_of from.now) place }
    ensures nowhere { IsTrue result → StandsNowhere from.now.bytes.now literal.now place (last_place (subject_of from.now) place + 1) }
{
    if place > from.bytes.len() as u64 {
        return false;
    }
    let last = from.last_place(place);
    match from.first_place(literal, place, last) {
        Some(_) => false,
        None => true,
    }
}

/// The literal that is searched for from an address on, where its value is dropped.
fn sought(code: &[Op], address: usize) -> Option<&[u8]>
    requires address { address < 2 ^ 34 }
    ensures begins { IfSome result (λ literal. slice_get code.now address ≡ Some instruction.ScanFrom) }
    ensures lit { IfSome result (λ literal. slice_get code.now (address + 1) ≡ Some (instruction.Lit literal.now)) }
    ensures absorb { IfSome result (λ literal. slice_get code.now (address + 2) ≡ Some instruction.Absorb) }
    ensures on { IfSome result (λ literal. slice_get code.now (address + 3) ≡ Some (instruction.ScanOn (address + 1))) }
{
    let Some(Op::Lit(literal)) = at(code, address + 1) else {
        return None;
    };
    if begins_search(code, address)
        && absorbs(code, address + 2)
        && searches(code, address + 3, address + 1)
    {
        Some(literal.as_slice())
    } else {
        None
    }
}

/// Whether a literal is searched for from an address on that isn't found from a place on.
fn seeks_none(program: &Program, place: u64, address: usize) -> bool
    requires address { address < 2 ^ 34 }
    ensures none { IsTrue result → SeeksNone program.now.code.now (subject_of program.now.record) place address }
{
    match sought(program.code, address) {
        Some(literal) => is_nowhere(&program.record, literal, place),
        None => false,
    }
}

/// Whether a base type that takes no byte at a place is read at an address, or a value is computed.
fn is_idle(alloc: Global, program: &Program, place: u64, address: usize) -> bool
    requires address { address < 2 ^ 34 }
    ensures idle { IsTrue result → ReadsNone program.now.code.now (subject_of program.now.record) place address (address + 1) }
{
    match at(program.code, address) {
        Some(Op::Base(base, es)) => is_idle_base(
            alloc,
            &program.record,
            base,
            es.as_slice(),
            place,
        ),
        Some(Op::Compute(_, _)) => true,
        _ => false,
    }
}

/// The address behind what is read from an address on, if that takes no byte at a place.
fn behind_idle(alloc: Global, program: &Program, place: u64, address: usize) -> Option<usize>
    requires address { address < 2 ^ 34 }
    ensures none { IfSome result (λ behind. ReadsNone program.now.code.now (subject_of program.now.record) place address behind) }
    ensures near { IfSome result (λ behind. behind ≤ address + 4) }
{
    if is_idle(alloc, program, place, address) {
        return Some(address + 1);
    }
    if seeks_none(program, place, address) {
        return Some(address + 4);
    }
    None
}

/// The part from an address on, if it takes no byte at a place.
fn idle_part(alloc: Global, program: &Program, place: u64, address: usize) -> Option<Kept>
    requires address { address < 2 ^ 33 }
    ensures part { IfSome result (λ kept. IsIdlePart program.now.code.now (subject_of program.now.record) place address kept.name kept.next) }
    ensures near { IfSome result (λ kept. kept.next ≤ address + 6) }
{
    let behind = behind_idle(alloc, program, place, address)?;
    kept_at(program.code, behind)
}

/// The parts from an address on that take no byte at a place.
pub(crate) fn idle_parts(alloc: Global, program: &Program, place: u64, first: usize) -> Parts
    requires first { first < 2 ^ 32 + 2 ^ 20 }
    ensures parts { (count : ℕ) × AreIdleParts program.now.code.now (subject_of program.now.record) place first count result.next result.names }
    ensures near { result.next ≤ first + 6 * 65536 }
    ensures few { result.names ≤ 65536 }
{
    let mut parts = Parts {
        next: first,
        names: 0,
    };
    for count in 0..MOST {
        let Some(part) = idle_part(alloc, program, place, parts.next) else {
            return parts;
        };
        parts.next = part.next;
        parts.names += part.names();
    }
    parts
}
