//! Calls that take no byte, by the code and what stands at the place.
ghost use Rattle.std.specs.Prelude.{◌≡◌, ℕ, [], pos, false, ◌+◌, ◌<◌, ◌≤◌, ◌≤ℤ◌, ◌⊎◌, ◌^◌, IfSome, IsSome, IsTrue, List, Option, Some, slice_get};
ghost use Rattle.pads_expr.specs.declared.expr.Expr.{Expr};
ghost use Rattle.pads_calc.specs.Leaves.{lit_of};
ghost use Rattle.pads_calc.specs.Readings.{is_ok};
ghost use Rattle.pads_image.specs.declared.op.Op.TheVariants as instruction;
ghost use Rattle.pads_idle.specs.Idle.{Begins, Ends, HasTerminator, Idles, IsAround, IsArrayOf, IsBefore, IsBehind, IsBodyOf, IsNamed, IsOptional, IsSize, IsStructOf, LacksSeparator, Links, ReadsCall, ReadsMarker};
ghost use Rattle.pads_steps.specs.Records.{subject_of};

use crate::lookups::{absorbs, at, entry_at, marks, shuts, stands};
use crate::parts::{behind_guard, idle_parts, kept_at};
use crate::program::Program;
use pads_expr::Expr;
use pads_image::Op;
use pads_steps::Record;
use std::alloc::Global;

/// Whether a number isn't below 0.
fn is_count(count: &i128) -> bool
    ensures count { IsTrue result → pos 0 ≤ℤ count.now }
{
    *count >= 0
}

/// Whether a size is a number that isn't below 0.
fn is_size(size: &Expr) -> bool
    ensures size { IsTrue result → IsSize (Some size.now) }
{
    match size {
        Expr::Num(count) => is_count(count),
        _ => false,
    }
}

/// Whether an array begins at an address, of any size or of one that is a number.
fn begins(code: &[Op], address: usize) -> bool
    ensures begins { IsTrue result → Begins code.now address }
{
    match at(code, address) {
        Some(Op::Size(None, _)) => true,
        Some(Op::Size(Some(size), _)) => is_size(size),
        _ => false,
    }
}

/// Whether an array is looked at whether it has all of its elements, and then ends at another address.
fn has_full(code: &[Op], address: usize, to: usize) -> bool
    ensures full { IsTrue result → (last : Option Expr) × (name : ℕ) × (slice_get code.now address ≡ Some (instruction.Full last name to)) }
{
    match at(code, address) {
        Some(Op::Full(_, _, end)) => *end as usize == to,
        _ => false,
    }
}

/// Whether a literal or the record's end is read at an address.
fn reads_marker(code: &[Op], address: usize) -> bool
    ensures marker { IsTrue result → ReadsMarker code.now address }
{
    matches!(at(code, address), Some(Op::Lit(_) | Op::Eor))
}

/// Whether an array ends at another address where its terminator, looked for at an address, stands.
fn stops(code: &[Op], address: usize, to: usize) -> bool
    ensures stop { IsTrue result → slice_get code.now address ≡ Some (instruction.Stop to) }
{
    match at(code, address) {
        Some(Op::Stop(end)) => *end as usize == to,
        _ => false,
    }
}

/// Whether an array is looked at whether the record ends here, and then ends at another address.
fn has_edge(code: &[Op], address: usize, to: usize) -> bool
    ensures edge { IsTrue result → slice_get code.now address ≡ Some (instruction.Edge to) }
{
    match at(code, address) {
        Some(Op::Edge(end)) => *end as usize == to,
        _ => false,
    }
}

/// Whether a turn begins at an address, whose first element is at another.
fn has_turn(code: &[Op], address: usize, to: usize) -> bool
    ensures turn { IsTrue result → slice_get code.now address ≡ Some (instruction.Turn to) }
{
    match at(code, address) {
        Some(Op::Turn(first)) => *first as usize == to,
        _ => false,
    }
}

/// The declaration that is called at an address.
fn called_at(code: &[Op], address: usize) -> Option<u16>
    ensures called { IfSome result (λ number. (args : List Expr) × (slice_get code.now address ≡ Some (instruction.Call number args))) }
    ensures seen { (number : ℕ) → (args : List Expr) → slice_get code.now address ≡ Some (instruction.Call number args) → IsSome result }
{
    match at(code, address) {
        Some(Op::Call(number, _)) => Some(*number),
        _ => None,
    }
}

/// The declaration that is called at an address without arguments.
fn called_bare_at(code: &[Op], address: usize) -> Option<u16>
    ensures called { IfSome result (λ number. slice_get code.now address ≡ Some (instruction.Call number [])) }
{
    match at(code, address) {
        Some(Op::Call(number, args)) => match args.as_slice() {
            [] => Some(*number),
            _ => None,
        },
        _ => None,
    }
}

/// Whether a turn ends at an address, for the array's end and for its next turn at others.
fn ends_turn(code: &[Op], address: usize, to: usize, again: usize) -> bool
    ensures elem { IsTrue result → slice_get code.now address ≡ Some (instruction.Elem to again) }
{
    match at(code, address) {
        Some(Op::Elem(end, next)) => *end as usize == to && *next as usize == again,
        _ => false,
    }
}

/// Whether a declaration ends at an address.
fn returns(code: &[Op], address: usize) -> bool
    ensures ends { IsTrue result → slice_get code.now address ≡ Some instruction.Return }
    ensures seen { slice_get code.now address ≡ Some instruction.Return → IsTrue result }
{
    matches!(at(code, address), Some(Op::Return))
}

/// Whether a terminator is looked for from an address on, and the array ends at another one where it stands.
fn has_terminator(code: &[Op], address: usize, to: usize) -> bool
    requires address { address < 2 ^ 33 }
    ensures terminator { IsTrue result → HasTerminator code.now address to }
{
    marks(code, address) && reads_marker(code, address + 1) && stops(code, address + 2, to)
}

/// The address where the array from an address on looks whether the record ends, and ends at another one.
fn edge_of(code: &[Op], first: usize) -> usize
    requires first { first < 2 ^ 32 }
    ensures near { result ≤ first + 5 }
{
    if marks(code, first + 2) {
        first + 5
    } else {
        first + 2
    }
}

/// Whether an array that looks at one address whether the record ends, and ends at another one, looks just before
/// whether its terminator stands, if it has one.
fn is_before(code: &[Op], first: usize, edge: usize, shut: usize) -> bool
    requires first { first < 2 ^ 32 }
    ensures before { IsTrue result → IsBefore code.now first edge shut }
{
    if edge == first + 2 {
        return true;
    }
    edge == first + 5 && has_terminator(code, first + 2, shut)
}

/// Whether an array begins from an address on: up to where it looks whether the record ends.
fn has_endings(code: &[Op], first: usize, edge: usize, shut: usize) -> bool
    requires first { first < 2 ^ 32 }
    ensures begins { IsTrue result → Begins code.now first }
    ensures full { IsTrue result → (last : Option Expr) × (name : ℕ) × (slice_get code.now (first + 1) ≡ Some (instruction.Full last name shut)) }
    ensures before { IsTrue result → IsBefore code.now first edge shut }
    ensures over { IsTrue result → slice_get code.now edge ≡ Some (instruction.Edge shut) }
{
    begins(code, first)
        && has_full(code, first + 1, shut)
        && is_before(code, first, edge, shut)
        && has_edge(code, edge, shut)
}

/// Whether a literal doesn't stand at a place.
fn lacks(from: &Record, literal: &[u8], place: u64) -> bool
    ensures lacks { IsTrue result → is_ok (lit_of (subject_of from.now) literal.now place) ≡ false }
{
    if from.bytes.len() as u64 <= place {
        return false;
    }
    !stands(from, literal, place)
}

/// Whether a literal is read at an address that doesn't stand at a place.
fn lacks_at(program: &Program, address: usize, place: u64) -> bool
    ensures missing { IsTrue result → (literal : List ℕ) × (slice_get program.now.code.now address ≡ Some (instruction.Lit literal)) × (is_ok (lit_of (subject_of program.now.record) literal place) ≡ false) }
{
    match at(program.code, address) {
        Some(Op::Lit(literal)) => lacks(&program.record, literal.as_slice(), place),
        _ => false,
    }
}

/// Whether an array ends at another address where its separator, looked for at an address, isn't there.
fn separates(code: &[Op], address: usize, to: usize) -> bool
    ensures sep { IsTrue result → slice_get code.now address ≡ Some (instruction.Sep to) }
{
    match at(code, address) {
        Some(Op::Sep(end)) => *end as usize == to,
        _ => false,
    }
}

/// Whether a separator is looked for from an address on that isn't there at a place, and the array ends then.
fn lacks_separator(program: &Program, place: u64, address: usize, to: usize) -> bool
    requires address { address < 2 ^ 33 }
    ensures lacks { IsTrue result → LacksSeparator program.now.code.now (subject_of program.now.record) place address to }
{
    lacks_at(program, address, place)
        && absorbs(program.code, address + 1)
        && separates(program.code, address + 2, to)
}

/// Where an array has its element that looks at an address whether the record ends.
fn element_of(code: &[Op], edge: usize) -> usize
    requires edge { edge < 2 ^ 33 }
    ensures near { result ≤ edge + 5 }
{
    if absorbs(code, edge + 3) {
        edge + 5
    } else {
        edge + 2
    }
}

/// Whether an array has its element behind the turn, or behind a separator that isn't there at a place.
fn is_behind(program: &Program, place: u64, edge: usize, element: usize, shut: usize) -> bool
    requires edge { edge < 2 ^ 32 + 5 }
    ensures behind { IsTrue result → IsBehind program.now.code.now (subject_of program.now.record) place edge element shut }
{
    if element == edge + 2 {
        return true;
    }
    element == edge + 5 && lacks_separator(program, place, edge + 2, shut)
}

/// Whether an array has its turns around an element, and then ends.
fn has_turns(code: &[Op], first: usize, edge: usize, element: usize, behind: usize) -> bool
    requires first { first < 2 ^ 32 }
    requires edge { edge < 2 ^ 33 }
    requires behind { behind < 2 ^ 34 }
    ensures turn { IsTrue result → slice_get code.now (edge + 1) ≡ Some (instruction.Turn element) }
    ensures elem { IsTrue result → slice_get code.now behind ≡ Some (instruction.Elem (behind + 1) (first + 1)) }
    ensures shut { IsTrue result → slice_get code.now (behind + 1) ≡ Some instruction.Shut }
{
    has_turn(code, edge + 1, element)
        && ends_turn(code, behind, behind + 1, first + 1)
        && shuts(code, behind + 1)
}

/// A declaration that is called, and the address behind what it is called in.
#[derive(Clone, Copy)]
pub struct Called {
    /// The declaration, by its number.
    pub number: u16,
    /// The address.
    pub next: usize,
}

/// Whether a branch ends at an address, and goes on at another one where it is clean.
fn tries(code: &[Op], address: usize, to: usize) -> bool
    ensures tries { IsTrue result → (branch : ℕ) × (slice_get code.now address ≡ Some (instruction.Try branch to)) }
    ensures seen { (branch : ℕ) → slice_get code.now address ≡ Some (instruction.Try branch to) → IsTrue result }
{
    match at(code, address) {
        Some(Op::Try(_, end)) => *end as usize == to,
        _ => false,
    }
}

/// Whether nothing is read at an address.
fn reads_nothing(code: &[Op], address: usize) -> bool
    ensures nothing { IsTrue result → slice_get code.now address ≡ Some instruction.Unit }
    ensures seen { slice_get code.now address ≡ Some instruction.Unit → IsTrue result }
{
    matches!(at(code, address), Some(Op::Unit))
}

/// Whether one instruction from an address on is optional.
fn is_optional(code: &[Op], address: usize) -> bool
    requires address { address < 2 ^ 33 }
    ensures mark { IsTrue result → slice_get code.now address ≡ Some instruction.Mark }
    ensures there { IsTrue result → (branch : ℕ) × (slice_get code.now (address + 2) ≡ Some (instruction.Try branch (address + 6))) }
    ensures nothing { IsTrue result → slice_get code.now (address + 3) ≡ Some instruction.Unit }
    ensures missing { IsTrue result → (branch : ℕ) × (slice_get code.now (address + 4) ≡ Some (instruction.Try branch (address + 6))) }
    ensures seen { (number : ℕ) → IsOptional code.now address number → IsTrue result }
{
    marks(code, address)
        && tries(code, address + 2, address + 6)
        && reads_nothing(code, address + 3)
        && tries(code, address + 4, address + 6)
}

/// The optional call from an address on. None where no such call stands there.
pub fn optional_at(code: &[Op], address: usize) -> Option<Called>
    requires address { address < 2 ^ 33 }
    ensures optional { IfSome result (λ called. IsOptional code.now address called.number × (called.next ≡ address + 6)) }
    ensures seen { (number : ℕ) → IsOptional code.now address number → IsSome result }
{
    if !is_optional(code, address) {
        return None;
    }
    let number = called_at(code, address + 1)?;
    Some(Called {
        number,
        next: address + 6,
    })
}

/// The call from an address on, or the optional one.
fn call_at(code: &[Op], address: usize) -> Option<Called>
    requires address { address < 2 ^ 33 }
    ensures call { IfSome result (λ called. ReadsCall code.now address called.number called.next) }
    ensures near { IfSome result (λ called. called.next ≤ address + 6) }
{
    match called_at(code, address) {
        Some(number) => Some(Called {
            number,
            next: address + 1,
        }),
        None => optional_at(code, address),
    }
}

/// The array from an address on, of calls of a declaration. Its separator isn't there at a place.
fn array_at(program: &Program, place: u64, first: usize) -> Option<Called>
    requires first { first < 2 ^ 32 }
    ensures array { IfSome result (λ called. IsArrayOf program.now.code.now (subject_of program.now.record) place first called.number called.next) }
    ensures near { IfSome result (λ called. called.next < 2 ^ 33) }
{
    let code = program.code;
    let edge = edge_of(code, first);
    let element = element_of(code, edge);
    let called = call_at(code, element)?;
    if !has_endings(code, first, edge, called.next + 1) {
        return None;
    }
    if !has_turns(code, first, edge, element, called.next) {
        return None;
    }
    if !is_behind(program, place, edge, element, called.next + 1) {
        return None;
    }
    Some(Called {
        number: called.number,
        next: called.next + 2,
    })
}

/// Whether a struct begins at an address.
fn opens(code: &[Op], address: usize) -> bool
    ensures open { IsTrue result → slice_get code.now address ≡ Some instruction.Open }
{
    matches!(at(code, address), Some(Op::Open))
}

/// Whether a struct ends at an address that has so many named parts.
fn closes(code: &[Op], address: usize, names: usize) -> bool
    ensures close { IsTrue result → slice_get code.now address ≡ Some (instruction.Close names) }
{
    match at(code, address) {
        Some(Op::Close(count)) => *count as usize == names,
        _ => false,
    }
}

/// The struct from an address on, of one call of a declaration beside parts that take no byte at a place.
fn struct_at(alloc: Global, program: &Program, place: u64, first: usize) -> Option<Called>
    requires first { first < 2 ^ 32 }
    ensures part { IfSome result (λ called. IsStructOf program.now.code.now (subject_of program.now.record) place first called.number called.next) }
    ensures near { IfSome result (λ called. called.next < 2 ^ 33) }
{
    let code = program.code;
    if !opens(code, first) {
        return None;
    }
    let ahead = idle_parts(alloc, program, place, first + 1);
    let part = call_at(code, ahead.next)?;
    let kept = kept_at(code, part.next)?;
    let more = idle_parts(alloc, program, place, kept.next);
    if !closes(code, more.next, ahead.names + kept.names() + more.names) {
        return None;
    }
    Some(Called {
        number: part.number,
        next: more.next + 1,
    })
}

/// The struct from an address on, of one call of a declaration, or the optional call.
fn struct_or_optional_at(
    alloc: Global,
    program: &Program,
    place: u64,
    first: usize,
) -> Option<Called>
    requires first { first < 2 ^ 32 }
    ensures body { IfSome result (λ called. IsStructOf program.now.code.now (subject_of program.now.record) place first called.number called.next ⊎ (IsOptional program.now.code.now first called.number × (called.next ≡ first + 6))) }
    ensures near { IfSome result (λ called. called.next < 2 ^ 33) }
{
    match struct_at(alloc, program, place, first) {
        Some(called) => Some(called),
        None => optional_at(program.code, first),
    }
}

/// The array, the struct or the optional call from an address on.
fn body_at(alloc: Global, program: &Program, place: u64, first: usize) -> Option<Called>
    requires first { first < 2 ^ 32 }
    ensures body { IfSome result (λ called. IsBodyOf program.now.code.now (subject_of program.now.record) place first called.number called.next) }
    ensures near { IfSome result (λ called. called.next < 2 ^ 33) }
{
    match array_at(program, place, first) {
        Some(called) => Some(called),
        None => struct_or_optional_at(alloc, program, place, first),
    }
}

/// Whether a declaration ends from an address on.
pub fn ends(code: &[Op], address: usize) -> bool
    requires address { address < 2 ^ 34 }
    ensures ends { IsTrue result → Ends code.now address }
    ensures seen { Ends code.now address → IsTrue result }
{
    returns(code, behind_guard(code, address))
}

/// The declaration that is called in the array, the struct or the optional call of another one.
fn around_at(alloc: Global, program: &Program, place: u64, first: usize) -> Option<u16>
    requires first { first < 2 ^ 32 }
    ensures around { IfSome result (λ inner. IsAround program.now.code.now (subject_of program.now.record) place first inner) }
{
    let body = body_at(alloc, program, place, first)?;
    if ends(program.code, body.next) {
        Some(body.number)
    } else {
        None
    }
}

/// The declaration that another one just calls.
fn named_at(code: &[Op], first: usize) -> Option<u16>
    requires first { first < 2 ^ 32 }
    ensures named { IfSome result (λ inner. IsNamed code.now first inner) }
{
    let inner = called_bare_at(code, first)?;
    if ends(code, first + 1) {
        Some(inner)
    } else {
        None
    }
}

/// A declaration that is called, and what is to be seen of the call.
#[derive(Clone, Copy)]
pub struct Link {
    /// The declaration, by its number.
    pub number: u16,
    /// Whether it is still to be seen that the call doesn't fail.
    pub wanted: bool,
}

/// The declaration that is called by a declaration.
fn link_of(alloc: Global, program: &Program, place: u64, link: Link) -> Option<Link>
    ensures links { IfSome result (λ inner. Links program.now.code.now program.now.entries.now (subject_of program.now.record) place link.wanted link.number inner.wanted inner.number) }
{
    let entry = entry_at(program.entries, link.number)?;
    let first = entry.first as usize;
    if let Some(number) = around_at(alloc, program, place, first) {
        return Some(Link {
            number,
            wanted: false,
        });
    }
    let number = named_at(program.code, first)?;
    Some(Link {
        number,
        wanted: link.wanted,
    })
}

/// The first call in code, up to where its declaration ends.
fn first_call(code: &[Op]) -> Option<u16> {
    for op in code {
        match op {
            Op::Call(number, _) => return Some(*number),
            Op::Return => return None,
            _ => {}
        }
    }
    None
}

/// The first call in the code of a declaration.
fn first_call_of(program: &Program, number: u16) -> Option<u16> {
    let entry = entry_at(program.entries, number)?;
    let first = entry.first as usize;
    if first < program.code.len() {
        first_call(&program.code[first..])
    } else {
        None
    }
}

/// Whether the first call of a declaration, and that of the called one, and so on, lead so deep: else no call is
/// known to take no byte, and what stands at the place needn't be looked at.
fn leads_down(program: &Program, depth: u8, number: u16) -> bool {
    let mut number = number;
    for _ in 0..depth {
        let Some(inner) = first_call_of(program, number) else {
            return false;
        };
        number = inner;
    }
    true
}

/// Whether a call of a declaration is known to take no byte at a place, an offset in the record, where calls may
/// still be nested so deep, and not to fail if that is wanted. For want of memory it isn't known.
pub fn idles(alloc: Global, program: &Program, place: u64, depth: u8, link: Link) -> bool
    ensures idles { IsTrue result → Idles program.now.code.now program.now.entries.now (subject_of program.now.record) place link.wanted depth link.number }
{
    if !leads_down(program, depth, link.number) {
        return false;
    }
    let mut link = link;
    let mut left = depth;
    'links: while left > 0 {
        let Some(inner) = link_of(alloc, program, place, link) else {
            return false;
        };
        link = inner;
        left -= 1;
    }
    !link.wanted
}
