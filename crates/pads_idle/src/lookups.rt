//! What stands at an address of the code, at a number of the entries, and at a place of a record.
ghost use Rattle.std.specs.Prelude.{◌≡◌, ℕ, ◌≤◌, IfSome, IsTrue, Option, Some, drop, length, nat_eq, slice_get};
ghost use Rattle.std.specs.List.{starts_with};
ghost use Rattle.std.specs.Option.{option_copied};
ghost use Rattle.pads_image.specs.declared.op.Op.TheVariants as instruction;

use pads_image::{Entry, Op};
use pads_steps::Record;

/// The instruction at an address.
pub fn at(code: &[Op], address: usize) -> Option<&Op>
    ensures op { option_copied result ≡ slice_get code.now address }
{
    code.get(address)
}

/// The entry of a declaration.
pub fn entry_at(entries: &[Entry], number: u16) -> Option<&Entry>
    ensures entry { option_copied result ≡ slice_get entries.now number }
{
    entries.get(usize::from(number))
}

/// The name with which a part of a struct is kept at an address. None where no part is kept there.
pub fn part_at(code: &[Op], address: usize) -> Option<Option<u16>>
    ensures part { IfSome result (λ name. slice_get code.now address ≡ Some (instruction.Part name)) }
    ensures seen { (name : Option ℕ) → slice_get code.now address ≡ Some (instruction.Part name) → result ≡ Some name }
{
    match at(code, address) {
        Some(Op::Part(name)) => Some(*name),
        _ => None,
    }
}

/// Whether a place is noted at an address.
pub fn marks(code: &[Op], address: usize) -> bool
    ensures mark { IsTrue result → slice_get code.now address ≡ Some instruction.Mark }
    ensures seen { slice_get code.now address ≡ Some instruction.Mark → IsTrue result }
{
    matches!(at(code, address), Some(Op::Mark))
}

/// Whether a search begins at an address.
pub fn begins_search(code: &[Op], address: usize) -> bool
    ensures begins { IsTrue result → slice_get code.now address ≡ Some instruction.ScanFrom }
    ensures seen { slice_get code.now address ≡ Some instruction.ScanFrom → IsTrue result }
{
    matches!(at(code, address), Some(Op::ScanFrom))
}

/// Whether a search goes on at an address, told by the instruction at another.
pub fn searches(code: &[Op], address: usize, to: usize) -> bool
    ensures searches { IsTrue result → slice_get code.now address ≡ Some (instruction.ScanOn to) }
    ensures seen { slice_get code.now address ≡ Some (instruction.ScanOn to) → IsTrue result }
{
    match at(code, address) {
        Some(Op::ScanOn(found)) => *found as usize == to,
        _ => false,
    }
}

/// Whether a value is dropped at an address.
pub fn absorbs(code: &[Op], address: usize) -> bool
    ensures absorbs { IsTrue result → slice_get code.now address ≡ Some instruction.Absorb }
    ensures seen { slice_get code.now address ≡ Some instruction.Absorb → IsTrue result }
{
    matches!(at(code, address), Some(Op::Absorb))
}

/// Whether an array ends at an address.
pub fn shuts(code: &[Op], address: usize) -> bool
    ensures shut { IsTrue result → slice_get code.now address ≡ Some instruction.Shut }
    ensures seen { slice_get code.now address ≡ Some instruction.Shut → IsTrue result }
{
    matches!(at(code, address), Some(Op::Shut))
}

/// Whether a literal stands at a place.
pub fn stands(from: &Record, literal: &[u8], place: u64) -> bool
    requires place { place ≤ length from.now.bytes.now }
    ensures stands { result ≡ starts_with nat_eq (drop place from.now.bytes.now) literal.now }
{
    from.bytes[place as usize..].starts_with(literal)
}
