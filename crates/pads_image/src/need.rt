//! How many stack entries code needs.
ghost use Rattle.std.specs.Prelude.{◌≡◌, ℕ, ◌<◌, ◌≤◌, ◌+◌, ◌^◌, true, nat_le, length, get_or, IfOk};
ghost use Rattle.std.specs.List.{list_all};
ghost use Rattle.std.specs.Option.{option_copied};
ghost use Rattle.pads_module.specs.Counts.{few};
ghost use Rattle.pads_image.specs.Blocks.{bindings_of as bindings_made};
ghost use Rattle.pads_image.specs.Bounds.{AreBelow};
ghost use Rattle.pads_image.specs.Heights.{height_after as height_behind, call_needs as call_needs_of, entries_at as entries_counted, needs_over as needs_at, needs as needs_of, inside, need_of as need_by};
ghost use Rattle.pads_image.specs.Validity.{arities_of, longest};
ghost use Rattle.pads_image.specs.Variables.{is_return as is_end};

use crate::{Entry, Op};
use pads_calc::Shape;
use pads_value::{Items, Memory};
use std::alloc::Global;

/// How deep calls may be nested inside the declaration of a record.
const INSIDE: u32 = 127;

/// How many bindings a part makes.
fn bindings_of(name: Option<u16>) -> u64
    ensures bindings { result ≡ bindings_made name }
{
    match name {
        None => 0,
        Some(_) => 1,
    }
}

/// The height behind an instruction, by that at it.
fn height_after(op: &Op, height: u64) -> u64
    requires { height < 2 ^ 32 }
    ensures height { result ≡ height_behind op.now height }
    ensures next { result ≤ height + 1 }
{
    match op {
        Op::Open => height + 1,
        Op::Part(name) => height + bindings_of(*name),
        Op::Close(m) => height.saturating_sub(u64::from(*m) + 1),
        Op::Mark => height + 1,
        Op::ScanFrom => height + 1,
        Op::NoArm => height.saturating_sub(1),
        Op::Size(_, _) => height + 1,
        Op::Stop(_) => height.saturating_sub(1),
        Op::Turn(_) => height + 1,
        Op::Elem(_, _) => height.saturating_sub(1),
        Op::Shut => height.saturating_sub(1),
        Op::ScanOn(_) => height.saturating_sub(1),
        _ => height,
    }
}

/// What a table has for a declaration.
#[tactic(auto, using(crate::proofs::Tables::table_rules))]
fn at(table: &Items<u64>, number: u64) -> u64
    ensures number { result ≡ get_or table.now number 0 }
{
    table.get(number).copied().unwrap_or(0)
}

/// How many entries a call makes, by the needs one call deeper.
fn call_needs(deeper: Option<&Items<u64>>, number: u16, height: u64) -> u64
    requires height { height < 2 ^ 32 }
    requires deeper { AreBelow (2 ^ 40) (option_copied deeper) }
    ensures needs { result ≡ call_needs_of (option_copied deeper.entry) number height }
{
    match deeper {
        None => height,
        Some(needs) => height + 1 + at(needs, u64::from(number)),
    }
}

/// How many entries there are at an instruction, and inside what it calls.
fn entries_at(deeper: Option<&Items<u64>>, op: &Op, height: u64) -> u64
    requires height { height < 2 ^ 32 }
    requires deeper { AreBelow (2 ^ 40) (option_copied deeper) }
    ensures entries { result ≡ entries_counted (option_copied deeper.entry) op.now height }
{
    match op {
        Op::Guard(_, _) => height + 1,
        Op::Full(_, _, _) => height + 1,
        Op::Call(number, _) => call_needs(deeper, *number, height),
        _ => height,
    }
}

/// Whether a declaration ends with an instruction.
fn is_return(op: &Op) -> bool
    ensures end { result ≡ is_end op.now }
{
    matches!(op, Op::Return)
}

/// How many parameters a declaration has.
fn arity(entries: &[Entry], number: u64) -> u64
    requires { list_all (λ entry. few entry.params) entries.now ≡ true }
    ensures arity { result ≡ get_or (arities_of entries.now) number 0 }
    ensures few { result ≤ 65535 }
{
    match entries.get(number as usize) {
        None => 0,
        Some(entry) => entry.params.len(),
    }
}

/// What each declaration needs, by the needs one call deeper.
fn needs_over(
    alloc: Global,
    deeper: Option<&Items<u64>>,
    code: &[Op],
    entries: &[Entry],
) -> Result<Items<u64>, Memory>
    requires short { nat_le (length code.now) longest ≡ true }
    requires few { list_all (λ entry. few entry.params) entries.now ≡ true }
    requires deeper { AreBelow (2 ^ 40) (option_copied deeper) }
    ensures needs { IfOk result (λ needs. needs ≡ needs_at (option_copied deeper.entry) code.now (arities_of entries.now)) }
{
    let mut needs = Items::new(alloc);
    let mut number: u64 = 0;
    let mut height = arity(entries, 0);
    let mut most = 0;
    for op in code {
        if is_return(op) {
            needs.push(most.max(height))?;
            number += 1;
            height = arity(entries, number);
            most = 0;
        } else {
            most = most.max(entries_at(deeper, op, height));
            height = height_after(op, height);
        }
    }
    Ok(needs)
}

/// How many entries the stacks need for each declaration, where calls may be nested in it as deep as in the
/// declaration of a record.
pub fn needs_inside(alloc: Global, code: &[Op], entries: &[Entry]) -> Result<Items<u64>, Memory>
    requires short { nat_le (length code.now) longest ≡ true }
    requires few { list_all (λ entry. few entry.params) entries.now ≡ true }
    ensures needs { IfOk result (λ needs. needs ≡ needs_of code.now (arities_of entries.now) inside) }
{
    let mut table = needs_over(alloc, None, code, entries)?;
    for depth in 0..INSIDE {
        table = needs_over(alloc, Some(&table), code, entries)?;
    }
    Ok(table)
}

/// What the declarations of records need.
fn need_of(table: &Items<u64>, shape: &Shape) -> u64
    ensures need { result ≡ need_by table.now shape.now }
{
    let each = at(table, u64::from(shape.each));
    match shape.head {
        None => each,
        Some(head) => at(table, u64::from(head)).max(each),
    }
}

/// What a record needs at most.
pub(crate) fn stack_need(
    alloc: Global,
    code: &[Op],
    entries: &[Entry],
    shape: &Shape,
) -> Result<u64, Memory>
    requires short { nat_le (length code.now) longest ≡ true }
    requires few { list_all (λ entry. few entry.params) entries.now ≡ true }
    ensures need { IfOk result (λ need. need ≡ need_by (needs_of code.now (arities_of entries.now) inside) shape.now) }
{
    let table = needs_inside(alloc, code, entries)?;
    Ok(need_of(&table, shape))
}
