ghost use Rattle.std.specs.Prelude.{◌≡◌, ℕ, ◌<◌, ◌&&◌, length, vec_len, IfOk, OnOk, nat_eq, if◌then◌else◌, None, Some};
ghost use Rattle.std.specs.Option.{option_copied, option_or};
ghost use Rattle.pads_accum.specs.Placed.{form_at as form_of};
ghost use Rattle.pads_accum.specs.Routes.{IsTableOf, in_row, in_table, is_number, number_of};

use pads_plan::{PlanPart, Step};
use pads_sums::PartForm;
use pads_value::Memory;
use std::alloc::Global;

/// For a part, by the number of the step, the part that stands below it.
pub(crate) type Row = Vec<Option<u64>>;

/// The number of a step from a part of this form, where it is one.
fn step_number(form: Option<&PartForm>, step: Step) -> Option<u64>
    ensures number { result ≡ number_of (option_copied form.entry) step }
{
    match (form?, step) {
        (PartForm::Record, Step::Body) => Some(0),
        (PartForm::Fields, Step::Part(k)) => Some(k),
        (PartForm::Branch(_), Step::Branch(k)) => Some(k),
        (PartForm::Elements, Step::Each) => Some(0),
        _ => None,
    }
}

/// The form of a part by its number, if there is one.
fn form_at(parts: &[PlanPart], number: u64) -> Option<&PartForm>
    ensures form { option_copied result ≡ form_of parts.now number }
{
    match parts.get(number as usize) {
        Some(part) => Some(&part.form),
        None => None,
    }
}

/// Makes a row so long that it has an entry at this number.
fn lengthen(row: &mut Row, at: u64) -> Result<(), Memory>
    ensures same { OnOk result ((k : ℕ) → in_row row.new k ≡ in_row row.old k) }
    ensures long { OnOk result (at < vec_len row.new) }
{
    'entries: while row.len() as u64 <= at {
        row.push(None)?;
    }
    Ok(())
}

/// Puts a part at the number of its step, unless one stands there.
fn put(row: &mut Row, at: u64, part: u64) -> Result<(), Memory>
    ensures put { OnOk result ((k : ℕ) → in_row row.new k ≡ (if nat_eq k at then option_or (in_row row.old k) (Some part) else in_row row.old k)) }
{
    lengthen(row, at)?;
    if row[at as usize].is_none() {
        row[at as usize] = Some(part);
    }
    Ok(())
}

/// Notes a part at the part above it, by the number of its step.
fn note(
    table: &mut Vec<Row>,
    parts: &[PlanPart],
    number: u64,
    part: &PlanPart,
) -> Result<(), Memory>
    requires rows { vec_len table.old ≡ length parts.now }
    ensures rows { OnOk result (vec_len table.new ≡ length parts.now) }
    ensures noted { OnOk result ((up k : ℕ) → in_table table.new.items up k ≡ (if nat_eq up part.now.up && is_number (number_of (form_of parts.now part.now.up) part.now.step) k then option_or (in_table table.old.items up k) (Some number) else in_table table.old.items up k)) }
{
    let Some(at) = step_number(form_at(parts, part.up), part.step) else {
        return Ok(());
    };
    put(&mut table[part.up as usize], at, number)
}

/// So many rows without entries.
fn empty_rows(alloc: Global, count: usize) -> Result<Vec<Row>, Memory>
    ensures rows { IfOk result (λ table. vec_len table ≡ count) }
    ensures empty { IfOk result (λ table. (up k : ℕ) → in_table table.items up k ≡ None) }
{
    let mut table = Vec::new(alloc);
    'rows: for _ in 0..count {
        table.push(Vec::new(alloc))?;
    }
    Ok(table)
}

/// What stands below each part.
pub(crate) fn table_of(alloc: Global, parts: &[PlanPart]) -> Result<Vec<Row>, Memory>
    ensures table { IfOk result (λ table. IsTableOf table.items parts.now) }
{
    let mut table = empty_rows(alloc, parts.len())?;
    'parts: for i in 0..parts.len() {
        note(&mut table, parts, i as u64, &parts[i])?;
    }
    Ok(table)
}
