ghost use Rattle.std.specs.Prelude.{◌≡◌, ◌++◌, flat_map, take, OnOk, IfOk, map};
ghost use Rattle.pads_sums.specs.Seen.{pair_seen, sample_seen};
ghost use Rattle.pads_report.specs.Reports.{value_text, counts_line, bounds_text, numbers_line, value_line, values_lines, part_text, list_text, report_text};

use crate::number::{write_average, write_count, write_percent, write_points, write_signed};
use crate::rank::ranked;
use pads_json::write_quoted;
use pads_sums::{PartSum, Sample, SumList, SumLists};
use pads_value::{Bytes, Items, Memory};
use std::alloc::Global;

fn write_value(out: &mut Bytes, sample: Sample<'_>) -> Result<(), Memory>
    ensures written { OnOk result (out.new ≡ out.old ++ value_text (sample_seen sample.entry)) }
{
    match sample {
        Sample::Num(number) => write_signed(out, number),
        Sample::Text(points) => write_quoted(out, points),
    }
}

fn write_value_line(out: &mut Bytes, value: (Sample<'_>, u64)) -> Result<(), Memory>
    ensures written { OnOk result (out.new ≡ out.old ++ value_line (pair_seen value.entry)) }
{
    out.extend_from_slice(b"  ")?;
    write_count(out, value.1)?;
    out.extend_from_slice(b" ")?;
    write_value(out, value.0)?;
    out.extend_from_slice(b"\n")
}

fn write_counts_line(out: &mut Bytes, part: &PartSum) -> Result<(), Memory>
    ensures written { OnOk result (out.new ≡ out.old ++ counts_line part.now) }
{
    write_points(out, part.place.as_slice())?;
    out.extend_from_slice(b": good ")?;
    write_count(out, part.good)?;
    out.extend_from_slice(b" bad ")?;
    write_count(out, part.bad)?;
    out.extend_from_slice(b" pct ")?;
    write_percent(out, part.good, part.bad)?;
    out.extend_from_slice(b"\n")
}

fn write_bounds(out: &mut Bytes, part: &PartSum) -> Result<(), Memory>
    ensures written { OnOk result (out.new ≡ out.old ++ bounds_text part.now) }
{
    out.extend_from_slice(b"  min ")?;
    write_signed(out, part.least)?;
    out.extend_from_slice(b" max ")?;
    write_signed(out, part.greatest)
}

fn write_numbers_line(out: &mut Bytes, part: &PartSum) -> Result<(), Memory>
    ensures written { OnOk result (out.new ≡ out.old ++ numbers_line part.now) }
{
    if part.nums == 0 {
        return Ok(());
    }
    write_bounds(out, part)?;
    out.extend_from_slice(b" avg ")?;
    write_average(out, part.sum, part.nums)?;
    out.extend_from_slice(b"\n")
}

/// Writes the lines of the values with the most occurrences.
fn write_top(out: &mut Bytes, ranks: &[(Sample<'_>, u64)]) -> Result<(), Memory>
    ensures written { OnOk result (out.new ≡ out.old ++ flat_map value_line (map pair_seen ranks.now)) }
{
    'ranks: for value in ranks {
        write_value_line(out, *value)?;
    }
    Ok(())
}

/// The first values of a list, at most so many.
#[tactic(auto, using(crate::proofs::Order::top_first))]
fn first<'r, 't>(ranks: &'r [(Sample<'t>, u64)], top: u32) -> &'r [(Sample<'t>, u64)]
    ensures first { map pair_seen result.now ≡ take top (map pair_seen ranks.now) }
{
    if (top as usize) < ranks.len() {
        &ranks[..top as usize]
    } else {
        ranks
    }
}

fn write_values_lines(
    alloc: Global,
    out: &mut Bytes,
    part: &PartSum,
    top: u32,
) -> Result<(), Memory>
    ensures written { OnOk result (out.new ≡ out.old ++ values_lines top part.now) }
{
    if part.tracked.is_empty() && part.others == 0 {
        return Ok(());
    }
    out.extend_from_slice(b"  values ")?;
    write_count(out, part.tracked.len())?;
    out.extend_from_slice(b" others ")?;
    write_count(out, part.others)?;
    out.extend_from_slice(b"\n")?;
    let ranks = ranked(alloc, &part.tracked)?;
    write_top(out, first(ranks.as_slice(), top))
}

fn write_part(alloc: Global, out: &mut Bytes, part: &PartSum, top: u32) -> Result<(), Memory>
    ensures written { OnOk result (out.new ≡ out.old ++ part_text top part.now) }
{
    write_counts_line(out, part)?;
    write_numbers_line(out, part)?;
    write_values_lines(alloc, out, part, top)
}

fn write_parts(alloc: Global, out: &mut Bytes, parts: &[PartSum], top: u32) -> Result<(), Memory>
    ensures written { OnOk result (out.new ≡ out.old ++ flat_map (part_text top) parts.now) }
{
    'parts: for part in parts {
        write_part(alloc, out, part, top)?;
    }
    Ok(())
}

fn write_list(alloc: Global, out: &mut Bytes, list: &SumList, top: u32) -> Result<(), Memory>
    ensures written { OnOk result (out.new ≡ out.old ++ list_text top list.now) }
{
    out.extend_from_slice(b"type ")?;
    write_points(out, list.name.as_slice())?;
    out.extend_from_slice(b"\n")?;
    write_parts(alloc, out, list.parts.as_slice(), top)
}

/// The report of these sums, with at most so many values of each part: those with the most occurrences.
pub fn report(alloc: Global, lists: &SumLists, top: u32) -> Result<Bytes, Memory>
    ensures text { IfOk result (λ text. text ≡ report_text top lists.now) }
{
    let mut out = Items::new(alloc);
    'lists: for list in lists.as_slice() {
        write_list(alloc, &mut out, list, top)?;
    }
    Ok(out)
}
