//! Where the code of unions and arrays goes on: the addresses that their instructions name.
ghost use Rattle.std.specs.Prelude.{◌≡◌, ◌+◌, ◌≤◌, map, option_map, IfOk};
ghost use Rattle.pads_image.specs.Blocks.{arms_size as arms_length, blocks, case_layout, elem_at, layout, seq_layout, shut_at, targets};
ghost use Rattle.pads_image.specs.Validity.{longest};

use crate::leaf::copy_key;
use crate::size::{arms_size, cases_size, sep_size, size, stop_size};
use pads_calc::{Arm, Case, Seq};
use pads_image::{Target, Targets};
use pads_value::{Items, Memory};
use std::alloc::Global;

/// The address behind a union that begins at an address.
pub(crate) fn alt_end(arms: &[Arm], begin: u32) -> u32
    requires short { begin + arms_length (map (λ arm. layout arm.term) arms.now) + 2 ≤ longest }
    ensures end { result ≡ begin + (2 + arms_length (map (λ arm. layout arm.term) arms.now)) }
{
    begin + 2 + arms_size(arms) as u32
}

/// The address behind the cases of a switched union, the first of which begins at an address.
pub(crate) fn switch_end(cases: &[Case], first: u32) -> u32
    requires short { first + arms_length (blocks (map case_layout cases.now)) ≤ longest }
    ensures end { result ≡ first + arms_length (blocks (map case_layout cases.now)) }
{
    first + cases_size(cases) as u32
}

/// Where each case of a switched union begins, the first of them at an address.
pub(crate) fn targets_from(alloc: Global, cases: &[Case], first: u32) -> Result<Targets, Memory>
    requires short { first + arms_length (blocks (map case_layout cases.now)) ≤ longest }
    ensures targets { IfOk result (λ made. made ≡ targets (map case_layout cases.now) first) }
{
    let mut made = Items::new(alloc);
    let mut next = first;
    for case in cases {
        made.push(Target {
            key: copy_key(alloc, &case.key)?,
            to: next,
        })?;
        next += size(&case.arm.term) as u32 + 1;
    }
    Ok(made)
}

/// Where the element of an array begins, and where the array is shut.
pub(crate) struct SeqPlaces {
    pub(crate) elem: u32,
    pub(crate) shut: u32,
}

/// The addresses of an array that begins at an address.
pub(crate) fn seq_places(seq: &Seq, begin: u32) -> SeqPlaces
    requires short { begin + (seq_layout seq.now).size ≤ longest }
    ensures elem { result.elem ≡ elem_at (option_map layout seq.now.stop) (option_map layout seq.now.sep) (layout seq.now.elem) begin }
    ensures shut { result.shut ≡ shut_at (option_map layout seq.now.stop) (option_map layout seq.now.sep) (layout seq.now.elem) begin }
{
    let elem = begin + 4 + stop_size(&seq.stop) as u32 + sep_size(&seq.sep) as u32;
    SeqPlaces {
        elem,
        shut: elem + size(&seq.elem) as u32 + 1,
    }
}
