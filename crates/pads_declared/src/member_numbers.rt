//! The numbers of fields, branches and labels by their names.

ghost use Rattle.std.specs.Prelude.{IfOk};
ghost use Rattle.pads_declared.specs.Numbered.{IsNumbered, AreMembers, has_text, is_text};

use crate::FirstNumbers;
use pads_rules::{Content, Named};
use pads_value::{Bytes, Memory};
use std::alloc::Global;

/// The numbers of fields or branches.
fn number_named(alloc: Global, named: &[Named]) -> Result<FirstNumbers, Memory>
    ensures numbered { IfOk result (λ numbers. IsNumbered has_text named.now numbers) }
{
    let mut numbers = FirstNumbers::new(alloc);
    for number in 0..named.len() {
        numbers.add(alloc, named[number].text.as_slice(), number)?;
    }
    Ok(numbers)
}

fn number_labels(alloc: Global, labels: &[Bytes]) -> Result<FirstNumbers, Memory>
    ensures numbered { IfOk result (λ numbers. IsNumbered is_text labels.now numbers) }
{
    let mut numbers = FirstNumbers::new(alloc);
    for number in 0..labels.len() {
        numbers.add(alloc, labels[number].as_slice(), number)?;
    }
    Ok(numbers)
}

/// The numbers of what a declared type is made of.
pub(crate) fn number_members(alloc: Global, content: &Content) -> Result<FirstNumbers, Memory>
    ensures numbered { IfOk result (λ numbers. AreMembers content.now numbers) }
{
    match content {
        Content::Fields(named) | Content::Branches(named) => number_named(alloc, named.as_slice()),
        Content::Labels(labels) => number_labels(alloc, labels.as_slice()),
        Content::Element(_) | Content::Inner => Ok(FirstNumbers::new(alloc)),
    }
}
