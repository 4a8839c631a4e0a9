ghost use Rattle.std.specs.Prelude.{◌≡◌, ℤ, map, Bool, option_and_then};
ghost use Rattle.std.specs.Option.{option_copied, option_map};
ghost use Rattle.pads_value.specs.declared.value.Val.{out-Val};
ghost use Rattle.pads_sums.specs.Nodes.{in_range as in_range_of, number_sample, address_sample, name_sample, sample_in};
ghost use Rattle.pads_sums.specs.Samples.{given_seen};

use crate::form::PartForm;
use arrayvec::ArrayVec;
use pads_bases::spell_ip;
use pads_code::Coding;
use pads_value::{Bytes, Val};

/// What a clean node gives: a number, a text of code points 00 to FF, or an address as the text of its
/// four decimals.
pub enum Given<'a> {
    Num(i128),
    Text(&'a [u8]),
    Address(ArrayVec<u8, 15>),
}

/// Whether a number is from -2^63 to 2^64 - 1.
fn in_range(number: i128) -> bool
    ensures range { result ≡ in_range_of number }
{
    i64::MIN as i128 <= number && number < 1 << 64
}

fn number_given<'a>(number: i128) -> Option<Given<'a>>
    ensures given { option_map given_seen result ≡ number_sample number }
{
    if in_range(number) {
        Some(Given::Num(number))
    } else {
        None
    }
}

fn address_given<'a>(number: i128) -> Option<Given<'a>>
    ensures given { option_map given_seen result ≡ address_sample number }
{
    match spell_ip(Coding::Ascii, number) {
        Some(text) => Some(Given::Address(text)),
        None => None,
    }
}

fn name_given(names: &[Bytes], number: u16) -> Option<Given<'_>>
    ensures given { option_map given_seen result ≡ name_sample names.now number }
{
    match names.get(usize::from(number)) {
        Some(name) => Some(Given::Text(name.as_slice())),
        None => None,
    }
}

/// The sample of a value of a part of this form; none where the form gives none, where the value has
/// another form, and where it is a number below -2^63 or above 2^64 - 1.
pub fn sample_given<'a>(form: &'a PartForm, value: &'a Val) -> Option<Given<'a>>
    ensures sample { option_map given_seen result ≡ sample_in form.now (out-Val value.now) }
{
    match (form, value) {
        (PartForm::Number, Val::Num(number)) => number_given(*number),
        (PartForm::Text, Val::Text(text)) => Some(Given::Text(text.as_slice())),
        (PartForm::Address, Val::Num(number)) => address_given(*number),
        (PartForm::Label(names), Val::Enum(label)) => name_given(names.as_slice(), *label),
        (PartForm::Branch(names), Val::Branch(branch, _)) => name_given(names.as_slice(), *branch),
        (PartForm::Elements, Val::Array(elements)) => number_given(i128::from(elements.len())),
        _ => None,
    }
}
