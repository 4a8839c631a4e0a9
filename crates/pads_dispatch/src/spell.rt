ghost use Rattle.std.specs.Prelude.{◌≡◌, ◌&&◌, ◌==◌, not, Some, None, if◌then◌else◌, length, IfOk, option_map};
ghost use Rattle.std.specs.List.{list_all};
ghost use Rattle.pads_value.specs.declared.value.Val.TheVariants as val;
ghost use Rattle.pads_code.specs.CodePage.{bytes_of};
ghost use Rattle.pads_bases.specs.Classes.{is_class, has_point, is_class_text as is_text_of_class};
ghost use Rattle.pads_bases.specs.Enums.{enum_spelling};
ghost use Rattle.pads_bases.specs.Strings.{fixed_spelling};
ghost use Rattle.pads_dispatch.specs.Seen.{seen};
ghost use Rattle.pads_dispatch.specs.Spellings.{spelling_of, base_spelling};

use crate::applied::{Applied, with_args};
use crate::kinds::range_of;
use crate::{Args, Base};
use arrayvec::ArrayVec;
use pads_bases::{Labels, encode_text, in_class, spell_bin, spell_ip};
use pads_code::Coding;
use pads_decimal::{spell_packed, spell_zoned};
use pads_int::{spell_int, spell_int_fw};
use pads_value::{Bytes, Items, Memory, Val};
use std::alloc::Global;

/// The widest field that is spelled.
const WIDEST: i128 = 16_777_216;

/// The bytes of a short spelling.
fn owned<const N: usize>(
    alloc: Global,
    spelled: Option<ArrayVec<u8, N>>,
) -> Result<Option<Bytes>, Memory>
    ensures same { IfOk result (λ s. s ≡ option_map (λ short. short.items) spelled.entry) }
{
    match spelled {
        None => Ok(None),
        Some(short) => Ok(Some(Items::from_slice(alloc, short.as_slice())?)),
    }
}

/// The bytes of a text where it is one of the base type's.
fn text_if(
    alloc: Global,
    is_one: bool,
    coding: Coding,
    text: &[u8],
) -> Result<Option<Bytes>, Memory>
    ensures text { IfOk result (λ s. s ≡ (if is_one then Some (bytes_of coding text.now) else None)) }
{
    if is_one {
        Ok(Some(encode_text(alloc, coding, text)?))
    } else {
        Ok(None)
    }
}

/// The bytes of a text in a field of its width.
#[tactic(auto, unfolding(pads_bases::specs::Strings::fixed_spelling))]
fn spell_fixed(
    alloc: Global,
    coding: Coding,
    width: i128,
    text: &[u8],
) -> Result<Option<Bytes>, Memory>
    ensures spelling { IfOk result (λ s. s ≡ fixed_spelling coding width text.now) }
{
    if width != text.len() as i128 {
        return Ok(None);
    }
    if WIDEST < width {
        return Ok(None);
    }
    Ok(Some(encode_text(alloc, coding, text)?))
}

/// Whether a class is well formed and has the code point.
#[tactic(auto, using(crate::proofs::Classes::has))]
fn class_has(class: &[u8], point: u8) -> bool
    ensures has { result ≡ (is_class class.now && has_point class.now point) }
{
    in_class(class, point).unwrap_or(false)
}

/// Whether a class is well formed and has each code point, or there is none.
fn all_in_class(class: &[u8], text: &[u8]) -> bool
    ensures all { result ≡ list_all (λ point. is_class class.now && has_point class.now point) text.now }
{
    text.iter().all(|point| class_has(class, *point))
}

/// Whether the text is one of the class: not empty, and each code point in the class.
#[tactic(auto, using(crate::proofs::Classes::all_has))]
fn is_class_text(class: &[u8], text: &[u8]) -> bool
    ensures text { result ≡ is_text_of_class class.now text.now }
{
    !text.is_empty() && all_in_class(class, text)
}

/// The bytes of a label's spelling.
#[tactic(auto, unfolding(pads_bases::specs::Enums::enum_spelling))]
fn spell_enum(
    alloc: Global,
    coding: Coding,
    labels: &Labels,
    label: u16,
) -> Result<Option<Bytes>, Memory>
    ensures spelling { IfOk result (λ s. s ≡ enum_spelling coding labels.now label) }
{
    match labels.get(label.into()) {
        None => Ok(None),
        Some(label) => Ok(Some(encode_text(alloc, coding, label.spelling.as_slice())?)),
    }
}

/// The spelling of a number.
#[tactic(auto, using(crate::proofs::Values::numbers))]
fn spell_number(alloc: Global, whole: Applied<'_>, number: i128) -> Result<Option<Bytes>, Memory>
    ensures spelling { IfOk result (λ s. s ≡ spelling_of (seen whole.entry) (val.Num number)) }
{
    match whole {
        Applied::Int(kind, coding) => owned(alloc, spell_int(kind, coding, number)),
        Applied::IntFw(kind, coding, width) => spell_int_fw(alloc, kind, coding, width, number),
        Applied::Bin(kind, order, size) => {
            owned(alloc, spell_bin(range_of(kind), order, size, number))
        }
        Applied::Ip(coding) => owned(alloc, spell_ip(coding, number)),
        Applied::Packed(signed, digits) => owned(alloc, spell_packed(digits, signed, number)),
        Applied::Zoned(signed, digits) => owned(alloc, spell_zoned(digits, signed, number)),
        _ => Ok(None),
    }
}

/// The spelling of a text.
#[tactic(auto, using(crate::proofs::Values::texts), unfolding(pads_bases::specs::Classes::class_spelling, pads_bases::specs::Strings::char_spelling))]
fn spell_text(alloc: Global, whole: Applied<'_>, text: &[u8]) -> Result<Option<Bytes>, Memory>
    ensures spelling { IfOk result (λ s. s ≡ spelling_of (seen whole.entry) (val.Text text.now)) }
{
    match whole {
        Applied::Until(coding, _) => text_if(alloc, true, coding, text),
        Applied::Fixed(coding, width) => spell_fixed(alloc, coding, width, text),
        Applied::Class(coding, class) => text_if(alloc, is_class_text(class, text), coding, text),
        Applied::Char(coding) => text_if(alloc, text.len() == 1, coding, text),
        _ => Ok(None),
    }
}

/// The spelling of a label.
#[tactic(auto, using(crate::proofs::Values::labels))]
fn spell_label(alloc: Global, whole: Applied<'_>, label: u16) -> Result<Option<Bytes>, Memory>
    ensures spelling { IfOk result (λ s. s ≡ spelling_of (seen whole.entry) (val.Enum label)) }
{
    match whole {
        Applied::Enum(coding, labels) => spell_enum(alloc, coding, labels, label),
        _ => Ok(None),
    }
}

/// The spelling of a value by a base type with its arguments.
#[tactic(auto, unfolding(crate::specs::Spellings::number_of, crate::specs::Spellings::text_of, crate::specs::Spellings::label_of))]
fn spell_applied(alloc: Global, whole: Applied<'_>, v: &Val) -> Result<Option<Bytes>, Memory>
    ensures spelling { IfOk result (λ s. s ≡ spelling_of (seen whole.entry) v.now) }
{
    match v {
        Val::Num(number) => spell_number(alloc, whole, *number),
        Val::Text(text) => spell_text(alloc, whole, text.as_slice()),
        Val::Enum(label) => spell_label(alloc, whole, *label),
        _ => Ok(None),
    }
}

/// The canonical spelling of a value by a base type with its arguments. `None` exactly where there is
/// none: the arguments are bad, or the base type has no spelling of the value.
#[tactic(auto, unfolding(crate::specs::Spellings::base_spelling))]
pub fn spell_base(alloc: Global, base: &Base, args: &Args, v: &Val) -> Result<Option<Bytes>, Memory>
    ensures spelling { IfOk result (λ s. s ≡ base_spelling base.now args.now v.now) }
{
    match with_args(base, args.as_slice()) {
        None => Ok(None),
        Some(whole) => spell_applied(alloc, whole, v),
    }
}
