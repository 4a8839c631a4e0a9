ghost use Rattle.std.specs.Prelude.{◌≡◌, ◌≤◌, ◌^◌, length, nat_lt, option_copied, slice_get, IfSome};
ghost use Rattle.pads_frame.specs.Fits.{FitsLimit};
ghost use Rattle.pads_orders.specs.Options.{is_option, behind, values, coding_of, records_of, records_with};
ghost use Rattle.pads_orders.specs.Orders.{value_in};

use crate::number::{hex_byte, number_to};
use crate::order::OptionName;
use crate::word::Word;
use pads_code::Coding;
use pads_frame::Discipline;

/// Whether a word is an option.
pub(crate) fn is_option(word: &Word) -> bool
    ensures option { result ≡ is_option word.now }
{
    word.as_str().as_bytes().starts_with(b"--")
}

/// What stands behind this beginning.
pub(crate) fn behind<'a>(beginning: &[u8], word: &'a [u8]) -> Option<&'a [u8]>
    ensures behind { option_copied result ≡ behind beginning.now word.now }
{
    word.strip_prefix(beginning)
}

/// The value of the first option with this beginning.
fn first<'a>(beginning: &[u8], words: &'a [Word]) -> Option<&'a [u8]>
    ensures first { option_copied result ≡ slice_get (values beginning.now words.now) 0 }
{
    let mut rest = words;
    'words: while let [word, more @ ..] = rest {
        let value = behind(beginning, word.as_str().as_bytes());
        if value.is_some() {
            return value;
        }
        rest = more;
    }
    None
}

/// Whether an option with this beginning is given more than once.
fn is_repeated(beginning: &[u8], words: &[Word]) -> bool
    ensures repeated { result ≡ nat_lt 1 (length (values beginning.now words.now)) }
{
    let mut rest = words;
    'words: while let [word, more @ ..] = rest {
        if let Some(_) = behind(beginning, word.as_str().as_bytes()) {
            return match first(beginning, more) {
                Some(_) => true,
                None => false,
            };
        }
        rest = more;
    }
    false
}

/// The value of an option: the one that is given, or else the usual one. There is none where the
/// option is given again.
pub(crate) fn value_in<'a>(name: OptionName, words: &'a [Word]) -> Option<&'a [u8]>
    ensures value { option_copied result ≡ value_in name words.now }
{
    let line = name.line();
    if is_repeated(line.beginning, words) {
        return None;
    }
    match first(line.beginning, words) {
        None => Some(line.usual),
        Some(value) => Some(value),
    }
}

/// The coding that a value names.
pub(crate) fn coding_of(value: &[u8]) -> Option<Coding>
    ensures coding { result ≡ coding_of value.now }
{
    if value == b"ascii".as_slice() {
        Some(Coding::Ascii)
    } else if value == b"ebcdic".as_slice() {
        Some(Coding::Ebcdic)
    } else {
        None
    }
}

/// By what stands behind `term:` and behind `fixed:`.
fn records_with(max: u64, terminator: Option<&[u8]>, block: Option<&[u8]>) -> Option<Discipline>
    requires small { max ≤ 2 ^ 24 }
    ensures records { result ≡ records_with max (option_copied terminator.entry) (option_copied block.entry) }
    ensures fits { IfSome result (λ discipline. FitsLimit discipline max) }
{
    if let Some(digits) = terminator {
        let byte = hex_byte(digits)?;
        return Some(Discipline::Term(byte));
    }
    let size = number_to(max, block?)?;
    Some(Discipline::Fixed(size as u32))
}

/// How the records lie in the input.
pub(crate) fn records_of(max: u64, value: &[u8]) -> Option<Discipline>
    requires small { max ≤ 2 ^ 24 }
    ensures records { result ≡ records_of max value.now }
    ensures fits { IfSome result (λ discipline. FitsLimit discipline max) }
{
    if value == b"nl".as_slice() {
        Some(Discipline::Term(b'\n'))
    } else if value == b"rdw".as_slice() {
        Some(Discipline::Rdw)
    } else if value == b"whole".as_slice() {
        Some(Discipline::Whole)
    } else {
        records_with(max, behind(b"term:", value), behind(b"fixed:", value))
    }
}
