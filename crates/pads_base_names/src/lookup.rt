//! The look-up of names.

ghost use Rattle.std.specs.Prelude.{◌≡◌, codes, option_map};
ghost use Rattle.pads_base_names.specs.Names as names;
ghost use Rattle.pads_base_names.specs.Names.{texts, decimals};
ghost use Rattle.pads_value.specs.Words.{find_word};

use crate::{BaseName, NamedCoding};
use pads_bases::Order;
use pads_int::Kind;
use pads_value::is_word;

/// The kind that a word spells.
#[tactic(auto, unfolding(crate::specs::Names::kind_of))]
fn kind_of(word: &[u8]) -> Option<Kind>
    ensures found { result ≡ names.kind_of word.now }
{
    if is_word(word, b"int8") {
        return Some(Kind::I8);
    }
    if is_word(word, b"int16") {
        return Some(Kind::I16);
    }
    if is_word(word, b"int32") {
        return Some(Kind::I32);
    }
    if is_word(word, b"int64") {
        return Some(Kind::I64);
    }
    if is_word(word, b"uint8") {
        return Some(Kind::U8);
    }
    if is_word(word, b"uint16") {
        return Some(Kind::U16);
    }
    if is_word(word, b"uint32") {
        return Some(Kind::U32);
    }
    if is_word(word, b"uint64") {
        return Some(Kind::U64);
    }
    None
}

/// The kind before `_FW`.
#[tactic(auto, unfolding(crate::specs::Names::field_of))]
fn field_of(word: &[u8]) -> Option<Kind>
    ensures found { result ≡ names.field_of word.now }
{
    if is_word(word, b"int8_FW") {
        return Some(Kind::I8);
    }
    if is_word(word, b"int16_FW") {
        return Some(Kind::I16);
    }
    if is_word(word, b"int32_FW") {
        return Some(Kind::I32);
    }
    if is_word(word, b"int64_FW") {
        return Some(Kind::I64);
    }
    if is_word(word, b"uint8_FW") {
        return Some(Kind::U8);
    }
    if is_word(word, b"uint16_FW") {
        return Some(Kind::U16);
    }
    if is_word(word, b"uint32_FW") {
        return Some(Kind::U32);
    }
    if is_word(word, b"uint64_FW") {
        return Some(Kind::U64);
    }
    None
}

/// The base types that are no integers.
fn text_of(word: &[u8], coding: NamedCoding) -> Option<BaseName>
    ensures found { result ≡ find_word word.now (texts coding) }
{
    if is_word(word, b"string") {
        return Some(BaseName::Until(coding));
    }
    if is_word(word, b"string_FW") {
        return Some(BaseName::Fixed(coding));
    }
    if is_word(word, b"string_in") {
        return Some(BaseName::Class(coding));
    }
    if is_word(word, b"char") {
        return Some(BaseName::Char(coding));
    }
    if is_word(word, b"ip") {
        return Some(BaseName::Ip(coding));
    }
    None
}

/// What stands behind a prefix that says the coding.
fn coded(word: &[u8], coding: NamedCoding) -> Option<BaseName>
    ensures found { result ≡ names.coded coding word.now }
{
    if let Some(kind) = kind_of(word) {
        return Some(BaseName::Int(coding, kind));
    }
    if let Some(kind) = field_of(word) {
        return Some(BaseName::IntFw(coding, kind));
    }
    text_of(word, coding)
}

/// What stands behind a prefix of a word, where it has that prefix.
#[tactic(auto, unfolding(crate::specs::Names::behind))]
fn behind<'a>(word: &'a [u8], prefix: &[u8]) -> Option<&'a [u8]>
    ensures rest { option_map (λ rest. rest.now) result ≡ names.behind prefix.now word.now }
{
    word.strip_prefix(prefix)
}

fn prefixed(word: &[u8], prefix: &[u8], coding: NamedCoding) -> Option<BaseName>
    ensures found { result ≡ names.prefixed prefix.now (names.coded coding) word.now }
{
    coded(behind(word, prefix)?, coding)
}

fn binary(word: &[u8]) -> Option<BaseName>
    ensures found { result ≡ names.prefixed (codes "Pb_") names.binary word.now }
{
    let kind = kind_of(behind(word, b"Pb_")?)?;
    Some(BaseName::Bin(kind))
}

fn sized(word: &[u8], prefix: &[u8], order: Order) -> Option<BaseName>
    ensures found { result ≡ names.prefixed prefix.now (names.sized order) word.now }
{
    let kind = kind_of(behind(word, prefix)?)?;
    Some(BaseName::SizedBin(order, kind))
}

fn of_coding(word: &[u8]) -> Option<BaseName>
    ensures found { result ≡ names.of_coding word.now }
{
    if let Some(name) = prefixed(word, b"Pa_", NamedCoding::Ascii) {
        return Some(name);
    }
    if let Some(name) = prefixed(word, b"Pe_", NamedCoding::Ebcdic) {
        return Some(name);
    }
    prefixed(word, b"P", NamedCoding::Ambient)
}

fn of_binary(word: &[u8]) -> Option<BaseName>
    ensures found { result ≡ names.of_binary word.now }
{
    if let Some(name) = binary(word) {
        return Some(name);
    }
    if let Some(name) = sized(word, b"Psbl_", Order::Low) {
        return Some(name);
    }
    sized(word, b"Psbh_", Order::High)
}

/// The decimals of mainframes.
fn decimal_of(word: &[u8]) -> Option<BaseName>
    ensures found { result ≡ find_word word.now decimals }
{
    if is_word(word, b"Ppacked") {
        return Some(BaseName::Packed(true));
    }
    if is_word(word, b"Pupacked") {
        return Some(BaseName::Packed(false));
    }
    if is_word(word, b"Pzoned") {
        return Some(BaseName::Zoned(true));
    }
    if is_word(word, b"Puzoned") {
        return Some(BaseName::Zoned(false));
    }
    None
}

/// The base type that a name means; `None` exactly where it is none's.
#[tactic(auto, unfolding(crate::specs::Names::base_name))]
pub fn base_name(word: &[u8]) -> Option<BaseName>
    ensures table { result ≡ names.base_name word.now }
{
    if let Some(name) = of_coding(word) {
        return Some(name);
    }
    if let Some(name) = of_binary(word) {
        return Some(name);
    }
    decimal_of(word)
}
