//! The value of the option `--mask`. It is looked at whole before memory is taken for a mask.
ghost use Rattle.std.specs.Prelude.{◌≡◌, ◌==◌, ◌<◌, ◌∷◌, length, option_copied, option_map, position, IfOk, IfSome};
ghost use Rattle.std.specs.List.{filter_map};
ghost use Rattle.pads_orders.specs.Masks.{are_items as are_items_of, comes_again as comes_again_of, is_named as is_named_of, item_of, mask_of, mode_of, pieces, pieces_behind};
ghost use Rattle.pads_orders.specs.MaskTexts.{mask_told};
ghost use Rattle.pads_orders.specs.Orders.{mask_in};

use crate::option::value_in;
use crate::order::OptionName;
use crate::word::Word;
use pads_erase::{Mask, Mode, NamedMode, NamedModes};
use pads_lex::is_name;
use pads_value::{Bytes, Items, Memory};
use std::alloc::Global;

/// A text that is cut at its first mark: what stands in front of it, and what behind it.
#[derive(Clone, Copy)]
struct Cut<'t> {
    front: &'t [u8],
    rest: Option<&'t [u8]>,
}

/// The place of the first such mark.
fn place_of(mark: u8, text: &[u8]) -> Option<usize>
    ensures place { result ≡ position (λ byte. byte == mark) text.now }
{
    text.iter().position(|byte| *byte == mark)
}

fn cut_at<'t>(mark: u8, text: &'t [u8]) -> Cut<'t>
    ensures cut { pieces mark text.now ≡ result.front.now ∷ pieces_behind mark (option_copied result.rest) }
    ensures shorter { IfSome (option_copied result.rest) (λ rest. length rest < length text.now) }
{
    match place_of(mark, text) {
        None => Cut {
            front: text,
            rest: None,
        },
        Some(at) => Cut {
            front: &text[..at],
            rest: Some(&text[at + 1..]),
        },
    }
}

/// The mode of this name.
fn mode_of(name: &[u8]) -> Option<Mode>
    ensures mode { result ≡ mode_of name.now }
{
    if name == b"both".as_slice() {
        Some(Mode::Both)
    } else if name == b"check".as_slice() {
        Some(Mode::Check)
    } else if name == b"set".as_slice() {
        Some(Mode::Set)
    } else if name == b"none".as_slice() {
        Some(Mode::None)
    } else {
        None
    }
}

/// An item of a mask: a declaration's name and its mode.
#[derive(Clone, Copy)]
struct Item<'t> {
    name: &'t [u8],
    mode: Mode,
}

/// The item that a text is.
fn item_in<'t>(text: &'t [u8]) -> Option<Item<'t>>
    ensures item { option_map (λ item. record { name = item.name.now; mode = item.mode }) result ≡ item_of text.now }
{
    let named = cut_at(b':', text);
    let moded = cut_at(b':', named.rest?);
    if let Some(_) = moded.rest {
        return None;
    }
    if !is_name(named.front) {
        return None;
    }
    let mode = mode_of(moded.front)?;
    Some(Item {
        name: named.front,
        mode,
    })
}

/// Whether a text is an item of this name.
fn is_named(name: &[u8], text: &[u8]) -> bool
    ensures named { result ≡ is_named_of name.now (item_of text.now) }
{
    match item_in(text) {
        Some(item) => item.name == name,
        None => false,
    }
}

/// Whether a text behind this comma is an item of this name.
fn comes_again(name: &[u8], behind: Option<&[u8]>) -> bool
    ensures again { result ≡ comes_again_of name.now (pieces_behind 44 (option_copied behind.entry)) }
{
    let mut rest = behind;
    'texts: while let Some(text) = rest {
        let item = cut_at(b',', text);
        if is_named(name, item.front) {
            return true;
        }
        rest = item.rest;
    }
    false
}

/// Whether the texts behind this comma are items, of which no two have one name.
fn are_items(behind: Option<&[u8]>) -> bool
    ensures items { result ≡ are_items_of (pieces_behind 44 (option_copied behind.entry)) }
{
    let mut rest = behind;
    'texts: while let Some(text) = rest {
        let text = cut_at(b',', text);
        let Some(item) = item_in(text.front) else {
            return false;
        };
        if comes_again(item.name, text.rest) {
            return false;
        }
        rest = text.rest;
    }
    true
}

/// The named modes of the items behind this comma.
fn named_modes(alloc: Global, behind: Option<&[u8]>) -> Result<NamedModes, Memory>
    ensures named { IfOk result (λ named. named ≡ filter_map item_of (pieces_behind 44 (option_copied behind.entry))) }
{
    let mut named = Items::new(alloc);
    let mut rest = behind;
    'texts: while let Some(text) = rest {
        let text = cut_at(b',', text);
        if let Some(item) = item_in(text.front) {
            named.push(item.named(alloc)?)?;
        }
        rest = text.rest;
    }
    Ok(named)
}

impl<'t> Item<'t> {
    /// The item, in memory of its own.
    fn named(self, alloc: Global) -> Result<NamedMode, Memory>
        ensures named { IfOk result (λ named. named ≡ record { name = self.entry.name.now; mode = self.entry.mode }) }
    {
        let mut name = Bytes::new(alloc);
        name.extend_from_slice(self.name)?;
        Ok(NamedMode {
            name,
            mode: self.mode,
        })
    }
}

/// A text that is a mask: the mode of all declarations, and the items, behind a comma.
#[derive(Clone, Copy)]
pub(crate) struct MaskText<'t> {
    all: Mode,
    items: Option<&'t [u8]>,
}

impl<'t> MaskText<'t> {
    /// The mask, in memory of its own.
    pub(crate) fn mask(self, alloc: Global) -> Result<Mask, Memory>
        ensures mask { IfOk result (λ mask. mask ≡ mask_told self.entry) }
    {
        Ok(Mask {
            all: self.all,
            named: named_modes(alloc, self.items)?,
        })
    }
}

/// The mask that a text is.
fn mask_of<'t>(text: &'t [u8]) -> Option<MaskText<'t>>
    ensures mask { option_map mask_told result ≡ mask_of text.now }
{
    let text = cut_at(b',', text);
    if !are_items(text.rest) {
        return None;
    }
    Some(MaskText {
        all: mode_of(text.front)?,
        items: text.rest,
    })
}

/// What the option for the mask comes to.
pub(crate) fn mask_in<'w>(words: &'w [Word]) -> Option<MaskText<'w>>
    ensures mask { option_map mask_told result ≡ mask_in words.now }
{
    mask_of(value_in(OptionName::Mask, words)?)
}
