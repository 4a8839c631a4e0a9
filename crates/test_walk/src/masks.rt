//! Masks as words: `M` or `M,D:M,..`, where M is a mode and D a declaration's name.
use pads_erase::{Mask, Mode, NamedMode, NamedModes};
use pads_value::{Bytes, Items, Memory};
use std::alloc::Global;

fn mode_of(word: &str) -> Option<Mode> {
    if word == "both" {
        Some(Mode::Both)
    } else if word == "check" {
        Some(Mode::Check)
    } else if word == "set" {
        Some(Mode::Set)
    } else if word == "none" {
        Some(Mode::None)
    } else {
        None
    }
}

/// Adds an item, unless it is none.
fn add_item(alloc: Global, named: &mut NamedModes, item: &str) -> Result<bool, Memory> {
    let Some((name, word)) = item.split_once(':') else {
        return Ok(false);
    };
    let Some(mode) = mode_of(word) else {
        return Ok(false);
    };
    let name = Bytes::from_slice(alloc, name.as_bytes())?;
    named.push(NamedMode { name, mode })?;
    Ok(true)
}

fn items_of(alloc: Global, items: &str) -> Result<Option<NamedModes>, Memory> {
    let mut named = Items::new(alloc);
    for item in items.split(',') {
        if !add_item(alloc, &mut named, item)? {
            return Ok(None);
        }
    }
    Ok(Some(named))
}

/// The mask that words stand for; none where they stand for none.
pub(crate) fn mask_of(alloc: Global, words: &str) -> Result<Option<Mask>, Memory> {
    if let Some(all) = mode_of(words) {
        let named = Items::new(alloc);
        return Ok(Some(Mask { all, named }));
    }
    let Some((first, items)) = words.split_once(',') else {
        return Ok(None);
    };
    let Some(all) = mode_of(first) else {
        return Ok(None);
    };
    Ok(match items_of(alloc, items)? {
        None => None,
        Some(named) => Some(Mask { all, named }),
    })
}
