//! The verdict on a description, as a row says it.

use crate::shown::difference;
use crate::trouble::Trouble;
use pads_describe::check_text;
use pads_value::Refusal;
use std::alloc::Global;

/// The verdict on a text where it isn't the wanted one; nothing where it is. A row says it as `accepted N` where N
/// declarations are accepted, and else as the words behind `pads: refused: description` on the line of the refusal.
pub fn verdict_on(alloc: Global, text: &[u8], wanted: &str) -> Result<String, Trouble> {
    match check_text(alloc, text) {
        Ok(count) => {
            let told = format!(in alloc; "accepted {count}")?;
            Ok(difference(alloc, told.as_bytes(), wanted.as_bytes())?)
        }
        Err(Refusal::Fault(verdict)) => {
            let line = format!(in alloc; "pads: refused: description {wanted}\n")?;
            Ok(difference(alloc, verdict.line().as_slice(), line.as_bytes())?)
        }
        Err(Refusal::Memory) => Err(Trouble::Memory),
    }
}
