//! A row: what the fields with one first byte read as.
use crate::form::Form;
use pads_value::{Cause, Read};
use std::alloc::{AllocError, Global};

/// What a field reads as, as a row tells it: nothing where it is soft INVALID.
fn told(alloc: Global, form: Form, first: u8, second: u8) -> Result<String, AllocError> {
    match form.read(&[first, second]) {
        Read::Soft(2, Cause::Invalid) => Ok(String::new(alloc)),
        Read::Soft(2, Cause::Range) => format!(in alloc; " {second:02x}=RANGE"),
        Read::Good(2, number) => match form.spelled(number) {
            Some((one, two)) => format!(in alloc; " {second:02x}={number}/{one:02x}{two:02x}"),
            None => format!(in alloc; " {second:02x}={number}/none"),
        },
        _ => format!(in alloc; " {second:02x}=other"),
    }
}

/// The row of a form and a first byte.
pub fn row_of(alloc: Global, form: Form, first: u8) -> Result<String, AllocError> {
    let name = form.name;
    let mut row = format!(in alloc; "{name} {first:02x}:")?;
    for second in 0..=255u8 {
        let part = told(alloc, form, first, second)?;
        row.push_str(part.as_str())?;
    }
    Ok(row)
}
