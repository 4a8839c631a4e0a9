//! Tells what the lines of a table ask for. Each record is read twice, by the terms of its module and by their image, and
//! where the two rows aren't the same, that is told in their place.
use crate::line::Line;
use crate::masks::mask_of;
use crate::order::{Order, Record, order_of};
use crate::row_text::put_row;
use crate::term_text::{put_decl, put_names, put_shape};
use crate::trouble::Trouble;
use hex::FromHexError;
use pads_code::Coding;
use pads_compile::compile;
use pads_describe::describe;
use pads_json::record_line;
use pads_machine::Machine;
use pads_mask::mask_module;
use pads_module::Module;
use pads_value::{Frame, Mark, Refusal, Row};
use pads_walk::walk;
use std::alloc::{AllocError, Global};

/// The farthest end of a frame in a table.
const FARTHEST: u64 = 1_000_000;

/// The module of a description.
pub(crate) fn described(alloc: Global, text: &str, coding: Coding) -> Result<Module, Trouble> {
    match describe(alloc, text.as_bytes(), coding) {
        Ok(module) => Ok(module),
        Err(Refusal::Fault(_)) => Err(Trouble::Line("the description is refused")),
        Err(Refusal::Memory) => Err(Trouble::Memory),
    }
}

/// So many types, the first a number and each other of the one before, and a record of the last.
fn nested(alloc: Global, depth: u64) -> Result<String, AllocError> {
    let mut text = String::from_str(alloc, "Ptypedef Puint8 t1;")?;
    for at in 1..depth {
        let next = at + 1;
        write!(text, "Ptypedef t{at} t{next};")?;
    }
    write!(text, "Precord Pstruct r {{ t{depth} v; }};")?;
    Ok(text)
}

/// The bytes that a text in quotes or hex digits stand for.
fn bytes_of(alloc: Global, word: &str) -> Result<Vec<u8>, Trouble> {
    if let Some(open) = word.strip_prefix('"') {
        let Some(text) = open.strip_suffix('"') else {
            return Err(Trouble::Line("a text without its last quote"));
        };
        return Ok(Vec::from_slice(alloc, text.as_bytes())?);
    }
    match hex::decode(alloc, word) {
        Ok(bytes) => Ok(bytes),
        Err(FromHexError::OutOfMemory) => Err(Trouble::Memory),
        Err(_) => Err(Trouble::Line("bytes that are no text and no hex digits")),
    }
}

/// The row of a record by the image of its module.
fn read_by_image(
    alloc: Global,
    module: &Module,
    number: u64,
    frame: &Frame,
) -> Result<Row, Trouble> {
    let image = match compile(alloc, module) {
        Ok(image) => image,
        Err(Refusal::Fault(_)) => return Err(Trouble::Line("the image is too large")),
        Err(Refusal::Memory) => return Err(Trouble::Memory),
    };
    let mut machine = Machine::new(alloc, &image)?;
    Ok(machine.read_record(alloc, &image, number, frame)?)
}

/// The row of a record, which must be the same by the module's terms and by its image.
fn read_both(alloc: Global, module: &Module, number: u64, frame: &Frame) -> Result<Row, Trouble> {
    let by_image = read_by_image(alloc, module, number, frame)?;
    let row = walk(alloc, module, number, frame)?;
    if row_told(alloc, &by_image)? == row_told(alloc, &row)? {
        Ok(row)
    } else {
        Err(Trouble::Line("the image reads otherwise"))
    }
}

/// The row of a record whose bytes are there.
fn read(alloc: Global, module: &Module, record: &Record) -> Result<Row, Trouble> {
    let bytes = bytes_of(alloc, record.rest)?;
    let size = bytes.len() as u64;
    let first = record.first;
    if first > FARTHEST || size > FARTHEST {
        return Err(Trouble::Line("a record that ends too far away"));
    }
    let mark = record.mark;
    if mark == Mark::Long || mark == Mark::Broken {
        return Err(Trouble::Line("a mark of a record without bytes"));
    }
    let frame = Frame {
        first,
        end: first + size,
        bytes: bytes.as_slice(),
        mark,
    };
    read_both(alloc, module, record.number, &frame)
}

/// The row of a record whose bytes aren't kept.
fn unread(alloc: Global, module: &Module, record: &Record) -> Result<Row, Trouble> {
    let Ok(end) = record.rest.parse::<u64>() else {
        return Err(Trouble::Line("an end that is no number"));
    };
    let first = record.first;
    if first > end || end > FARTHEST {
        return Err(Trouble::Line("a record that ends before its begin or too far away"));
    }
    let mark = record.mark;
    if mark == Mark::Plain || mark == Mark::Short {
        return Err(Trouble::Line("a mark of a record with bytes"));
    }
    let frame = Frame {
        first,
        end,
        bytes: b"",
        mark,
    };
    read_both(alloc, module, record.number, &frame)
}

fn row_of(alloc: Global, module: &Module, record: &Record) -> Result<Row, Trouble> {
    match record.mark {
        Mark::Plain | Mark::Short => read(alloc, module, record),
        Mark::Long | Mark::Broken => unread(alloc, module, record),
    }
}

fn row_told(alloc: Global, row: &Row) -> Result<String, AllocError> {
    let mut out = Line::new(alloc);
    put_row(&mut out, row);
    out.put("\n");
    out.finish()
}

fn json_told(alloc: Global, module: &Module, row: &Row) -> Result<String, Trouble> {
    let line = record_line(alloc, module, row)?;
    Ok(String::from_utf8_lossy(alloc, line.as_slice())?)
}

fn module_told(alloc: Global, module: &Module) -> Result<String, AllocError> {
    let mut out = Line::new(alloc);
    for decl in module.decls.as_slice() {
        put_decl(&mut out, &module.names, decl);
        out.put("\n");
    }
    put_names(&mut out, &module.names);
    out.put("\n");
    put_shape(&mut out, &module.shape);
    out.put("\n");
    out.finish()
}

/// The module of the description above a line.
fn above(module: &Option<Module>) -> Result<&Module, Trouble> {
    match module {
        Some(module) => Ok(module),
        None => Err(Trouble::Line("no description stands above it")),
    }
}

/// Puts the mask that words stand for over the module above, or tells which of its items names nothing. Where one
/// names nothing, no module is left.
fn mask(alloc: Global, module: &mut Option<Module>, words: &str) -> Result<String, Trouble> {
    let Some(mask) = mask_of(alloc, words)? else {
        return Err(Trouble::Line("words that are no mask"));
    };
    let Some(whole) = module.take() else {
        return Err(Trouble::Line("no description stands above it"));
    };
    match mask_module(alloc, whole, &mask) {
        Ok(masked) => {
            *module = Some(masked);
            Ok(String::new(alloc))
        }
        Err(Refusal::Fault(fault)) => {
            let item = fault.item;
            Ok(format!(in alloc; "mask item {item}\n")?)
        }
        Err(Refusal::Memory) => Err(Trouble::Memory),
    }
}

/// The answer to an order. A description is kept for the lines below it.
fn answer(alloc: Global, module: &mut Option<Module>, order: Order) -> Result<String, Trouble> {
    match order {
        Order::Note => Ok(String::new(alloc)),
        Order::Describe(coding, text) => {
            *module = Some(described(alloc, text, coding)?);
            Ok(String::new(alloc))
        }
        Order::Nest(depth) => {
            let text = nested(alloc, depth)?;
            *module = Some(described(alloc, text.as_str(), Coding::Ascii)?);
            Ok(String::new(alloc))
        }
        Order::Mask(words) => mask(alloc, module, words),
        Order::Terms => Ok(module_told(alloc, above(module)?)?),
        Order::Same(record) => {
            row_of(alloc, above(module)?, &record)?;
            Ok(String::from_str(alloc, "same\n")?)
        }
        Order::Read(record) => Ok(row_told(alloc, &row_of(alloc, above(module)?, &record)?)?),
        Order::Json(record) => {
            let module = above(module)?;
            json_told(alloc, module, &row_of(alloc, module, &record)?)
        }
    }
}

/// What is told of a line of a table: the answer to what it asks for, or why there is none.
pub(crate) fn told(
    alloc: Global,
    module: &mut Option<Module>,
    line: &str,
) -> Result<String, AllocError> {
    let answer = match order_of(line) {
        Some(order) => answer(alloc, module, order),
        None => Err(Trouble::Line("no line of a table")),
    };
    match answer {
        Ok(text) => Ok(text),
        Err(Trouble::Line(why)) => format!(in alloc; "{why}\n"),
        Err(Trouble::Memory) => Err(AllocError),
    }
}
