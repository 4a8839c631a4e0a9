ghost use Rattle.std.specs.Prelude.{◌≡◌, ◌++◌, ◌∷◌, ℕ, List, [], length, false, decimal, IfOk, OnOk};
ghost use Rattle.pads_value.specs.declared.descriptor.Pd.{out-Pd};
ghost use Rattle.serde_json.specs.Data.{Data, array};
ghost use Rattle.serde_json.specs.View.{items_of};
ghost use Rattle.serde_json.specs.Written.{compact_text, items_text};
ghost use Rattle.pads_json.specs.Faults.{listed};
ghost use Rattle.pads_json.specs.Lines.{class_name as class_name_of, body_of, extra_fault, body_faults, row_faults, head_text, counts_text, row_data, line_told, row_line};

use crate::faults::{is_quiet, write_faults, write_own_at_point};
use crate::number::{write_count, write_span};
use crate::orders::{KeyedTerms, LineKeys};
use crate::place::Place;
use crate::value::write_value;
use pads_calc::{DEEPEST, Shape, Term};
use pads_forms::Terms;
use pads_module::Module;
use pads_value::{Bytes, Class, Items, Memory, Pd, Row, Val};
use std::alloc::Global;

/// How deep calls may be nested in a record.
pub(crate) const DEPTH: u64 = DEEPEST as u64;

/// Room for most lines, in bytes.
const ROOM: usize = 512;

pub(crate) fn class_name(class: Class) -> &'static str
    ensures name { result.now ≡ class_name_of class }
{
    match class {
        Class::Ok => "Ok",
        Class::Err => "Err",
        Class::Fail => "Fail",
    }
}

/// What a record's body is: a call of its declaration.
fn body(alloc: Global, shape: Shape, record_number: u64) -> Term
    ensures body { result ≡ body_of shape record_number }
{
    Term::Call(shape.type_of(record_number), Items::new(alloc))
}

/// Writes the fault of the node of bytes left over.
fn write_extra(out: &mut Bytes, kids: &[Pd]) -> Result<(), Memory>
    ensures extra { OnOk result (out.new ≡ out.old ++ listed (extra_fault kids.now)) }
{
    match kids.first() {
        None => Ok(()),
        Some(extra) => write_own_at_point(out, extra),
    }
}

/// Writes the faults of a record's body and of the bytes left over behind them.
#[tactic(auto, using(crate::proofs::Written::listed_append))]
fn write_body_faults<'m>(
    terms: &Terms<'m>,
    out: &mut Bytes,
    kids: &[Pd],
    value: &'m Val,
    body: &'m Term,
) -> Result<(), Memory>
    ensures body { OnOk result (out.new ≡ out.old ++ listed (body_faults terms.now.decls.now terms.now.names.now body.now value.now kids.now)) }
{
    match kids {
        [] => Ok(()),
        [kid, more @ ..] => {
            write_faults(terms, out, kid, &Place::Body, Some(value), DEPTH, body)?;
            write_extra(out, more)
        }
    }
}

/// Writes all faults of a row, each with a comma behind it.
#[tactic(auto, using(crate::proofs::Written::listed_append, crate::proofs::Quiet::quiet_row))]
fn write_row_faults<'m>(
    terms: &Terms<'m>,
    out: &mut Bytes,
    row: &'m Row,
    body: &'m Term,
) -> Result<(), Memory>
    ensures faults { OnOk result (out.new ≡ out.old ++ listed (row_faults terms.now.decls.now terms.now.names.now body.now row.now.value row.now.pd)) }
{
    if is_quiet(&row.pd) {
        return Ok(());
    }
    write_own_at_point(out, &row.pd)?;
    write_body_faults(terms, out, row.pd.kids.as_slice(), &row.value, body)
}

/// Writes the array of all faults of a row.
fn write_fault_array<'m>(
    terms: &Terms<'m>,
    out: &mut Bytes,
    row: &'m Row,
    body: &'m Term,
) -> Result<(), Memory>
    ensures faults { OnOk result (out.new ≡ out.old ++ compact_text (array (items_of (row_faults terms.now.decls.now terms.now.names.now body.now row.now.value row.now.pd)))) }
{
    out.push(b'[')?;
    let begin = out.len();
    write_row_faults(terms, out, row, body)?;
    close_faults(out, begin)
}

/// Closes an array of faults, which has a comma behind each of them.
fn close_faults(out: &mut Bytes, begin: u64) -> Result<(), Memory>
    ensures closed { OnOk result ((front : List ℕ) (told : List Data) → out.old ≡ front ++ listed told → length front ≡ begin → out.new ≡ front ++ items_text false (items_of told)) }
{
    if out.len() > begin {
        drop(out.pop());
    }
    out.push(b']')
}

/// Writes the class and the faults of a row.
fn write_head<'m>(
    terms: &Terms<'m>,
    out: &mut Bytes,
    row: &'m Row,
    body: &'m Term,
) -> Result<(), Memory>
    ensures head { OnOk result (out.new ≡ out.old ++ head_text (out-Pd row.now.pd).class (row_faults terms.now.decls.now terms.now.names.now body.now row.now.value row.now.pd)) }
{
    out.extend_from_slice(br#"{"class":""#)?;
    out.extend_from_slice(class_name(row.pd.class).as_bytes())?;
    out.extend_from_slice(br#"","faults":"#)?;
    write_fault_array(terms, out, row, body)
}

/// Writes a number of a row under its key.
pub(crate) fn write_member(out: &mut Bytes, key: &[u8], count: u64) -> Result<(), Memory>
    ensures member { OnOk result (out.new ≡ out.old ++ (key.now ++ decimal count)) }
{
    out.extend_from_slice(key)?;
    write_count(out, count)
}

/// Writes the number of faults of a row, where it ends, which it is and its extent.
fn write_counts(out: &mut Bytes, row: &Row) -> Result<(), Memory>
    ensures counts { OnOk result (out.new ≡ out.old ++ counts_text row.now) }
{
    write_member(out, br#","nerr":"#, row.pd.nerr)?;
    write_member(out, br#","next":"#, row.next)?;
    write_member(out, br#","record":"#, row.number)?;
    out.extend_from_slice(br#","span":"#)?;
    write_span(out, row.pd.span)
}

/// Writes the object of a row whose body is known.
fn write_object<'m>(
    terms: &KeyedTerms<'m>,
    alloc: Global,
    out: &mut Bytes,
    row: &'m Row,
    body: &'m Term,
) -> Result<(), Memory>
    ensures row { OnOk result (out.new ≡ out.old ++ compact_text (row_data terms.now.bare.decls.now terms.now.bare.names.now body.now row.now)) }
{
    write_head(&terms.bare, out, row, body)?;
    write_counts(out, row)?;
    out.extend_from_slice(br#","value":"#)?;
    write_value(terms, alloc, out, &row.value, DEPTH, body)?;
    out.push(b'}')
}

/// Writes the line of a row whose body is known.
fn write_row<'m>(
    terms: &KeyedTerms<'m>,
    alloc: Global,
    out: &mut Bytes,
    row: &'m Row,
    body: &'m Term,
) -> Result<(), Memory>
    ensures row { OnOk result (out.new ≡ out.old ++ (compact_text (row_data terms.now.bare.decls.now terms.now.bare.names.now body.now row.now) ++ 10 ∷ [])) }
{
    write_object(terms, alloc, out, row, body)?;
    out.push(b'\n')
}

/// Writes the line of a row, by the declarations, the names and the shape of its module.
pub(crate) fn write_line(
    alloc: Global,
    terms: &KeyedTerms<'_>,
    out: &mut Bytes,
    shape: Shape,
    row: &Row,
) -> Result<(), Memory>
    ensures line { OnOk result (out.new ≡ out.old ++ line_told terms.now.bare.decls.now terms.now.bare.names.now shape row.now) }
{
    let body = body(alloc, shape, row.number);
    write_row(&terms.lent(), alloc, out, &*row, &body)
}

/// Bytes without any, with room for most lines.
pub(crate) fn room(alloc: Global) -> Result<Bytes, Memory>
    ensures empty { IfOk result (λ room. room ≡ []) }
{
    Ok(Items::from_vec(Vec::with_capacity(alloc, ROOM)?))
}

/// The line that tells of a record. The only refusal is want of memory.
pub fn record_line(alloc: Global, description: &Module, row: &Row) -> Result<Bytes, Memory>
    ensures line { IfOk result (λ line. line ≡ row_line description.now row.now) }
{
    let keys = LineKeys::new(alloc, description)?;
    let mut line = room(alloc)?;
    keys.write_record(alloc, description, &mut line, row)?;
    Ok(line)
}
