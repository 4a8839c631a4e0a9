ghost use Rattle.std.specs.Prelude.{◌≡◌, ◌≤◌, ◌++◌, length, OnOk};
ghost use Rattle.pads_calc.specs.declared.term.Term.{out-Term};
ghost use Rattle.pads_forms.specs.Forms.{called};
ghost use Rattle.serde_json.specs.Data.{object};
ghost use Rattle.serde_json.specs.Written.{compact_text, comma_if};
ghost use Rattle.pads_json.specs.Members.{members_at, numbers_of, part_told};
ghost use Rattle.pads_json.specs.Values.{shown, number_told, text_told, base_told, address_told, label_told, computed_told, term_told, struct_told, parts_told, branch_told, array_told, elements_told};

use crate::number::{write_integer, write_null};
use crate::order::{key_of, put_in_order};
use crate::orders::KeyedTerms;
use crate::text::write_quoted;
use pads_bases::{Labels, spell_ip};
use pads_calc::{Base, ComputedForm, Part, Term};
use pads_code::Coding;
use pads_forms::{arm_at, form_at};
use pads_value::{Bytes, Memory, Val};
use std::alloc::Global;

/// How many parts are put in order without memory taken.
const FEW: usize = 16;

/// Writes the value of a base type.
fn write_base(out: &mut Bytes, base: &Base, val: &Val) -> Result<(), Memory>
    ensures written { OnOk result (out.new ≡ out.old ++ compact_text (base_told base.now val.now)) }
{
    match base {
        Base::Int(_, _) | Base::IntFw(_, _) | Base::Bin(_, _) | Base::Packed(_) | Base::Zoned(_) =>
            write_number(out, val),
        Base::Until(_) | Base::UntilEor(_) | Base::Fixed(_) | Base::Class(_) | Base::Char(_) => {
            write_string(out, val)
        }
        Base::Ip(_) => write_address(out, val),
        Base::Enum(_, labels) => write_label(out, labels, val),
    }
}

/// Writes an address as its four decimals.
fn write_address(out: &mut Bytes, val: &Val) -> Result<(), Memory>
    ensures written { OnOk result (out.new ≡ out.old ++ compact_text (address_told val.now)) }
{
    match val {
        Val::Num(number) => match spell_ip(Coding::Ascii, *number) {
            Some(text) => write_quoted(out, text.as_slice()),
            None => write_null(out),
        },
        _ => write_null(out),
    }
}

/// Writes a label as its name.
fn write_label(out: &mut Bytes, labels: &Labels, val: &Val) -> Result<(), Memory>
    ensures written { OnOk result (out.new ≡ out.old ++ compact_text (label_told labels.now val.now)) }
{
    match val {
        Val::Enum(number) => match labels.get(u64::from(*number)) {
            Some(label) => write_quoted(out, label.name.as_slice()),
            None => write_null(out),
        },
        _ => write_null(out),
    }
}

fn write_number(out: &mut Bytes, val: &Val) -> Result<(), Memory>
    ensures written { OnOk result (out.new ≡ out.old ++ compact_text (number_told val.now)) }
{
    match val {
        Val::Num(number) => write_integer(out, *number),
        _ => write_null(out),
    }
}

fn write_string(out: &mut Bytes, val: &Val) -> Result<(), Memory>
    ensures written { OnOk result (out.new ≡ out.old ++ compact_text (text_told val.now)) }
{
    match val {
        Val::Text(text) => write_quoted(out, text.as_slice()),
        _ => write_null(out),
    }
}

/// Writes the value of a computed field.
fn write_computed(out: &mut Bytes, form: ComputedForm, val: &Val) -> Result<(), Memory>
    ensures written { OnOk result (out.new ≡ out.old ++ compact_text (computed_told form val.now)) }
{
    match form {
        ComputedForm::Range(_, _) => write_number(out, val),
        ComputedForm::Text => write_string(out, val),
    }
}

/// Writes a comma, where something stands before.
#[inline]
fn write_comma(out: &mut Bytes, later: bool) -> Result<(), Memory>
    ensures written { OnOk result (out.new ≡ out.old ++ comma_if later) }
{
    if later { out.push(b',') } else { Ok(()) }
}

/// The declaration that a term calls, if it is a call.
fn called_in(term: &Term) -> Option<u16>
    ensures called { result ≡ called (out-Term term.now) }
{
    match term {
        Term::Call(declaration, _) => Some(*declaration),
        _ => None,
    }
}

/// Writes a value of a term, where calls may be nested so deep.
#[tactic(auto, using(crate::proofs::Layers::shown_out))]
#[cycle(value)]
pub(crate) fn write_value<'m>(
    terms: &KeyedTerms<'m>,
    alloc: Global,
    out: &mut Bytes,
    val: &Val,
    depth: u64,
    term: &'m Term,
) -> Result<(), Memory>
    ensures written { OnOk result (out.new ≡ out.old ++ compact_text (shown terms.now.bare.decls.now terms.now.keys.now val.now depth term.now)) }
{
    match form_at(&terms.bare, false, depth, term) {
        None => write_null(out),
        Some(form) => write_form(
            terms,
            alloc,
            out,
            val,
            form.depth,
            form.term,
            called_in(term),
        ),
    }
}

/// Writes a value of a term that isn't passed through, to which a declaration may lead.
#[tactic(auto, using(pads_forms::proofs::Shapes::num_mapped, pads_forms::proofs::Shapes::text_mapped, pads_forms::proofs::Shapes::label_mapped))]
#[cycle(value)]
fn write_form<'m>(
    terms: &KeyedTerms<'m>,
    alloc: Global,
    out: &mut Bytes,
    val: &Val,
    depth: u64,
    term: &'m Term,
    declaration: Option<u16>,
) -> Result<(), Memory>
    ensures written { OnOk result (out.new ≡ out.old ++ compact_text (term_told terms.now.bare.decls.now terms.now.keys.now depth (out-Term term.now) val.now)) }
{
    match term {
        Term::Base(base, _) => write_base(out, base, val),
        Term::Compute(_, form) => write_computed(out, *form, val),
        Term::Struct(parts) => {
            write_struct(terms, alloc, out, val, depth, parts.as_slice(), declaration)
        }
        Term::Alt(_) | Term::Switch(_, _) => write_branch(terms, alloc, out, val, depth, term),
        Term::Seq(seq) => write_array(terms, alloc, out, val, depth, &seq.get().elem),
        _ => write_null(out),
    }
}

#[inline(never)]
#[cycle(value)]
fn write_struct<'m>(
    terms: &KeyedTerms<'m>,
    alloc: Global,
    out: &mut Bytes,
    val: &Val,
    depth: u64,
    parts: &'m [Part],
    declaration: Option<u16>,
) -> Result<(), Memory>
    ensures written { OnOk result (out.new ≡ out.old ++ compact_text (struct_told terms.now.bare.decls.now terms.now.keys.now depth parts.now val.now)) }
{
    match val {
        Val::Tuple(values) => {
            if values.as_slice().len() == parts.len() {
                write_parts(
                    terms,
                    alloc,
                    out,
                    values.as_slice(),
                    depth,
                    parts,
                    declaration,
                )
            } else {
                write_null(out)
            }
        }
        _ => write_null(out),
    }
}

/// Writes the object of the named parts, in the order of their keys.
#[cycle(value)]
fn write_parts<'m>(
    terms: &KeyedTerms<'m>,
    alloc: Global,
    out: &mut Bytes,
    values: &[Val],
    depth: u64,
    parts: &'m [Part],
    declaration: Option<u16>,
) -> Result<(), Memory>
    requires counts { length values.now ≡ length parts.now }
    ensures written { OnOk result (out.new ≡ out.old ++ compact_text (parts_told terms.now.bare.decls.now terms.now.keys.now depth parts.now values.now)) }
{
    match terms.keys.find(declaration, parts) {
        Some(numbers) => write_members(terms, alloc, out, values, depth, parts, numbers),
        None => write_other_parts(terms, alloc, out, values, depth, parts),
    }
}

/// The same of parts whose order isn't known.
#[inline(never)]
#[cycle(value)]
fn write_other_parts<'m>(
    terms: &KeyedTerms<'m>,
    alloc: Global,
    out: &mut Bytes,
    values: &[Val],
    depth: u64,
    parts: &'m [Part],
) -> Result<(), Memory>
    requires counts { length values.now ≡ length parts.now }
    ensures written { OnOk result (out.new ≡ out.old ++ compact_text (parts_told terms.now.bare.decls.now terms.now.keys.now depth parts.now values.now)) }
{
    if parts.len() <= FEW {
        let mut order = [0; FEW];
        return write_in_order(terms, alloc, out, values, depth, parts, &mut order);
    }
    let mut order = vec![in alloc; 0; parts.len()]?;
    write_in_order(
        terms,
        alloc,
        out,
        values,
        depth,
        parts,
        order.as_mut_slice(),
    )
}

/// The same, where `order` has room for the numbers of all parts.
#[cycle(value)]
fn write_in_order<'m>(
    terms: &KeyedTerms<'m>,
    alloc: Global,
    out: &mut Bytes,
    values: &[Val],
    depth: u64,
    parts: &'m [Part],
    order: &mut [usize],
) -> Result<(), Memory>
    requires counts { length values.now ≡ length parts.now }
    requires room { length parts.now ≤ length order.old }
    ensures written { OnOk result (out.new ≡ out.old ++ compact_text (parts_told terms.now.bare.decls.now terms.now.keys.now depth parts.now values.now)) }
{
    let count = put_in_order(terms.keys.keys(), parts, order);
    write_members(terms, alloc, out, values, depth, parts, &order[..count])
}

/// Writes the object of the parts of some numbers, in their order.
#[cycle(value)]
fn write_members<'m>(
    terms: &KeyedTerms<'m>,
    alloc: Global,
    out: &mut Bytes,
    values: &[Val],
    depth: u64,
    parts: &'m [Part],
    numbers: &[usize],
) -> Result<(), Memory>
    ensures written { OnOk result (out.new ≡ out.old ++ compact_text (object (members_at (part_told terms.now.bare.decls.now terms.now.keys.now depth parts.now values.now) (numbers_of terms.now.keys.now parts.now numbers.now)))) }
{
    out.push(b'{')?;
    let mut later = false;
    'members: for number in numbers {
        key_of(terms.keys.keys(), parts, *number).write(out, later)?;
        write_part(terms, alloc, out, values, depth, parts, *number)?;
        later = true;
    }
    out.push(b'}')
}

/// Writes the value of the part of a number.
#[cycle(value)]
fn write_part<'m>(
    terms: &KeyedTerms<'m>,
    alloc: Global,
    out: &mut Bytes,
    values: &[Val],
    depth: u64,
    parts: &'m [Part],
    number: usize,
) -> Result<(), Memory>
    ensures written { OnOk result (out.new ≡ out.old ++ compact_text (part_told terms.now.bare.decls.now terms.now.keys.now depth parts.now values.now number)) }
{
    match parts.get(number) {
        None => write_null(out),
        Some(part) => match values.get(number) {
            None => write_null(out),
            Some(val) => write_value(terms, alloc, out, val, depth, &part.term),
        },
    }
}

/// Writes the object of a branch, under the branch's name.
#[cycle(value)]
fn write_branch<'m>(
    terms: &KeyedTerms<'m>,
    alloc: Global,
    out: &mut Bytes,
    val: &Val,
    depth: u64,
    term: &'m Term,
) -> Result<(), Memory>
    ensures written { OnOk result (out.new ≡ out.old ++ compact_text (branch_told terms.now.bare.decls.now terms.now.keys.now depth (out-Term term.now) val.now)) }
{
    match val {
        Val::Branch(number, inner) => match arm_at(term, *number) {
            Some(arm) => {
                out.push(b'{')?;
                terms.keys.keys().get(arm.name).write(out, false)?;
                write_value(terms, alloc, out, inner.get(), depth, &arm.term)?;
                out.push(b'}')
            }
            None => write_null(out),
        },
        _ => write_null(out),
    }
}

#[cycle(value)]
fn write_array<'m>(
    terms: &KeyedTerms<'m>,
    alloc: Global,
    out: &mut Bytes,
    val: &Val,
    depth: u64,
    elem: &'m Term,
) -> Result<(), Memory>
    ensures written { OnOk result (out.new ≡ out.old ++ compact_text (array_told terms.now.bare.decls.now terms.now.keys.now depth elem.now val.now)) }
{
    match val {
        Val::Array(elements) => write_elements(terms, alloc, out, elements.as_slice(), depth, elem),
        _ => write_null(out),
    }
}

#[cycle(value)]
fn write_elements<'m>(
    terms: &KeyedTerms<'m>,
    alloc: Global,
    out: &mut Bytes,
    values: &[Val],
    depth: u64,
    elem: &'m Term,
) -> Result<(), Memory>
    ensures written { OnOk result (out.new ≡ out.old ++ compact_text (elements_told terms.now.bare.decls.now terms.now.keys.now depth elem.now values.now)) }
{
    out.push(b'[')?;
    let mut later = false;
    'elements: for element in values {
        write_comma(out, later)?;
        write_value(terms, alloc, out, element, depth, elem)?;
        later = true;
    }
    out.push(b']')
}
