//! The line of a node.

ghost use Rattle.std.specs.Prelude.{◌≡◌, ◌++◌, ◌∷◌, [], slice_get, IfOk, OnOk};
ghost use Rattle.std.specs.Option.{option_copied, option_map};
ghost use Rattle.pads_calc.specs.declared.term.Term.{out-Term};
ghost use Rattle.pads_calc.specs.Rows.{deepest};
ghost use Rattle.pads_forms.specs.Forms.{form_seen};
ghost use Rattle.serde_json.specs.Written.{compact_text};
ghost use Rattle.pads_json.specs.NodeLines as node_lines;
ghost use Rattle.pads_json.specs.NodeLines.{at_depth, node_data, node_head, node_shown, node_told, parts_in};

use crate::line::{DEPTH, class_name, room, write_member};
use crate::number::{write_null, write_span};
use crate::orders::{KeyedTerms, LineKeys};
use crate::value::write_value;
use pads_calc::Term;
use pads_forms::{Form, Terms, arm_at, form_at};
use pads_module::Module;
use pads_nodes::{Step, Steps};
use pads_value::{Bytes, Items, Memory, Pd, Val};
use std::alloc::Global;

/// The term of the part of a struct of a number.
fn part_term(term: &Term, number: u16) -> Option<&Term>
    ensures part { option_copied result ≡ option_map (λ part. part.term) (slice_get (parts_in (out-Term term.now)) number) }
{
    match term {
        Term::Struct(parts) => Some(&parts.get(u64::from(number))?.term),
        _ => None,
    }
}

/// The term of an array's elements.
fn element_term(term: &Term) -> Option<&Term>
    ensures element { option_copied result ≡ node_lines.element_in (out-Term term.now) }
{
    match term {
        Term::Seq(seq) => Some(&seq.get().elem),
        _ => None,
    }
}

/// The term of the nodes to which a step leads from one of a term.
fn kid_term(term: &Term, step: Step) -> Option<&Term>
    ensures kid { option_copied result ≡ node_lines.kid_term step (out-Term term.now) }
{
    match step {
        Step::Part(number) => part_term(term, number),
        Step::Arm(number) => Some(&arm_at(term, number)?.term),
        Step::Elem(_) | Step::Each => element_term(term),
    }
}

/// The term to which a step leads, and how deep calls may still be nested in it.
fn form_below<'m>(terms: &Terms<'m>, step: Step, here: Form<'m>) -> Option<Form<'m>>
    ensures below { option_map form_seen result ≡ node_lines.form_below terms.now.decls.now step (form_seen here.entry) }
{
    let form = form_at(terms, false, here.depth, here.term)?;
    let term = kid_term(form.term, step)?;
    Some(Form {
        depth: form.depth,
        term,
    })
}

/// The same by several steps from a body.
fn reached<'m>(terms: &Terms<'m>, body: &'m Term, steps: &[Step]) -> Option<Form<'m>>
    ensures reached { option_map form_seen result ≡ node_lines.reached terms.now.decls.now steps.now (at_depth deepest body.now) }
{
    let mut here = Form {
        depth: DEPTH,
        term: body,
    };
    'steps: for step in steps {
        match form_below(terms, *step, here) {
            None => return None,
            Some(below) => here = below,
        }
    }
    Some(here)
}

/// Writes the value of a node.
fn write_node_value<'m>(
    alloc: Global,
    terms: &KeyedTerms<'m>,
    out: &mut Bytes,
    steps: &[Step],
    body: &'m Term,
    value: &Val,
) -> Result<(), Memory>
    ensures written { OnOk result (out.new ≡ out.old ++ compact_text (node_shown terms.now.bare.decls.now terms.now.bare.names.now steps.now body.now value.now)) }
{
    match reached(&terms.bare, body, steps) {
        None => write_null(out),
        Some(here) => write_value(terms, alloc, out, value, here.depth, here.term),
    }
}

/// Writes the class, the number of faults, the record's number and the extent of a node.
fn write_node_head(out: &mut Bytes, record_number: u64, pd: &Pd) -> Result<(), Memory>
    ensures head { OnOk result (out.new ≡ out.old ++ node_head record_number pd.now) }
{
    out.extend_from_slice(br#"{"class":""#)?;
    out.extend_from_slice(class_name(pd.class).as_bytes())?;
    write_member(out, br#"","nerr":"#, pd.nerr)?;
    write_member(out, br#","record":"#, record_number)?;
    out.extend_from_slice(br#","span":"#)?;
    write_span(out, pd.span)
}

/// Writes the object of a node by its body.
fn write_node<'m>(
    alloc: Global,
    terms: &KeyedTerms<'m>,
    out: &mut Bytes,
    steps: &[Step],
    body: &'m Term,
    record_number: u64,
    value: &Val,
    pd: &Pd,
) -> Result<(), Memory>
    ensures node { OnOk result (out.new ≡ out.old ++ compact_text (node_data record_number pd.now (node_shown terms.now.bare.decls.now terms.now.bare.names.now steps.now body.now value.now))) }
{
    write_node_head(out, record_number, pd)?;
    out.extend_from_slice(br#","value":"#)?;
    write_node_value(alloc, terms, out, steps, body, value)?;
    out.push(b'}')
}

/// What the body of a record type is: a call of its declaration.
fn record_body(alloc: Global, each: u16) -> Term
    ensures body { result ≡ node_lines.record_body each }
{
    Term::Call(each, Items::new(alloc))
}

/// Writes the line of a node.
pub(crate) fn write_node_line(
    alloc: Global,
    terms: &KeyedTerms<'_>,
    out: &mut Bytes,
    each: u16,
    steps: &[Step],
    record_number: u64,
    value: &Val,
    pd: &Pd,
) -> Result<(), Memory>
    ensures line { OnOk result (out.new ≡ out.old ++ node_told terms.now.bare.decls.now terms.now.bare.names.now each steps.now record_number value.now pd.now) }
{
    let body = record_body(alloc, each);
    write_node(
        alloc,
        &terms.lent(),
        out,
        steps,
        &body,
        record_number,
        value,
        pd,
    )?;
    out.push(b'\n')
}

/// The line that tells of a node of a path. The only refusal is want of memory.
pub fn node_line(
    alloc: Global,
    description: &Module,
    steps: &Steps,
    record_number: u64,
    value: &Val,
    pd: &Pd,
) -> Result<Bytes, Memory>
    ensures line { IfOk result (λ line. line ≡ node_lines.node_text description.now steps.now record_number value.now pd.now) }
{
    let keys = LineKeys::new(alloc, description)?;
    let mut line = room(alloc)?;
    keys.write_node(
        alloc,
        description,
        &mut line,
        steps,
        record_number,
        value,
        pd,
    )?;
    Ok(line)
}
