ghost use Rattle.std.specs.Prelude.{◌≡◌, ◌++◌, codes, OnOk};
ghost use Rattle.std.specs.List.{list_all};
ghost use Rattle.std.specs.Option.{option_copied, option_map};
ghost use Rattle.pads_value.specs.declared.descriptor.Pd.{out-Pd};
ghost use Rattle.pads_json.specs.Faults.{own_fault as own_fault_of, faults as faults_of, kids_told, kid_told, is_bare_node, is_quiet as is_quiet_of, listed, fault_head, fault_tail};
ghost use Rattle.pads_forms.specs.Forms.{form_seen};
ghost use Rattle.pads_forms.specs.Slots.{slot_seen};
ghost use Rattle.pads_json.specs.Places.{place_text, steps};

use crate::number::write_span;
use crate::place::Place;
use crate::text::write_text;
use pads_calc::Term;
use pads_forms::{Form, Slot, Terms, form_at, slot_at};
use pads_value::{Bytes, Cause, Memory, Pd, Span, Val};

/// Writes what stands before the place of a fault.
fn write_fault_head(out: &mut Bytes) -> Result<(), Memory>
    ensures head { OnOk result (out.new ≡ out.old ++ fault_head) }
{
    out.extend_from_slice(br#"{"at":""#)
}

/// Writes what stands behind the place of a fault, and a comma.
fn write_fault_tail(out: &mut Bytes, cause: Cause, span: Span) -> Result<(), Memory>
    ensures tail { OnOk result (out.new ≡ out.old ++ fault_tail cause span) }
{
    out.extend_from_slice(br#"","cause":""#)?;
    write_text(out, cause.name().as_bytes())?;
    out.extend_from_slice(br#"","span":"#)?;
    write_span(out, span)?;
    out.extend_from_slice(b"},")
}

/// Writes the fault of a record's node or of the node of bytes left over, if it has one. They stand at `.`.
#[tactic(auto, using(crate::proofs::Written::own_at_point))]
pub(crate) fn write_own_at_point(out: &mut Bytes, pd: &Pd) -> Result<(), Memory>
    ensures own { OnOk result (out.new ≡ out.old ++ listed (own_fault_of (codes ".") (out-Pd pd.now).cause (out-Pd pd.now).span)) }
{
    match pd.cause {
        None => Ok(()),
        Some(cause) => {
            write_fault_head(out)?;
            write_text(out, b".")?;
            write_fault_tail(out, cause, pd.span)
        }
    }
}

/// Writes the fault of a node itself, if it has one, at its place in the body.
#[tactic(auto, using(crate::proofs::Written::own_told))]
fn write_own(out: &mut Bytes, place: &Place, pd: &Pd) -> Result<(), Memory>
    ensures own { OnOk result (out.new ≡ out.old ++ listed (own_fault_of (place_text (steps place.now)) (out-Pd pd.now).cause (out-Pd pd.now).span)) }
{
    match pd.cause {
        None => Ok(()),
        Some(cause) => {
            write_fault_head(out)?;
            place.write(out)?;
            write_fault_tail(out, cause, pd.span)
        }
    }
}

/// Whether neither a node nor any below it has a cause, as in most rows: nothing is told of them.
#[tactic(auto, using(crate::proofs::Quiet::quiet_out))]
#[cycle(quiet)]
pub(crate) fn is_quiet(pd: &Pd) -> bool
    ensures quiet { result ≡ is_quiet_of pd.now }
{
    pd.cause.is_none() && are_quiet(pd.kids.as_slice())
}

/// The same of some nodes.
#[cycle(quiet)]
fn are_quiet(kids: &[Pd]) -> bool
    ensures quiet { result ≡ list_all is_quiet_of kids.now }
{
    'kids: for i in 0..kids.len() {
        if !is_bare(&kids[i]) && !is_quiet(&kids[i]) {
            return false;
        }
    }
    true
}

/// Writes the faults of a node and of the nodes below it.
#[cycle(faults)]
pub(crate) fn write_faults<'m>(
    terms: &Terms<'m>,
    out: &mut Bytes,
    pd: &Pd,
    place: &Place<'_, 'm>,
    value: Option<&'m Val>,
    depth: u64,
    term: &'m Term,
) -> Result<(), Memory>
    ensures faults { OnOk result (out.new ≡ out.old ++ listed (faults_of terms.now.decls.now terms.now.names.now pd.now (steps place.now) (option_copied value.entry) depth term.now)) }
{
    write_own(out, place, pd)?;
    match form_at(terms, true, depth, term) {
        None => Ok(()),
        Some(form) => write_kids(terms, out, pd.kids.as_slice(), place, value, form),
    }
}

/// Whether a node has neither a cause of its own nor kids, as most do: nothing is told of it.
fn is_bare(pd: &Pd) -> bool
    ensures bare { result ≡ is_bare_node pd.now }
{
    pd.cause.is_none() && pd.kids.as_slice().is_empty()
}

/// Writes the faults of a node's kids.
#[cycle(faults)]
fn write_kids<'m>(
    terms: &Terms<'m>,
    out: &mut Bytes,
    kids: &[Pd],
    place: &Place<'_, 'm>,
    value: Option<&'m Val>,
    form: Form<'m>,
) -> Result<(), Memory>
    ensures faults { OnOk result (out.new ≡ out.old ++ listed (kids_told terms.now.decls.now terms.now.names.now (steps place.now) (option_copied value.entry) (form_seen form.entry) kids.now)) }
{
    'kids: for i in 0..kids.len() {
        if !is_bare(&kids[i]) {
            let slot = slot_at(terms, form.term, value, i as u64);
            write_kid(terms, out, &kids[i], place, form.depth, slot)?;
        }
    }
    Ok(())
}

/// Writes the faults of a kid, where the node's term gives the kid.
#[cycle(faults)]
fn write_kid<'m>(
    terms: &Terms<'m>,
    out: &mut Bytes,
    kid: &Pd,
    place: &Place<'_, 'm>,
    depth: u64,
    slot: Option<Slot<'m>>,
) -> Result<(), Memory>
    ensures faults { OnOk result (out.new ≡ out.old ++ listed (kid_told terms.now.decls.now terms.now.names.now (steps place.now) depth (option_map slot_seen slot.entry) kid.now)) }
{
    match slot {
        None => Ok(()),
        Some(slot) => {
            let below = Place::Below(&*place, slot.step);
            write_faults(terms, out, kid, &below, slot.value, depth, slot.term)
        }
    }
}
