ghost use Rattle.std.specs.Prelude.{◌≡◌, ◌≤◌, [], true, Some, None, IfOk, IfErr, ◌≢◌, OnOk};
ghost use Rattle.pads_mask.specs.Masks.{fault_of, masked as masked_of};
ghost use Rattle.pads_erase.specs.declared.mode.Mode.TheVariants as mode_form;
ghost use Rattle.pads_ast.specs.declared.decl.Ast.{Ast};
ghost use Rattle.pads_describe.specs.Describing.{Describes};
ghost use Rattle.pads_describe.specs.Trees.{IsAccepted};
ghost use Rattle.pads_question.specs.Questions.{IsAsked};
ghost use Rattle.pads_tool.specs.FileReads.{ReadsOnce};
ghost use Rattle.pads_tool.specs.Images.{HasImage, IsReadIn, IsUnreadFor};
ghost use Rattle.pads_orders.specs.Orders.{greatest_scan};
ghost use Rattle.pads_tool.specs.Masking.{IsBounded, IsMaskFault, IsMaskedIn, IsReadUnder, IsRefusedUnder, bounded};
ghost use Rattle.pads_tool.specs.Querying.{IsAskedIn, IsQuestionFault, IsUnaskedFor, IsUnaskedOf};
ghost use Rattle.pads_tool.specs.Texts.{IsAcceptedIn, IsDescribedIn, IsRefusedFor, IsTextIn, StopsBefore, StopsFor};
ghost use Rattle.pads_tool.specs.declared.ending.Ending.TheVariants as ending;
ghost use Rattle.law_calculus.specs.Plain.{Plain};
ghost use Rattle.pads_module.specs.Modules.{Contents, contents};
ghost use Rattle.pads_calc.specs.Skeletons.{KeepsAll};

use crate::description::Described;
use crate::ending::Ending;
use crate::files::read_description;
use crate::query::Answers;
use crate::reader::Reader;
use crate::reason::Reason;
use pads_code::Coding;
use pads_compile::{LONGEST, image_length};
use pads_describe::Verdict;
use pads_erase::{Mask, Mode};
use pads_io::Files;
use pads_json::LineKeys;
use pads_mask::mask_module;
use pads_module::Module;
use pads_orders::Question;
use pads_question::{Asked, question};
use pads_value::{Bytes, Refusal};
use std::alloc::Global;

/// The text in a description's file, or how the run ends without it.
fn text_in<F: Files>(alloc: Global, files: &mut F, name: &str) -> Result<Bytes, Ending>
    ensures text { IfOk result (IsTextIn (F.content files.old name.now)) }
    ensures stops { IfErr result (StopsBefore (IsRefusedFor (F.content files.old name.now)) (F.faults files.old) (F.faults files.new)) }
    ensures reads { ReadsOnce F.reads name.now files.old files.new }
    ensures kept { OnOk result (F.faults files.new ≡ F.faults files.old) }
    ensures untold { IfErr result (λ stop. stop ≢ ending.FileFault → F.faults files.new ≡ F.faults files.old) }
{
    match read_description(alloc, files, name) {
        Ok(Described::Text(text)) => Ok(text),
        Ok(Described::TooLong) => Err(Ending::Refused(Reason::Description(Verdict::TooLong))),
        Err(Refusal::Fault(_)) => Err(Ending::FileFault),
        Err(Refusal::Memory) => Err(Ending::Memory),
    }
}

/// How many declarations the description in a file has, or how the run ends without it.
pub(crate) fn accepted_in<F: Files>(
    alloc: Global,
    files: &mut F,
    name: &str,
    coding: Coding,
) -> Result<u64, Ending>
    ensures accepted { IfOk result (IsAcceptedIn (F.content files.old name.now)) }
    ensures small { IfOk result (λ count. (made : Contents) × IsReadIn (F.content files.old name.now) coding made) }
    ensures stops { IfErr result (StopsBefore (IsUnreadFor (F.content files.old name.now) coding) (F.faults files.old) (F.faults files.new)) }
    ensures reads { ReadsOnce F.reads name.now files.old files.new }
    ensures kept { OnOk result (F.faults files.new ≡ F.faults files.old) }
    ensures untold { IfErr result (λ stop. stop ≢ ending.FileFault → F.faults files.new ≡ F.faults files.old) }
{
    let made = match described_in(alloc, files, name, coding) {
        Ok(made) => made,
        Err(ending) => return Err(ending),
    };
    if image_length(&made) > LONGEST {
        return Err(Ending::Refused(Reason::ImageTooLarge));
    }
    Ok(made.decls.len())
}

/// The module that a text describes, or how the run ends without it.
pub(crate) fn described_by(alloc: Global, text: &[u8], coding: Coding) -> Result<Module, Ending>
    ensures described { IfOk result (λ made. Describes text.now coding (contents made)) }
    ensures plain { IfOk result (λ made. Plain (contents made).decls) }
    ensures keeps_all { IfOk result (λ made. KeepsAll (contents made).decls) }
    ensures stops { IfErr result (StopsFor (IsRefusedFor (Some text.now))) }
{
    match pads_describe::describe(alloc, text, coding) {
        Ok(made) => Ok(made),
        Err(Refusal::Fault(verdict)) => Err(Ending::Refused(Reason::Description(verdict))),
        Err(Refusal::Memory) => Err(Ending::Memory),
    }
}

/// The module of the description in a file, or how the run ends without it.
fn described_in<F: Files>(
    alloc: Global,
    files: &mut F,
    name: &str,
    coding: Coding,
) -> Result<Module, Ending>
    ensures described { IfOk result (λ made. IsDescribedIn (F.content files.old name.now) coding (contents made)) }
    ensures plain { IfOk result (λ made. Plain (contents made).decls) }
    ensures keeps_all { IfOk result (λ made. KeepsAll (contents made).decls) }
    ensures stops { IfErr result (StopsBefore (IsRefusedFor (F.content files.old name.now)) (F.faults files.old) (F.faults files.new)) }
    ensures reads { ReadsOnce F.reads name.now files.old files.new }
    ensures kept { OnOk result (F.faults files.new ≡ F.faults files.old) }
    ensures untold { IfErr result (λ stop. stop ≢ ending.FileFault → F.faults files.new ≡ F.faults files.old) }
{
    match text_in(alloc, files, name) {
        Ok(text) => described_by(alloc, text.as_slice(), coding),
        Err(ending) => Err(ending),
    }
}

/// What reads by the description in a file, with this bound on searches, or how the run ends without it.
pub(crate) fn read_in<F: Files>(
    alloc: Global,
    files: &mut F,
    name: &str,
    coding: Coding,
    scan: u32,
) -> Result<Reader, Ending>
    requires scan { scan ≤ greatest_scan }
    ensures read { IfOk result (λ reader. IsBounded scan (λ whole. IsReadIn (F.content files.old name.now) coding whole) (contents reader.module)) }
    ensures plain { IfOk result (λ reader. Plain (contents reader.module).decls) }
    ensures keeps_all { IfOk result (λ reader. KeepsAll (contents reader.module).decls) }
    ensures stops { IfErr result (StopsBefore (IsUnreadFor (F.content files.old name.now) coding) (F.faults files.old) (F.faults files.new)) }
    ensures reads { ReadsOnce F.reads name.now files.old files.new }
    ensures kept { OnOk result (F.faults files.new ≡ F.faults files.old) }
    ensures untold { IfErr result (λ stop. stop ≢ ending.FileFault → F.faults files.new ≡ F.faults files.old) }
{
    match described_in(alloc, files, name, coding) {
        Ok(made) => Reader::bounded(alloc, made, scan),
        Err(ending) => Err(ending),
    }
}

/// Whether everything is checked and kept under a mask.
fn is_whole(mask: &Mask) -> bool
    ensures whole { result ≡ true → mask.now ≡ record { all = mode_form.Both; named = [] } }
{
    mask.all == Mode::Both && mask.named.is_empty()
}

/// The module under a mask, or how the run ends without it. Where everything is checked and kept, nothing is
/// done.
fn masked(alloc: Global, whole: Module, mask: &Mask) -> Result<Module, Ending>
    ensures masked { IfOk result (λ made. (fault_of (contents whole) mask.now ≡ None) × (contents made ≡ masked_of (contents whole) mask.now)) }
    ensures stops { IfErr result (StopsFor (IsMaskFault (contents whole) mask.now)) }
{
    if is_whole(mask) {
        return Ok(whole);
    }
    match mask_module(alloc, whole, mask) {
        Ok(made) => Ok(made),
        Err(Refusal::Fault(fault)) => Err(Ending::Refused(Reason::MaskItem(fault.item))),
        Err(Refusal::Memory) => Err(Ending::Memory),
    }
}

/// The module of the description in a file under a mask, or how the run ends without it.
fn masked_in<F: Files>(
    alloc: Global,
    files: &mut F,
    name: &str,
    coding: Coding,
    mask: &Mask,
) -> Result<Module, Ending>
    ensures masked { IfOk result (λ made. IsMaskedIn (F.content files.old name.now) coding mask.now (contents made)) }
    ensures stops { IfErr result (StopsBefore (IsRefusedUnder (F.content files.old name.now) coding mask.now) (F.faults files.old) (F.faults files.new)) }
    ensures reads { ReadsOnce F.reads name.now files.old files.new }
    ensures kept { OnOk result (F.faults files.new ≡ F.faults files.old) }
    ensures untold { IfErr result (λ stop. stop ≢ ending.FileFault → F.faults files.new ≡ F.faults files.old) }
{
    match described_in(alloc, files, name, coding) {
        Ok(whole) => masked(alloc, whole, mask),
        Err(ending) => Err(ending),
    }
}

/// What reads by the description in a file under a mask, with this bound on searches, or how the run ends
/// without it.
pub(crate) fn read_under<F: Files>(
    alloc: Global,
    files: &mut F,
    name: &str,
    coding: Coding,
    mask: &Mask,
    scan: u32,
) -> Result<Reader, Ending>
    requires scan { scan ≤ greatest_scan }
    ensures read { IfOk result (λ reader. IsBounded scan (λ whole. IsReadUnder (F.content files.old name.now) coding mask.now whole) (contents reader.module)) }
    ensures stops { IfErr result (StopsBefore (IsRefusedUnder (F.content files.old name.now) coding mask.now) (F.faults files.old) (F.faults files.new)) }
    ensures reads { ReadsOnce F.reads name.now files.old files.new }
    ensures kept { OnOk result (F.faults files.new ≡ F.faults files.old) }
    ensures untold { IfErr result (λ stop. stop ≢ ending.FileFault → F.faults files.new ≡ F.faults files.old) }
{
    match masked_in(alloc, files, name, coding, mask) {
        Ok(made) => Reader::bounded(alloc, made, scan),
        Err(ending) => Err(ending),
    }
}

/// What a question asks by an accepted text and its module under a mask, or how the run ends without it.
fn asked_of(alloc: Global, text: &[u8], made: &Module, asks: &Question) -> Result<Asked, Ending>
    requires accepted { (tree : Ast) × IsAccepted text.now tree }
    ensures asked { (tree : Ast) → IsAccepted text.now tree → IfOk result (λ asked. IsAsked tree (contents made.now) asks.now.path asks.now.filter asked) }
    ensures stops { (tree : Ast) → IsAccepted text.now tree → IfErr result (StopsFor (IsQuestionFault tree (contents made.now) asks.now)) }
{
    let filter = match &asks.filter {
        None => None,
        Some(filter) => Some(filter.as_str().as_bytes()),
    };
    match question(alloc, text, made, asks.path.as_str().as_bytes(), filter) {
        Ok(asked) => Ok(asked),
        Err(Refusal::Fault(fault)) => Err(Ending::Refused(Reason::Question(fault))),
        Err(Refusal::Memory) => Err(Ending::Memory),
    }
}

/// What reads for a question by an accepted text and its module under a mask, with this bound on searches, and what it asks,
/// or how the run ends without it.
fn asked_by(
    alloc: Global,
    text: &[u8],
    made: Module,
    asks: &Question,
    scan: u32,
) -> Result<Answers, Ending>
    requires accepted { (tree : Ast) × IsAccepted text.now tree }
    requires scan { scan ≤ greatest_scan }
    ensures made { IfOk result (λ answers. contents answers.reader.module ≡ bounded scan (contents made)) }
    ensures small { IfOk result (λ answers. HasImage (contents answers.reader.module)) }
    ensures asked { (tree : Ast) → IsAccepted text.now tree → IfOk result (λ answers. IsAsked tree (contents made) asks.now.path asks.now.filter answers.asked) }
    ensures stops { (tree : Ast) → IsAccepted text.now tree → IfErr result (StopsFor (IsUnaskedOf tree (contents made) asks.now)) }
{
    let asked = match asked_of(alloc, text, &made, asks) {
        Ok(asked) => asked,
        Err(ending) => return Err(ending),
    };
    let reader = match Reader::bounded(alloc, made, scan) {
        Ok(reader) => reader,
        Err(ending) => return Err(ending),
    };
    match LineKeys::new(alloc, &reader.module) {
        Ok(keys) => Ok(Answers {
            reader,
            asked,
            keys,
        }),
        Err(_) => Err(Ending::Memory),
    }
}

/// What a question asks by the description in a file under a mask, and what reads for it with this bound on searches, or how
/// the run ends without it.
pub(crate) fn asked_in<F: Files>(
    alloc: Global,
    files: &mut F,
    asks: &Question,
    coding: Coding,
    mask: &Mask,
    scan: u32,
) -> Result<Answers, Ending>
    requires scan { scan ≤ greatest_scan }
    ensures asked { IfOk result (λ answers. IsBounded scan (λ whole. IsAskedIn (F.content files.old asks.now.description) coding mask.now asks.now answers.asked whole × HasImage whole)
        (contents answers.reader.module)) }
    ensures stops { IfErr result (StopsBefore (IsUnaskedFor (F.content files.old asks.now.description) coding mask.now asks.now) (F.faults files.old) (F.faults files.new)) }
    ensures reads { ReadsOnce F.reads asks.now.description files.old files.new }
    ensures kept { OnOk result (F.faults files.new ≡ F.faults files.old) }
    ensures untold { IfErr result (λ stop. stop ≢ ending.FileFault → F.faults files.new ≡ F.faults files.old) }
{
    let text = match text_in(alloc, files, asks.description.as_str()) {
        Ok(text) => text,
        Err(ending) => return Err(ending),
    };
    let whole = match described_by(alloc, text.as_slice(), coding) {
        Ok(whole) => whole,
        Err(ending) => return Err(ending),
    };
    match masked(alloc, whole, mask) {
        Ok(made) => asked_by(alloc, text.as_slice(), made, asks, scan),
        Err(ending) => Err(ending),
    }
}
