//! The code of terms and of declarations, appended instruction by instruction.
ghost use Rattle.std.specs.Prelude.{◌≡◌, ◌+◌, ◌≤◌, ◌++◌, ◌∷◌, [], true, length, map, option_map, IfOk, OnOk};
ghost use Rattle.std.specs.List.{list_all};
ghost use Rattle.pads_module.specs.Counts.{counts_fit, decl_counts, few, option_counts};
ghost use Rattle.pads_calc.specs.Skeletons.{skeleton_of as skeleton_of_term};
ghost use Rattle.pads_compile.specs.Compiling.{IsCode};
ghost use Rattle.pads_image.specs.Blocks.{alt_block, arms_code, arms_size as arms_length, blocks, bindings_of, case_layout, followed, layout, named as named_parts, part_layout, parts_code, parts_size as parts_length, scan_block, sep_code, sep_size as sep_length, seq_layout, stop_code, stop_size as stop_length, struct_block, switch_block};
ghost use Rattle.pads_image.specs.Code.{decl_length, length_of};
ghost use Rattle.pads_image.specs.Validity.{longest};
ghost use Rattle.pads_image.specs.declared.op.Op.TheVariants as op;

use crate::leaf::{copy_option, emit_base, emit_call, emit_computed, emit_literal};
use crate::places::{SeqPlaces, alt_end, seq_places, switch_end, targets_from};
use pads_calc::{Arm, Case, Decl, Part, Seq, Term};
use pads_expr::Expr;
use pads_image::{Entries, Entry, Op, Ops};
use pads_module::skeleton_of;
use pads_value::{Items, Memory};
use std::alloc::Global;

/// Code with the entries of its declarations.
#[derive(Drop)]
pub(crate) struct Code {
    pub(crate) ops: Ops,
    pub(crate) entries: Entries,
}

/// How many parts have a name.
fn named(parts: &[Part]) -> u32
    requires few { few parts.now ≡ true }
    ensures named { result ≡ named_parts (map part_layout parts.now) }
{
    let mut named = 0;
    for part in parts {
        if part.name.is_some() {
            named += 1;
        }
    }
    named
}

/// The code of a term.
#[cycle(emit)]
#[tactic(auto, using(std::proofs::lemmas::Grind::common_steps, crate::proofs::Codes::code_rules))]
fn emit(alloc: Global, term: &Term, code: &mut Ops) -> Result<(), Memory>
    requires counts { counts_fit term.now ≡ true }
    requires short { length code.old + (layout term.now).size ≤ longest }
    ensures code { OnOk result (code.new ≡ code.old ++ (layout term.now).code (length code.old)) }
{
    match term {
        Term::Unit => code.push(Op::Unit),
        Term::Base(base, args) => emit_base(alloc, base, args.as_slice(), code),
        Term::Lit(literal) => emit_literal(alloc, literal.as_slice(), code),
        Term::Eor => code.push(Op::Eor),
        Term::Struct(parts) => emit_struct(alloc, parts.as_slice(), code),
        Term::Alt(arms) => emit_alt(alloc, arms.as_slice(), code),
        Term::Switch(e, cases) => emit_switch(alloc, e, cases.as_slice(), code),
        Term::Guard(inner, binder, condition) => {
            emit_guard(alloc, inner.get(), *binder, condition, code)
        }
        Term::Seq(seq) => emit_seq(alloc, seq.get(), code),
        Term::Call(number, args) => emit_call(alloc, *number, args.as_slice(), code),
        Term::Compute(e, form) => emit_computed(alloc, e, *form, code),
        Term::Absorb(inner) => emit_absorb(alloc, inner.get(), code),
        Term::Scan(inner) => emit_scan(alloc, inner.get(), code),
    }
}

#[cycle(emit)]
fn emit_guard(
    alloc: Global,
    inner: &Term,
    binder: u16,
    condition: &Expr,
    code: &mut Ops,
) -> Result<(), Memory>
    requires counts { counts_fit inner.now ≡ true }
    requires short { length code.old + (layout inner.now).size ≤ longest }
    ensures code { OnOk result (code.new ≡ code.old ++ (followed (layout inner.now) (op.Guard binder condition.now)).code (length code.old)) }
{
    emit(alloc, inner, code)?;
    code.push(Op::Guard(binder, condition.copy(alloc)?))
}

#[cycle(emit)]
fn emit_absorb(alloc: Global, inner: &Term, code: &mut Ops) -> Result<(), Memory>
    requires counts { counts_fit inner.now ≡ true }
    requires short { length code.old + (layout inner.now).size ≤ longest }
    ensures code { OnOk result (code.new ≡ code.old ++ (followed (layout inner.now) op.Absorb).code (length code.old)) }
{
    emit(alloc, inner, code)?;
    code.push(Op::Absorb)
}

/// The code of a search, which goes back to the term that is looked for.
#[cycle(emit)]
fn emit_scan(alloc: Global, inner: &Term, code: &mut Ops) -> Result<(), Memory>
    requires counts { counts_fit inner.now ≡ true }
    requires short { length code.old + (layout inner.now).size + 2 ≤ longest }
    ensures code { OnOk result (code.new ≡ code.old ++ (scan_block (layout inner.now)).code (length code.old)) }
{
    code.push(Op::ScanFrom)?;
    let first = code.len() as u32;
    emit(alloc, inner, code)?;
    code.push(Op::ScanOn(first))
}

#[cycle(emit)]
fn emit_struct(alloc: Global, parts: &[Part], code: &mut Ops) -> Result<(), Memory>
    requires few { few parts.now ≡ true }
    requires counts { list_all (λ part. counts_fit part.term) parts.now ≡ true }
    requires short { length code.old + parts_length (map part_layout parts.now) + 2 ≤ longest }
    ensures code { OnOk result (code.new ≡ code.old ++ (struct_block (map part_layout parts.now)).code (length code.old)) }
{
    code.push(Op::Open)?;
    emit_parts(alloc, parts, code)?;
    code.push(Op::Close(named(parts)))
}

#[cycle(emit)]
fn emit_parts(alloc: Global, parts: &[Part], code: &mut Ops) -> Result<(), Memory>
    requires counts { list_all (λ part. counts_fit part.term) parts.now ≡ true }
    requires short { length code.old + parts_length (map part_layout parts.now) ≤ longest }
    ensures code { OnOk result (code.new ≡ code.old ++ parts_code (map part_layout parts.now) (length code.old)) }
{
    for part in parts {
        emit(alloc, &part.term, code)?;
        code.push(Op::Part(part.name))?;
    }
    Ok(())
}

/// The code of a union: its branches, each of which goes on at the union's end where it was clean.
#[cycle(emit)]
fn emit_alt(alloc: Global, arms: &[Arm], code: &mut Ops) -> Result<(), Memory>
    requires few { few arms.now ≡ true }
    requires counts { list_all (λ arm. counts_fit arm.term) arms.now ≡ true }
    requires short { length code.old + arms_length (map (λ arm. layout arm.term) arms.now) + 2 ≤ longest }
    ensures code { OnOk result (code.new ≡ code.old ++ (alt_block (map (λ arm. layout arm.term) arms.now)).code (length code.old)) }
{
    let end = alt_end(arms, code.len() as u32);
    code.push(Op::Mark)?;
    emit_arms(alloc, arms, end, code)?;
    code.push(Op::NoArm)
}

#[cycle(emit)]
fn emit_arms(alloc: Global, arms: &[Arm], end: u32, code: &mut Ops) -> Result<(), Memory>
    requires few { few arms.now ≡ true }
    requires counts { list_all (λ arm. counts_fit arm.term) arms.now ≡ true }
    requires short { length code.old + arms_length (map (λ arm. layout arm.term) arms.now) ≤ longest }
    ensures code { OnOk result (code.new ≡ code.old ++ arms_code (λ number. op.Try number end) (map (λ arm. layout arm.term) arms.now) 0 (length code.old)) }
{
    let mut number = 0;
    for arm in arms {
        emit(alloc, &arm.term, code)?;
        code.push(Op::Try(number, end))?;
        number += 1;
    }
    Ok(())
}

/// The code of a switched union: where each case begins, then the cases, each of which goes on at the
/// union's end.
#[cycle(emit)]
fn emit_switch(alloc: Global, e: &Expr, cases: &[Case], code: &mut Ops) -> Result<(), Memory>
    requires few { few cases.now ≡ true }
    requires counts { list_all (λ case. counts_fit case.arm.term) cases.now ≡ true }
    requires short { length code.old + arms_length (blocks (map case_layout cases.now)) + 1 ≤ longest }
    ensures code { OnOk result (code.new ≡ code.old ++ (switch_block e.now (map case_layout cases.now)).code (length code.old)) }
{
    let first = code.len() as u32 + 1;
    let end = switch_end(cases, first);
    let targets = targets_from(alloc, cases, first)?;
    code.push(Op::Switch(e.copy(alloc)?, targets, end))?;
    emit_cases(alloc, cases, end, code)
}

#[cycle(emit)]
fn emit_cases(alloc: Global, cases: &[Case], end: u32, code: &mut Ops) -> Result<(), Memory>
    requires few { few cases.now ≡ true }
    requires counts { list_all (λ case. counts_fit case.arm.term) cases.now ≡ true }
    requires short { length code.old + arms_length (blocks (map case_layout cases.now)) ≤ longest }
    ensures code { OnOk result (code.new ≡ code.old ++ arms_code (λ number. op.Arm number end) (blocks (map case_layout cases.now)) 0 (length code.old)) }
{
    let mut number = 0;
    for case in cases {
        emit(alloc, &case.arm.term, code)?;
        code.push(Op::Arm(number, end))?;
        number += 1;
    }
    Ok(())
}

/// The code of an array: what begins it and ends it, what begins a turn, and the element.
#[cycle(emit)]
fn emit_seq(alloc: Global, seq: &Seq, code: &mut Ops) -> Result<(), Memory>
    requires elem { counts_fit seq.now.elem ≡ true }
    requires sep { option_counts seq.now.sep ≡ true }
    requires stop { option_counts seq.now.stop ≡ true }
    requires short { length code.old + (seq_layout seq.now).size ≤ longest }
    ensures code { OnOk result (code.new ≡ code.old ++ (seq_layout seq.now).code (length code.old)) }
{
    let begin = code.len() as u32;
    let SeqPlaces { elem, shut } = seq_places(seq, begin);
    emit_begin(alloc, seq, shut, code)?;
    emit_turn(alloc, &seq.sep, elem, shut, code)?;
    emit_elem(alloc, &seq.elem, shut, begin + 1, code)
}

/// The code at which an array begins and ends: its size, and what ends it but the record.
#[cycle(emit)]
fn emit_begin(alloc: Global, seq: &Seq, shut: u32, code: &mut Ops) -> Result<(), Memory>
    requires stop { option_counts seq.now.stop ≡ true }
    requires short { length code.old + (2 + stop_length (option_map layout seq.now.stop)) ≤ longest }
    requires shut { shut ≤ longest }
    ensures code { OnOk result (code.new ≡ code.old ++ op.Size seq.now.size (shut + 1) ∷ op.Full seq.now.last seq.now.elts shut ∷ stop_code (option_map layout seq.now.stop) shut (length code.old + 2)) }
{
    code.push(Op::Size(copy_option(alloc, &seq.size)?, shut + 1))?;
    code.push(Op::Full(copy_option(alloc, &seq.last)?, seq.elts, shut))?;
    emit_stop(alloc, &seq.stop, shut, code)
}

/// The code at which a turn of an array begins: the record's end, and the separator.
#[cycle(emit)]
fn emit_turn(
    alloc: Global,
    sep: &Option<Term>,
    elem: u32,
    shut: u32,
    code: &mut Ops,
) -> Result<(), Memory>
    requires counts { option_counts sep.now ≡ true }
    requires short { length code.old + (2 + sep_length (option_map layout sep.now)) ≤ longest }
    ensures code { OnOk result (code.new ≡ code.old ++ op.Edge shut ∷ op.Turn elem ∷ sep_code (option_map layout sep.now) shut (length code.old + 2)) }
{
    code.push(Op::Edge(shut))?;
    code.push(Op::Turn(elem))?;
    emit_sep(alloc, sep, shut, code)
}

/// The code of an array's element, from which the array goes on, and its end.
#[cycle(emit)]
fn emit_elem(
    alloc: Global,
    elem: &Term,
    shut: u32,
    again: u32,
    code: &mut Ops,
) -> Result<(), Memory>
    requires counts { counts_fit elem.now ≡ true }
    requires short { length code.old + (layout elem.now).size ≤ longest }
    ensures code { OnOk result (code.new ≡ code.old ++ ((layout elem.now).code (length code.old) ++ op.Elem shut again ∷ op.Shut ∷ [])) }
{
    emit(alloc, elem, code)?;
    code.push(Op::Elem(shut, again))?;
    code.push(Op::Shut)
}

/// The code of an array's terminator, where there is one.
#[cycle(emit)]
fn emit_stop(alloc: Global, stop: &Option<Term>, shut: u32, code: &mut Ops) -> Result<(), Memory>
    requires counts { option_counts stop.now ≡ true }
    requires short { length code.old + stop_length (option_map layout stop.now) ≤ longest }
    ensures code { OnOk result (code.new ≡ code.old ++ stop_code (option_map layout stop.now) shut (length code.old)) }
{
    let Some(stop) = stop else {
        return Ok(());
    };
    code.push(Op::Mark)?;
    emit(alloc, stop, code)?;
    code.push(Op::Stop(shut))
}

/// The code of an array's separator, where there is one.
#[cycle(emit)]
fn emit_sep(alloc: Global, sep: &Option<Term>, shut: u32, code: &mut Ops) -> Result<(), Memory>
    requires counts { option_counts sep.now ≡ true }
    requires short { length code.old + sep_length (option_map layout sep.now) ≤ longest }
    ensures code { OnOk result (code.new ≡ code.old ++ sep_code (option_map layout sep.now) shut (length code.old)) }
{
    let Some(sep) = sep else {
        return Ok(());
    };
    emit(alloc, sep, code)?;
    code.push(Op::Sep(shut))
}

/// The entry of a declaration whose code begins at an address.
fn entry_of(alloc: Global, decl: &Decl, first: u32) -> Result<Entry, Memory>
    ensures entry { IfOk result (λ entry. entry ≡ record { first = first; params = decl.now.params; set = decl.now.set; skeleton = skeleton_of_term decl.now.body }) }
{
    let skeleton = skeleton_of(alloc, &decl.body)?;
    Ok(Entry {
        first,
        params: Items::from_slice(alloc, decl.params.as_slice())?,
        set: decl.set,
        skeleton,
    })
}

/// The code of a declaration.
fn emit_decl(alloc: Global, decl: &Decl, code: &mut Ops) -> Result<(), Memory>
    requires counts { decl_counts decl.now ≡ true }
    requires short { length code.old + decl_length decl.now ≤ longest }
    ensures code { OnOk result (code.new ≡ code.old ++ (followed (layout decl.now.body) op.Return).code (length code.old)) }
{
    emit(alloc, &decl.body, code)?;
    code.push(Op::Return)
}

/// The code of declarations, with their entries.
pub(crate) fn emit_decls(alloc: Global, decls: &[Decl]) -> Result<Code, Memory>
    requires counts { list_all decl_counts decls.now ≡ true }
    requires short { length_of decls.now ≤ longest }
    ensures code { IfOk result (λ code. IsCode decls.now code.ops code.entries) }
{
    let mut ops = Items::new(alloc);
    let mut entries = Items::new(alloc);
    for decl in decls {
        entries.push(entry_of(alloc, decl, ops.len() as u32)?)?;
        emit_decl(alloc, decl, &mut ops)?;
    }
    Ok(Code { ops, entries })
}
