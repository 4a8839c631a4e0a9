//! Canonical bytes: by recursion on the term beside the value, into one buffer.
ghost use Rattle.std.specs.Prelude.{◌≡◌, ◌==◌, map, reverse, slice_get, IfOk, option_map};
ghost use Rattle.std.specs.Option.{option_copied};
ghost use Rattle.law_canonical.specs.Canonical.{before, call_spelled, canon, each_element, in_order, of_array, of_branch, of_struct};
ghost use Rattle.pads_forms.specs.Shapes.{array_in, branch_in, tuple_in};
ghost use Rattle.pads_print.specs.Writes.{arm_spells, behind, case_spells, filled, part_spells, seq_spells};
ghost use Rattle.pads_value.specs.declared.value.Val.{out-Val};

use crate::leaf;
use crate::scope::{bind, scope_over};
use pads_calc::{Arm, Case, Decl, Part, Seq, Term};
use pads_expr::{Expr, Lent};
use pads_steps::{arguments_lent, bound};
use pads_value::{Bytes, Memory, Val};
use std::alloc::Global;

/// The declarations by which values are written.
///
/// Each call appends a value's bytes to a buffer, and answers whether there are any. Where there are none
/// the buffer may have some of them.
#[derive(Drop)]
pub(crate) struct Writer<'a> {
    pub(crate) alloc: Global,
    pub(crate) decls: &'a [Decl],
}

/// The item at a place counted from 0; none past the end.
fn item<T>(items: &[T], at: u16) -> Option<&T>
    ensures item { option_copied result ≡ slice_get items.now at }
{
    items.get(at as usize)
}

impl Writer<'_> {
    /// A term's value, where names stand for these values and calls may be nested so deep.
    #[cycle(writer)]
    #[tactic(auto, using(law_canonical::proofs::Rolls::spelled_rules))]
    fn write<'x>(
        &self,
        term: &'x Term,
        value: &'x Val,
        env: &'x [Lent<'x>],
        out: &mut Bytes,
        depth: u8,
    ) -> Result<bool, Memory>
        ensures written { IfOk result (λ there. filled there out.new ≡ behind out.old (canon self.now.decls.now depth term.now (reverse env.now) value.now)) }
    {
        match term {
            Term::Unit => leaf::unit(value, out),
            Term::Base(base, args) => leaf::base(
                self.alloc,
                base,
                args.as_slice(),
                value,
                env,
                out,
            ),
            Term::Lit(literal) => leaf::literal(literal.as_slice(), value, out),
            Term::Eor => leaf::unit(value, out),
            Term::Struct(parts) => self.write_struct(parts.as_slice(), value, env, out, depth),
            Term::Alt(arms) => self.write_alt(arms.as_slice(), value, env, out, depth),
            Term::Switch(_, cases) => self.write_switch(cases.as_slice(), value, env, out, depth),
            Term::Guard(inner, _, _) => self.write(inner.get(), value, env, out, depth),
            Term::Seq(seq) => self.write_seq(seq.get(), value, env, out, depth),
            Term::Call(number, args) => {
                self.write_call(*number, args.as_slice(), value, env, out, depth)
            }
            Term::Compute(_, form) => leaf::computed(form, value, out),
            Term::Absorb(inner) => {
                if !leaf::is_unit(value) {
                    return Ok(false);
                }
                self.write(inner.get(), value, env, out, depth)
            }
            Term::Scan(inner) => self.write(inner.get(), value, env, out, depth),
        }
    }

    /// A struct's value: one part after another, and each named value in the scope of the later ones.
    #[cycle(writer)]
    fn write_struct<'x>(
        &self,
        parts: &'x [Part],
        value: &'x Val,
        env: &'x [Lent<'x>],
        out: &mut Bytes,
        depth: u8,
    ) -> Result<bool, Memory>
        ensures written { IfOk result (λ there. filled there out.new ≡ behind out.old (of_struct (map (part_spells self.now.decls.now depth) parts.now) (reverse env.now) (tuple_in (out-Val value.now)))) }
    {
        let Val::Tuple(values) = value else {
            return Ok(false);
        };
        let values = values.as_slice();
        if values.len() != parts.len() {
            return Ok(false);
        }
        let mut scope = scope_over(self.alloc, env, parts.len())?;
        for (at, part) in parts.iter().enumerate() {
            if !self.write(&part.term, &values[at], scope.as_slice(), out, depth)? {
                return Ok(false);
            }
            bind(&mut scope, part.name, &values[at])?;
        }
        Ok(true)
    }

    /// A union's value: that of the branch that it chose.
    #[cycle(writer)]
    fn write_alt<'x>(
        &self,
        arms: &'x [Arm],
        value: &'x Val,
        env: &'x [Lent<'x>],
        out: &mut Bytes,
        depth: u8,
    ) -> Result<bool, Memory>
        ensures written { IfOk result (λ there. filled there out.new ≡ behind out.old (of_branch (map (arm_spells self.now.decls.now depth) arms.now) (reverse env.now) (branch_in (out-Val value.now)))) }
    {
        let Val::Branch(number, inner) = value else {
            return Ok(false);
        };
        match item(arms, *number) {
            Some(arm) => self.write(&arm.term, inner.get(), env, out, depth),
            None => Ok(false),
        }
    }

    /// A switched union's value: that of the case that it chose.
    #[cycle(writer)]
    fn write_switch<'x>(
        &self,
        cases: &'x [Case],
        value: &'x Val,
        env: &'x [Lent<'x>],
        out: &mut Bytes,
        depth: u8,
    ) -> Result<bool, Memory>
        ensures written { IfOk result (λ there. filled there out.new ≡ behind out.old (of_branch (map (case_spells self.now.decls.now depth) cases.now) (reverse env.now) (branch_in (out-Val value.now)))) }
    {
        let Val::Branch(number, inner) = value else {
            return Ok(false);
        };
        match item(cases, *number) {
            Some(case) => self.write(&case.arm.term, inner.get(), env, out, depth),
            None => Ok(false),
        }
    }

    /// An array's value: one element after another, with separators between them.
    #[cycle(writer)]
    fn write_seq<'x>(
        &self,
        seq: &'x Seq,
        value: &'x Val,
        env: &'x [Lent<'x>],
        out: &mut Bytes,
        depth: u8,
    ) -> Result<bool, Memory>
        ensures written { IfOk result (λ there. filled there out.new ≡ behind out.old (of_array (seq_spells self.now.decls.now depth seq.now) (reverse env.now) (array_in (out-Val value.now)))) }
    {
        let Val::Array(elements) = value else {
            return Ok(false);
        };
        let mut is_first = true;
        for element in elements.as_slice() {
            if !self.write_between(seq, is_first, env, out, depth)? {
                return Ok(false);
            }
            if !self.write(&seq.elem, element, env, out, depth)? {
                return Ok(false);
            }
            is_first = false;
        }
        Ok(true)
    }

    /// What stands before an element: from the second on the separator, with nothing for its value.
    #[cycle(writer)]
    fn write_between<'x>(
        &self,
        seq: &'x Seq,
        is_first: bool,
        env: &'x [Lent<'x>],
        out: &mut Bytes,
        depth: u8,
    ) -> Result<bool, Memory>
        ensures written { IfOk result (λ there. filled there out.new ≡ behind out.old (before (option_map (canon self.now.decls.now depth) seq.now.sep) is_first (reverse env.now))) }
    {
        if is_first {
            return Ok(true);
        }
        match &seq.sep {
            None => Ok(true),
            Some(sep) => {
                let nothing = Val::Unit;
                self.write(&*sep, &nothing, &*env, out, depth)
            }
        }
    }

    /// A value of a declaration, whose body sees the arguments alone.
    #[cycle(writer)]
    pub(crate) fn write_call<'x>(
        &self,
        number: u16,
        args: &'x [Expr],
        value: &'x Val,
        env: &'x [Lent<'x>],
        out: &mut Bytes,
        depth: u8,
    ) -> Result<bool, Memory>
        ensures written { IfOk result (λ there. filled there out.new ≡ behind out.old (call_spelled self.now.decls.now depth number args.now (reverse env.now) value.now)) }
    {
        if depth == 0 {
            return Ok(false);
        }
        let Some(args) = arguments_lent(self.alloc, args, env)? else {
            return Ok(false);
        };
        let Some(decl) = item(self.decls, number) else {
            return Ok(false);
        };
        let own = bound(self.alloc, decl.params.as_slice(), &args)?;
        let scope = own.lend(self.alloc)?;
        self.write(&decl.body, value, scope.as_slice(), out, depth - 1)
    }
}
