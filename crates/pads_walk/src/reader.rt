ghost use Rattle.std.specs.Prelude.{◌≡◌, ◌≤◌, true, length, map, slice_get, IfOk, IfSome, OnOk};
ghost use Rattle.std.specs.List.{list_all};
ghost use Rattle.std.specs.Option.{option_copied, option_map};
ghost use Rattle.pads_calc.specs.Arguments.{argument};
ghost use Rattle.pads_calc.specs.Arrays.{ending_at, is_stopped, turn_from, element_at as element_place, seq_of};
ghost use Rattle.pads_calc.specs.Choices.{alt_from, chosen as chosen_of, switch_of};
ghost use Rattle.pads_module.specs.Counts.{few, counts_fit, option_counts, module_counts};
ghost use Rattle.pads_calc.specs.Places.{EndsWithin, TurnsWithin};
ghost use Rattle.pads_steps.specs.Records.{subject_of};
ghost use Rattle.pads_calc.specs.Structs.{in_turn, struct_of};
ghost use Rattle.pads_calc.specs.Wrappers.{scan};
ghost use Rattle.pads_walk.specs.Reads.{calls, reads, reads_part, reads_arm, reads_case, reads_seq};

use crate::fields::Fields;
use crate::leaf;
use crate::search::{find_from, sought};
use pads_calc::{Arm, Case, Decl, Ending, Part, Reading, Seq, Term, Turn};
use pads_expr::{Env, Expr};
use pads_steps::{Record, Run, arguments, bound, chosen, guarded, is_full, short_of, size_at};
use pads_value::{Cause, Memory};
use std::alloc::Global;

/// A record that is being read by a module's declarations.
#[derive(Drop)]
pub(crate) struct Reader<'a> {
    pub(crate) alloc: Global,
    pub(crate) decls: &'a [Decl],
    pub(crate) record: Record<'a>,
    pub ghost counted: { module_counts decls.now ≡ true },
}

/// The item at a place counted from 0; none past the end.
fn item<T>(items: &[T], at: usize) -> Option<&T>
    ensures item { option_copied result ≡ slice_get items.now at }
{
    items.get(at)
}

impl Reader<'_> {
    /// A term in an environment at a place, where calls may be nested so deep.
    #[cycle(reader)]
    #[tactic(auto, using(pads_calc::proofs::Rolls::read_rules))]
    pub(crate) fn read(
        &self,
        term: &Term,
        env: &mut Env,
        place: u64,
        depth: u8,
    ) -> Result<Reading, Memory>
        requires within { place ≤ length self.now.record.bytes.now }
        requires counted { counts_fit term.now ≡ true }
        ensures value { IfOk result (λ r. r ≡ reads self.now.record self.now.decls.now depth term.now env.old.pairs place) }
        ensures within { IfOk result (λ r. EndsWithin self.now.record.bytes.now place r) }
        ensures env { OnOk result (env.new.pairs ≡ env.old.pairs) }
    {
        match term {
            Term::Unit => leaf::unit(self.alloc, &self.record, place),
            Term::Base(base, args) => leaf::base(self.alloc, &self.record, base, args, env, place),
            Term::Lit(literal) => leaf::literal(
                self.alloc,
                &self.record,
                literal.as_slice(),
                place,
            ),
            Term::Eor => leaf::end(self.alloc, &self.record, place),
            Term::Struct(parts) => self.read_struct(parts.as_slice(), env, place, depth),
            Term::Alt(arms) => self.read_alt(arms.as_slice(), env, place, depth),
            Term::Switch(e, cases) => self.read_switch(e, cases.as_slice(), env, place, depth),
            Term::Guard(inner, binder, condition) => {
                let reading = self.read(inner.get(), env, place, depth)?;
                Ok(guarded(reading, *binder, condition, env))
            }
            Term::Seq(seq) => self.read_seq(seq.get(), env, place, depth),
            Term::Call(number, args) => self.read_call(*number, args.as_slice(), env, place, depth),
            Term::Compute(e, form) => leaf::computed(self.alloc, &self.record, e, form, env, place),
            Term::Absorb(inner) => Ok(self.read(inner.get(), env, place, depth)?.absorbed()),
            Term::Scan(inner) => self.read_scan(inner.get(), env, place, depth),
        }
    }

    /// A term as `read` reads it, with a shorter way to the forms that most parts of a struct have.
    #[cycle(reader)]
    #[tactic(auto, using(pads_calc::proofs::Rolls::read_rules))]
    fn read_part(
        &self,
        term: &Term,
        env: &mut Env,
        place: u64,
        depth: u8,
    ) -> Result<Reading, Memory>
        requires within { place ≤ length self.now.record.bytes.now }
        requires counted { counts_fit term.now ≡ true }
        ensures value { IfOk result (λ r. r ≡ reads self.now.record self.now.decls.now depth term.now env.old.pairs place) }
        ensures within { IfOk result (λ r. EndsWithin self.now.record.bytes.now place r) }
        ensures env { OnOk result (env.new.pairs ≡ env.old.pairs) }
    {
        match term {
            Term::Base(base, args) => leaf::base(self.alloc, &self.record, base, args, env, place),
            Term::Call(number, args) => self.read_call(*number, args.as_slice(), env, place, depth),
            Term::Scan(inner) => self.read_scan(inner.get(), env, place, depth),
            _ => self.read(term, env, place, depth),
        }
    }

    /// The parts of a struct in turn, whatever the earlier ones gave.
    #[cycle(reader)]
    #[inline(never)]
    fn read_struct(
        &self,
        parts: &[Part],
        env: &mut Env,
        place: u64,
        depth: u8,
    ) -> Result<Reading, Memory>
        requires within { place ≤ length self.now.record.bytes.now }
        requires counted { list_all (λ part. counts_fit part.term) parts.now ≡ true }
        ensures value { IfOk result (λ r. r ≡ struct_of self.now.record.origin (in_turn (map (reads_part self.now.record self.now.decls.now depth) parts.now) env.old.pairs place) place) }
        ensures within { IfOk result (λ r. EndsWithin self.now.record.bytes.now place r) }
        ensures env { OnOk result (env.new.pairs ≡ env.old.pairs) }
    {
        let mut fields = Fields::new(self.alloc, parts.len(), place)?;
        for part in parts {
            let reading = self.read_part(&part.term, env, fields.place, depth)?;
            fields.push(part.name, reading, env)?;
        }
        Ok(fields.into_struct(parts, env, self.record.origin, place))
    }

    /// The first branch that reads without a fault; each is tried at the same place.
    #[cycle(reader)]
    #[inline(never)]
    fn read_alt(
        &self,
        arms: &[Arm],
        env: &mut Env,
        place: u64,
        depth: u8,
    ) -> Result<Reading, Memory>
        requires within { place ≤ length self.now.record.bytes.now }
        requires few { few arms.now ≡ true }
        requires counted { list_all (λ arm. counts_fit arm.term) arms.now ≡ true }
        ensures value { IfOk result (λ r. r ≡ alt_from self.now.record.origin 0 (map (reads_arm self.now.record self.now.decls.now depth) arms.now) env.old.pairs place) }
        ensures within { IfOk result (λ r. EndsWithin self.now.record.bytes.now place r) }
        ensures env { OnOk result (env.new.pairs ≡ env.old.pairs) }
    {
        for (number, arm) in arms.iter().enumerate() {
            let reading = self.read(&arm.term, env, place, depth)?;
            if reading.is_ok() {
                return reading.branch(self.alloc, self.record.origin, number as u16, place);
            }
        }
        Ok(Reading::fails(self.alloc, self.record.origin, Cause::UnionMatch, place))
    }

    /// The case that the expression's value chooses.
    #[cycle(reader)]
    #[inline(never)]
    fn read_switch(
        &self,
        e: &Expr,
        cases: &[Case],
        env: &mut Env,
        place: u64,
        depth: u8,
    ) -> Result<Reading, Memory>
        requires within { place ≤ length self.now.record.bytes.now }
        requires few { few cases.now ≡ true }
        requires counted { list_all (λ case. counts_fit case.arm.term) cases.now ≡ true }
        ensures value { IfOk result (λ r. r ≡ switch_of self.now.record.origin (chosen_of (argument e.now env.old.pairs) (map (λ c. c.key) cases.now)) (map (reads_case self.now.record self.now.decls.now depth) cases.now) env.old.pairs place) }
        ensures within { IfOk result (λ r. EndsWithin self.now.record.bytes.now place r) }
        ensures env { OnOk result (env.new.pairs ≡ env.old.pairs) }
    {
        let origin = self.record.origin;
        let Some(number) = chosen(self.alloc, e, env, cases)? else {
            return Ok(Reading::fails(self.alloc, origin, Cause::Switch, place));
        };
        let Some(case) = item(cases, number) else {
            return Ok(Reading::fails(self.alloc, origin, Cause::Switch, place));
        };
        let reading = self.read(&case.arm.term, env, place, depth)?;
        reading.branch(self.alloc, origin, number as u16, place)
    }

    /// The elements of an array by turns, until it ends.
    #[cycle(reader)]
    #[inline(never)]
    fn read_seq(&self, seq: &Seq, env: &mut Env, place: u64, depth: u8) -> Result<Reading, Memory>
        requires within { place ≤ length self.now.record.bytes.now }
        requires elem { counts_fit seq.now.elem ≡ true }
        requires sep { option_counts seq.now.sep ≡ true }
        requires stop { option_counts seq.now.stop ≡ true }
        ensures value { IfOk result (λ r. r ≡ seq_of (subject_of self.now.record) (reads_seq self.now.record self.now.decls.now depth seq.now) env.old.pairs place) }
        ensures within { IfOk result (λ r. EndsWithin self.now.record.bytes.now place r) }
        ensures env { OnOk result (env.new.pairs ≡ env.old.pairs) }
    {
        let origin = self.record.origin;
        let Some(size) = size_at(seq.size.as_ref(), env) else {
            return Ok(Reading::fails(self.alloc, origin, Cause::ArrayBound, place));
        };
        let mut run = Run::new(self.alloc, place);
        'elements: loop {
            if let Ending::Ends(own) = self.ending(seq, size, &mut run, env, depth)? {
                return Ok(run.into_array(origin, own, place));
            }
            match self.turn(seq, run.is_empty(), env, run.place, depth)? {
                Turn::Undone(cause) => return Ok(run.into_array(origin, Some(cause), place)),
                Turn::Kept(reading) => run.push(reading)?,
            }
        }
    }

    /// Whether an array ends before the next element.
    #[cycle(reader)]
    #[inline(never)]
    fn ending(
        &self,
        seq: &Seq,
        size: Option<u128>,
        run: &mut Run,
        env: &mut Env,
        depth: u8,
    ) -> Result<Ending, Memory>
        requires within { run.old.place ≤ length self.now.record.bytes.now }
        requires stop { option_counts seq.now.stop ≡ true }
        ensures ending { IfOk result (λ ending. ending ≡ ending_at self.now.record.bytes.now (reads_seq self.now.record self.now.decls.now depth seq.now) size run.old.values env.old.pairs run.old.place) }
        ensures run { OnOk result (run.new ≡ run.old) }
        ensures env { OnOk result (env.new.pairs ≡ env.old.pairs) }
    {
        if is_full(size, run.values.len()) {
            return Ok(Ending::Ends(None));
        }
        let is_last = run.is_last(self.alloc, seq.last.as_ref(), seq.elts, env);
        if is_last {
            return Ok(Ending::Ends(None));
        }
        let stops = self.stops(seq, env, run.place, depth)?;
        if stops {
            return Ok(Ending::Ends(short_of(size)));
        }
        if self.record.is_end(run.place) {
            return Ok(Ending::Ends(short_of(size)));
        }
        Ok(Ending::GoesOn)
    }

    /// Whether the terminator of an array stands here. It isn't consumed.
    #[cycle(reader)]
    #[inline(never)]
    fn stops(&self, seq: &Seq, env: &mut Env, place: u64, depth: u8) -> Result<bool, Memory>
        requires within { place ≤ length self.now.record.bytes.now }
        requires stop { option_counts seq.now.stop ≡ true }
        ensures stops { IfOk result (λ stops. stops ≡ is_stopped (option_map (reads self.now.record self.now.decls.now depth) seq.now.stop) env.old.pairs place) }
        ensures env { OnOk result (env.new.pairs ≡ env.old.pairs) }
    {
        let Some(stop) = &seq.stop else {
            return Ok(false);
        };
        let reading = self.read(stop, env, place, depth)?;
        Ok(reading.is_ok())
    }

    /// The next element and, from the second on, the separator before it.
    #[cycle(reader)]
    #[inline(never)]
    fn turn(
        &self,
        seq: &Seq,
        is_first: bool,
        env: &mut Env,
        place: u64,
        depth: u8,
    ) -> Result<Turn, Memory>
        requires within { place ≤ length self.now.record.bytes.now }
        requires elem { counts_fit seq.now.elem ≡ true }
        requires sep { option_counts seq.now.sep ≡ true }
        ensures turn { IfOk result (λ turn. turn ≡ turn_from (reads_seq self.now.record self.now.decls.now depth seq.now) is_first env.old.pairs place) }
        ensures within { IfOk result (λ turn. TurnsWithin self.now.record.bytes.now is_first place turn) }
        ensures env { OnOk result (env.new.pairs ≡ env.old.pairs) }
    {
        let Some(begin) = self.element_at(seq, is_first, env, place, depth)? else {
            return Ok(Turn::Undone(Cause::ArraySep));
        };
        let element = self.read(&seq.elem, env, begin, depth)?;
        Ok(Turn::of(is_first, place, begin, element))
    }

    /// Where the next element begins; none where the separator isn't there.
    #[cycle(reader)]
    #[inline(never)]
    fn element_at(
        &self,
        seq: &Seq,
        is_first: bool,
        env: &mut Env,
        place: u64,
        depth: u8,
    ) -> Result<Option<u64>, Memory>
        requires within { place ≤ length self.now.record.bytes.now }
        requires sep { option_counts seq.now.sep ≡ true }
        ensures begin { IfOk result (λ begin. begin ≡ element_place (option_map (reads self.now.record self.now.decls.now depth) seq.now.sep) is_first env.old.pairs place) }
        ensures within { IfOk result (λ begin. IfSome begin (λ begin. (place ≤ begin) × (begin ≤ length self.now.record.bytes.now))) }
        ensures env { OnOk result (env.new.pairs ≡ env.old.pairs) }
    {
        if is_first {
            return Ok(Some(place));
        }
        let Some(sep) = &seq.sep else {
            return Ok(Some(place));
        };
        let reading = self.read(sep, env, place, depth)?;
        if reading.is_ok() {
            Ok(Some(reading.place))
        } else {
            Ok(None)
        }
    }

    /// The body of a declaration, with the arguments as its whole environment.
    #[cycle(reader)]
    #[inline(never)]
    pub(crate) fn read_call(
        &self,
        number: u16,
        args: &[Expr],
        env: &Env,
        place: u64,
        depth: u8,
    ) -> Result<Reading, Memory>
        requires within { place ≤ length self.now.record.bytes.now }
        ensures value { IfOk result (λ r. r ≡ calls self.now.record self.now.decls.now depth number args.now env.now.pairs place) }
        ensures within { IfOk result (λ r. EndsWithin self.now.record.bytes.now place r) }
    {
        let origin = self.record.origin;
        if depth == 0 {
            return Ok(Reading::fails(self.alloc, origin, Cause::Depth, place));
        }
        let Some(args) = arguments(self.alloc, args, env)? else {
            return Ok(Reading::fails(self.alloc, origin, Cause::BadParam, place));
        };
        let Some(decl) = item(self.decls, number as usize) else {
            return Ok(Reading::fails(self.alloc, origin, Cause::BadParam, place));
        };
        let mut inner = bound(self.alloc, decl.params.as_slice(), &args)?;
        self.read(&decl.body, &mut inner, place, depth - 1)
    }

    /// A term at the first place from here on at which it reads without a fault, as far as a search goes.
    #[cycle(reader)]
    #[inline(never)]
    fn read_scan(
        &self,
        inner: &Term,
        env: &mut Env,
        place: u64,
        depth: u8,
    ) -> Result<Reading, Memory>
        requires within { place ≤ length self.now.record.bytes.now }
        requires counted { counts_fit inner.now ≡ true }
        ensures value { IfOk result (λ r. r ≡ scan (subject_of self.now.record) (reads self.now.record self.now.decls.now depth inner.now) env.old.pairs place) }
        ensures within { IfOk result (λ r. EndsWithin self.now.record.bytes.now place r) }
        ensures env { OnOk result (env.new.pairs ≡ env.old.pairs) }
    {
        match sought(inner) {
            Some(literal) => Ok(find_from(self.alloc, &self.record, literal, place)),
            None => self.search(inner, env, place, depth),
        }
    }

    /// The same, at each place in turn.
    #[cycle(reader)]
    #[inline(never)]
    fn search(&self, inner: &Term, env: &mut Env, place: u64, depth: u8) -> Result<Reading, Memory>
        requires within { place ≤ length self.now.record.bytes.now }
        requires counted { counts_fit inner.now ≡ true }
        ensures value { IfOk result (λ r. r ≡ scan (subject_of self.now.record) (reads self.now.record self.now.decls.now depth inner.now) env.old.pairs place) }
        ensures within { IfOk result (λ r. EndsWithin self.now.record.bytes.now place r) }
        ensures env { OnOk result (env.new.pairs ≡ env.old.pairs) }
    {
        let first = self.read(inner, env, place, depth)?;
        if first.is_ok() {
            return Ok(first);
        }
        let blame = first.blame();
        let last = self.record.last_place(place);
        for at in place + 1..last + 1 {
            let reading = self.read(inner, env, at, depth)?;
            if reading.is_ok() {
                return Ok(reading.found(self.record.origin, place, at));
            }
        }
        Ok(Reading::fails(self.alloc, self.record.origin, blame, place))
    }
}
