//! The terms without a term in them, read at a place of a record.
ghost use Rattle.std.specs.Prelude.{◌≡◌, ◌≤◌, ◌+◌, true, length, drop, reverse, IfOk, Some};
ghost use Rattle.std.specs.Option.{option_map};
ghost use Rattle.pads_calc.specs.Leaves.{unit_of, lit_of, eor_of, at_end, base_node, base_of, computed_told, compute_of};
ghost use Rattle.pads_calc.specs.Arguments.{arguments as arguments_of};
ghost use Rattle.pads_calc.specs.Places.{EndsWithin};
ghost use Rattle.pads_steps.specs.Records.{subject_of};
ghost use Rattle.pads_dispatch.specs.Labels.{labels_fit};
ghost use Rattle.pads_dispatch.specs.Sizes.{taken};
ghost use Rattle.pads_expr.specs.Seen.{seen};
ghost use Rattle.pads_expr.specs.Value.{value};
ghost use Rattle.pads_expr.specs.Worth.{worth_or_none};

use crate::Record;
use crate::args::arguments_in;
use pads_calc::{Args, Base, ComputedForm, Reading};
use pads_dispatch::read_base;
use pads_expr::{Binding, Env, Expr, Res, eval_in};
use pads_value::{Cause, Items, Memory, Read, Val};
use std::alloc::Global;

impl<'a> Record<'a> {
    /// The bytes from a place on.
    pub(crate) fn rest(&self, place: u64) -> &'a [u8]
        requires { place ≤ length self.now.bytes.now }
        ensures rest { result.now ≡ drop place self.now.bytes.now }
    {
        &self.bytes[place as usize..]
    }

    /// Whether no byte is left from a place on.
    pub fn is_end(&self, place: u64) -> bool
        ensures end { result ≡ at_end self.now.bytes.now place }
    {
        self.bytes.len() as u64 <= place
    }

    /// Nothing, which takes no byte.
    pub fn unit(&self, alloc: Global, place: u64) -> Reading
        requires { place ≤ length self.now.bytes.now }
        ensures unit { result ≡ unit_of self.now.origin place }
        ensures within { EndsWithin self.now.bytes.now place result }
    {
        Reading::leaf(alloc, self.origin, Val::Unit, place, place)
    }

    /// The literal, where its bytes stand at the place.
    pub fn literal(&self, alloc: Global, literal: &[u8], place: u64) -> Reading
        requires { place ≤ length self.now.bytes.now }
        ensures literal { result ≡ lit_of (subject_of self.now) literal.now place }
        ensures within { EndsWithin self.now.bytes.now place result }
    {
        let rest = self.rest(place);
        if rest.starts_with(literal) {
            let end = place + literal.len() as u64;
            Reading::leaf(alloc, self.origin, Val::Unit, place, end)
        } else {
            Reading::fails(alloc, self.origin, Cause::MissingLiteral, place)
        }
    }

    /// The end of the record.
    pub fn end(&self, alloc: Global, place: u64) -> Reading
        requires { place ≤ length self.now.bytes.now }
        ensures end { result ≡ eor_of (subject_of self.now) place }
        ensures within { EndsWithin self.now.bytes.now place result }
    {
        if self.is_end(place) {
            Reading::leaf(alloc, self.origin, Val::Unit, place, place)
        } else {
            Reading::fails(alloc, self.origin, Cause::MissingEor, place)
        }
    }

    /// A base type's reading as a node.
    fn node_of(&self, alloc: Global, read: Read<Val>, place: u64) -> Reading
        requires { place + taken read ≤ length self.now.bytes.now }
        ensures node { result ≡ base_node self.now.origin place read }
        ensures within { EndsWithin self.now.bytes.now place result }
    {
        match read {
            Read::Good(size, value) => Reading::leaf(
                alloc,
                self.origin,
                value,
                place,
                place + size,
            ),
            Read::Soft(size, cause) => {
                Reading::faulty(alloc, self.origin, cause, place, place + size)
            }
            Read::Hard(cause) => Reading::fails(alloc, self.origin, cause, place),
        }
    }

    /// A base type with its arguments.
    pub fn base_with(
        &self,
        alloc: Global,
        base: &Base,
        args: &Args,
        place: u64,
    ) -> Result<Reading, Memory>
        requires labels { labels_fit base.now ≡ true }
        requires place { place ≤ length self.now.bytes.now }
        ensures base { IfOk result (λ r. r ≡ base_of (subject_of self.now) base.now (Some args.now) place) }
        ensures within { IfOk result (λ r. EndsWithin self.now.bytes.now place r) }
    {
        let read = read_base(alloc, base, args, self.rest(place))?;
        Ok(self.node_of(alloc, read, place))
    }

    /// A base type, where all of its arguments have a value.
    fn base_at(
        &self,
        alloc: Global,
        base: &Base,
        args: Option<Args>,
        place: u64,
    ) -> Result<Reading, Memory>
        requires labels { labels_fit base.now ≡ true }
        requires place { place ≤ length self.now.bytes.now }
        ensures base { IfOk result (λ r. r ≡ base_of (subject_of self.now) base.now args place) }
        ensures within { IfOk result (λ r. EndsWithin self.now.bytes.now place r) }
    {
        match args {
            Some(args) => self.base_with(alloc, base, &args, place),
            None => Ok(Reading::fails(alloc, self.origin, Cause::BadParam, place)),
        }
    }

    /// A base type with its arguments over bindings of which the last counts.
    pub fn base_in(
        &self,
        alloc: Global,
        base: &Base,
        args: &[Expr],
        bindings: &[Binding],
        place: u64,
    ) -> Result<Reading, Memory>
        requires labels { labels_fit base.now ≡ true }
        requires place { place ≤ length self.now.bytes.now }
        ensures base { IfOk result (λ r. r ≡ base_of (subject_of self.now) base.now (arguments_of args.now (reverse bindings.now)) place) }
        ensures within { IfOk result (λ r. EndsWithin self.now.bytes.now place r) }
    {
        let args = arguments_in(alloc, args, bindings)?;
        self.base_at(alloc, base, args, place)
    }

    /// The same in an environment.
    pub fn base(
        &self,
        alloc: Global,
        base: &Base,
        args: &[Expr],
        env: &Env,
        place: u64,
    ) -> Result<Reading, Memory>
        requires labels { labels_fit base.now ≡ true }
        requires place { place ≤ length self.now.bytes.now }
        ensures base { IfOk result (λ r. r ≡ base_of (subject_of self.now) base.now (arguments_of args.now env.now.pairs) place) }
        ensures within { IfOk result (λ r. EndsWithin self.now.bytes.now place r) }
    {
        self.base_in(alloc, base, args, env.as_slice(), place)
    }

    /// The value of an expression over bindings of which the last counts, and over no bytes.
    pub fn computed_in(
        &self,
        alloc: Global,
        e: &Expr,
        form: &ComputedForm,
        bindings: &[Binding],
        place: u64,
    ) -> Result<Reading, Memory>
        requires { place ≤ length self.now.bytes.now }
        ensures computed { IfOk result (λ r. r ≡ compute_of self.now.origin form.now (worth_or_none (value e.now (reverse bindings.now))) place) }
        ensures within { IfOk result (λ r. EndsWithin self.now.bytes.now place r) }
    {
        let value = computed_value(alloc, *form, eval_in(e, bindings))?;
        Ok(match value {
            Some(value) => Reading::leaf(alloc, self.origin, value, place, place),
            None => Reading::fails(alloc, self.origin, Cause::Compute, place),
        })
    }

    /// The same in an environment.
    pub fn computed(
        &self,
        alloc: Global,
        e: &Expr,
        form: &ComputedForm,
        env: &Env,
        place: u64,
    ) -> Result<Reading, Memory>
        requires { place ≤ length self.now.bytes.now }
        ensures computed { IfOk result (λ r. r ≡ compute_of self.now.origin form.now (worth_or_none (value e.now env.now.pairs)) place) }
        ensures within { IfOk result (λ r. EndsWithin self.now.bytes.now place r) }
    {
        self.computed_in(alloc, e, form, env.as_slice(), place)
    }
}

/// What a computed field's expression is worth, where it has the form that is asked for.
fn computed_value(
    alloc: Global,
    form: ComputedForm,
    found: Option<Res>,
) -> Result<Option<Val>, Memory>
    ensures value { IfOk result (λ value. value ≡ computed_told form (option_map seen found.entry)) }
{
    Ok(match (form, found) {
        (ComputedForm::Range(least, greatest), Some(Res::Num(number))) => {
            if least <= number && number <= greatest {
                Some(Val::Num(number))
            } else {
                None
            }
        }
        (ComputedForm::Text, Some(Res::Text(text))) => Some(Val::Text(Items::from_slice(
            alloc, text,
        )?)),
        _ => None,
    })
}
