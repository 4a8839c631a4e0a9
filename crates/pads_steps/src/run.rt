ghost use Rattle.std.specs.Prelude.{◌≡◌, ◌≤◌, ◌^◌, [], ◌∷◌, ◌++◌, None, Some, reverse, OnOk};
ghost use Rattle.std.specs.Option.{option_copied};
ghost use Rattle.pads_calc.specs.Arguments.{is_true};
ghost use Rattle.pads_calc.specs.Arrays.{soft, is_empty as has_no_element, is_last as is_last_by};
ghost use Rattle.pads_calc.specs.Readings.{node};
ghost use Rattle.pads_value.specs.declared.value.Val.TheVariants as val;

use crate::args::is_true_of;
use pads_calc::Reading;
use pads_expr::{Binding, Env, Expr};
use pads_value::{Cause, Items, Memory, Own, Pds, Val, Vals};
use std::alloc::Global;
use std::mem;

/// Readings that follow one another, as a struct or an array keeps them.
#[derive(Debug, Drop)]
pub struct Run {
    pub values: Vals,
    pub pds: Pds,
    /// Where the last one ended, or where the first is to begin.
    pub place: u64,
}

impl Run {
    /// No reading yet.
    pub fn new(alloc: Global, place: u64) -> Run
        ensures empty { result ≡ record { values = []; pds = []; place = place } }
    {
        Run {
            values: Items::new(alloc),
            pds: Items::new(alloc),
            place,
        }
    }

    /// One more reading.
    pub fn push(&mut self, reading: Reading) -> Result<(), Memory>
        ensures pushed { OnOk result (self.new ≡ record { values = self.old.values ++ reading.value ∷ []; pds = self.old.pds ++ reading.pd ∷ []; place = reading.place }) }
    {
        let Reading { value, pd, place } = reading;
        self.values.push(value)?;
        self.pds.push(pd)?;
        self.place = place;
        Ok(())
    }

    /// The struct that they make.
    pub fn into_struct(self, origin: u64, begin: u64) -> Reading
        requires origin { origin ≤ 2 ^ 62 }
        requires begin { begin ≤ 2 ^ 62 }
        requires place { self.place ≤ 2 ^ 62 }
        ensures node { result ≡ node origin None (val.Tuple self.values) begin self.place self.pds }
    {
        let Run { values, pds, place } = self;
        Reading::node(origin, None, Val::Tuple(values), begin, place, pds)
    }

    /// The array that they make, with a cause of its own or without.
    pub fn into_array(self, origin: u64, own: Option<Cause>, begin: u64) -> Reading
        requires origin { origin ≤ 2 ^ 62 }
        requires begin { begin ≤ 2 ^ 62 }
        requires place { self.place ≤ 2 ^ 62 }
        ensures node { result ≡ node origin (soft own) (val.Array self.values) begin self.place self.pds }
    {
        let Run { values, pds, place } = self;
        let own = own.map(|cause| Own {
            cause,
            fails: false,
        });
        Reading::node(origin, own, Val::Array(values), begin, place, pds)
    }

    /// Whether there is no reading yet.
    pub fn is_empty(&self) -> bool
        ensures empty { result ≡ has_no_element self.now.values }
    {
        matches!(self.values.as_slice(), [])
    }

    /// Whether the latest element is the last one, by a condition over the elements so far and over
    /// bindings of which the last counts.
    pub fn is_last_in(
        &mut self,
        alloc: Global,
        last: Option<&Expr>,
        elements_name: u16,
        bindings: &[Binding],
    ) -> bool
        ensures last { result ≡ is_last_by (option_copied last.entry) elements_name self.old.values (reverse bindings.now) }
        ensures kept { self.new ≡ self.old }
    {
        let Some(condition) = last else {
            return false;
        };
        let elements = mem::replace(&mut self.values, Items::new(alloc));
        let (truth, elements) = is_last_of(condition, elements_name, elements, bindings);
        self.values = elements;
        truth
    }

    /// The same in an environment.
    pub fn is_last(
        &mut self,
        alloc: Global,
        last: Option<&Expr>,
        elements_name: u16,
        env: &Env,
    ) -> bool
        ensures last { result ≡ is_last_by (option_copied last.entry) elements_name self.old.values env.now.pairs }
        ensures kept { self.new ≡ self.old }
    {
        self.is_last_in(alloc, last, elements_name, env.as_slice())
    }
}

/// Whether a condition is true of a value that goes by a name in it. Gives the value back.
fn asked(condition: &Expr, name: u16, value: Val, bindings: &[Binding]) -> (bool, Val)
    ensures truth { result.0 ≡ is_true condition.now ((name, value) ∷ reverse bindings.now) }
    ensures value { result.1 ≡ value }
{
    let truth = is_true_of(condition, name, &value, bindings);
    (truth, value)
}

/// Whether the latest of these elements is the last one, by a condition over them by their name and over
/// bindings of which the last counts. Gives the elements back.
pub fn is_last_of(
    condition: &Expr,
    elements_name: u16,
    elements: Vals,
    bindings: &[Binding],
) -> (bool, Vals)
    ensures last { result.0 ≡ is_last_by (Some condition.now) elements_name elements (reverse bindings.now) }
    ensures elements { result.1 ≡ elements }
{
    if let [] = elements.as_slice() {
        return (false, elements);
    }
    let (truth, value) = asked(condition, elements_name, Val::Array(elements), bindings);
    let Val::Array(elements) = value else {
        unreachable!()
    };
    (truth, elements)
}
