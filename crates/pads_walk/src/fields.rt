//! The parts of a struct as they are read.
ghost use Rattle.std.specs.Prelude.{◌≡◌, ◌+◌, ◌≤◌, ◌<◌, ◌^◌, ◌∷◌, ◌++◌, List, [], None, length, vec_len, vec_capacity, IfOk, OnOk};
ghost use Rattle.pads_calc.specs.Readings.{node};
ghost use Rattle.pads_calc.specs.Structs.{bind};
ghost use Rattle.pads_expr.specs.Value.{Pairs};
ghost use Rattle.pads_value.specs.declared.value.Val.{Val};
ghost use Rattle.pads_value.specs.declared.value.Val.TheVariants as val;
ghost use Rattle.pads_walk.specs.Fields.{Done, kept, values_of, AreDone};

use pads_calc::{Part, Reading};
use pads_expr::Env;
use pads_value::{Items, Memory, Pd, Val};
use std::alloc::Global;

/// The parts of a struct that were read so far. The value of a named part stands in the environment of
/// the later parts, and comes back from there at the end, so that it isn't copied.
#[derive(Drop)]
pub(crate) struct Fields {
    /// One value for each part; for a named one a stand-in.
    pub(crate) values: Vec<Val>,
    pub(crate) pds: Vec<Pd>,
    /// Where the last one ended, or where the first is to begin.
    pub(crate) place: u64,
}

/// Moves the value of a named part into the environment, and gives what stands for it.
fn hold(name: Option<u16>, value: Val, env: &mut Env) -> Result<Val, Memory>
    ensures kept { IfOk result (λ held. held ≡ kept name value) }
    ensures env { OnOk result (env.new.pairs ≡ bind name value env.old.pairs) }
{
    match name {
        None => Ok(value),
        Some(name) => {
            env.bind(name, value)?;
            Ok(Val::Missing)
        }
    }
}

/// Puts the value of the part at a place back, where the part has a name.
fn put_back(values: &mut Vec<Val>, at: usize, part: &Part, env: &mut Env)
    requires { at < vec_len values.old }
    ensures back { (value : Val) (outer : Pairs) (front rest : List Val) → env.old.pairs ≡ bind part.now.name value outer
        → values.old.items ≡ front ++ kept part.now.name value ∷ rest → length front ≡ at
        → (values.new.items ≡ front ++ value ∷ rest) × (env.new.pairs ≡ outer) }
    ensures len { vec_len values.new ≡ vec_len values.old }
{
    if part.name.is_none() {
        return;
    }
    if let Some((_, value)) = env.pop() {
        values[at] = value;
    }
}

/// Puts the values of named parts back from the environment.
fn take_back(values: &mut Vec<Val>, parts: &[Part], env: &mut Env)
    requires { vec_len values.old ≡ length parts.now }
    ensures back { (done : List Done) (outer : Pairs) → AreDone done outer parts.now values.old.items env.old.pairs
        → (values.new.items ≡ values_of done) × (env.new.pairs ≡ outer) }
{
    let mut at = parts.len();
    'back: while at > 0 {
        at -= 1;
        put_back(values, at, &parts[at], env);
    }
}

impl Fields {
    /// No part yet, with room for so many.
    pub(crate) fn new(alloc: Global, count: usize, place: u64) -> Result<Fields, Memory>
        ensures values { IfOk result (λ fields. fields.values.items ≡ []) }
        ensures pds { IfOk result (λ fields. fields.pds.items ≡ []) }
        ensures place { IfOk result (λ fields. fields.place ≡ place) }
        ensures values_count { IfOk result (λ fields. vec_len fields.values ≡ 0) }
        ensures pds_count { IfOk result (λ fields. vec_len fields.pds ≡ 0) }
        ensures values_room { IfOk result (λ fields. vec_capacity fields.values ≡ count) }
        ensures pds_room { IfOk result (λ fields. vec_capacity fields.pds ≡ count) }
    {
        Ok(Fields {
            values: Vec::with_capacity(alloc, count)?,
            pds: Vec::with_capacity(alloc, count)?,
            place,
        })
    }

    /// One more part, within the room.
    pub(crate) fn push(
        &mut self,
        name: Option<u16>,
        reading: Reading,
        env: &mut Env,
    ) -> Result<(), Memory>
        requires values_room { vec_len self.old.values < vec_capacity self.old.values }
        requires pds_room { vec_len self.old.pds < vec_capacity self.old.pds }
        ensures values { OnOk result (self.new.values.items ≡ self.old.values.items ++ kept name reading.value ∷ []) }
        ensures pds { OnOk result (self.new.pds.items ≡ self.old.pds.items ++ reading.pd ∷ []) }
        ensures place { OnOk result (self.new.place ≡ reading.place) }
        ensures env { OnOk result (env.new.pairs ≡ bind name reading.value env.old.pairs) }
        ensures values_count { OnOk result (vec_len self.new.values ≡ vec_len self.old.values + 1) }
        ensures pds_count { OnOk result (vec_len self.new.pds ≡ vec_len self.old.pds + 1) }
        ensures values_room { vec_capacity self.new.values ≡ vec_capacity self.old.values }
        ensures pds_room { vec_capacity self.new.pds ≡ vec_capacity self.old.pds }
    {
        let Reading { value, pd, place } = reading;
        self.values.push_reserved(hold(name, value, env)?);
        self.pds.push_reserved(pd);
        self.place = place;
        Ok(())
    }

    /// The struct that they make. Takes their values back from the environment.
    pub(crate) fn into_struct(
        self,
        parts: &[Part],
        env: &mut Env,
        origin: u64,
        begin: u64,
    ) -> Reading
        requires origin { origin ≤ 2 ^ 62 }
        requires begin { begin ≤ 2 ^ 62 }
        requires place { self.place ≤ 2 ^ 62 }
        requires count { vec_len self.values ≡ length parts.now }
        ensures node { (done : List Done) (outer : Pairs) → AreDone done outer parts.now self.values.items env.old.pairs
            → (result ≡ node origin None (val.Tuple (values_of done)) begin self.place self.pds.items) × (env.new.pairs ≡ outer) }
    {
        let Fields {
            mut values,
            pds,
            place,
        } = self;
        take_back(&mut values, parts, env);
        let value = Val::Tuple(Items::from_vec(values));
        Reading::node(origin, None, value, begin, place, Items::from_vec(pds))
    }
}
