ghost use Rattle.std.specs.Prelude.{◌≡◌, ◌+◌, ◌<◌, ◌≤◌, ◌^◌, ◌∷◌, ◌++◌, [], OnOk, length, reverse, vec_capacity, vec_len};
ghost use Rattle.pads_calc.specs.Leaves.{unit_of};
ghost use Rattle.pads_calc.specs.Structs.{bind as bound};
ghost use Rattle.pads_image.specs.Blocks.{bindings_of};
ghost use Rattle.pads_machine.specs.Shown.{home_of, stand_in};

use pads_calc::Reading;
use pads_expr::Binding;
use pads_value::{Cause, Memory, Pd, Val};
use std::alloc::Global;
use std::mem;

/// A struct or an array that is open.
#[derive(Drop)]
pub(crate) struct Node {
    /// The address of the instruction that began it.
    pub(crate) opened: usize,
    /// The place where it begins.
    pub(crate) begin: u64,
    /// How many bindings are below its own.
    pub(crate) base: usize,
    /// How many elements an array is to have, where that is told.
    pub(crate) size: Option<u128>,
    /// One value for each part or element so far; a stand-in where the value is bound meanwhile.
    pub(crate) values: Vec<Val>,
    pub(crate) pds: Vec<Pd>,
    /// What is wrong with an array itself.
    pub(crate) own: Option<Cause>,
}

/// A place to come back to.
#[derive(Clone, Copy)]
pub(crate) struct Mark {
    pub(crate) place: u64,
    /// The cause for which a search gives up.
    pub(crate) cause: Option<Cause>,
}

/// A call that is open.
#[derive(Clone, Copy)]
pub(crate) struct Caller {
    /// The address where it goes on.
    pub(crate) back: usize,
    /// How many bindings are below its own.
    pub(crate) base: usize,
    /// The declaration that is called, by its number.
    pub(crate) number: u16,
    /// The place where it begins.
    pub(crate) place: u64,
}

impl Node {
    /// Keeps what was read as one more part or element, binds its value where it has a name, and leaves nothing
    /// read at the same place.
    pub(crate) fn keep(
        &mut self,
        alloc: Global,
        origin: u64,
        name: Option<u16>,
        last: &mut Reading,
        bindings: &mut Vec<Binding>,
        homes: &mut Vec<Option<usize>>,
    ) -> Result<(), Memory>
        requires origin { origin ≤ 2 ^ 62 }
        requires place { last.old.place ≤ 2 ^ 62 }
        requires bindings_room { bindings_of name + vec_len bindings.old ≤ vec_capacity bindings.old }
        requires homes_room { bindings_of name + vec_len homes.old ≤ vec_capacity homes.old }
        ensures filled { OnOk result (self.new ≡ record self.old { values = self.new.values; pds = self.new.pds }) }
        ensures values { OnOk result (self.new.values.items ≡ self.old.values.items ++ stand_in name last.old.value ∷ []) }
        ensures pds { OnOk result (self.new.pds.items ≡ self.old.pds.items ++ last.old.pd ∷ []) }
        ensures bindings { OnOk result (reverse bindings.new.items ≡ bound name last.old.value (reverse bindings.old.items)) }
        ensures homes { OnOk result (reverse homes.new.items ≡ home_of name (length self.old.values.items) (reverse homes.old.items)) }
        ensures bindings_kept { vec_capacity bindings.new ≡ vec_capacity bindings.old }
        ensures homes_kept { vec_capacity homes.new ≡ vec_capacity homes.old }
        ensures last { OnOk result (last.new ≡ unit_of origin last.old.place) }
    {
        self.values.reserve(1)?;
        self.pds.reserve(1)?;
        let place = last.place;
        let unit = Reading::leaf(alloc, origin, Val::Unit, place, place);
        let Reading {
            value,
            pd,
            place: _,
        } = mem::replace(last, unit);
        match name {
            None => self.values.push_reserved(value),
            Some(name) => {
                homes.push_reserved(Some(self.values.len()));
                bindings.push_reserved((name, value));
                self.values.push_reserved(Val::Missing);
            }
        }
        self.pds.push_reserved(pd);
        Ok(())
    }
}
