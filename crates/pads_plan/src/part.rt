use pads_sums::PartForm;
use pads_value::{Bytes, Items};

/// The step from a part to one directly below it.
#[derive(Clone, Copy, Debug, PartialEq, Eq, Hash)]
pub enum Step {
    /// To the record node itself, which stands below no other.
    Record,
    /// From the record node to its body.
    Body,
    /// To a part of a struct by its number, from 0, parts without a name counted.
    Part(u64),
    /// To a branch of a union by its number, from 0.
    Branch(u64),
    /// To all elements of an array.
    Each,
}

/// A part of a record type: what all nodes at one place of its records have in common.
#[derive(Debug, Drop)]
pub struct PlanPart {
    /// The number of the part directly above; 0 of the record node, which has none above.
    pub up: u64,
    /// The step from there.
    pub step: Step,
    /// Its place, as reports tell it.
    pub place: Bytes,
    pub form: PartForm,
}

/// Parts in document order, numbered from 0.
pub type PlanParts = Items<PlanPart>;

/// The parts of a record type.
#[derive(Debug, Drop)]
pub struct PlanList {
    /// The record type's name.
    pub name: Bytes,
    pub parts: PlanParts,
}

/// The parts of all record types of a module: the header type's first, where there is one.
pub type PlanLists = Items<PlanList>;
