use pads_value::Items;

/// A step from a node to nodes directly below it.
#[derive(Clone, Copy, Debug, PartialEq, Eq)]
pub enum Step {
    /// To the part of a struct of that number, from 0, parts without a name counted.
    Part(u16),
    /// To the branch of a union of that number, from 0.
    Arm(u16),
    /// To the element of an array of that number, from 0.
    Elem(u64),
    /// To all elements of an array.
    Each,
}

/// Steps from the body of a record type, in their order.
pub type Steps = Items<Step>;
