use pads_value::{Bytes, Items};

/// A step of a path, from a node to nodes below it.
#[derive(Debug, Drop)]
pub enum PathStep {
    /// To the part or the branch of this name.
    Name(Bytes),
    /// To the element of that number, from 0 to 2^62.
    Index(u64),
    /// To all elements.
    Each,
}

/// The steps of a path, in their order.
pub type PathSteps = Items<PathStep>;

/// A path, from the body of a record type.
#[derive(Debug, Drop)]
pub struct Path {
    /// Whether it begins with `$`. Else it begins with a name, which is its first step.
    pub root: bool,
    pub steps: PathSteps,
}
