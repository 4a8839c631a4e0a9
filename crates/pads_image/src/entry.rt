use pads_calc::NameIds;
use pads_erase::Skeleton;
use pads_value::Items;

/// Declarations in their order.
pub type Entries = Items<Entry>;

/// A declaration of an image.
#[derive(Debug, Drop)]
pub struct Entry {
    /// The address of its first instruction.
    pub first: u32,
    pub params: NameIds,
    /// Whether the values of its own body are kept.
    pub set: bool,
    /// Where these values stand.
    pub skeleton: Skeleton,
}
