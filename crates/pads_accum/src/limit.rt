/// A count of a summary would pass 2^62.
#[derive(Clone, Copy, Debug, PartialEq, Eq)]
pub struct Limit {
    /// The first such part, the parts of all lists numbered together from 0.
    pub part: u64,
    /// The count that was wanted, or 2^64 - 1 where it is more.
    pub count: u64,
}
