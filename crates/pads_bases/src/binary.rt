ghost use Rattle.std.specs.Prelude.{◌≡◌, ◌≤◌, length};

/// Which byte of a binary integer comes first.
#[derive(Clone, Copy, Debug, PartialEq, Eq)]
pub enum Order {
    Low,
    High,
}

/// The numbers of a kind of integers, from the least to the greatest. A kind is signed where `low` is
/// below 0.
#[derive(Clone, Copy, Debug, PartialEq, Eq)]
pub struct Range {
    pub low: i128,
    pub high: i128,
}
