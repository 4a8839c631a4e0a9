/// A tally can't count a row more.
#[derive(Clone, Copy, Debug, Drop, PartialEq, Eq)]
pub struct Limit;
