use crate::ExprSort;

/// Where the sort of a declared type comes from.
#[derive(Clone, Copy, Debug, PartialEq, Eq)]
pub enum Lead {
    /// It is this one.
    Ends(ExprSort),
    /// It is that of the type of a number, with so many `Popt` around it.
    Leads { optional: u64, to: u64 },
}
