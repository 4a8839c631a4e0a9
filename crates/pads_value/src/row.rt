use crate::{Items, Pd, Val};

/// Rows in their order.
pub type Rows = Items<Row>;

/// What one record reads as.
#[derive(Debug, Drop)]
pub struct Row {
    /// The record's number, from 0.
    pub number: u64,
    pub value: Val,
    /// The record node's descriptor, with offsets in the whole input.
    pub pd: Pd,
    /// The offset in the whole input where the reading of the record's value ended.
    pub next: u64,
}
