use pads_value::{Bytes, Rows};

/// What a value is printed as.
#[derive(Debug, Drop)]
pub enum Printed {
    /// Its canonical bytes, framed. As an input they have one record, which reads as the value.
    Framed(Bytes),
    /// Its canonical bytes don't read back as the value.
    Ambiguous {
        /// The canonical bytes.
        bytes: Bytes,
        /// What they read as once they are framed: a row for each record that the input then has. None
        /// where they can't be framed.
        rows: Rows,
    },
    /// The value has no canonical bytes.
    NotAValue,
}
