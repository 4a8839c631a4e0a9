use pads_value::Bytes;

/// A name, and the place of its first byte.
#[derive(Debug, Drop)]
pub struct Name {
    pub text: Bytes,
    pub at: u64,
}

/// A literal as it is written, by its code points, and the place of its first byte.
#[derive(Debug, Drop)]
pub enum Word {
    /// One character between single quotes.
    Char { point: u8, at: u64 },
    /// Any number of characters between double quotes.
    Text { points: Bytes, at: u64 },
}
