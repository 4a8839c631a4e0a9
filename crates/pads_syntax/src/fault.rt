/// The first token at which no tree goes on.
#[derive(Clone, Copy, Debug, PartialEq, Eq)]
pub struct SyntaxFault {
    /// Its number, counted from 0. The end token may be at fault too.
    pub token: u64,
    /// The offset of its first byte, counted from 0.
    pub at: u64,
}
