/// How a text breaks the rules of tokens.
#[derive(Clone, Copy, Debug, PartialEq, Eq)]
pub enum LexKind {
    /// A byte that begins no token, or one in a literal that is no character.
    BadByte,
    /// A number that a letter, a digit or `_` follows at once, as in `007`, `0x` and `1x`.
    BadNumber,
    /// A number above 2^127 - 1.
    NumberTooWide,
    /// A literal that the line or the text ends before its closing quote.
    OpenText,
    /// A literal in single quotes that holds no character, or several.
    BadChar,
    /// A backslash in a literal that begins no escape.
    BadEscape,
    /// A comment that begins with `/*` and has no `*/`.
    OpenComment,
}

/// The first place, from the left, where a text breaks the rules of tokens.
#[derive(Clone, Copy, Debug, PartialEq, Eq)]
pub struct LexFault {
    pub kind: LexKind,
    /// The offset of the byte where it stands, counted from 0: the byte itself for `BadByte`, the
    /// backslash for `BadEscape`, and else the first byte of the number, literal or comment.
    pub at: u64,
}
