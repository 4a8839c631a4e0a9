use pads_value::{Bytes, Items};

/// The keywords of the language.
#[derive(Clone, Copy, Debug, PartialEq, Eq)]
pub enum Keyword {
    // Keywords that begin or mark a declaration.
    Pstruct,
    Punion,
    Parray,
    Penum,
    Popt,
    Ptypedef,
    Precord,
    Psource,
    Precursive,
    // Keywords of the parts of a declaration.
    Pswitch,
    Pcase,
    Pdefault,
    Pwhere,
    Psep,
    Pterm,
    Plast,
    Peor,
    // Keywords of expressions and of what is computed.
    Pforall,
    Pin,
    Pcompute,
    Pfrom,
    Pis,
    Plen,
    /// `true`
    True,
    /// `false`
    False,
}

/// The marks of the language.
#[derive(Clone, Copy, Debug, PartialEq, Eq)]
pub enum Mark {
    /// `(:`
    OpenParams,
    /// `:)`
    CloseParams,
    /// `{`
    OpenBrace,
    /// `}`
    CloseBrace,
    /// `[`
    OpenBracket,
    /// `]`
    CloseBracket,
    /// `(`
    OpenParen,
    /// `)`
    CloseParen,
    /// `;`
    Semicolon,
    /// `,`
    Comma,
    /// `:`
    Colon,
    /// `.`
    Dot,
    /// `..`
    DotDot,
    /// `=`
    Equals,
    /// `==`
    EqualTo,
    /// `=>`
    Arrow,
    /// `!=`
    NotEqualTo,
    /// `!`
    Not,
    /// `<`
    LessThan,
    /// `<=`
    AtMost,
    /// `>`
    GreaterThan,
    /// `>=`
    AtLeast,
    /// `+`
    Plus,
    /// `-`
    Minus,
    /// `*`
    Star,
    /// `/`
    Slash,
    /// `%`
    Percent,
    /// `&&`
    And,
    /// `||`
    Or,
    /// `$`
    Dollar,
}

/// What a token is. A name, a number and a literal carry what was written.
#[derive(Debug, Drop)]
pub enum TokenKind {
    Keyword(Keyword),
    Mark(Mark),
    /// A name, as it is written.
    Name(Bytes),
    /// A number, from 0 to 2^127 - 1.
    Number(i128),
    /// The code point of one character between single quotes.
    Char(u8),
    /// The code points of the characters between double quotes.
    Text(Bytes),
    /// The end of the text, the last token of each list. It has no bytes.
    End,
}

/// A token and the bytes of the text that it stands on, from `begin` up to `end`, counted from 0.
#[derive(Debug, Drop)]
pub struct Token {
    pub kind: TokenKind,
    pub begin: u64,
    pub end: u64,
}

/// The tokens of a text in their order. The last is the end token.
pub type Tokens = Items<Token>;
