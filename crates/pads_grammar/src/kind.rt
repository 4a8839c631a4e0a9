ghost use Rattle.std.specs.Prelude.{◌≡◌};
ghost use Rattle.pads_grammar.specs.declared.kind.Kind.TheVariants as kind;
ghost use Rattle.pads_grammar.specs.Kinds.{is, kind_of, kind_of_number};

use pads_lex::{Keyword, Mark, TokenKind};

/// The kind of a token, without what a name, number or literal carries. The grammar of descriptions
/// decides by the kind of one token alone.
#[derive(Clone, Copy, Debug, PartialEq, Eq)]
pub enum Kind {
    Keyword(Keyword),
    Mark(Mark),
    Name,
    Number,
    /// A number below 0, which no text spells: no grammar has a place for it.
    Negative,
    Char,
    Text,
    End,
}

impl Kind {
    pub fn of(token: &TokenKind) -> Kind
        ensures kind { result ≡ kind_of token.now }
    {
        match token {
            TokenKind::Keyword(keyword) => Kind::Keyword(*keyword),
            TokenKind::Mark(mark) => Kind::Mark(*mark),
            TokenKind::Name(_) => Kind::Name,
            TokenKind::Number(number) => Kind::of_number(*number),
            TokenKind::Char(_) => Kind::Char,
            TokenKind::Text(_) => Kind::Text,
            TokenKind::End => Kind::End,
        }
    }

    /// Whether both are the same kind.
    pub fn is(self, other: Kind) -> bool
        ensures same { result ≡ is self other }
    {
        self == other
    }

    /// Whether it is this keyword.
    pub fn is_keyword(self, keyword: Keyword) -> bool
        ensures same { result ≡ is (kind.Keyword keyword) self }
    {
        Kind::Keyword(keyword).is(self)
    }

    /// Whether it is this mark.
    pub fn is_mark(self, mark: Mark) -> bool
        ensures same { result ≡ is (kind.Mark mark) self }
    {
        Kind::Mark(mark).is(self)
    }

    fn of_number(number: i128) -> Kind
        ensures kind { result ≡ kind_of_number number }
    {
        if number < 0 {
            Kind::Negative
        } else {
            Kind::Number
        }
    }
}
