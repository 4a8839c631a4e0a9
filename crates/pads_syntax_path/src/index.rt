ghost use Rattle.std.specs.Prelude.{◌≡◌};
ghost use Rattle.pads_syntax_path.specs.Indexes.{index_of, is_large};

use pads_lex::TokenKind;

/// The greatest index of a path.
const MOST_INDEX: i128 = 1 << 62;

/// The index that a token carries; 0 where it carries none.
pub(crate) fn index_of(token: &TokenKind) -> u64
    ensures index { result ≡ index_of token.now }
{
    match token {
        TokenKind::Number(number) if *number >= 0 && *number <= MOST_INDEX => *number as u64,
        _ => 0,
    }
}

/// Whether a token is a number above the greatest index.
pub(crate) fn is_large(token: &TokenKind) -> bool
    ensures large { result ≡ is_large token.now }
{
    match token {
        TokenKind::Number(number) => *number > MOST_INDEX,
        _ => false,
    }
}
