//! Whole lists of tokens: the end token, and the token at which a reader stopped.

ghost use Rattle.std.specs.Prelude.{◌≡◌, ◌+◌, ◌<◌, ◌∷◌, [], ◌++◌, length};
ghost use Rattle.pads_lex.specs.Answers.{EndsLast};
ghost use Rattle.pads_lex.specs.declared.token.TokenKind.TheVariants as token_kind;
ghost use Rattle.pads_syntax.specs.Trees.{StandsAt};
ghost use Rattle.pads_syntax.specs.Answers.{past_end};

use crate::SyntaxFault;
use pads_grammar::{Cursor, Kind};
use pads_lex::{Token, Tokens};

/// The tokens before the last, and the last, which is the end token.
pub fn split_end(tokens: &Tokens) -> (&[Token], &Token)
    requires ends { EndsLast tokens.now }
    ensures whole { tokens.now ≡ result.0.now ++ result.1.now ∷ [] }
    ensures last { result.1.now.kind ≡ token_kind.End }
{
    match tokens.as_slice().split_last() {
        Some((end, front)) => (front, end),
        None => unreachable!(),
    }
}

/// The fault at the next token of a reader that went over all tokens but the last.
pub fn next_fault(tokens: &Tokens, cursor: &Cursor<'_>) -> SyntaxFault
    requires left { length cursor.now < length tokens.now }
    ensures token { result.token + length cursor.now + 1 ≡ length tokens.now }
    ensures place { StandsAt tokens.now result.token result.at }
{
    let token = tokens.len() - cursor.left() - 1;
    let at = tokens.as_slice()[token as usize].begin;
    SyntaxFault { token, at }
}

/// The fault behind a whole tree. An end token before the last ends a tree too: the token behind it is
/// at fault.
pub fn fault_behind(tokens: &Tokens, cursor: &mut Cursor<'_>) -> SyntaxFault
    requires left { length cursor.old < length tokens.now }
    ensures token { result.token + length (past_end cursor.old) + 1 ≡ length tokens.now }
    ensures place { StandsAt tokens.now result.token result.at }
{
    let _end = cursor.take(Kind::End);
    next_fault(tokens, cursor)
}
