//! Whole lists of tokens as their paths.

ghost use Rattle.std.specs.Prelude.{◌≡◌, ◌<◌, length, Ok, IfOk};
ghost use Rattle.pads_lex.specs.Answers.{EndsLast};
ghost use Rattle.pads_syntax.specs.Answers.{past_end};
ghost use Rattle.pads_syntax.specs.Trees.{StandsAt};
ghost use Rattle.pads_syntax_path.specs.Answers.{Answers, Reaches};
ghost use Rattle.pads_syntax_path.specs.Trees.{IsPath, IsPathFault};
ghost use Rattle.pads_syntax_path.specs.declared.path.Path.{Path};
ghost use Rattle.pads_value.specs.Refusals.{Gives, OnFault};

use crate::Path;
use crate::index::is_large;
use crate::reading::path;
use pads_grammar::{Cursor, Kind};
use pads_lex::{Token, Tokens};
use pads_syntax::SyntaxFault;
use pads_value::Refusal;
use std::alloc::Global;

/// The tokens up to the end token, or up to the first number that is no index.
fn reach(tokens: &Tokens) -> &[Token]
    requires ends { EndsLast tokens.now }
    ensures reach { Reaches tokens.now result.now }
{
    let front = match tokens.as_slice().split_last() {
        Some((_, front)) => front,
        None => unreachable!(),
    };
    for (at, token) in front.iter().enumerate() {
        if is_large(&token.kind) {
            return &front[..at];
        }
    }
    front
}

/// The fault at a token.
fn fault_at(tokens: &Tokens, token: u64) -> SyntaxFault
    requires within { token < length tokens.now }
    ensures token { result.token ≡ token }
    ensures place { StandsAt tokens.now result.token result.at }
{
    let at = tokens.as_slice()[token as usize].begin;
    SyntaxFault { token, at }
}

/// How many tokens are left, behind the end token where one is next.
fn behind_end(cursor: &mut Cursor<'_>) -> u64
    ensures left { result ≡ length (past_end cursor.old) }
{
    let _end = cursor.take(Kind::End);
    cursor.left()
}

/// A path, or its fault. Behind an end token that isn't the last, the next token is at fault.
fn whole_path(alloc: Global, tokens: &Tokens) -> Result<Path, Refusal<SyntaxFault>>
    requires ends { EndsLast tokens.now }
    ensures answers { Answers tokens.now result }
{
    let reach = reach(tokens);
    let size = reach.len() as u64;
    let mut cursor = Cursor::new(reach);
    match path(alloc, &mut cursor) {
        Ok(path) if cursor.left() == 0 && size + 1 == tokens.len() => Ok(path),
        Ok(_) => {
            let left = behind_end(&mut cursor);
            Err(Refusal::Fault(fault_at(tokens, size - left)))
        }
        Err(Refusal::Fault(_)) => Err(Refusal::Fault(fault_at(tokens, size - cursor.left()))),
        Err(Refusal::Memory) => Err(Refusal::Memory),
    }
}

/// A path, or the first token at which no path goes on.
///
/// The time is linear in the number of tokens. Nothing in a path nests.
pub fn parse_path(alloc: Global, tokens: &Tokens) -> Result<Path, Refusal<SyntaxFault>>
    requires ends { EndsLast tokens.now }

    // The tokens derive the path that is given, and no other path.
    ensures found { IfOk result (λ tree. IsPath tree tokens.now) }
    ensures only { (tree : Path) → IsPath tree tokens.now → Gives result (Ok tree) }

    // A fault stands at the first token at which no path goes on, and its place is that token's.
    ensures fault { OnFault result (λ fault. IsPathFault tokens.now fault.token) }
    ensures place { OnFault result (λ fault. StandsAt tokens.now fault.token fault.at) }
{
    whole_path(alloc, tokens)
}
