//! A whole text as its tokens.

ghost use Rattle.std.specs.Prelude.{◌≡◌, ℕ, List, [], Ok, Err, IfOk};
ghost use Rattle.pads_lex.specs.Answers.{EndsLast, HasNoNegative, HasSpelledNames};
ghost use Rattle.pads_value.specs.Refusals.{Gives, OnFault};
ghost use Rattle.pads_lex.specs.Cut.{IsCut, BreaksAt};
ghost use Rattle.pads_lex.specs.Reading.{tokens_from};
ghost use Rattle.pads_lex.specs.declared.token.Token.{Token};
ghost use Rattle.pads_lex.specs.declared.fault.LexKind.{LexKind};

use crate::reading::read_step;
use crate::step::Step;
use crate::{LexFault, Token, TokenKind, Tokens};
use pads_value::Refusal;
use std::alloc::Global;

/// The tokens of a text, read from the left.
fn tokens_of(alloc: Global, text: &[u8]) -> Result<Tokens, Refusal<LexFault>>
    ensures found { Gives result (tokens_from 0 0 [] text.now) }
{
    let mut tokens = Tokens::new(alloc);
    let mut at = 0;
    'bytes: while at < text.len() {
        match read_step(alloc, &text[at..])? {
            Step::Gap(size) => at += size,
            Step::Stands(size, kind) => {
                let begin = at as u64;
                at += size;
                let end = at as u64;
                tokens.push(Token { kind, begin, end })?;
            }
            Step::Fault(kind, offset) => {
                let place = (at + offset) as u64;
                return Err(Refusal::Fault(LexFault { kind, at: place }));
            }
        }
    }
    let end = at as u64;
    tokens.push(Token {
        kind: TokenKind::End,
        begin: end,
        end,
    })?;
    Ok(tokens)
}

/// Cuts a text into its tokens, the end token last, or says how and where the text first breaks the
/// rules of tokens.
///
/// The time is linear in the length of the text.
pub fn lex(alloc: Global, text: &[u8]) -> Result<Tokens, Refusal<LexFault>>
    // The text is the tokens that are given, and no other tokens.
    ensures found { IfOk result (λ tokens. IsCut 0 text.now tokens) }
    ensures only { (tokens : List Token) → IsCut 0 text.now tokens → Gives result (Ok tokens) }

    // A fault is the first from the left, and where the text breaks the rules it is told.
    ensures fault { OnFault result (λ fault. BreaksAt 0 text.now fault.kind fault.at) }
    ensures only_fault { (kind : LexKind) (at : ℕ) → BreaksAt 0 text.now kind at
        → Gives result (Err (record { kind = kind; at = at })) }

    // What a parser wants of its tokens.
    ensures ends { IfOk result EndsLast }
    ensures numbers { IfOk result HasNoNegative }
    ensures names { IfOk result HasSpelledNames }
{
    tokens_of(alloc, text)
}
