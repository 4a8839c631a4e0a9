ghost use Rattle.std.specs.Prelude.{◌≡◌, ◌∷◌, true, false, length, IfSome, IfNone};
ghost use Rattle.pads_grammar.specs.Kinds.{peek, is, kind_of, starts_with};
ghost use Rattle.pads_grammar.specs.Grammar.{reads, token, mark, keyword};
ghost use Rattle.pads_grammar.specs.Reads.{Reads};

use crate::Kind;
use pads_lex::{Keyword, Mark, Token};
use pads_value::Refusal;
use std::marker::Model;

/// The next token can't stand there.
#[derive(Clone, Copy, Debug, PartialEq, Eq)]
pub struct Unexpected;

/// What a reader of tokens answers.
pub type Reading<T> = Result<T, Refusal<Unexpected>>;

/// Where a reader is in the tokens. Contracts see it as the tokens that are left.
#[derive(Drop)]
pub struct Cursor<'a> {
    rest: &'a [Token],
}

impl<'a> Model for Cursor<'a> {
    ghost use Rattle.std.specs.Prelude.{List};
    ghost use Rattle.pads_lex.specs.declared.token.Token.{Token};

    ghost Value = { List Token };

    ghost view = { λ cursor. cursor.rest.now };
}

impl<'a> Cursor<'a> {
    pub fn new(tokens: &'a [Token]) -> Cursor<'a>
        ensures left { result ≡ tokens.now }
    {
        Cursor { rest: tokens }
    }

    /// The number of tokens that are left.
    pub fn left(&self) -> u64
        ensures left { result ≡ length self.now }
    {
        self.rest.len() as u64
    }

    /// The kind of the next token; at the end, that of the end token.
    pub fn peek(&self) -> Kind
        ensures kind { result ≡ peek self.now }
    {
        match self.rest {
            [] => Kind::End,
            [first, ..] => Kind::of(&first.kind),
        }
    }

    /// The next token, where it is of that kind.
    pub fn take(&mut self, kind: Kind) -> Option<&'a Token>
        ensures taken { IfSome result (λ first. self.old ≡ first.now ∷ self.new) }
        ensures kind { IfSome result (λ first. is kind (kind_of first.now.kind) ≡ true) }
        ensures missing { IfNone result (starts_with kind self.old ≡ false) }
        ensures left { IfNone result (self.new ≡ self.old) }
    {
        let (first, rest) = self.rest.split_first()?;
        if !kind.is(Kind::of(&first.kind)) {
            return None;
        }
        self.rest = rest;
        Some(first)
    }

    /// Reads a token of that kind and gives its first byte.
    #[tactic(auto, using(crate::proofs::Leaves::leaves))]
    fn place(&mut self, kind: Kind) -> Reading<u64>
        ensures reads { Reads (reads (token kind (λ t. t.begin)) self.old) result self.new }
    {
        match self.take(kind) {
            Some(first) => Ok(first.begin),
            None => Err(Refusal::Fault(Unexpected)),
        }
    }

    /// Reads this mark and gives its first byte.
    pub fn mark(&mut self, expected: Mark) -> Reading<u64>
        ensures reads { Reads (reads (mark expected) self.old) result self.new }
    {
        self.place(Kind::Mark(expected))
    }

    /// Reads this keyword and gives its first byte.
    pub fn keyword(&mut self, expected: Keyword) -> Reading<u64>
        ensures reads { Reads (reads (keyword expected) self.old) result self.new }
    {
        self.place(Kind::Keyword(expected))
    }
}
