//! Why a description is refused.

use pads_lex::LexKind;
use pads_rules::Rule;

/// Why a description isn't accepted. Places are bytes of the description, from 0.
#[derive(Clone, Copy, Debug, PartialEq, Eq)]
pub enum Verdict {
    /// It has more than 1,048,576 bytes.
    TooLong,
    /// Its text first breaks the rules of tokens there and so.
    Lexical { kind: LexKind, at: u64 },
    /// Its tokens derive no tree: the token of that number, from 0, is the first with which no tree goes on.
    Syntax { token: u64, at: u64 },
    /// Its tree breaks that rule there, and none before.
    Rule { rule: Rule, at: u64 },
}
