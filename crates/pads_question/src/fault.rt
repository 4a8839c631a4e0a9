//! Why a question is refused.

use pads_lex::LexKind;
use pads_path::PathFault;
use pads_rules::Rule;

/// Why a path is refused. Places are bytes of its text, from 0.
#[derive(Clone, Copy, Debug, PartialEq, Eq)]
pub enum PathError {
    /// Its text first breaks the rules of tokens there and so.
    Lexical { kind: LexKind, at: u64 },
    /// Its tokens derive no path: the token of that number, from 0, is the first with which none goes on.
    Syntax { token: u64, at: u64 },
    /// A step names no part.
    Step(PathFault),
}

/// Why a filter is refused. Places are bytes of its text, from 0.
#[derive(Clone, Copy, Debug, PartialEq, Eq)]
pub enum FilterError {
    /// Its text first breaks the rules of tokens there and so.
    Lexical { kind: LexKind, at: u64 },
    /// Its tokens derive no filter: the token of that number, from 0, is the first with which none goes on.
    Syntax { token: u64, at: u64 },
    /// It breaks that rule there, and none before.
    Rule { rule: Rule, at: u64 },
}

/// Why a question is refused: for its path, or else for its filter.
#[derive(Clone, Copy, Debug, PartialEq, Eq)]
pub enum QuestionFault {
    Path(PathError),
    Filter(FilterError),
}
