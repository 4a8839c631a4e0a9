//! The words that tell why a question is refused.

ghost use Rattle.std.specs.Prelude.{◌≡◌, ◌≤◌, ◌+◌, ◌++◌, codes, length};
ghost use Rattle.arrayvec.specs.ArrayVec.{array_vec_len};
ghost use Rattle.pads_describe.specs.VerdictLines.{kind_words, with_number};
ghost use Rattle.pads_question.specs.FaultLines.{filter_reason, path_reason, question_line, question_reason};
ghost use Rattle.pads_question.specs.declared.fault.PathError.TheVariants as path;

use crate::fault::{FilterError, PathError, QuestionFault};
use pads_describe::{Line, put, put_number};
use pads_lex::LexKind;
use pads_path::PathFault;

/// The word for a kind of fault.
fn kind_word(kind: LexKind) -> &'static [u8]
    ensures word { result.now ≡ kind_words kind }
    ensures short { length result.now ≤ 13 }
{
    match kind {
        LexKind::BadByte => b"BadByte",
        LexKind::BadNumber => b"BadNumber",
        LexKind::NumberTooWide => b"NumberTooWide",
        LexKind::OpenText => b"OpenText",
        LexKind::BadChar => b"BadChar",
        LexKind::BadEscape => b"BadEscape",
        LexKind::OpenComment => b"OpenComment",
    }
}

/// Puts a number behind words.
fn put_place(line: &mut Line, words: &[u8], place: u64)
    requires room { array_vec_len line.old + (length words.now + 20) ≤ 128 }
    ensures put { line.new.items ≡ line.old.items ++ with_number words.now place }
    ensures grown { array_vec_len line.new ≤ array_vec_len line.old + (length words.now + 20) }
{
    put(line, words);
    put_number(line, place);
}

/// Puts how the tokens of a text are broken, and where.
fn put_lexical(line: &mut Line, words: &[u8], kind: LexKind, at: u64)
    requires room { array_vec_len line.old + length words.now ≤ 60 }
    ensures put { line.new.items ≡ line.old.items ++ ((words.now ++ kind_words kind) ++ with_number (codes " at byte ") at) }
    ensures grown { array_vec_len line.new ≤ 127 }
{
    put(line, words);
    put(line, kind_word(kind));
    put_place(line, b" at byte ", at);
}

/// Puts a number behind words, and another behind others.
fn put_places(line: &mut Line, words: &[u8], first: u64, others: &[u8], second: u64)
    requires room { array_vec_len line.old + length words.now + length others.now ≤ 80 }
    ensures put { line.new.items ≡ line.old.items ++ (with_number words.now first ++ with_number others.now second) }
    ensures grown { array_vec_len line.new ≤ 127 }
{
    put_place(line, words, first);
    put_place(line, others, second);
}

/// Puts a step that names no part, and why.
fn put_step(line: &mut Line, fault: PathFault)
    requires room { array_vec_len line.old ≤ 15 }
    ensures put { line.new.items ≡ line.old.items ++ path_reason (path.Step fault) }
    ensures grown { array_vec_len line.new ≤ 127 }
{
    put_place(line, b"path step ", fault.step);
    put(line, b" ");
    put(line, fault.reason.name().as_bytes());
}

/// Puts why a path is refused.
fn put_path(line: &mut Line, error: PathError)
    requires room { array_vec_len line.old ≤ 15 }
    ensures put { line.new.items ≡ line.old.items ++ path_reason error }
    ensures grown { array_vec_len line.new ≤ 127 }
{
    match error {
        PathError::Lexical { kind, at } => put_lexical(line, b"path lexical ", kind, at),
        PathError::Syntax { token, at } => {
            put_places(line, b"path syntax at token ", token, b" byte ", at);
        }
        PathError::Step(fault) => put_step(line, fault),
    }
}

/// Puts why a filter is refused.
fn put_filter(line: &mut Line, error: FilterError)
    requires room { array_vec_len line.old ≤ 15 }
    ensures put { line.new.items ≡ line.old.items ++ filter_reason error }
    ensures grown { array_vec_len line.new ≤ 127 }
{
    match error {
        FilterError::Lexical { kind, at } => put_lexical(line, b"filter lexical ", kind, at),
        FilterError::Syntax { token, at } => {
            put_places(line, b"filter syntax at token ", token, b" byte ", at);
        }
        FilterError::Rule { rule, at } => {
            let number = u64::from(rule.number());
            put_places(line, b"filter rule ", number, b" at byte ", at);
        }
    }
}

/// Puts why a question is refused.
fn put_reason(line: &mut Line, fault: QuestionFault)
    requires room { array_vec_len line.old ≤ 15 }
    ensures put { line.new.items ≡ line.old.items ++ question_reason fault }
    ensures grown { array_vec_len line.new ≤ 127 }
{
    match fault {
        QuestionFault::Path(error) => put_path(line, error),
        QuestionFault::Filter(error) => put_filter(line, error),
    }
}

impl QuestionFault {
    /// The last line of a run that refuses a question. It takes no memory.
    pub fn line(self) -> Line
        ensures line { result.items ≡ question_line self }
    {
        let mut line = Line::new();
        put(&mut line, b"pads: refused: ");
        put_reason(&mut line, self);
        line.push(b'\n');
        line
    }
}
