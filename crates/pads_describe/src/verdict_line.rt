//! The words that tell why a description is refused.

ghost use Rattle.std.specs.Prelude.{◌≡◌, ◌≤◌, ◌+◌, ◌∷◌, [], ◌++◌, length, codes, decimal};
ghost use Rattle.arrayvec.specs.ArrayVec.{array_vec_len};
ghost use Rattle.pads_describe.specs.VerdictLines.{kind_words, with_number, reason, refusal_line};

use crate::Verdict;
use arrayvec::ArrayVec;
use itoa::Buffer;
use pads_lex::LexKind;

/// A line that takes no memory.
pub type Line = ArrayVec<u8, 128>;

/// Puts words behind what stands there.
pub fn put(line: &mut Line, words: &[u8])
    requires room { array_vec_len line.old + length words.now ≤ 128 }
    ensures put { line.new.items ≡ line.old.items ++ words.now }
    ensures grown { array_vec_len line.new ≡ array_vec_len line.old + length words.now }
{
    for byte in words {
        line.push(*byte);
    }
}

/// Puts a number in decimal digits behind what stands there.
pub fn put_number(line: &mut Line, number: u64)
    requires room { array_vec_len line.old + 20 ≤ 128 }
    ensures put { line.new.items ≡ line.old.items ++ decimal number }
    ensures grown { array_vec_len line.new ≤ array_vec_len line.old + 20 }
{
    let mut buffer = Buffer::new();
    put(line, buffer.format(number).as_bytes());
}

/// The word for a kind of fault.
fn kind_word(kind: LexKind) -> &'static [u8]
    ensures word { result.now ≡ kind_words kind }
    ensures short { length result.now ≤ 13 }
{
    match kind {
        LexKind::BadByte => b"BadByte",
        LexKind::BadNumber => b"BadNumber",
        LexKind::NumberTooWide => b"NumberTooWide",
        LexKind::OpenText => b"OpenText",
        LexKind::BadChar => b"BadChar",
        LexKind::BadEscape => b"BadEscape",
        LexKind::OpenComment => b"OpenComment",
    }
}

/// Puts a number behind words.
fn put_place(line: &mut Line, words: &[u8], place: u64)
    requires room { array_vec_len line.old + (length words.now + 20) ≤ 128 }
    ensures put { line.new.items ≡ line.old.items ++ with_number words.now place }
    ensures grown { array_vec_len line.new ≤ array_vec_len line.old + (length words.now + 20) }
{
    put(line, words);
    put_number(line, place);
}

/// Puts what is wrong, and where, behind what stands there.
fn put_reason(line: &mut Line, verdict: Verdict)
    requires room { array_vec_len line.old ≤ 15 }
    ensures put { line.new.items ≡ line.old.items ++ reason verdict }
    ensures grown { array_vec_len line.new ≤ 127 }
{
    match verdict {
        Verdict::TooLong => put(line, b"description too long"),
        Verdict::Lexical { kind, at } => {
            put(line, b"description lexical ");
            put(line, kind_word(kind));
            put_place(line, b" at byte ", at);
        }
        Verdict::Syntax { token, at } => {
            put_place(line, b"description syntax at token ", token);
            put_place(line, b" byte ", at);
        }
        Verdict::Rule { rule, at } => {
            put_place(line, b"description rule ", u64::from(rule.number()));
            put_place(line, b" at byte ", at);
        }
    }
}

impl Verdict {
    /// The last line of a run that refuses a description. It takes no memory.
    pub fn line(self) -> Line
        ensures line { result.items ≡ refusal_line self }
    {
        let mut line = Line::new();
        put(&mut line, b"pads: refused: ");
        put_reason(&mut line, self);
        line.push(b'\n');
        line
    }
}
