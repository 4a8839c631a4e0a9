ghost use Rattle.std.specs.Prelude.{◌≡◌, ◌+◌, ◌≤◌, length};
ghost use Rattle.pads_lex.specs.Runs.{has_byte, run};
ghost use Rattle.pads_lex.specs.Bytes.{is_on_line};

use crate::byte::{is_digit, is_hex, is_word_byte};

/// The classes of bytes that stand in runs.
#[derive(Clone, Copy)]
pub(crate) enum Class {
    /// Letters, digits and `_`.
    Word,
    /// The digits of base 10.
    Digit,
    /// The digits of base 16.
    Hex,
    /// All bytes but a newline.
    Line,
}

impl Class {
    pub(crate) fn has(self, byte: u8) -> bool
        ensures class { result ≡ has_byte self byte }
    {
        match self {
            Class::Word => is_word_byte(byte),
            Class::Digit => is_digit(byte),
            Class::Hex => is_hex(byte),
            Class::Line => is_on_line(byte),
        }
    }

    /// How many bytes at the front of a text are of the class.
    pub(crate) fn run(self, text: &[u8]) -> usize
        ensures run { result ≡ run (has_byte self) text.now }
        ensures within { result ≤ length text.now }
    {
        let mut count = 0;
        'bytes: for byte in text {
            if !self.has(*byte) {
                return count;
            }
            count += 1;
        }
        count
    }
}

/// Any byte but a newline.
#[tactic(auto, unfolding(crate::specs::Bytes::is_on_line))]
fn is_on_line(byte: u8) -> bool
    ensures class { result ≡ is_on_line byte }
{
    byte != b'\n'
}
