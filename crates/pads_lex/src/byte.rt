//! The classes of bytes that tokens are made of.

ghost use Rattle.std.specs.Prelude.{◌≡◌};
ghost use Rattle.pads_lex.specs.Bytes.{is_blank, is_letter, is_digit, is_word_byte, is_hex, digit_value};

/// Tab, newline, carriage return and space.
#[tactic(auto, unfolding(crate::specs::Bytes::is_blank))]
pub(crate) fn is_blank(byte: u8) -> bool
    ensures class { result ≡ is_blank byte }
{
    byte == b'\t' || byte == b'\n' || byte == b'\r' || byte == b' '
}

/// A letter or `_`, with which a name begins.
#[tactic(auto, unfolding(crate::specs::Bytes::is_letter))]
pub(crate) fn is_letter(byte: u8) -> bool
    ensures class { result ≡ is_letter byte }
{
    (byte >= b'A' && byte <= b'Z') || (byte >= b'a' && byte <= b'z') || byte == b'_'
}

#[tactic(auto, unfolding(crate::specs::Bytes::is_digit))]
pub(crate) fn is_digit(byte: u8) -> bool
    ensures class { result ≡ is_digit byte }
{
    byte >= b'0' && byte <= b'9'
}

/// A letter, a digit or `_`, with which a name goes on.
#[tactic(auto, unfolding(crate::specs::Bytes::is_word_byte))]
pub(crate) fn is_word_byte(byte: u8) -> bool
    ensures class { result ≡ is_word_byte byte }
{
    is_letter(byte) || is_digit(byte)
}

/// A digit in base 16, in either case.
#[tactic(auto, unfolding(crate::specs::Bytes::is_hex))]
pub(crate) fn is_hex(byte: u8) -> bool
    ensures class { result ≡ is_hex byte }
{
    is_digit(byte) || (byte >= b'A' && byte <= b'F') || (byte >= b'a' && byte <= b'f')
}

/// What a digit of base 10 or 16 counts. Of other bytes it says nothing that is used.
#[tactic(auto, unfolding(crate::specs::Bytes::digit_value))]
pub(crate) fn digit_value(byte: u8) -> u8
    ensures value { result ≡ digit_value byte }
{
    if byte <= b'9' {
        byte.saturating_sub(b'0')
    } else if byte <= b'F' {
        byte.saturating_sub(b'7')
    } else {
        byte.saturating_sub(b'W')
    }
}
