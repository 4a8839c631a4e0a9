//! Whether a text is spelled as a name.

ghost use Rattle.std.specs.Prelude.{◌≡◌};
ghost use Rattle.std.specs.List.{list_all};
ghost use Rattle.pads_lex.specs.Bytes.{is_word_byte};
ghost use Rattle.pads_lex.specs.Spelling.{is_name};

use crate::byte::{is_letter, is_word_byte};
use crate::words::keyword;

/// Whether each byte is a letter, a digit or `_`.
fn are_word_bytes(text: &[u8]) -> bool
    ensures all { result ≡ list_all is_word_byte text.now }
{
    text.iter().all(|byte| is_word_byte(*byte))
}

/// Whether a text is spelled as a name of the language: it begins with a letter or `_`, goes on with letters, digits
/// and `_`, and is no keyword.
#[tactic(auto, unfolding(crate::specs::Spelling::is_name))]
pub fn is_name(text: &[u8]) -> bool
    ensures name { result ≡ is_name text.now }
{
    match text {
        [] => false,
        [first, others @ ..] => {
            is_letter(*first) && are_word_bytes(others) && keyword(text).is_none()
        }
    }
}
