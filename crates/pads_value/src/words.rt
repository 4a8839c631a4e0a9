ghost use Rattle.std.specs.Prelude.{◌≡◌};
ghost use Rattle.pads_value.specs.Words.{is_word};

/// Whether a word is this text, byte for byte.
#[tactic(auto, unfolding(crate::specs::Words::is_word))]
pub fn is_word(word: &[u8], text: &[u8]) -> bool
    ensures same { result ≡ is_word word.now text.now }
{
    word == text
}
