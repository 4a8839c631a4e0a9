ghost use Rattle.std.specs.Prelude.{◌≡◌, IfOk, string_bytes};

use pads_value::{Items, Memory};
use std::alloc::Global;
use std::marker::Model;

/// A word of the command line. Contracts see it as its UTF-8 bytes.
#[derive(Drop)]
pub struct Word {
    text: String,
}

/// The words of the command line, without the program's name.
pub type Words = Items<Word>;

impl Model for Word {
    ghost use Rattle.std.specs.Prelude.{List, ℕ, string_bytes};

    ghost Value = { List ℕ };

    ghost view = { λ word. string_bytes word.text };
}

impl Word {
    pub fn new(text: String) -> Word
        ensures text { result ≡ string_bytes text }
    {
        Word { text }
    }

    pub fn as_str(&self) -> &str
        ensures text { result.now ≡ self.now }
    {
        self.text.as_str()
    }

    /// The same word, in memory of its own.
    pub fn copy(&self, alloc: Global) -> Result<Word, Memory>
        ensures same { IfOk result (λ word. word ≡ self.now) }
    {
        let text = String::from_str(alloc, self.text.as_str())?;
        Ok(Word { text })
    }
}
