//! Copies of texts.

ghost use Rattle.std.specs.Prelude.{◌≡◌, ◌∷◌, [], IfOk};
ghost use Rattle.pads_ast.specs.Trees.{points_of};

use pads_ast::Word;
use pads_value::{Bytes, Memory};
use std::alloc::Global;

/// A text of its own.
pub fn text(alloc: Global, text: &[u8]) -> Result<Bytes, Memory>
    ensures same { IfOk result (λ made. made ≡ text.now) }
{
    Bytes::from_slice(alloc, text)
}

/// The code points of a literal.
pub fn points(alloc: Global, word: &Word) -> Result<Bytes, Memory>
    ensures points { IfOk result (λ made. made ≡ points_of word.now) }
{
    match word {
        Word::Char { point, .. } => text(alloc, &[*point]),
        Word::Text { points, .. } => text(alloc, points.as_slice()),
    }
}
