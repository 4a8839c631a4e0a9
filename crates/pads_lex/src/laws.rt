//! What the rules of tokens say of every text.

ghost use Rattle.std.specs.Prelude.{◌≡◌, ◌⊎◌, ℕ, List};
ghost use Rattle.pads_lex.specs.Cut.{IsCut, BreaksAt};
ghost use Rattle.pads_lex.specs.declared.token.Token.{Token};
ghost use Rattle.pads_lex.specs.declared.fault.LexKind.{LexKind};

/// The rules decide: each text is one list of tokens, or breaks the rules first in one way at one
/// place, and no text does both.
pub fn each_text_has_one_reading()
    ensures tokens { (text : List ℕ) (one other : List Token) → IsCut 0 text one → IsCut 0 text other → one ≡ other }
    ensures faults { (text : List ℕ) (one other : LexKind) (at place : ℕ) → BreaksAt 0 text one at
        → BreaksAt 0 text other place → (one ≡ other) × (at ≡ place) }
    ensures not_both { (text : List ℕ) (tokens : List Token) (kind : LexKind) (at : ℕ) → IsCut 0 text tokens
        → BreaksAt 0 text kind at → ⊥ }
    ensures either { (text : List ℕ) → ((tokens : List Token) × IsCut 0 text tokens)
        ⊎ ((kind : LexKind) × (at : ℕ) × BreaksAt 0 text kind at) }
{}
