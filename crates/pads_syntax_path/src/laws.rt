//! What the grammar says of every list of tokens.

ghost use Rattle.std.specs.Prelude.{◌≡◌, ◌⊎◌, ℕ, List};
ghost use Rattle.pads_lex.specs.Answers.{EndsLast};
ghost use Rattle.pads_lex.specs.declared.token.Token.{Token};
ghost use Rattle.pads_syntax_path.specs.Trees.{IsPath, IsPathFault};
ghost use Rattle.pads_syntax_path.specs.declared.path.Path.{Path};

/// No tokens derive two paths.
pub fn tokens_derive_one_path()
    ensures one { (tokens : List Token) (tree other : Path) → IsPath tree tokens → IsPath other tokens → tree ≡ other }
{}

/// Of all tokens at most one is the first at which no path goes on.
pub fn tokens_fault_at_one_place()
    ensures one { (tokens : List Token) (at other : ℕ) → IsPathFault tokens at → IsPathFault tokens other → at ≡ other }
{}

/// Tokens that derive a path have no fault.
pub fn no_tokens_derive_a_path_and_fault()
    ensures never { (tokens : List Token) (tree : Path) (at : ℕ) → IsPath tree tokens → IsPathFault tokens at → ⊥ }
{}

/// Tokens whose last is an end token derive a path or have a fault.
pub fn tokens_derive_a_path_or_fault()
    ensures either { (tokens : List Token) → EndsLast tokens
        → ((tree : Path) × IsPath tree tokens) ⊎ ((at : ℕ) × IsPathFault tokens at) }
{}
