//! What the grammar says of every list of tokens.

ghost use Rattle.std.specs.Prelude.{◌≡◌, ◌⊎◌, ℕ, List};
ghost use Rattle.pads_lex.specs.Answers.{EndsLast, HasSpelledNames};
ghost use Rattle.pads_lex.specs.declared.token.Token.{Token};
ghost use Rattle.pads_ast.specs.declared.decl.Ast.{Ast};
ghost use Rattle.pads_ast.specs.declared.decl.Decl.{Decl};
ghost use Rattle.pads_ast.specs.declared.decl.ExprAst.{ExprAst};
ghost use Rattle.pads_syntax.specs.Trees.{Derive, IsTree, IsTreeFault, IsExprTree, IsExprTreeFault};

/// No tokens derive two trees.
pub fn tokens_derive_one_tree()
    ensures declarations { (tokens : List Token) (one other : List Decl × ℕ) → Derive one tokens → Derive other tokens → one ≡ other }
    ensures descriptions { (tokens : List Token) (one other : Ast) → IsTree one tokens → IsTree other tokens → one ≡ other }
    ensures filters { (tokens : List Token) (one other : ExprAst) → IsExprTree one tokens → IsExprTree other tokens → one ≡ other }
{}

/// Of all tokens at most one is the first at which no tree goes on.
pub fn tokens_fault_at_one_place()
    ensures descriptions { (tokens : List Token) (one other : ℕ) → IsTreeFault tokens one → IsTreeFault tokens other → one ≡ other }
    ensures filters { (tokens : List Token) (one other : ℕ) → IsExprTreeFault tokens one → IsExprTreeFault tokens other → one ≡ other }
{}

/// Tokens that derive a tree have no fault.
pub fn no_tokens_derive_a_tree_and_fault()
    ensures declarations { (tokens : List Token) (made : List Decl × ℕ) (at : ℕ) → Derive made tokens → IsTreeFault tokens at → ⊥ }
    ensures descriptions { (tokens : List Token) (tree : Ast) (at : ℕ) → IsTree tree tokens → IsTreeFault tokens at → ⊥ }
    ensures filters { (tokens : List Token) (tree : ExprAst) (at : ℕ) → IsExprTree tree tokens → IsExprTreeFault tokens at → ⊥ }
{}

/// Tokens that derive no declarations have a fault. Where each name among them is spelled as a name, what they derive is a
/// tree.
pub fn tokens_derive_a_tree_or_fault()
    ensures declarations { (tokens : List Token) → EndsLast tokens
        → ((made : List Decl × ℕ) × Derive made tokens) ⊎ ((at : ℕ) × IsTreeFault tokens at) }
    ensures descriptions { (tokens : List Token) → EndsLast tokens → HasSpelledNames tokens
        → ((tree : Ast) × IsTree tree tokens) ⊎ ((at : ℕ) × IsTreeFault tokens at) }
    ensures filters { (tokens : List Token) → EndsLast tokens
        → ((tree : ExprAst) × IsExprTree tree tokens) ⊎ ((at : ℕ) × IsExprTreeFault tokens at) }
{}
