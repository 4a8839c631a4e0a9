//! What the spelling of names leaves out.
ghost use Rattle.law_descriptions.specs.Known.{IsSpelledTree};
ghost use Rattle.pads_ast.specs.declared.decl.Ast.{Ast};

/// The law of names: those of a tree begin with a letter or `_`, so that none is spelled `@`.
pub fn no_name_is_at_sign()
    ensures spelled { (tree : Ast) → IsSpelledTree tree }
{}
