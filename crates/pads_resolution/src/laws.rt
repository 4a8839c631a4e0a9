//! The sorts of resolved expressions: nothing here runs.
//!
//! The rules give an expression a sort, and so does resolving; the law says that they agree.

ghost use Rattle.std.specs.Prelude.{◌≡◌, ℕ, List, [], map};
ghost use Rattle.pads_ast.specs.declared.decl.Decl.{Decl};
ghost use Rattle.pads_ast.specs.declared.decl.Part.{Part};
ghost use Rattle.pads_ast.specs.declared.expr.Expr.{Expr};
ghost use Rattle.pads_rules.specs.declared.declared.Declared.{Declared};
ghost use Rattle.pads_rules.specs.Judging.{judged};
ghost use Rattle.pads_rules.specs.Pieces as pieces;
ghost use Rattle.pads_rules.specs.Pieces.{Site, sight};
ghost use Rattle.pads_rules.specs.Resolving.{Sight, param_named};
ghost use Rattle.pads_ast.specs.Trees.{params_of};
ghost use Rattle.pads_resolution.specs.Expressions.{expression};
ghost use Rattle.pads_resolution.specs.Resolution.{params_scope};
ghost use Rattle.pads_resolution.specs.Scopes as scopes;
ghost use Rattle.pads_resolution.specs.Scopes.{NameScope};
ghost use Rattle.pads_resolution.specs.JudgedNames.{as_named, judging_scope};

/// The law of sorts: an expression without violations resolves to one of the sort that the rules give it, with the
/// same names in scope.
#[tactic(auto, using(crate::proofs::SortLaws::sort_laws))]
pub fn resolved_sorts_are_judged()
    ensures sorts { (decls : List Decl) (env : List Declared) (e : Expr) (scope : NameScope) (later : List (List ℕ)) → (judged env e (judging_scope scope later)).faults ≡ [] → (expression decls env e scope).sort ≡ (judged env e (judging_scope scope later)).sort }
{}

/// The law of scopes: the names in which expressions are resolved are, with the same sorts, those in which the rules
/// judge them: the parameters, the names behind a part of a struct, those in its `Pwhere`, and those in the conditions
/// of an array.
#[tactic(auto, using(crate::proofs::ScopeLaws::scope_laws))]
pub fn scopes_are_judged()
    ensures params { (site : Site) → map as_named (params_scope site) ≡ map (param_named (sight site)) (params_of site.decl.body) }
    ensures part { (types : Sight) (names : NameScope) (part : Part) → map as_named (scopes.names_after types names part) ≡ pieces.names_after types (map as_named names) part }
    ensures condition { (types : Sight) (names : NameScope) (parts : List Part) → map as_named (scopes.fields_after types names 0 parts) ≡ pieces.names_after_all types (map as_named names) parts }
    ensures array { (number : ℕ) (names : NameScope) → judging_scope (scopes.array_scope number names) [] ≡ pieces.array_scope (map as_named names) number }
{}
