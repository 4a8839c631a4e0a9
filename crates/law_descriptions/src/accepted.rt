//! The laws of descriptions that break no rule.
ghost use Rattle.std.specs.Prelude.{◌≡◌, ℕ, true, List, [], Some, slice_get};
ghost use Rattle.pads_ast.specs.declared.decl.Ast.{Ast};
ghost use Rattle.pads_ast.specs.declared.decl.Decl.{Decl as WrittenDecl};
ghost use Rattle.pads_ast.specs.declared.expr.Expr.{Expr as Tree};
ghost use Rattle.pads_code.specs.declared.Coding.{Coding};
ghost use Rattle.pads_resolution.specs.declared.decl.Decl.{Decl};
ghost use Rattle.pads_resolution.specs.Expressions.{expression};
ghost use Rattle.pads_resolution.specs.Resolution.{resolved};
ghost use Rattle.pads_resolution.specs.Scopes.{NameScope as Names};
ghost use Rattle.pads_rules.specs.Judging.{judged};
ghost use Rattle.pads_ast.specs.NameTokens.{names_in_expr};
ghost use Rattle.pads_rules.specs.Resolving.{declared};
ghost use Rattle.pads_rules.specs.Violations.{violations};
ghost use Rattle.pads_rules.specs.declared.declared.Declared.{Declared};
ghost use Rattle.law_calculus.specs.Plain.{Plain};
ghost use Rattle.law_calculus.specs.Sorted.{Sorted};
ghost use Rattle.pads_rules.specs.declared.sort.Sort.{Sort};
ghost use Rattle.pads_trans.specs.Modules.{is_module, module_of};
ghost use Rattle.law_descriptions.specs.Expressions.{SortScope};
ghost use Rattle.law_descriptions.specs.WellSorted.{AreSorts, IsDecl, WellSorted};
ghost use Rattle.pads_resolution.specs.JudgedNames.{judging_scope};
ghost use Rattle.law_descriptions.specs.Described.{AreSpelled, Describes, Sees, Typed};
ghost use Rattle.law_descriptions.specs.Known.{known_sorts};

/// The law of expressions, among declarations that are what the rules know of them and names that stand for what
/// has their sorts: an expression that breaks no rule, and in which no name is spelled `@`, resolves to one of the
/// sort that the rules give it, and well-sorted where an operator may take it.
pub fn accepted_expressions_are_sorted()
    ensures judged { (written : List WrittenDecl) (env : List Declared) (decls : List Decl) (sorts : List Sort) (e : Tree) (names : Names) (later : List (List ℕ)) (scope : SortScope)
        → Describes written env decls sorts → Sees env decls sorts names scope → AreSpelled (names_in_expr e)
        → (judged env e (judging_scope names later)).faults ≡ []
        → (expression written env e names).sort ≡ (judged env e (judging_scope names later)).sort }
    ensures sorted { (written : List WrittenDecl) (env : List Declared) (decls : List Decl) (sorts : List Sort) (e : Tree) (names : Names) (later : List (List ℕ)) (scope : SortScope)
        → Describes written env decls sorts → Sees env decls sorts names scope → AreSpelled (names_in_expr e)
        → (judged env e (judging_scope names later)).faults ≡ []
        → Typed env decls sorts scope (expression written env e names).expr (expression written env e names).sort }
{}

/// The law of declarations: those that a tree without violations resolves to are what the rules know of them. Each
/// field, branch, label and element is there, by its number and of its sort.
pub fn accepted_declarations_are_described()
    ensures described { (tree : Ast) → violations tree ≡ [] → Describes tree.decls (declared tree.decls) (resolved tree).decls (known_sorts tree) }
{}

/// The law of well-sorted declarations: those that a tree without violations resolves to have the sorts that the
/// rules know, and each is well-sorted.
pub fn accepted_declarations_are_sorted()
    ensures sorts { (tree : Ast) → violations tree ≡ [] → AreSorts (known_sorts tree) (resolved tree).decls }
    ensures sorted { (tree : Ast) → violations tree ≡ [] → (number : ℕ) (d : Decl) → slice_get (resolved tree).decls number ≡ Some d
        → IsDecl (resolved tree).decls (known_sorts tree) number d }
{}

/// The law of descriptions: a tree without violations resolves to a well-sorted description.
pub fn accepted_descriptions_are_sorted()
    ensures sorted { (tree : Ast) → violations tree ≡ [] → WellSorted (resolved tree) }
{}

/// The law of modules: in each coding the module of a tree without violations is well formed, so that it is never
/// refused, well-sorted and plain.
pub fn accepted_modules_are_formed()
    ensures formed { (tree : Ast) (ambient : Coding) → violations tree ≡ [] → is_module (module_of (resolved tree) ambient) ≡ true }
    ensures sorted { (tree : Ast) (ambient : Coding) → violations tree ≡ [] → Sorted (module_of (resolved tree) ambient).decls }
    ensures plain { (tree : Ast) (ambient : Coding) → violations tree ≡ [] → Plain (module_of (resolved tree) ambient).decls }
{}
