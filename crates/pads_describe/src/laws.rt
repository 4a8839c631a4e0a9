//! What the rules of descriptions say of every text.

ghost use Rattle.std.specs.Prelude.{◌≡◌, ℕ, true, List};
ghost use Rattle.pads_ast.specs.declared.decl.Ast.{Ast};
ghost use Rattle.pads_describe.specs.Trees.{IsAccepted};
ghost use Rattle.pads_code.specs.declared.Coding.{Coding};
ghost use Rattle.pads_describe.specs.Describing.{Describes};
ghost use Rattle.pads_describe.specs.Verdicts.{IsRefused};
ghost use Rattle.law_calculus.specs.Plain.{Plain};
ghost use Rattle.law_calculus.specs.Sorted.{Sorted};
ghost use Rattle.pads_module.specs.Modules.{Contents};
ghost use Rattle.pads_calc.specs.Skeletons.{KeepsAll};
ghost use Rattle.pads_trans.specs.Modules.{is_module};
ghost use Rattle.pads_describe.specs.declared.verdict.Verdict.{Verdict};

/// Each text has at most one answer: it is accepted with one tree, or it is refused for one reason.
pub fn each_text_has_one_answer()
    ensures trees { (text : List ℕ) (one other : Ast) → IsAccepted text one → IsAccepted text other → one ≡ other }
    ensures verdicts { (text : List ℕ) (one other : Verdict) → IsRefused text one → IsRefused text other → one ≡ other }
    ensures not_both { (text : List ℕ) (tree : Ast) (verdict : Verdict) → IsAccepted text tree → IsRefused text verdict → ⊥ }
{}

/// In each coding a text describes at most one module, and it describes one or it is refused.
pub fn each_text_describes_one_module()
    ensures modules { (text : List ℕ) (coding : Coding) (one other : Contents) → Describes text coding one → Describes text coding other → one ≡ other }
    ensures not_both { (text : List ℕ) (coding : Coding) (made : Contents) (verdict : Verdict) → Describes text coding made
        → IsRefused text verdict → ⊥ }
{}

/// In each coding an accepted text describes a module. What is described is well formed, well-sorted, so that nothing
/// ill-sorted is ever evaluated, and plain, and it keeps all values.
pub fn described_modules_are_sound()
    ensures there { (text : List ℕ) (coding : Coding) (tree : Ast) → IsAccepted text tree → (made : Contents) × Describes text coding made }
    ensures well_formed { (text : List ℕ) (coding : Coding) (made : Contents) → Describes text coding made → is_module made ≡ true }
    ensures sorted { (text : List ℕ) (coding : Coding) (made : Contents) → Describes text coding made → Sorted made.decls }
    ensures plain { (text : List ℕ) (coding : Coding) (made : Contents) → Describes text coding made → Plain made.decls }
    ensures keeps_all { (text : List ℕ) (coding : Coding) (made : Contents) → Describes text coding made → KeepsAll made.decls }
{}
