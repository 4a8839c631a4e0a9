//! The law of questions.
ghost use Rattle.std.specs.Prelude.{ℕ, List, Option};
ghost use Rattle.pads_ast.specs.declared.decl.Ast.{Ast};
ghost use Rattle.pads_module.specs.Modules.{Contents};
ghost use Rattle.pads_question.specs.Questions.{IsAsked, IsNotAsked};
ghost use Rattle.pads_question.specs.declared.asked.Asked.{Asked};
ghost use Rattle.pads_question.specs.declared.fault.QuestionFault.{QuestionFault};

/// No question both asks something and is refused.
pub fn no_question_is_asked_and_refused()
    ensures not_both { (tree : Ast) (m : Contents) (path : List ℕ) (filter : Option (List ℕ)) (asked : Asked) (fault : QuestionFault)
        → IsAsked tree m path filter asked → IsNotAsked tree m path filter fault → ⊥ }
{}
