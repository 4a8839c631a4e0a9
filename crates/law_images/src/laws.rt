//! The laws of images.
ghost use Rattle.std.specs.Prelude.{◌≡◌, ◌&&◌, ◌≤◌, ℕ, true, List, length};
ghost use Rattle.pads_value.specs.Cuts.{Cut};
ghost use Rattle.pads_value.specs.declared.row.Row.{Row};
ghost use Rattle.pads_calc.specs.declared.decl.Decl.{Decl};
ghost use Rattle.pads_calc.specs.declared.decl.Shape.{Shape};
ghost use Rattle.pads_module.specs.Counts.{module_counts};
ghost use Rattle.pads_module.specs.Scopes.{module_in_scope, shape_there};
ghost use Rattle.pads_image.specs.Answers.{Answers, StandsFor};
ghost use Rattle.pads_image.specs.declared.entry.Entry.{Entry};
ghost use Rattle.pads_image.specs.declared.op.Op.{Op};
ghost use Rattle.pads_image.specs.Code.{IsCodeOf, code_of, entries_of, length_of};
ghost use Rattle.pads_image.specs.Heights.{stack_need};
ghost use Rattle.pads_image.specs.Validity.{is_valid, longest};

/// The law of valid code: the code of a module is valid, where it isn't too long.
pub fn code_is_valid()
    ensures valid { (decls : List Decl) (names : List (List ℕ)) (shape : Shape) → module_counts decls ≡ true → module_in_scope decls names shape ≡ true → length_of decls ≤ longest → is_valid (code_of decls) (entries_of decls) shape ≡ true }
{}

/// The law of modules: for each record the machine halts over their code, answers the calculus' row,
/// and never has more entries on its stacks than the need.
pub fn code_stands_for_its_module()
    ensures stands { (decls : List Decl) (shape : Shape) → shape_there (length decls) shape ≡ true → StandsFor (code_of decls) (entries_of decls) shape (stack_need (code_of decls) (entries_of decls) shape) decls }
{}

/// The law of valid images: the code and the entries of each are those of declarations, which its shape
/// names.
pub fn valid_image_is_that_of_declarations()
    ensures declared { (code : List Op) (entries : List Entry) (shape : Shape) → is_valid code entries shape ≡ true → (decls : List Decl) × IsCodeOf decls code entries × (shape_there (length decls) shape ≡ true) }
{}

/// The law of runs: over every valid image the machine halts for each record, with the row of some
/// reading, and never has more entries on its stacks than the need.
pub fn valid_image_answers()
    ensures answers { (code : List Op) (entries : List Entry) (shape : Shape) → is_valid code entries shape ≡ true → (scan number : ℕ) (cut : Cut) → (row : Row) × Answers code entries shape scan (stack_need code entries shape) number cut row }
{}
