//! The violations of a description part by part: nothing here runs.
//!
//! `specs/Parts.antt` says what each part of a check has to look for; the law says that the violation told first is
//! the one that the rules give, taken one by one.

ghost use Rattle.std.specs.Prelude.{◌≡◌};
ghost use Rattle.pads_ast.specs.declared.decl.Ast.{Ast};
ghost use Rattle.pads_rules.specs.Faults.{lesser, least};
ghost use Rattle.pads_rules.specs.Violations.{violations, no_record_type};
ghost use Rattle.pads_rules.specs.SiteFaults.{all_faults};

/// The law of the parts: the first violation of a tree is the first of those of its declarations, each with its
/// pieces, and of the rule about the whole tree.
#[tactic(auto, using(crate::proofs::PartLaws::part_laws))]
pub fn violations_come_by_parts()
    ensures least { (tree : Ast) → least (violations tree) ≡ lesser (least (all_faults tree)) (least (no_record_type tree)) }
{}
