//! What the check of a tree gives.

ghost use Rattle.std.specs.Prelude.{◌≡◌, []};
ghost use Rattle.std.specs.Coded.{Coded-set};
ghost use Rattle.std.proofs.Props.{props};
ghost use Rattle.pads_resolution.specs.Resolution.{resolved};
ghost use Rattle.pads_rules.specs.Violations.{violations};

use pads_ast::Ast;
use pads_resolution::Description;

/// An accepted tree, and what it resolves to.
#[derive(Debug, Drop)]
pub struct Checked<'a> {
    pub tree: &'a Ast,
    pub description: Description,
    /// The tree breaks no rule.
    pub ghost clean: { violations tree.now ≡ [] } by { Prim.hlevel props },
    /// The description is what the tree resolves to.
    pub ghost resolves: { description ≡ resolved tree.now } by { Coded-set description-code description (resolved tree.now) },
}
