//! How many parts, branches or labels there are.

ghost use Rattle.std.specs.Prelude.{◌≡◌, length};
ghost use Rattle.pads_ast.specs.declared.decl.UnionBody.TheVariants as union;
ghost use Rattle.pads_rules.specs.DeclRules as rules;
ghost use Rattle.pads_ast.specs.Trees as trees;

use pads_ast::{DeclBody, Switch, UnionBody};

fn switch_count(switch: &Switch) -> usize
    ensures count { result ≡ length (trees.branches_of (union.Switch switch.now)) }
{
    let cases = switch.cases.as_slice().len();
    if switch.default.is_some() {
        cases + 1
    } else {
        cases
    }
}

/// How many branches a union has.
pub(crate) fn branch_count(body: &UnionBody) -> usize
    ensures count { result ≡ length (trees.branches_of body.now) }
{
    match body {
        UnionBody::Branches(branches) => branches.as_slice().len(),
        UnionBody::Switch(switch) => switch_count(switch),
    }
}

/// How many parts, branches or labels a declaration has.
pub(crate) fn part_count(body: &DeclBody) -> usize
    ensures count { result ≡ rules.part_count body.now }
{
    match body {
        DeclBody::Struct(d) => d.parts.as_slice().len(),
        DeclBody::Union(d) => branch_count(&d.body),
        DeclBody::Enum(d) => d.labels.as_slice().len(),
        DeclBody::Array(_) | DeclBody::Typedef(_) | DeclBody::Opt(_) => 0,
    }
}
