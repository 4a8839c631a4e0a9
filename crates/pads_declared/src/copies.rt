//! Names with their sorts, copied from a tree.

ghost use Rattle.std.specs.Prelude.{◌≡◌, ◌++◌, ◌∷◌, [], map, IfOk, OnOk};
ghost use Rattle.pads_rules.specs.Pieces.{names_after, names_after_all};
ghost use Rattle.pads_rules.specs.Resolving as resolving;
ghost use Rattle.pads_declared.specs.Meanings.{with_sort};

use crate::Sight;
use crate::types::type_sort;
use pads_ast::{Branch, Label, Name, Param, Part};
use pads_rules::{ExprSort, Named};
use pads_value::{Bytes, Items, Memory};
use std::alloc::Global;

/// A name with a sort.
fn named(alloc: Global, name: &Name, sort: ExprSort) -> Result<Named, Memory>
    ensures named { IfOk result (λ named. named ≡ with_sort name.now sort) }
{
    let text = Items::from_slice(alloc, name.text.as_slice())?;
    Ok(Named { text, sort })
}

/// Puts a name with a sort behind some others.
fn add(alloc: Global, names: &mut Items<Named>, name: &Name, sort: ExprSort) -> Result<(), Memory>
    ensures added { OnOk result (names.new ≡ names.old ++ with_sort name.now sort ∷ []) }
{
    let named = named(alloc, name, sort)?;
    names.push(named)
}

/// Puts the name of a field or branch behind some others.
pub fn add_branch(
    alloc: Global,
    sight: &Sight<'_>,
    names: &mut Items<Named>,
    branch: &Branch,
) -> Result<(), Memory>
    ensures added { OnOk result (names.new ≡ names.old ++ resolving.branch_named sight.now branch.now ∷ []) }
{
    add(alloc, names, &branch.name, type_sort(sight, &branch.of))
}

/// Puts the name of a struct's part behind some others, where it has one.
pub fn add_part(
    alloc: Global,
    sight: &Sight<'_>,
    names: &mut Items<Named>,
    part: &Part,
) -> Result<(), Memory>
    ensures added { OnOk result (names.new ≡ names_after sight.now names.old part.now) }
{
    match part {
        Part::Literal(_) => Ok(()),
        Part::Pcompute { of, name, .. } => add(alloc, names, name, type_sort(sight, of)),
        Part::Field(branch) => add_branch(alloc, sight, names, branch),
    }
}

/// Puts the names of a struct's parts behind some others.
pub fn add_parts(
    alloc: Global,
    sight: &Sight<'_>,
    names: &mut Items<Named>,
    parts: &[Part],
) -> Result<(), Memory>
    ensures added { OnOk result (names.new ≡ names_after_all sight.now names.old parts.now) }
{
    for part in parts {
        add_part(alloc, sight, names, part)?;
    }
    Ok(())
}

/// The names of branches with their sorts.
#[tactic(auto, using(std::proofs::lemmas::Grind::common_steps, crate::proofs::Lists::lists))]
pub fn branch_names(
    alloc: Global,
    sight: &Sight<'_>,
    branches: &[&Branch],
) -> Result<Items<Named>, Memory>
    ensures names { IfOk result (λ names. names ≡ map (λ branch. resolving.branch_named sight.now branch.now) branches.now) }
{
    let mut names = Items::new(alloc);
    for branch in branches {
        add_branch(alloc, sight, &mut names, *branch)?;
    }
    Ok(names)
}

/// The names of parameters with their sorts.
pub fn param_names(
    alloc: Global,
    sight: &Sight<'_>,
    params: &[Param],
) -> Result<Items<Named>, Memory>
    ensures names { IfOk result (λ names. names ≡ map (resolving.param_named sight.now) params.now) }
{
    let mut names = Items::new(alloc);
    for param in params {
        add(alloc, &mut names, &param.name, type_sort(sight, &param.of))?;
    }
    Ok(names)
}

/// The sorts of parameters.
pub(crate) fn param_sorts(
    alloc: Global,
    sight: &Sight<'_>,
    params: &[Param],
) -> Result<Items<ExprSort>, Memory>
    ensures sorts { IfOk result (λ sorts. sorts ≡ map (λ param. resolving.type_sort sight.now param.of) params.now) }
{
    let mut sorts = Items::new(alloc);
    for param in params {
        sorts.push(type_sort(sight, &param.of))?;
    }
    Ok(sorts)
}

/// The names of labels.
pub(crate) fn label_names(alloc: Global, labels: &[Label]) -> Result<Items<Bytes>, Memory>
    ensures names { IfOk result (λ names. names ≡ map (λ label. label.name.text) labels.now) }
{
    let mut names = Items::new(alloc);
    for label in labels {
        let text = Items::from_slice(alloc, label.name.text.as_slice())?;
        names.push(text)?;
    }
    Ok(names)
}
