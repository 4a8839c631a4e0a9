//! The labels of enums.

ghost use Rattle.std.specs.Prelude.{◌≡◌, map, option_map, IfOk};
ghost use Rattle.pads_resolution.specs.Bodies as bodies;
ghost use Rattle.pads_ast.specs.Trees.{points_of};

use pads_ast::{Label as WrittenLabel, Word};
use pads_resolution::Label;
use pads_resolve_expr::{points, text};
use pads_value::{Bytes, Items, Memory};
use std::alloc::Global;

/// A spelling, where one is written.
fn spelling(alloc: Global, word: &Option<Word>) -> Result<Option<Bytes>, Memory>
    ensures made { IfOk result (λ made. made ≡ option_map points_of word.now) }
{
    match word {
        None => Ok(None),
        Some(word) => Ok(Some(points(alloc, word)?)),
    }
}

#[tactic(auto, unfolding(pads_resolution::specs::Bodies::label_of))]
fn label_of(alloc: Global, label: &WrittenLabel) -> Result<Label, Memory>
    ensures made { IfOk result (λ made. made ≡ bodies.label_of label.now) }
{
    let name = text(alloc, label.name.text.as_slice())?;
    let spelling = spelling(alloc, &label.spelling)?;
    Ok(Label { name, spelling })
}

/// The labels of an enum, in order, each with its spelling where one is written.
pub fn labels_of(alloc: Global, labels: &[WrittenLabel]) -> Result<Items<Label>, Memory>
    ensures made { IfOk result (λ made. made ≡ map bodies.label_of labels.now) }
{
    let mut made = Items::new(alloc);
    for label in labels {
        made.push(label_of(alloc, label)?)?;
    }
    Ok(made)
}
