ghost use Rattle.std.specs.Prelude.{◌≡◌, IfOk};

use pads_value::{Bytes, Items, Memory};
use std::alloc::Global;

/// Texts in their order, as the names of labels or branches.
pub type Texts = Items<Bytes>;

/// What the nodes of a part are, which decides what they give as samples.
#[derive(Debug, Drop)]
pub enum PartForm {
    /// The record node.
    Record,
    /// Nothing that gives a sample: a literal, the record's end, nothing at all, or a call of a
    /// declaration that stands on the way already.
    Bare,
    /// A number of an integer base, or a computed one.
    Number,
    /// A text.
    Text,
    /// An address.
    Address,
    /// A label of an enum; the labels' names.
    Label(Texts),
    /// A struct.
    Fields,
    /// A branch of a union; the branches' names.
    Branch(Texts),
    /// An array.
    Elements,
}

fn copy_texts(alloc: Global, texts: &[Bytes]) -> Result<Texts, Memory>
    ensures equal { IfOk result (λ copied. copied ≡ texts.now) }
{
    let mut copied = Items::new(alloc);
    for text in texts {
        copied.push(Items::from_slice(alloc, text.as_slice())?)?;
    }
    Ok(copied)
}

impl PartForm {
    /// A form equal to this one.
    pub fn copy(&self, alloc: Global) -> Result<PartForm, Memory>
        ensures equal { IfOk result (λ copied. copied ≡ self.now) }
    {
        Ok(match self {
            PartForm::Record => PartForm::Record,
            PartForm::Bare => PartForm::Bare,
            PartForm::Number => PartForm::Number,
            PartForm::Text => PartForm::Text,
            PartForm::Address => PartForm::Address,
            PartForm::Label(names) => PartForm::Label(copy_texts(alloc, names.as_slice())?),
            PartForm::Fields => PartForm::Fields,
            PartForm::Branch(names) => PartForm::Branch(copy_texts(alloc, names.as_slice())?),
            PartForm::Elements => PartForm::Elements,
        })
    }
}
