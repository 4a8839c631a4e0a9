ghost use Rattle.std.specs.Prelude.{◌≡◌, ◌↔◌, IsTrue, IfOk};

use crate::{Boxed, Bytes, Items, Memory};
use std::alloc::Global;

/// Values in their order, as those of a tuple or an array.
pub type Vals = Items<Val>;

/// The value that a part of a record reads as.
#[derive(Debug, Drop)]
pub enum Val {
    /// What a literal or an absent optional stands for.
    Unit,
    /// What a part without a value reads as.
    Missing,
    /// A whole number of 128 bits.
    Num(i128),
    /// A text of code points 00 to FF.
    Text(Bytes),
    /// A label of an enum by its number, from 0.
    Enum(u16),
    /// A struct: one value for each of its parts, literals included.
    Tuple(Vals),
    /// A union or an optional: the number of the branch chosen, from 0, and its value.
    Branch(u16, Boxed<Val>),
    /// An array: its elements.
    Array(Vals),
}

impl Val {
    /// Whether both are the same value.
    #[cycle(same)]
    pub fn same(&self, other: &Val) -> bool
        ensures same { IsTrue result ↔ (self.now ≡ other.now) }
    {
        match (self, other) {
            (Val::Unit, Val::Unit) => true,
            (Val::Missing, Val::Missing) => true,
            (Val::Num(a), Val::Num(b)) => *a == *b,
            (Val::Text(a), Val::Text(b)) => a.as_slice() == b.as_slice(),
            (Val::Enum(a), Val::Enum(b)) => *a == *b,
            (Val::Tuple(a), Val::Tuple(b)) => all_same(a.as_slice(), b.as_slice()),
            (Val::Branch(i, a), Val::Branch(j, b)) => *i == *j && a.get().same(b.get()),
            (Val::Array(a), Val::Array(b)) => all_same(a.as_slice(), b.as_slice()),
            _ => false,
        }
    }

    /// A value equal to this one.
    #[cycle(copy)]
    pub fn copy(&self, alloc: Global) -> Result<Val, Memory>
        ensures equal { IfOk result (λ copied. copied ≡ self.now) }
    {
        Ok(match self {
            Val::Unit => Val::Unit,
            Val::Missing => Val::Missing,
            Val::Num(number) => Val::Num(*number),
            Val::Text(text) => Val::Text(Items::from_slice(alloc, text.as_slice())?),
            Val::Enum(label) => Val::Enum(*label),
            Val::Tuple(parts) => Val::Tuple(copy_all(alloc, parts.as_slice())?),
            Val::Branch(branch, inner) => {
                Val::Branch(*branch, Boxed::new(alloc, inner.get().copy(alloc)?)?)
            }
            Val::Array(elements) => Val::Array(copy_all(alloc, elements.as_slice())?),
        })
    }
}

#[cycle(same)]
fn all_same(a: &[Val], b: &[Val]) -> bool
    ensures same { IsTrue result ↔ (a.now ≡ b.now) }
{
    if a.len() != b.len() {
        return false;
    }
    for i in 0..a.len() {
        if !a[i].same(&b[i]) {
            return false;
        }
    }
    true
}

#[cycle(copy)]
fn copy_all(alloc: Global, values: &[Val]) -> Result<Vals, Memory>
    ensures equal { IfOk result (λ copied. copied ≡ values.now) }
{
    let mut copied = Items::new(alloc);
    for value in values {
        copied.push(value.copy(alloc)?)?;
    }
    Ok(copied)
}
