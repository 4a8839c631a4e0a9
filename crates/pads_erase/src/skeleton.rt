ghost use Rattle.std.specs.Prelude.{◌≡◌, IfOk};
ghost use Rattle.pads_erase.specs.declared.skeleton.Skeleton.TheVariants as skeleton;

use pads_value::{Boxed, Items, Memory};
use std::alloc::Global;

/// Skeletons in their order, as those of a struct's parts or of a union's branches.
pub type Skeletons = Items<Skeleton>;

/// Where the values of a declaration's own body stand in a value.
#[derive(Debug, Drop)]
pub enum Skeleton {
    /// A value of the declaration's own: a number, a text or a label of an enum.
    Leaf,
    /// What stands for no data: a literal, the record's end, nothing.
    Nothing,
    /// A struct, by its parts.
    List(Skeletons),
    /// A union, by its branches.
    Arms(Skeletons),
    /// An array, by its elements.
    Each(Boxed<Skeleton>),
    /// A value of another declaration, by its number.
    Ref(u16),
}

/// What a declaration keeps.
#[derive(Debug, Drop)]
pub struct Keeping {
    /// Whether the values of its own body are kept.
    pub set: bool,
    pub skeleton: Skeleton,
}

/// What declarations keep, in their order.
pub type Keepings = Items<Keeping>;

impl Skeleton {
    /// The skeleton of an array with such elements.
    pub fn each(alloc: Global, element: Skeleton) -> Result<Skeleton, Memory>
        ensures each { IfOk result (λ made. made ≡ skeleton.Each element) }
    {
        Ok(Skeleton::Each(Boxed::new(alloc, element)?))
    }

    /// A skeleton equal to this one.
    #[cycle(copy)]
    pub fn copy(&self, alloc: Global) -> Result<Skeleton, Memory>
        ensures equal { IfOk result (λ copied. copied ≡ self.now) }
    {
        match self {
            Skeleton::Leaf => Ok(Skeleton::Leaf),
            Skeleton::Nothing => Ok(Skeleton::Nothing),
            Skeleton::List(parts) => Ok(Skeleton::List(copy_each(alloc, parts.as_slice())?)),
            Skeleton::Arms(arms) => Ok(Skeleton::Arms(copy_each(alloc, arms.as_slice())?)),
            Skeleton::Each(element) => Skeleton::each(alloc, element.get().copy(alloc)?),
            Skeleton::Ref(number) => Ok(Skeleton::Ref(*number)),
        }
    }
}

/// Skeletons equal to these.
#[cycle(copy)]
fn copy_each(alloc: Global, skeletons: &[Skeleton]) -> Result<Skeletons, Memory>
    ensures equal { IfOk result (λ copied. copied ≡ skeletons.now) }
{
    let mut copied = Items::new(alloc);
    for skeleton in skeletons {
        copied.push(skeleton.copy(alloc)?)?;
    }
    Ok(copied)
}
