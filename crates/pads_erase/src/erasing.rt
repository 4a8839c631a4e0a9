//! Erasing: the value is moved and not copied.
ghost use Rattle.std.specs.Prelude.{◌≡◌, ◌<◌, Some, map, slice_get, slice_set, vec_len, IfOk};
ghost use Rattle.std.specs.Option.{option_copied};
ghost use Rattle.pads_value.specs.declared.value.Val.{out-Val};
ghost use Rattle.pads_value.specs.declared.value.Val.TheVariants as val;
ghost use Rattle.pads_erase.specs.Erasing.{at_arms, at_each, at_leaf, at_list, by_arm, each_part, erase as erase_of, erased};

use crate::{Keeping, Skeleton};
use pads_value::{Boxed, Items, Memory, Val};
use std::alloc::Global;
use std::mem;

/// A value at a leaf, which is kept or not.
fn leaf(set: bool, value: Val) -> Val
    ensures leaf { result ≡ at_leaf set value }
{
    if set {
        return value;
    }
    match value {
        Val::Num(_) | Val::Text(_) | Val::Enum(_) => Val::Missing,
        other => other,
    }
}

/// Takes the value at a place out.
fn take(values: &mut Vec<Val>, at: usize) -> Val
    requires { at < vec_len values.old }
    ensures value { slice_get values.old.items at ≡ Some result }
    ensures rest { values.new.items ≡ slice_set values.old.items at val.Missing }
    ensures len { vec_len values.new ≡ vec_len values.old }
{
    mem::replace(&mut values[at], Val::Missing)
}

/// Puts a value at a place.
fn put(values: &mut Vec<Val>, at: usize, value: Val)
    requires { at < vec_len values.old }
    ensures items { values.new.items ≡ slice_set values.old.items at value }
    ensures len { vec_len values.new ≡ vec_len values.old }
{
    values[at] = value;
}

/// What a declaration keeps, by its number.
fn kept(keepings: &[Keeping], number: u16) -> Option<&Keeping>
    ensures kept { option_copied result ≡ slice_get keepings.now number }
{
    keepings.get(number as usize)
}

/// A declaration whose values are being erased, among all declarations.
#[derive(Clone, Copy)]
struct Erasing<'k> {
    alloc: Global,
    keepings: &'k [Keeping],
    /// Whether the declaration's own values are kept.
    set: bool,
    /// How deep references may still be nested in it.
    depth: u8,
}

impl Erasing<'_> {
    /// A value of a skeleton.
    #[cycle(erase)]
    #[tactic(auto, using(std::proofs::lemmas::Grind::common_steps, crate::proofs::Rolls::erase_rules))]
    fn skeleton(&self, skeleton: &Skeleton, value: Val) -> Result<Val, Memory>
        ensures erased { IfOk result (λ left. left ≡ erase_of self.now.keepings.now self.now.depth self.now.set skeleton.now value) }
    {
        match skeleton {
            Skeleton::Leaf => Ok(leaf(self.set, value)),
            Skeleton::Nothing => Ok(value),
            Skeleton::List(parts) => self.list(parts.as_slice(), value),
            Skeleton::Arms(arms) => self.branch(arms.as_slice(), value),
            Skeleton::Each(element) => self.array(element.get(), value),
            Skeleton::Ref(number) => self.call(*number, value),
        }
    }

    /// A struct, part by part.
    #[cycle(erase)]
    fn list(&self, parts: &[Skeleton], value: Val) -> Result<Val, Memory>
        ensures erased { IfOk result (λ left. left ≡ at_list (map (erase_of self.now.keepings.now self.now.depth self.now.set) parts.now) value (out-Val value)) }
    {
        match value {
            Val::Tuple(values) => {
                let left = self.parts(parts, values.into_vec())?;
                Ok(Val::Tuple(Items::from_vec(left)))
            }
            other => Ok(other),
        }
    }

    /// The values of a struct's parts.
    #[cycle(erase)]
    fn parts(&self, parts: &[Skeleton], values: Vec<Val>) -> Result<Vec<Val>, Memory>
        ensures erased { IfOk result (λ left. left.items ≡ each_part (map (erase_of self.now.keepings.now self.now.depth self.now.set) parts.now) values.items) }
    {
        let mut left = values;
        let count = parts.len().min(left.len());
        for at in 0..count {
            let value = take(&mut left, at);
            let value = self.skeleton(&parts[at], value)?;
            put(&mut left, at, value);
        }
        Ok(left)
    }

    /// A union, by the branch that was taken.
    #[cycle(erase)]
    fn branch(&self, arms: &[Skeleton], value: Val) -> Result<Val, Memory>
        ensures erased { IfOk result (λ left. left ≡ at_arms (map (erase_of self.now.keepings.now self.now.depth self.now.set) arms.now) value (out-Val value)) }
    {
        match value {
            Val::Branch(number, inner) => {
                let left = self.arm(arms, number, inner.into_inner())?;
                Ok(Val::Branch(number, Boxed::new(self.alloc, left)?))
            }
            other => Ok(other),
        }
    }

    /// The value of a branch.
    #[cycle(erase)]
    fn arm(&self, arms: &[Skeleton], number: u16, value: Val) -> Result<Val, Memory>
        ensures erased { IfOk result (λ left. left ≡ by_arm (slice_get (map (erase_of self.now.keepings.now self.now.depth self.now.set) arms.now) number) value) }
    {
        let Some(arm) = arms.get(number as usize) else {
            return Ok(value);
        };
        self.skeleton(arm, value)
    }

    /// An array, element by element.
    #[cycle(erase)]
    fn array(&self, element: &Skeleton, value: Val) -> Result<Val, Memory>
        ensures erased { IfOk result (λ left. left ≡ at_each (erase_of self.now.keepings.now self.now.depth self.now.set element.now) value (out-Val value)) }
    {
        match value {
            Val::Array(values) => {
                let left = self.elements(element, values.into_vec())?;
                Ok(Val::Array(Items::from_vec(left)))
            }
            other => Ok(other),
        }
    }

    /// The elements of an array.
    #[cycle(erase)]
    fn elements(&self, element: &Skeleton, values: Vec<Val>) -> Result<Vec<Val>, Memory>
        ensures erased { IfOk result (λ left. left.items ≡ map (erase_of self.now.keepings.now self.now.depth self.now.set element.now) values.items) }
    {
        let mut left = values;
        for at in 0..left.len() {
            let value = take(&mut left, at);
            let value = self.skeleton(element, value)?;
            put(&mut left, at, value);
        }
        Ok(left)
    }

    /// A value of another declaration, whose own flag counts.
    #[cycle(erase)]
    fn call(&self, number: u16, value: Val) -> Result<Val, Memory>
        ensures erased { IfOk result (λ left. left ≡ erased self.now.keepings.now self.now.depth number value) }
    {
        if self.depth == 0 {
            return Ok(value);
        }
        let Some(keeping) = kept(self.keepings, number) else {
            return Ok(value);
        };
        let called = Erasing {
            alloc: self.alloc,
            keepings: self.keepings,
            set: keeping.set,
            depth: self.depth - 1,
        };
        called.skeleton(&keeping.skeleton, value)
    }
}

/// What is left of a value of a declaration, by its number, where references may be nested so deep.
pub fn erase(
    alloc: Global,
    keepings: &[Keeping],
    depth: u8,
    number: u16,
    value: Val,
) -> Result<Val, Memory>
    ensures erased { IfOk result (λ left. left ≡ erased keepings.now depth number value) }
{
    let outer = Erasing {
        alloc,
        keepings,
        set: true,
        depth,
    };
    outer.call(number, value)
}
