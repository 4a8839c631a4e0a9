ghost use Rattle.std.specs.Prelude.{◌≡◌, IfNone, IfSome, None, option_map};
ghost use Rattle.std.specs.Option.{option_copied};
ghost use Rattle.pads_expr.specs.Parts.{worth_of, worth_or, part_of, arm_of, is_arm_of, item_at, element_of, length_of, minus, negation};
ghost use Rattle.pads_expr.specs.Parts as parts;
ghost use Rattle.pads_expr.specs.Seen.{seen};
ghost use Rattle.pads_expr.specs.Worth.{Is, Part, worth_or_none};

use crate::{Res, numbers};
use pads_value::{Items, Val};

/// What a value is worth where a name, a part, a branch or an element stands for it.
pub(crate) fn worth<'a>(value: &'a Val) -> Option<Res<'a>>
    ensures worth { option_map seen result ≡ worth_or_none (worth_of value.now) }
{
    match value {
        Val::Missing => None,
        Val::Num(number) => Some(Res::Num(*number)),
        Val::Text(text) => Some(Res::Text(text.as_slice())),
        _ => Some(Res::Part(value)),
    }
}

/// The item at an index from 0, if the list has it.
fn item<'a>(items: &'a Items<Val>, index: i128) -> Option<&'a Val>
    ensures item { option_copied result ≡ item_at items.now index }
{
    if index < 0 || items.len() as i128 <= index {
        return None;
    }
    items.get(index as u64)
}

/// Part `number` of a struct, where a value is one that has it.
pub(crate) fn part_of<'a>(value: &'a Val, number: u16) -> Option<&'a Val>
    ensures part { IfSome result (λ part. parts.part_of number (Part value.now) ≡ worth_of part.now) }
    ensures none { IfNone result (worth_or_none (parts.part_of number (Part value.now)) ≡ None) }
    ensures whole { IfSome result (λ part. worth_of value.now ≡ Is (Part value.now)) }
{
    match value {
        Val::Tuple(parts) => parts.get(number as u64),
        _ => None,
    }
}

/// Branch `number` of a union or optional, where a value is one that chose it.
pub(crate) fn arm_of<'a>(value: &'a Val, number: u16) -> Option<&'a Val>
    ensures arm { IfSome result (λ arm. parts.arm_of number (Part value.now) ≡ worth_of arm.now) }
    ensures none { IfNone result (worth_or_none (parts.arm_of number (Part value.now)) ≡ None) }
    ensures whole { IfSome result (λ arm. worth_of value.now ≡ Is (Part value.now)) }
{
    match value {
        Val::Branch(chosen, inner) => {
            if *chosen == number {
                Some(inner.get())
            } else {
                None
            }
        }
        _ => None,
    }
}

/// The element of an array at an index from 0, where a value is one that has it.
pub(crate) fn element_of<'a>(value: &'a Val, index: Res) -> Option<&'a Val>
    ensures element { IfSome result (λ element. parts.element_of (Part value.now) (seen index.entry) ≡ worth_of element.now) }
    ensures none { IfNone result (worth_or_none (parts.element_of (Part value.now) (seen index.entry)) ≡ None) }
    ensures whole { IfSome result (λ element. worth_of value.now ≡ Is (Part value.now)) }
{
    match (value, index) {
        (Val::Array(elements), Res::Num(index)) => item(elements, index),
        _ => None,
    }
}

impl<'a> Res<'a> {
    /// Part `number` of a struct.
    pub(crate) fn part(self, number: u16) -> Option<Res<'a>>
        ensures value { option_map seen result ≡ worth_or_none (part_of number (seen self.entry)) }
    {
        match self {
            Res::Part(value) => worth(part_of(value, number)?),
            _ => None,
        }
    }

    /// Branch `number` of a union or optional, where that was chosen.
    pub(crate) fn arm(self, number: u16) -> Option<Res<'a>>
        ensures value { option_map seen result ≡ worth_or_none (arm_of number (seen self.entry)) }
    {
        match self {
            Res::Part(value) => worth(arm_of(value, number)?),
            _ => None,
        }
    }

    /// Whether a union, optional or enum chose the branch or label `number`.
    pub(crate) fn is_arm(self, number: u16) -> Option<Res<'a>>
        ensures value { option_map seen result ≡ worth_or_none (is_arm_of number (seen self.entry)) }
    {
        match self {
            Res::Part(Val::Branch(chosen, _)) => Some(Res::Truth(*chosen == number)),
            Res::Part(Val::Enum(label)) => Some(Res::Truth(*label == number)),
            _ => None,
        }
    }

    /// The element of an array at an index from 0, where the array has it.
    pub(crate) fn element(self, index: Res) -> Option<Res<'a>>
        ensures value { option_map seen result ≡ worth_or_none (element_of (seen self.entry) (seen index.entry)) }
    {
        match self {
            Res::Part(value) => worth(element_of(value, index)?),
            _ => None,
        }
    }

    /// The length of a text or an array.
    pub(crate) fn length(self) -> Option<Res<'a>>
        ensures value { option_map seen result ≡ worth_or_none (length_of (seen self.entry)) }
    {
        match self {
            Res::Text(text) => Some(Res::Num(text.len() as i128)),
            Res::Part(Val::Array(elements)) => Some(Res::Num(elements.len() as i128)),
            _ => None,
        }
    }

    /// Unary minus.
    pub(crate) fn minus(self) -> Option<Res<'a>>
        ensures value { option_map seen result ≡ worth_or_none (minus (seen self.entry)) }
    {
        match self {
            Res::Num(number) => Some(Res::Num(numbers::negate(number)?)),
            _ => None,
        }
    }

    /// The negation of a truth value.
    pub(crate) fn negation(self) -> Option<Res<'a>>
        ensures value { option_map seen result ≡ worth_or_none (negation (seen self.entry)) }
    {
        match self {
            Res::Truth(truth) => Some(Res::Truth(!truth)),
            _ => None,
        }
    }
}
