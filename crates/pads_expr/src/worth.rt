ghost use Rattle.std.specs.Prelude.{◌≡◌, option_map};
ghost use Rattle.pads_expr.specs.Seen.{seen};
ghost use Rattle.pads_expr.specs.Worth as answer;

use pads_value::Val;

/// What an expression is worth: a value of 128 bits, or lent from the expression or the environment.
#[derive(Clone, Copy, Debug)]
pub enum Res<'a> {
    /// A whole number.
    Num(i128),
    /// A text, as its code points.
    Text(&'a [u8]),
    /// A truth value.
    Truth(bool),
    /// A struct, union, optional, enum or array.
    Part(&'a Val),
}

/// Whether a condition is met: it has a value, and the value is true.
pub fn is_true(worth: Option<Res>) -> bool
    ensures truth { result ≡ answer.is_true (option_map seen worth.entry) }
{
    matches!(worth, Some(Res::Truth(true)))
}

/// The truth value alone: any other worth is none.
pub(crate) fn truth_alone<'a>(worth: Option<Res<'a>>) -> Option<Res<'a>>
    ensures truth { option_map seen result ≡ answer.truth_alone (option_map seen worth.entry) }
{
    match worth {
        Some(Res::Truth(truth)) => Some(Res::Truth(truth)),
        _ => None,
    }
}

/// The truth value that an expression is worth; any other worth is none.
pub(crate) fn truth_of(worth: Option<Res>) -> Option<bool>
    ensures truth { option_map answer.Truth result ≡ answer.truth_alone (option_map seen worth.entry) }
{
    match worth {
        Some(Res::Truth(truth)) => Some(truth),
        _ => None,
    }
}

/// A truth value as what an expression is worth.
pub(crate) fn truth<'a>(truth: Option<bool>) -> Option<Res<'a>>
    ensures truth { option_map seen result ≡ option_map answer.Truth truth }
{
    Some(Res::Truth(truth?))
}
