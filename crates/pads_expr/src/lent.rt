ghost use Rattle.std.specs.Prelude.{◌≡◌, reverse};
ghost use Rattle.std.specs.Option.{option_copied};
ghost use Rattle.pads_expr.specs.Value.{found};

use pads_value::Val;
use std::marker::Model;

/// A name with a value that is lent, so that a name can stand for a part of a value that is elsewhere.
/// Contracts see it as the pair of both, as they see a binding that owns its value.
#[derive(Debug, Drop)]
pub struct Lent<'a> {
    name: u16,
    value: &'a Val,
}

impl<'a> Model for Lent<'a> {
    ghost use Rattle.std.specs.Prelude.{ℕ};
    ghost use Rattle.std.specs.Coded.{coded×, coded_ℕ};
    ghost use Rattle.pads_value.specs.contracts.value.Val as val;
    ghost use Rattle.pads_value.specs.declared.value.Val.{Val};

    ghost Value = { ℕ × Val };

    ghost coded = { coded× coded_ℕ val.the_row.coded };

    ghost view = { λ lent. (lent.name, lent.value.now) };
}

impl<'a> Lent<'a> {
    /// A name that stands for this value.
    pub fn new(name: u16, value: &'a Val) -> Lent<'a>
        ensures pair { result ≡ (name, value.now) }
    {
        Lent { name, value }
    }

    /// The same name with the same value, lent once more.
    pub fn again(&self) -> Lent<'a>
        ensures same { result ≡ self.now }
    {
        Lent {
            name: self.name,
            value: self.value,
        }
    }
}

/// What a name stands for in bindings of which the last comes first.
pub(crate) fn lent_value<'a>(bindings: &'a [Lent<'a>], name: u16) -> Option<&'a Val>
    ensures latest { option_copied result ≡ found (reverse bindings.now) name }
{
    let lent = bindings.iter().rev().find(|lent| lent.name == name)?;
    Some(lent.value)
}
