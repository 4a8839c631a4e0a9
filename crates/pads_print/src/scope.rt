//! The names that stand for values where a struct's parts are written.
ghost use Rattle.std.specs.Prelude.{◌≡◌, reverse, IfOk, OnOk};
ghost use Rattle.pads_calc.specs.Structs.{bind as bind_of};

use pads_expr::Lent;
use pads_value::{Memory, Val};
use std::alloc::Global;

/// The names of an outer scope, with room for so many more.
pub(crate) fn scope_over<'a>(
    alloc: Global,
    outer: &[Lent<'a>],
    more: usize,
) -> Result<Vec<Lent<'a>>, Memory>
    ensures names { IfOk result (λ scope. scope.items ≡ outer.now) }
{
    let mut scope = Vec::with_capacity(alloc, outer.len().saturating_add(more))?;
    for lent in outer {
        scope.push(lent.again())?;
    }
    Ok(scope)
}

/// A part's value under the part's name, where it has one.
pub(crate) fn bind<'a>(
    scope: &mut Vec<Lent<'a>>,
    name: Option<u16>,
    value: &'a Val,
) -> Result<(), Memory>
    ensures bound { OnOk result (reverse scope.new.items ≡ bind_of name value.now (reverse scope.old.items)) }
{
    if let Some(name) = name {
        scope.push(Lent::new(name, value))?;
    }
    Ok(())
}
