//! The constraint of a branch that is a call, with what it sees.
ghost use Rattle.std.specs.Prelude.{◌≡◌, ◌&&◌, IfOk, IsTrue, Some};
ghost use Rattle.pads_calc.specs.declared.reading.Reading.{Reading};
ghost use Rattle.pads_calc.specs.Readings.{is_ok};
ghost use Rattle.pads_machine.specs.Known.{behind_constraint};

use pads_expr::Binding;
use pads_idle::at;
use pads_image::Op;
use pads_steps::is_true_of;
use pads_value::{Items, Memory, Val};
use std::alloc::Global;

/// The constraint of a branch, with what it sees besides the value of the branch.
#[derive(Drop)]
pub(crate) struct Constraint {
    /// The address of its instruction.
    pub(crate) address: usize,
    /// The bindings that it sees, the latest one last.
    pub(crate) seen: Items<Binding>,
}

/// Whether both are the same bindings.
fn same_bindings(a: &[Binding], b: &[Binding]) -> bool
    ensures same { IsTrue result → a.now ≡ b.now }
{
    if a.len() != b.len() {
        return false;
    }
    for i in 0..a.len() {
        if a[i].0 != b[i].0 || !a[i].1.same(&b[i].1) {
            return false;
        }
    }
    true
}

/// Bindings equal to these.
fn copy_bindings(alloc: Global, bindings: &[Binding]) -> Result<Items<Binding>, Memory>
    ensures equal { IfOk result (λ copied. copied ≡ bindings.now) }
{
    let mut copied = Items::new(alloc);
    for binding in bindings {
        copied.push((binding.0, binding.1.copy(alloc)?))?;
    }
    Ok(copied)
}

impl Constraint {
    /// The constraint at an address that sees these bindings.
    pub(crate) fn over(
        alloc: Global,
        address: usize,
        bindings: &[Binding],
    ) -> Result<Constraint, Memory>
        ensures address { IfOk result (λ constraint. constraint.address ≡ address) }
        ensures seen { IfOk result (λ constraint. constraint.seen ≡ bindings.now) }
    {
        Ok(Constraint {
            address,
            seen: copy_bindings(alloc, bindings)?,
        })
    }

    /// Whether both are the same constraint, and see the same.
    fn same(&self, other: &Constraint) -> bool
        ensures same { IsTrue result → self.now ≡ other.now }
    {
        self.address == other.address && same_bindings(self.seen.as_slice(), other.seen.as_slice())
    }

    /// Whether it is true of a value.
    fn holds(&self, code: &[Op], value: &Val) -> bool
        ensures holds { (r : Reading) → r.value ≡ value.now → is_ok (behind_constraint code.now (Some self.now) r) ≡ (is_ok r && result) }
    {
        match at(code, self.address) {
            Some(Op::Guard(binder, condition)) => {
                is_true_of(condition, *binder, value, self.seen.as_slice())
            }
            _ => true,
        }
    }
}

/// Whether both are the same constraint, or there is none in both places.
pub(crate) fn same_constraints(a: &Option<Constraint>, b: &Option<Constraint>) -> bool
    ensures same { IsTrue result → a.now ≡ b.now }
{
    match (a, b) {
        (None, None) => true,
        (Some(a), Some(b)) => a.same(b),
        _ => false,
    }
}

/// Whether a constraint is true of a value, if there is one.
pub(crate) fn holds(constraint: &Option<Constraint>, code: &[Op], value: &Val) -> bool
    ensures holds { (r : Reading) → r.value ≡ value.now → is_ok (behind_constraint code.now constraint.now r) ≡ (is_ok r && result) }
{
    match constraint {
        Some(constraint) => constraint.holds(code, value),
        None => true,
    }
}
