ghost use Rattle.std.specs.Prelude.{◌≡◌, reverse};
ghost use Rattle.pads_calc.specs.Wrappers.{guard_of};

use crate::args::is_true_of;
use pads_calc::Reading;
use pads_expr::{Binding, Env, Expr};

/// A reading under a constraint over bindings of which the last counts. It is asked of a clean reading
/// alone.
pub fn guarded_in(reading: Reading, binder: u16, condition: &Expr, bindings: &[Binding]) -> Reading
    ensures guarded { result ≡ guard_of binder condition.now (reverse bindings.now) reading }
    ensures place { result.place ≡ reading.place }
{
    if !reading.is_ok() {
        return reading;
    }
    if is_true_of(condition, binder, &reading.value, bindings) {
        reading
    } else {
        reading.constrained()
    }
}

/// The same in an environment.
pub fn guarded(reading: Reading, binder: u16, condition: &Expr, env: &Env) -> Reading
    ensures guarded { result ≡ guard_of binder condition.now env.now.pairs reading }
    ensures place { result.place ≡ reading.place }
{
    guarded_in(reading, binder, condition, env.as_slice())
}
