//! Arguments of base types that stand in the code as literals, kept for all readings.
ghost use Rattle.std.specs.Prelude.{◌≡◌, IfSome, Some};
ghost use Rattle.pads_calc.specs.Arguments.{arguments as arguments_of};
ghost use Rattle.pads_expr.specs.Value.{Pairs};

use pads_dispatch::Args;
use pads_expr::Expr;
use pads_idle::{are_literals, literal_in};
use pads_image::Op;
use pads_value::{Items, Memory};
use std::alloc::Global;

/// For how many instructions arguments are kept.
const MOST: usize = 4_096;

/// The arguments of the first instructions of code, as far as they are literals. What is kept is compared
/// with what the code says before it is used, so that it changes nothing that is read.
#[derive(Drop)]
pub(crate) struct Literals {
    args: Vec<Args>,
}

/// The argument of an instruction that reads a base type, where it is a literal.
fn literal_of(alloc: Global, op: &Op) -> Result<Args, Memory> {
    match op {
        Op::Base(_, es) => literal_in(alloc, es.as_slice()),
        _ => Ok(Items::new(alloc)),
    }
}

impl Literals {
    /// Those of code.
    pub(crate) fn of(alloc: Global, code: &[Op]) -> Result<Literals, Memory> {
        let count = code.len().min(MOST);
        let mut args = Vec::with_capacity(alloc, count)?;
        'instructions: for op in &code[..count] {
            args.push(literal_of(alloc, op)?)?;
        }
        Ok(Literals { args })
    }

    /// The arguments that the instruction at an address has, where they are kept.
    pub(crate) fn of_args(&self, address: usize, es: &[Expr]) -> Option<&Args>
        ensures same { IfSome result (λ args. (env : Pairs) → arguments_of es.now env ≡ Some args.now) }
    {
        let args = self.args.get(address)?;
        if are_literals(es, args.as_slice()) {
            Some(args)
        } else {
            None
        }
    }
}
