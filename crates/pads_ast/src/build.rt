ghost use Rattle.std.specs.Prelude.{◌≡◌, IfOk};
ghost use Rattle.pads_ast.specs.declared.expr.Expr.TheVariants as expr;
ghost use Rattle.pads_ast.specs.Chains.{chain, post};

use crate::{Expr, Links, Name, Steps, UnaryOperator};
use pads_value::{Boxed, Memory};
use std::alloc::Global;

impl Expr {
    /// Operands of one level from the left, or the first alone where there is no operator.
    pub fn chain(alloc: Global, first: Expr, rest: Links) -> Result<Expr, Memory>
        ensures built { IfOk result (λ built. built ≡ chain first rest) }
    {
        if rest.is_empty() {
            return Ok(first);
        }
        Ok(Expr::Chain {
            first: Boxed::new(alloc, first)?,
            rest,
        })
    }

    /// An atom with what stands behind it, or the atom alone.
    pub fn post(alloc: Global, base: Expr, steps: Steps) -> Result<Expr, Memory>
        ensures built { IfOk result (λ built. built ≡ post base steps) }
    {
        if steps.is_empty() {
            return Ok(base);
        }
        Ok(Expr::Post {
            base: Boxed::new(alloc, base)?,
            steps,
        })
    }

    pub fn unary(
        alloc: Global,
        operator: UnaryOperator,
        at: u64,
        operand: Expr,
    ) -> Result<Expr, Memory>
        ensures built { IfOk result (λ built. built ≡ expr.Unary operator at operand) }
    {
        Ok(Expr::Unary {
            operator,
            at,
            operand: Boxed::new(alloc, operand)?,
        })
    }

    pub fn paren(alloc: Global, at: u64, inner: Expr) -> Result<Expr, Memory>
        ensures built { IfOk result (λ built. built ≡ expr.Paren at inner) }
    {
        Ok(Expr::Paren {
            at,
            inner: Boxed::new(alloc, inner)?,
        })
    }

    pub fn pis(alloc: Global, at: u64, value: Expr, name: Name) -> Result<Expr, Memory>
        ensures built { IfOk result (λ built. built ≡ expr.Pis at value name) }
    {
        Ok(Expr::Pis {
            at,
            value: Boxed::new(alloc, value)?,
            name,
        })
    }

    pub fn plen(alloc: Global, at: u64, value: Expr) -> Result<Expr, Memory>
        ensures built { IfOk result (λ built. built ≡ expr.Plen at value) }
    {
        Ok(Expr::Plen {
            at,
            value: Boxed::new(alloc, value)?,
        })
    }

    pub fn pforall(
        alloc: Global,
        at: u64,
        variable: Name,
        low: Expr,
        high: Expr,
        body: Expr,
    ) -> Result<Expr, Memory>
        ensures built { IfOk result (λ built. built ≡ expr.Pforall at variable low high body) }
    {
        Ok(Expr::Pforall {
            at,
            variable,
            low: Boxed::new(alloc, low)?,
            high: Boxed::new(alloc, high)?,
            body: Boxed::new(alloc, body)?,
        })
    }
}
