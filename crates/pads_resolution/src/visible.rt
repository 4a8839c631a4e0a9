use crate::Expr;
use pads_rules::ExprSort;
use pads_value::Bytes;

/// What a name in scope stands for.
#[derive(Clone, Copy, Debug, PartialEq, Eq)]
pub enum Stands {
    /// A value of that name: a parameter, an earlier field, or what an expression is about.
    Variable,
    /// The elements so far of the array around.
    Elts,
    /// How many elements there are so far.
    Length,
    /// A field of the struct whose `Pwhere` it is, by its number among all parts, from 0.
    Field(u16),
}

/// What is known of a name in scope.
#[derive(Clone, Copy, Debug, PartialEq, Eq)]
pub struct Known {
    pub stands: Stands,
    /// The sort of what it stands for.
    pub sort: ExprSort,
}

/// A name in scope.
#[derive(Debug, Drop)]
pub struct Visible {
    pub text: Bytes,
    pub known: Known,
}

/// A resolved expression, and what is known of its sort.
#[derive(Debug, Drop)]
pub struct ResolvedExpr {
    pub expr: Expr,
    pub sort: ExprSort,
}
