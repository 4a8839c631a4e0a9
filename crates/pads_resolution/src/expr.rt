use pads_expr::BinOp;
use pads_rules::Sort;
use pads_value::{Boxed, Bytes};

/// What a name in an expression stands for.
#[derive(Debug, Drop)]
pub enum NameUse {
    /// A parameter, an earlier field, a field or branch in its own constraint, or the variable of a
    /// `Ptypedef` or a `Pforall`, by its text.
    Variable(Bytes),
    /// `elts` of an array: the elements so far.
    Elts,
    /// `length` of an array: how many elements there are so far.
    Length,
    /// A field of the struct whose `Pwhere` it stands in, by its number among all parts, from 0.
    Field(u16),
}

/// An expression.
#[derive(Debug, Drop)]
pub enum Expr {
    Number(i128),
    /// The code points of a literal.
    Word(Bytes),
    Truth(bool),
    Name {
        meaning: NameUse,
        sort: Sort,
    },
    /// `.name` of a struct, by the field's number among all parts, from 0.
    Part {
        whole: Boxed<Expr>,
        number: u16,
        sort: Sort,
    },
    /// `.name` of a union or an optional, by the branch's number from 0. An optional's branches are `some`,
    /// number 0, and `none`, number 1.
    Branch {
        whole: Boxed<Expr>,
        number: u16,
        sort: Sort,
    },
    /// `array[index]`
    Index {
        array: Boxed<Expr>,
        index: Boxed<Expr>,
        sort: Sort,
    },
    /// Whether a union, an optional or an enum chose a branch or a label, by its number from 0.
    Pis {
        value: Boxed<Expr>,
        number: u16,
    },
    Plen(Boxed<Expr>),
    /// `-operand`
    Minus(Boxed<Expr>),
    /// `!operand`
    Not(Boxed<Expr>),
    Binary {
        operator: BinOp,
        left: Boxed<Expr>,
        right: Boxed<Expr>,
    },
    Pforall {
        variable: Bytes,
        low: Boxed<Expr>,
        high: Boxed<Expr>,
        body: Boxed<Expr>,
    },
}
