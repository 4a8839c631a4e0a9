use crate::{Name, Number, Word};
use pads_expr::BinOp;
use pads_value::{Boxed, Items};

/// An expression. A part of it that stands alone at its level is that part itself: a `Chain` has at least
/// one operator, a `Post` at least one step.
#[derive(Debug, Drop)]
pub enum Expr {
    /// Operands of one level, joined by its operators.
    Chain {
        first: Boxed<Expr>,
        rest: Links,
    },
    Unary {
        operator: UnaryOperator,
        at: u64,
        operand: Boxed<Expr>,
    },
    /// An atom with names and indexes behind it.
    Post {
        base: Boxed<Expr>,
        steps: Steps,
    },
    Number {
        value: Number,
        at: u64,
    },
    Word(Word),
    Truth {
        value: bool,
        at: u64,
    },
    Name(Name),
    Paren {
        at: u64,
        inner: Boxed<Expr>,
    },
    Pis {
        at: u64,
        value: Boxed<Expr>,
        name: Name,
    },
    Plen {
        at: u64,
        value: Boxed<Expr>,
    },
    Pforall {
        at: u64,
        variable: Name,
        low: Boxed<Expr>,
        high: Boxed<Expr>,
        body: Boxed<Expr>,
    },
}

/// An operator and the operand behind it.
#[derive(Debug, Drop)]
pub struct Link<E> {
    pub operator: BinOp,
    pub operand: E,
}

pub type Links = Items<Link<Expr>>;

/// What stands behind an atom.
#[derive(Debug, Drop)]
pub enum Step<E> {
    /// `.name`
    Name(Name),
    /// `[index]`
    Index { at: u64, index: E },
}

pub type Steps = Items<Step<Expr>>;

#[derive(Clone, Copy, Debug, PartialEq, Eq)]
pub enum UnaryOperator {
    /// `-`
    Minus,
    /// `!`
    Not,
}
