use pads_dispatch::Base;
use pads_expr::Expr;
use pads_value::{Boxed, Bytes, Items};

/// Expressions in their order, as the arguments of a base type or of a call.
pub type Exprs = Items<Expr>;

/// The parts of a struct in their order.
pub type Parts = Items<Part>;

/// The branches of a union in their order.
pub type Arms = Items<Arm>;

/// The cases of a switched union in their order.
pub type Cases = Items<Case>;

/// A description of data, in the terms of the data description calculus.
#[derive(Debug, Drop)]
#[cycle(term)]
pub enum Term {
    /// Nothing.
    Unit,
    /// A base type with its arguments.
    Base(Base, Exprs),
    /// A literal, as the bytes that it is in the record.
    Lit(Bytes),
    /// The end of the record.
    Eor,
    /// Parts one after another.
    Struct(Parts),
    /// The first branch that reads without a fault.
    Alt(Arms),
    /// The case that the expression's value chooses.
    Switch(Expr, Cases),
    /// A term whose value, named by the binder, is to make the expression true.
    Guard(Boxed<Term>, u16, Expr),
    /// Elements one after another.
    Seq(Boxed<Seq>),
    /// A declaration by its number, with its arguments.
    Call(u16, Exprs),
    /// The value of an expression, over no bytes.
    Compute(Expr, ComputedForm),
    /// A term whose value isn't kept.
    Absorb(Boxed<Term>),
    /// A term at the first place from here on at which it reads without a fault.
    Scan(Boxed<Term>),
}

/// A part of a struct; a literal has no name.
#[derive(Debug, Drop)]
#[cycle(term)]
pub struct Part {
    pub name: Option<u16>,
    pub term: Term,
}

/// A branch of a union.
#[derive(Debug, Drop)]
#[cycle(term)]
pub struct Arm {
    pub name: u16,
    pub term: Term,
}

/// A case of a switched union; the one without a key is for all other values.
#[derive(Debug, Drop)]
#[cycle(term)]
pub struct Case {
    pub key: Option<Key>,
    pub arm: Arm,
}

/// What an array is: its elements, what stands between them, and where it ends.
#[derive(Debug, Drop)]
#[cycle(term)]
pub struct Seq {
    pub elem: Term,
    pub sep: Option<Term>,
    /// How many elements there are to be.
    pub size: Option<Expr>,
    /// Whether the latest element is the last, of all elements so far.
    pub last: Option<Expr>,
    /// What stands behind the last element. It isn't part of the array.
    pub stop: Option<Term>,
    /// The name of the elements so far in `last`.
    pub elts: u16,
}

/// The value at which a case is chosen.
#[derive(Debug, Drop)]
pub enum Key {
    Num(i128),
    Text(Bytes),
}

/// What a computed field is to be: a number from the first to the second, or a text.
#[derive(Clone, Copy, Debug)]
pub enum ComputedForm {
    Range(i128, i128),
    Text,
}
