use crate::Expr;
use pads_base_names::BaseName;
use pads_rules::Sort;
use pads_value::{Bytes, Items};

/// What the name of a type names.
#[derive(Clone, Copy, Debug, PartialEq, Eq)]
pub enum TypeName {
    Base(BaseName),
    /// A declaration, by its number from 0.
    Declared(u16),
}

/// A type with its arguments, maybe behind `Popt`.
#[derive(Debug, Drop)]
pub struct Type {
    /// Whether `Popt` stands before it.
    pub optional: bool,
    pub name: TypeName,
    pub args: Items<Expr>,
}

/// What stands for itself in a record: a text, or the record's end.
#[derive(Debug, Drop)]
pub enum Literal {
    /// The code points of a text.
    Word(Bytes),
    Peor,
}

/// What a `Pcase` compares with.
#[derive(Debug, Drop)]
pub enum Const {
    Number(i128),
    /// The code points of a text.
    Word(Bytes),
}

/// A parameter of a declaration. Its type gives its sort alone.
#[derive(Debug, Drop)]
pub struct Param {
    pub name: Bytes,
    pub sort: Sort,
}

/// The parameters of a declaration, none where none are written.
pub type Params = Items<Param>;

/// A field of a struct or a branch of a union, with its constraint.
#[derive(Debug, Drop)]
pub struct Branch {
    pub of: Type,
    pub name: Bytes,
    pub constraint: Option<Expr>,
}
