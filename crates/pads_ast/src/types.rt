use crate::{Expr, Name, Number, Word};
use pads_value::Items;

/// What stands for itself in a record: a text, or the record's end.
#[derive(Debug, Drop)]
pub enum Literal {
    Word(Word),
    Peor { at: u64 },
}

/// What a `Pcase` compares with. Its place is that of its first token.
#[derive(Debug, Drop)]
pub enum Const {
    Number {
        negative: bool,
        value: Number,
        at: u64,
    },
    Word(Word),
}

/// An argument of a type.
#[derive(Debug, Drop)]
pub enum Arg {
    Expr(Expr),
    Peor { at: u64 },
}

/// A type: a name, with its arguments where it has any, maybe behind `Popt`.
#[derive(Debug, Drop)]
pub struct Type {
    /// The place of `Popt`, where it stands there.
    pub optional: Option<u64>,
    pub name: Name,
    /// None where no arguments are written.
    pub args: Option<Items<Arg>>,
}

/// A parameter of a declaration.
#[derive(Debug, Drop)]
pub struct Param {
    pub of: Type,
    pub name: Name,
}

/// The parameters of a declaration, where any are written.
pub type Params = Option<Items<Param>>;

/// A field of a struct or a branch of a union, with its constraint.
#[derive(Debug, Drop)]
pub struct Branch {
    pub of: Type,
    pub name: Name,
    pub constraint: Option<Expr>,
}
