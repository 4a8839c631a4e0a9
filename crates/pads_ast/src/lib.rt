//! The syntax trees of descriptions and filters.
//!
//! The types go by the words of the grammar. Each name and literal has the place of its first byte in the
//! text, and so has each form that opens with a mark or a keyword of its own, so that every part of a
//! tree can tell where it begins. The operators of one level stand in a list, from the left.
#![tactic(auto)]

mod build;
mod decl;
mod expr;
mod name;
mod number;
mod types;

pub use decl::{
    Array, ArrayOption, Ast, Case, Constraint, Decl, DeclBody, DeclMark, Enum, ExprAst, Label, Opt,
    Part, Struct, Switch, Typedef, Union, UnionBody,
};
pub use expr::{Expr, Link, Links, Step, Steps, UnaryOperator};
pub use name::{Name, Word};
pub use number::Number;
pub use types::{Arg, Branch, Const, Literal, Param, Params, Type};
