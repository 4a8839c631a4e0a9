//! The resolved tree of an accepted description, and what a syntax tree resolves to.
//!
//! `specs/Resolution.antt` gives the resolved tree of a syntax tree, with what its types, expressions and
//! declarations resolve to in the files beside it. It is total: where a rule is broken, which an accepted
//! description never meets, it has a default. Here stand the types that its words share with the code that
//! resolves, and the laws that resolving and the rules agree on sorts and scopes.
//!
//! The resolved tree has each name resolved and each expression's sort. It follows the grammar as the syntax
//! tree does, without the places of tokens. A type is a base type or a
//! declaration by its number; a name in an expression is what it stands for; a `.name` is a part's or a
//! branch's number. Operators, names and indexes that stand in a row are nested to the left, and round
//! brackets are gone. Names that the data's values have keep their text.
#![tactic(auto)]

mod decl;
mod expr;
mod laws;
mod types;
mod visible;

pub use decl::{
    Array, ArrayOption, Case, Computed, Constraint, Decl, DeclBody, Description, Label, Part, Role,
    Source, Struct, Switch, Typedef, Union,
};
pub use expr::{Expr, NameUse};
pub use laws::{resolved_sorts_are_judged, scopes_are_judged};
pub use types::{Branch, Const, Literal, Param, Params, Type, TypeName};
pub use visible::{Known, ResolvedExpr, Stands, Visible};
