use crate::ExprSort;
use pads_ast::DeclMark;
use pads_value::{Bytes, Items};

/// A name with the sort of what it stands for.
#[derive(Debug, Drop)]
pub struct Named {
    pub text: Bytes,
    pub sort: ExprSort,
}

/// What a declared type is made of, as far as expressions ask for it.
#[derive(Debug, Drop)]
pub enum Content {
    /// The named parts of a struct, in order.
    Fields(Items<Named>),
    /// The branches of a union, in order.
    Branches(Items<Named>),
    /// The sort of an array's elements.
    Element(ExprSort),
    /// The labels of an enum, in order.
    Labels(Items<Bytes>),
    /// A typedef or an optional: its sort tells of what it is made.
    Inner,
}

/// A declared type, with what its names stand for.
#[derive(Debug, Drop)]
pub struct Declared {
    pub name: Bytes,
    pub mark: Option<DeclMark>,
    /// Whether it is the list of a source's records.
    pub record_list: bool,
    /// The sorts of its parameters, in order.
    pub params: Items<ExprSort>,
    /// The sort of its values.
    pub sort: ExprSort,
    pub content: Content,
}

/// The declared types of a description, in order.
pub type Environment = Items<Declared>;
