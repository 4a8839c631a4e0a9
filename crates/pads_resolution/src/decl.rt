use crate::{Branch, Const, Expr, Literal, Params, Type};
use pads_int::Kind;
use pads_value::{Bytes, Items};

/// What the value of a `Pcompute` is to be, by its type.
#[derive(Clone, Copy, Debug, PartialEq, Eq)]
pub enum Computed {
    /// `Pint8` to `Puint64`: a number of the kind's range.
    Int(Kind),
    /// `Pstring`: a text.
    Text,
}

/// A part of a struct.
#[derive(Debug, Drop)]
pub enum Part {
    Literal(Literal),
    /// A field whose value is computed.
    Pcompute {
        of: Computed,
        name: Bytes,
        value: Expr,
    },
    Field(Branch),
}

#[derive(Debug, Drop)]
pub struct Struct {
    pub parts: Items<Part>,
    /// Its `Pwhere`.
    pub condition: Option<Expr>,
}

#[derive(Debug, Drop)]
pub enum Union {
    Branches(Items<Branch>),
    Pswitch(Switch),
}

/// A union that chooses by the value of an expression.
#[derive(Debug, Drop)]
pub struct Switch {
    pub value: Expr,
    pub cases: Items<Case>,
    pub default: Option<Branch>,
}

#[derive(Debug, Drop)]
pub struct Case {
    pub key: Const,
    pub branch: Branch,
}

#[derive(Debug, Drop)]
pub struct Array {
    pub of: Type,
    pub size: Option<Expr>,
    /// Each option comes at most once. Of one that comes again the first counts.
    pub options: Items<ArrayOption>,
    /// Its `Pwhere`.
    pub condition: Option<Expr>,
}

#[derive(Debug, Drop)]
pub enum ArrayOption {
    /// The code points of the separator.
    Psep(Bytes),
    Pterm(Literal),
    Plast(Expr),
}

/// A label of a `Penum`. Its spelling is its name where none is written.
#[derive(Debug, Drop)]
pub struct Label {
    pub name: Bytes,
    /// The code points of its `Pfrom`.
    pub spelling: Option<Bytes>,
}

#[derive(Debug, Drop)]
pub struct Typedef {
    pub of: Type,
    pub constraint: Option<Constraint>,
}

/// The constraint of a typedef: its variable, and what must be true of it.
#[derive(Debug, Drop)]
pub struct Constraint {
    pub variable: Bytes,
    pub condition: Expr,
}

#[derive(Debug, Drop)]
pub enum DeclBody {
    Struct(Struct),
    Union(Union),
    Array(Array),
    /// The labels of an enum.
    Enum(Items<Label>),
    Typedef(Typedef),
    /// The type behind the `Popt` of the declaration.
    Opt(Type),
}

/// What a declaration is for.
#[derive(Clone, Copy, Debug, PartialEq, Eq)]
pub enum Role {
    /// A type of parts of records.
    Part,
    /// A record type, marked `Precord`.
    Precord,
    /// A record list, or marked `Psource`: it says how records follow one another, and no record is read by
    /// it.
    Source,
}

#[derive(Debug, Drop)]
pub struct Decl {
    pub role: Role,
    pub name: Bytes,
    /// None of a `Penum`.
    pub params: Params,
    pub body: DeclBody,
}

/// Which record types a source has, each by its declaration's number from 0.
#[derive(Clone, Copy, Debug, PartialEq, Eq)]
pub struct Source {
    /// That of the first record, where the source has a header.
    pub header: Option<u16>,
    /// That of all other records.
    pub record: u16,
}

/// The tree of an accepted description.
#[derive(Debug, Drop)]
pub struct Description {
    pub decls: Items<Decl>,
    pub source: Source,
}
