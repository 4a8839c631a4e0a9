ghost use Rattle.std.specs.Prelude.{◌≡◌, true};
ghost use Rattle.std.specs.List.{list_all};
ghost use Rattle.pads_ast.specs.NameTokens.{names_in};
ghost use Rattle.pads_lex.specs.Spelling.{is_name};

use crate::{Branch, Const, Expr, Literal, Name, Params, Type, Word};
use pads_value::Items;

/// A part of a struct.
#[derive(Debug, Drop)]
pub enum Part {
    Literal(Literal),
    /// A field whose value is computed.
    Pcompute { of: Type, name: Name, value: Expr },
    Field(Branch),
}

#[derive(Debug, Drop)]
pub struct Struct {
    pub name: Name,
    pub params: Params,
    pub parts: Items<Part>,
    pub condition: Option<Expr>,
}

#[derive(Debug, Drop)]
pub struct Union {
    pub name: Name,
    pub params: Params,
    pub body: UnionBody,
}

#[derive(Debug, Drop)]
pub enum UnionBody {
    Branches(Items<Branch>),
    Switch(Switch),
}

/// A union that chooses by the value of an expression.
#[derive(Debug, Drop)]
pub struct Switch {
    pub value: Expr,
    pub cases: Items<Case>,
    pub default: Option<Branch>,
}

#[derive(Debug, Drop)]
pub struct Case {
    pub key: Const,
    pub branch: Branch,
}

#[derive(Debug, Drop)]
pub struct Array {
    pub name: Name,
    pub params: Params,
    pub of: Type,
    pub size: Option<Expr>,
    pub options: Items<ArrayOption>,
    pub condition: Option<Expr>,
}

/// An option of an array, with the place of its keyword.
#[derive(Debug, Drop)]
pub enum ArrayOption {
    Psep { at: u64, separator: Word },
    Pterm { at: u64, terminator: Literal },
    Plast { at: u64, condition: Expr },
}

#[derive(Debug, Drop)]
pub struct Enum {
    pub name: Name,
    pub labels: Items<Label>,
}

#[derive(Debug, Drop)]
pub struct Label {
    pub name: Name,
    pub spelling: Option<Word>,
}

#[derive(Debug, Drop)]
pub struct Typedef {
    pub of: Type,
    pub name: Name,
    pub params: Params,
    pub constraint: Option<Constraint>,
}

/// The constraint of a typedef: its name again, the variable, and what must be true of it.
#[derive(Debug, Drop)]
pub struct Constraint {
    pub name: Name,
    pub variable: Name,
    pub condition: Expr,
}

#[derive(Debug, Drop)]
pub struct Opt {
    pub of: Type,
    pub name: Name,
    pub params: Params,
}

#[derive(Debug, Drop)]
pub enum DeclBody {
    Struct(Struct),
    Union(Union),
    Array(Array),
    Enum(Enum),
    Typedef(Typedef),
    Opt(Opt),
}

/// What a declaration is marked as.
#[derive(Clone, Copy, Debug, PartialEq, Eq)]
pub enum DeclMark {
    Precord,
    Psource,
    Precursive,
}

#[derive(Debug, Drop)]
pub struct Decl {
    pub mark: Option<DeclMark>,
    pub body: DeclBody,
}

/// The tree of a description.
#[derive(Debug, Drop)]
pub struct Ast {
    pub decls: Items<Decl>,
    /// The end of the text.
    pub end: u64,
    /// Each name in it is spelled as a name.
    pub ghost spelled: { list_all is_name (names_in decls) ≡ true },
}

/// The tree of a filter.
#[derive(Debug, Drop)]
pub struct ExprAst {
    pub expr: Expr,
}
