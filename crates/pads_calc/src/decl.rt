ghost use Rattle.std.specs.Prelude.{◌≡◌};
ghost use Rattle.pads_calc.specs.Rows.{type_of};

use crate::Term;
use pads_value::Items;

/// The numbers of names in their order.
pub type NameIds = Items<u16>;

/// Declarations in their order.
pub type Decls = Items<Decl>;

/// A declared type.
#[derive(Debug, Drop)]
pub struct Decl {
    pub name: u16,
    pub params: NameIds,
    pub body: Term,
    /// Whether the values of its own body are kept.
    pub set: bool,
}

/// Which declarations the records of a source have: a header for the first, if there is one, and one
/// for all others.
#[derive(Clone, Copy, Debug)]
pub struct Shape {
    pub head: Option<u16>,
    pub each: u16,
}

impl Shape {
    /// The declaration that a record of this number has.
    pub fn type_of(&self, record_no: u64) -> u16
        ensures number { result ≡ type_of self.now record_no }
    {
        match self.head {
            Some(head) if record_no == 0 => head,
            _ => self.each,
        }
    }
}

/// How deep calls of declarations may be nested.
pub const DEEPEST: u8 = 128;

/// As many bytes as a search may pass over at most.
pub const FARTHEST: u32 = 16_777_216;
