use pads_calc::{Base, ComputedForm, Exprs, Key};
use pads_expr::Expr;
use pads_steps::Keyed;
use pads_value::{Bytes, Items};

/// Instructions in their order.
pub type Ops = Items<Op>;

/// The cases of a switched union in their order.
pub type Targets = Items<Target>;

/// An instruction. An address counts the instructions of the image before it.
#[derive(Debug, Drop)]
pub enum Op {
    /// Reads nothing.
    Unit,
    /// Reads a literal.
    Lit(Bytes),
    /// Reads the end of the record.
    Eor,
    /// Reads a base type with its arguments.
    Base(Base, Exprs),
    /// Computes a value.
    Compute(Expr, ComputedForm),
    /// Drops the value that was read.
    Absorb,
    /// Constrains the value that was read, by its name in the condition.
    Guard(u16, Expr),
    /// Begins a struct.
    Open,
    /// Keeps what was read as the next part of the struct, and binds a named part's value.
    Part(Option<u16>),
    /// Ends a struct with so many named parts.
    Close(u32),
    /// Notes the place.
    Mark,
    /// Notes the place where a search begins.
    ScanFrom,
    /// Ends the branch of this number. A clean one goes on at the address.
    Try(u16, u32),
    /// No branch was clean.
    NoArm,
    /// Goes on at the case that a value chooses, or without one at the address.
    Switch(Expr, Targets, u32),
    /// Ends the case of this number, and goes on at the address.
    Arm(u16, u32),
    /// Begins an array of a size, or of any. Without a good size it goes on at the address.
    Size(Option<Expr>, u32),
    /// Goes on at the address where the size is reached, or where the condition over the elements so far,
    /// by their name, is true of the latest.
    Full(Option<Expr>, u16, u32),
    /// Goes on at the address where the terminator stands.
    Stop(u32),
    /// Goes on at the address at the end of the record.
    Edge(u32),
    /// Begins a turn, and goes on at the address of the element where it is the first.
    Turn(u32),
    /// Goes on at the address where the separator isn't there.
    Sep(u32),
    /// Ends an element: goes on at the first address where the array ends, else at the second.
    Elem(u32, u32),
    /// Ends an array.
    Shut,
    /// Ends a search, or goes on with it at the address, one byte further.
    ScanOn(u32),
    /// Reads a declaration, by its number, with its arguments.
    Call(u16, Exprs),
    /// Ends a declaration.
    Return,
}

/// A case of a switched union: its key, if it has one, and the address of its code.
#[derive(Debug, Drop)]
pub struct Target {
    pub key: Option<Key>,
    pub to: u32,
}

impl Keyed for Target {
    ghost key_of = { λ target. target.key };

    fn key(&self) -> Option<&Key> {
        self.key.as_ref()
    }
}
