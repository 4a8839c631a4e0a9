ghost use Rattle.std.specs.Prelude.{◌≡◌, ◌↔◌, IfOk, IsTrue};
ghost use Rattle.pads_dispatch.specs.Labels.{labels_fit as labels_fit_of};

use pads_bases::{Labels, Order, copy_labels};
use pads_code::Coding;
use pads_int::Kind;
use pads_value::{Bytes, Items, Memory};
use std::alloc::Global;

/// A base type of the language, without its arguments.
#[derive(Debug, Drop)]
pub enum Base {
    /// An integer in decimal digits, as many as there are. No argument.
    Int(Kind, Coding),
    /// An integer in a field. Its argument is the field's width in bytes.
    IntFw(Kind, Coding),
    /// A binary integer. Its argument is the number of its bytes; without one it has its kind's size.
    Bin(Kind, Order),
    /// A text up to a stop character or the record's end. Its argument is the stop character, as a text
    /// of one code point.
    Until(Coding),
    /// A text up to the record's end. No argument.
    UntilEor(Coding),
    /// A text in a field. Its argument is the field's width in bytes.
    Fixed(Coding),
    /// The longest text of characters of a class. Its argument is the class text, such as `A-Za-z`.
    Class(Coding),
    /// A text of one character. No argument.
    Char(Coding),
    /// An IP address of version 4, as its 32-bit number. No argument.
    Ip(Coding),
    /// One of these labels, by its spelling. No argument.
    Enum(Coding, Labels),
    /// A packed decimal, which may be negative if this is true. Its argument is the number of its digits.
    Packed(bool),
    /// A zoned decimal, which may be negative if this is true. Its argument is the number of its digits.
    Zoned(bool),
}

impl Base {
    /// A base type equal to this one.
    pub fn copy(&self, alloc: Global) -> Result<Base, Memory>
        ensures equal { IfOk result (λ copied. copied ≡ self.now) }
    {
        Ok(match self {
            Base::Int(kind, coding) => Base::Int(*kind, *coding),
            Base::IntFw(kind, coding) => Base::IntFw(*kind, *coding),
            Base::Bin(kind, order) => Base::Bin(*kind, *order),
            Base::Until(coding) => Base::Until(*coding),
            Base::UntilEor(coding) => Base::UntilEor(*coding),
            Base::Fixed(coding) => Base::Fixed(*coding),
            Base::Class(coding) => Base::Class(*coding),
            Base::Char(coding) => Base::Char(*coding),
            Base::Ip(coding) => Base::Ip(*coding),
            Base::Enum(coding, labels) => {
                Base::Enum(*coding, copy_labels(alloc, labels.as_slice())?)
            }
            Base::Packed(signed) => Base::Packed(*signed),
            Base::Zoned(signed) => Base::Zoned(*signed),
        })
    }
}

/// What an argument of a base type or of a declaration stands for.
#[derive(Debug, Drop)]
pub enum Arg {
    Num(i128),
    /// A text of code points.
    Text(Bytes),
}

impl Arg {
    /// Whether both are the same argument.
    pub fn same(&self, other: &Arg) -> bool
        ensures same { IsTrue result ↔ (self.now ≡ other.now) }
    {
        match (self, other) {
            (Arg::Num(a), Arg::Num(b)) => *a == *b,
            (Arg::Text(a), Arg::Text(b)) => a.as_slice() == b.as_slice(),
            _ => false,
        }
    }

    /// An argument equal to this one.
    pub fn copy(&self, alloc: Global) -> Result<Arg, Memory>
        ensures equal { IfOk result (λ copied. copied ≡ self.now) }
    {
        Ok(match self {
            Arg::Num(number) => Arg::Num(*number),
            Arg::Text(text) => Arg::Text(Items::from_slice(alloc, text.as_slice())?),
        })
    }
}

/// Arguments in their order.
pub type Args = Items<Arg>;

/// Whether both are the same arguments.
pub fn same_args(a: &[Arg], b: &[Arg]) -> bool
    ensures same { IsTrue result ↔ (a.now ≡ b.now) }
{
    if a.len() != b.len() {
        return false;
    }
    for i in 0..a.len() {
        if !a[i].same(&b[i]) {
            return false;
        }
    }
    true
}

/// Arguments equal to these.
pub fn copy_args(alloc: Global, args: &[Arg]) -> Result<Args, Memory>
    ensures equal { IfOk result (λ copied. copied ≡ args.now) }
{
    let mut copied = Items::new(alloc);
    for arg in args {
        copied.push(arg.copy(alloc)?)?;
    }
    Ok(copied)
}

/// The most labels of a base type: their numbers are of 16 bits.
const MOST_LABELS: u64 = 65_535;

/// Whether a base type has no more labels than 16 bits number.
pub fn labels_fit(base: &Base) -> bool
    ensures fit { result ≡ labels_fit_of base.now }
{
    match base {
        Base::Enum(_, labels) => labels.len() <= MOST_LABELS,
        _ => true,
    }
}
