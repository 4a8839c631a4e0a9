ghost use Rattle.std.specs.Prelude.{◌≡◌};
ghost use Rattle.pads_base_names.specs.Names.{takes};

use pads_bases::Order;
use pads_int::Kind;

/// The coding of text that a name says.
#[derive(Clone, Copy, Debug, PartialEq, Eq)]
pub enum NamedCoding {
    /// The coding of the run.
    Ambient,
    Ascii,
    Ebcdic,
}

/// What the name of a base type means.
#[derive(Clone, Copy, Debug, PartialEq, Eq)]
pub enum BaseName {
    /// An integer in decimal digits.
    Int(NamedCoding, Kind),
    /// An integer in decimal digits, in a field.
    IntFw(NamedCoding, Kind),
    /// A binary integer of its kind's size, low byte first.
    Bin(Kind),
    /// A binary integer, maybe of a size of its own.
    SizedBin(Order, Kind),
    /// A text up to a stop character or the record's end.
    Until(NamedCoding),
    /// A text in a field.
    Fixed(NamedCoding),
    /// The longest text of characters of a class.
    Class(NamedCoding),
    /// One character.
    Char(NamedCoding),
    /// An IP address of version 4.
    Ip(NamedCoding),
    /// A packed decimal, which may be negative if this is true.
    Packed(bool),
    /// A zoned decimal, which may be negative if this is true.
    Zoned(bool),
}

/// The arguments that a base type takes.
#[derive(Clone, Copy, Debug, PartialEq, Eq)]
pub enum Takes {
    Nothing,
    /// One number: a width, or how many digits.
    Number,
    /// One number, a size, or none.
    NumberOrNothing,
    /// One text: a class.
    Text,
    /// One text, a stop character, or `Peor`.
    TextOrEnd,
}

impl BaseName {
    /// The arguments that this base type takes.
    pub fn takes(self) -> Takes
        ensures table { result ≡ takes self }
    {
        match self {
            BaseName::Int(_, _) | BaseName::Bin(_) | BaseName::Char(_) | BaseName::Ip(_) => {
                Takes::Nothing
            }
            BaseName::IntFw(_, _) | BaseName::Fixed(_) | BaseName::Packed(_) | BaseName::Zoned(_) =>
                Takes::Number,
            BaseName::SizedBin(_, _) => Takes::NumberOrNothing,
            BaseName::Class(_) => Takes::Text,
            BaseName::Until(_) => Takes::TextOrEnd,
        }
    }
}
