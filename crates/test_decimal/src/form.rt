//! The forms of decimals whose fields have two bytes.
use pads_decimal::{read_packed, read_zoned, spell_packed, spell_zoned};
use pads_value::Read;

#[derive(Clone, Copy)]
enum Kind {
    Packed,
    Zoned,
}

/// A form of decimals.
#[derive(Clone, Copy)]
pub struct Form {
    /// How rows call it.
    pub name: &'static str,
    kind: Kind,
    digits: i128,
    signed: bool,
}

fn make_form(name: &'static str, kind: Kind, digits: i128, signed: bool) -> Form {
    Form {
        name,
        kind,
        digits,
        signed,
    }
}

/// All that have two bytes.
pub fn forms() -> [Form; 6] {
    [
        make_form("packed 2 signed", Kind::Packed, 2, true),
        make_form("packed 2 unsigned", Kind::Packed, 2, false),
        make_form("packed 3 signed", Kind::Packed, 3, true),
        make_form("packed 3 unsigned", Kind::Packed, 3, false),
        make_form("zoned 2 signed", Kind::Zoned, 2, true),
        make_form("zoned 2 unsigned", Kind::Zoned, 2, false),
    ]
}

impl Form {
    /// What a field reads as.
    pub fn read(self, field: &[u8]) -> Read<i128> {
        match self.kind {
            Kind::Packed => read_packed(self.digits, self.signed, field),
            Kind::Zoned => read_zoned(self.digits, self.signed, field),
        }
    }

    /// The two bytes that a number is spelled as.
    pub fn spelled(self, number: i128) -> Option<(u8, u8)> {
        match self.kind {
            Kind::Packed => pair_of(spell_packed(self.digits, self.signed, number)?.as_slice()),
            Kind::Zoned => pair_of(spell_zoned(self.digits, self.signed, number)?.as_slice()),
        }
    }
}

fn pair_of(bytes: &[u8]) -> Option<(u8, u8)> {
    match bytes {
        [first, second] => Some((*first, *second)),
        _ => None,
    }
}
