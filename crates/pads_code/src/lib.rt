//! The two codings of text in records: ASCII, and EBCDIC as IBM code page 037.
#![tactic(auto)]

ghost use Rattle.std.specs.Prelude.{◌≡◌};
ghost use Rattle.pads_code.specs.CodePage.{point as code_point, byte_of};

mod page;
#[cfg(test)]
mod tests;

/// How the bytes of a text stand for its code points (00 to FF).
#[derive(Clone, Copy, PartialEq, Eq, Debug)]
pub enum Coding {
    /// Each byte is its own code point.
    Ascii,
    /// IBM code page 037.
    Ebcdic,
}

/// The code point that `byte` stands for.
pub fn decode(coding: Coding, byte: u8) -> u8
    ensures code_page { result ≡ code_point coding byte }
    ensures undone { byte_of coding result ≡ byte }
{
    match coding {
        Coding::Ascii => byte,
        Coding::Ebcdic => page::POINTS[byte as usize],
    }
}

/// The byte that stands for the code point `point`.
pub fn encode(coding: Coding, point: u8) -> u8
    ensures code_page { result ≡ byte_of coding point }
    ensures undone { code_point coding result ≡ point }
{
    match coding {
        Coding::Ascii => point,
        Coding::Ebcdic => page::BYTES[point as usize],
    }
}
