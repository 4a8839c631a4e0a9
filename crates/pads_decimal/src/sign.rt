//! The sign of a decimal, a half byte.
ghost use Rattle.std.specs.Prelude.{◌≡◌, ◌<◌, ◌^◌};
ghost use Rattle.pads_decimal.specs.Signs.{is_sign as is_sign_read, with_sign as number_with_sign, sign_of as sign_written};

/// The sign of a positive number or zero.
const PLUS: u8 = 0xC;
/// The sign of a negative number.
const MINUS: u8 = 0xD;
/// The sign of a number that has none.
const UNSIGNED: u8 = 0xF;

/// Whether a half byte is a sign that is read. A decimal without sign has no minus.
pub(crate) fn is_sign(signed: bool, half: u8) -> bool
    ensures sign { result ≡ is_sign_read signed half }
{
    match half {
        PLUS => true,
        MINUS => signed,
        UNSIGNED => true,
        _ => false,
    }
}

/// The number behind its sign.
pub(crate) fn with_sign(sign: u8, number: u64) -> i128
    ensures number { result ≡ number_with_sign sign number }
{
    let number = i128::from(number);
    if sign == MINUS { -number } else { number }
}

/// The sign that is written for a number.
pub(crate) fn sign_of(signed: bool, v: i128) -> u8
    ensures sign { result ≡ sign_written signed v }
    ensures half { result < 16 }
{
    if v < 0 {
        MINUS
    } else if signed {
        PLUS
    } else {
        UNSIGNED
    }
}
