ghost use Rattle.std.specs.Prelude.{◌≡◌, ◌<◌, ◌++◌, ◌*◌, ◌/◌, ◌^◌, decimal, encode_utf8, encode_utf8_all, OnOk};
ghost use Rattle.std.specs.Fmt.{signed_decimal};
ghost use Rattle.pads_report.specs.Reports.{three_digits, quotient, percent, average};

use itoa::Buffer;
use pads_value::{Bytes, Memory};

pub(crate) fn write_count(out: &mut Bytes, count: u64) -> Result<(), Memory>
    ensures written { OnOk result (out.new ≡ out.old ++ decimal count) }
{
    let mut buffer = Buffer::new();
    out.extend_from_slice(buffer.format(count).as_bytes())
}

fn write_wide(out: &mut Bytes, count: u128) -> Result<(), Memory>
    ensures written { OnOk result (out.new ≡ out.old ++ decimal count) }
{
    let mut buffer = Buffer::new();
    out.extend_from_slice(buffer.format(count).as_bytes())
}

pub(crate) fn write_signed(out: &mut Bytes, number: i128) -> Result<(), Memory>
    ensures written { OnOk result (out.new ≡ out.old ++ signed_decimal number) }
{
    let mut buffer = Buffer::new();
    out.extend_from_slice(buffer.format(number).as_bytes())
}

/// Writes a number below 1000 in three digits.
fn write_three_digits(out: &mut Bytes, number: u16) -> Result<(), Memory>
    requires small { number < 1000 }
    ensures written { OnOk result (out.new ≡ out.old ++ three_digits number) }
{
    let hundreds = b'0' + (number / 100) as u8;
    let tens = b'0' + (number / 10 % 10) as u8;
    let ones = b'0' + (number % 10) as u8;
    out.extend_from_slice(&[hundreds, tens, ones])
}

/// The thousandths of what a division leaves.
fn thousandths(rest: u128, divisor: u128) -> u16
    requires rest { rest < divisor }
    requires divisor { divisor < 2 ^ 66 }
    ensures thousandths { result ≡ rest * 1000 / divisor }
    ensures small { result < 1000 }
{
    (rest * 1000 / divisor) as u16
}

/// Writes a quotient with three decimals, cut.
pub(crate) fn write_quotient(out: &mut Bytes, number: u128, divisor: u128) -> Result<(), Memory>
    requires divisor { divisor < 2 ^ 66 }
    ensures written { OnOk result (out.new ≡ out.old ++ quotient number divisor) }
{
    if divisor == 0 {
        return out.extend_from_slice(b"0.000");
    }
    write_wide(out, number / divisor)?;
    out.extend_from_slice(b".")?;
    write_three_digits(out, thousandths(number % divisor, divisor))
}

pub(crate) fn write_percent(out: &mut Bytes, good: u64, bad: u64) -> Result<(), Memory>
    ensures written { OnOk result (out.new ≡ out.old ++ percent good bad) }
{
    write_quotient(
        out,
        100 * u128::from(bad),
        u128::from(good) + u128::from(bad),
    )
}

pub(crate) fn write_average(out: &mut Bytes, sum: i128, count: u64) -> Result<(), Memory>
    ensures written { OnOk result (out.new ≡ out.old ++ average sum count) }
{
    if sum < 0 {
        out.extend_from_slice(b"-")?;
    }
    write_quotient(out, sum.unsigned_abs(), u128::from(count))
}

/// Writes a code point of a text.
fn write_point(out: &mut Bytes, point: u8) -> Result<(), Memory>
    ensures written { OnOk result (out.new ≡ out.old ++ encode_utf8 point) }
{
    if point < 0x80 {
        return out.push(point);
    }
    out.extend_from_slice(&[192 + point / 64, 128 + point % 64])
}

/// Writes a text of code points 00 to FF.
pub(crate) fn write_points(out: &mut Bytes, points: &[u8]) -> Result<(), Memory>
    ensures written { OnOk result (out.new ≡ out.old ++ encode_utf8_all points.now) }
{
    'points: for point in points {
        write_point(out, *point)?;
    }
    Ok(())
}
