ghost use Rattle.std.specs.Prelude.{◌≡◌, ◌+◌, ◌<◌, ◌≤◌, ◌++◌, length, encode_utf8, encode_utf8_all, OnOk};
ghost use Rattle.std.specs.Char.{digit_char};
ghost use Rattle.std.specs.List.{list_all};
ghost use Rattle.json.specs.Print.{escape_letter, escape_byte, escape, quoted};
ghost use Rattle.pads_json.specs.Texts.{stands as stands_of, escaped_points};

use pads_value::{Bytes, Memory};

/// Whether a code point stands between quotes as itself, in one byte.
#[inline]
fn stands(point: u8) -> bool
    ensures stands { result ≡ stands_of point }
{
    0x1F < point && point < 0x80 && point != b'"' && point != b'\\'
}

/// Whether each code point stands as itself. It looks at all of them, so that it looks at several at once.
#[inline(always)]
#[tactic(auto, using(std::proofs::lemmas::List::Folds::list_all_more))]
fn run_stands(points: &[u8]) -> bool
    ensures all { result ≡ list_all stands_of points.now }
{
    let mut all = true;
    'points: for point in points {
        all = all & stands(*point);
    }
    all
}

/// The same by the first and the last ones, so many of each, which may share some.
#[inline(always)]
fn ends_stand(points: &[u8], count: usize) -> bool
    requires covered { (count ≤ length points.now) × (length points.now ≤ count + count) }
    ensures all { result ≡ list_all stands_of points.now }
{
    let first = run_stands(&points[..count]);
    let last = run_stands(&points[points.len() - count..]);
    first & last
}

/// The same. Where there are few, it looks at runs of a fixed length, which cost no loop.
#[inline(always)]
fn all_stand(points: &[u8]) -> bool
    ensures all { result ≡ list_all stands_of points.now }
{
    let count = points.len();
    if count < 4 || 32 < count {
        return run_stands(points);
    }
    if count <= 8 {
        return ends_stand(points, 4);
    }
    if count <= 16 {
        return ends_stand(points, 8);
    }
    ends_stand(points, 16)
}

/// The letter of a byte's short escape; 0 where it has none.
fn letter(byte: u8) -> u8
    ensures letter { result ≡ escape_letter byte }
{
    match byte {
        b'"' | b'\\' => byte,
        8 => b'b',
        12 => b'f',
        b'\n' => b'n',
        b'\r' => b'r',
        b'\t' => b't',
        _ => 0,
    }
}

fn hex_digit(digit: u8) -> u8
    requires digit { digit < 16 }
    ensures digit { result ≡ digit_char digit }
{
    if digit < 10 {
        b'0' + digit
    } else {
        b'a' - 10 + digit
    }
}

/// Writes a byte of a text, by its escape where it has one.
#[tactic(auto, unfolding(json::specs::Print::escape_byte))]
fn write_byte(out: &mut Bytes, byte: u8) -> Result<(), Memory>
    ensures written { OnOk result (out.new ≡ out.old ++ escape_byte byte) }
{
    let letter = letter(byte);
    if letter > 0 {
        return out.extend_from_slice(&[b'\\', letter]);
    }
    if byte < 0x20 {
        let digits = [hex_digit(byte / 16), hex_digit(byte % 16)];
        return out.extend_from_slice(&[b'\\', b'u', b'0', b'0', digits[0], digits[1]]);
    }
    out.push(byte)
}

/// Writes a code point of a text.
fn write_point(out: &mut Bytes, point: u8) -> Result<(), Memory>
    ensures written { OnOk result (out.new ≡ out.old ++ escape (encode_utf8 point)) }
{
    if point < 0x80 {
        return write_byte(out, point);
    }
    out.extend_from_slice(&[192 + point / 64, 128 + point % 64])
}

/// Writes a text, of which some bytes need an escape.
#[inline(never)]
fn write_each_byte(out: &mut Bytes, text: &[u8]) -> Result<(), Memory>
    ensures written { OnOk result (out.new ≡ out.old ++ escape text.now) }
{
    'bytes: for byte in text {
        write_byte(out, *byte)?;
    }
    Ok(())
}

/// Writes a text of code points 00 to FF, of which some don't stand as they are.
#[inline(never)]
fn write_each_point(out: &mut Bytes, points: &[u8]) -> Result<(), Memory>
    ensures written { OnOk result (out.new ≡ out.old ++ escaped_points points.now) }
{
    'points: for point in points {
        write_point(out, *point)?;
    }
    Ok(())
}

/// Writes the bytes of a text as they stand between quotes.
#[tactic(auto, using(crate::proofs::Texts::bytes_stand))]
pub(crate) fn write_text(out: &mut Bytes, text: &[u8]) -> Result<(), Memory>
    ensures written { OnOk result (out.new ≡ out.old ++ escape text.now) }
{
    if all_stand(text) {
        return out.extend_from_slice(text);
    }
    write_each_byte(out, text)
}

/// Writes a text of code points 00 to FF as it stands between quotes.
#[inline(always)]
#[tactic(auto, using(crate::proofs::Texts::points_stand))]
pub(crate) fn write_points(out: &mut Bytes, points: &[u8]) -> Result<(), Memory>
    ensures written { OnOk result (out.new ≡ out.old ++ escaped_points points.now) }
{
    if all_stand(points) {
        return out.extend_from_slice(points);
    }
    write_each_point(out, points)
}

/// Writes a text of code points 00 to FF in quotes.
pub fn write_quoted(out: &mut Bytes, points: &[u8]) -> Result<(), Memory>
    ensures written { OnOk result (out.new ≡ out.old ++ quoted (encode_utf8_all points.now)) }
{
    out.push(b'"')?;
    write_points(out, points)?;
    out.push(b'"')
}
