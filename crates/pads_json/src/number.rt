ghost use Rattle.std.specs.Prelude.{◌≡◌, ◌++◌, decimal, OnOk};
ghost use Rattle.std.specs.Fmt.{signed_decimal};
ghost use Rattle.serde_json.specs.Data.{null};
ghost use Rattle.serde_json.specs.Written.{compact_text};
ghost use Rattle.pads_json.specs.Faults.{span_shown};
ghost use Rattle.pads_json.specs.Numbers.{integer};

use itoa::Buffer;
use pads_value::{Bytes, Memory, Span};

pub(crate) fn write_null(out: &mut Bytes) -> Result<(), Memory>
    ensures written { OnOk result (out.new ≡ out.old ++ compact_text null) }
{
    out.extend_from_slice(b"null")
}

/// Writes a number. Many have one digit.
#[tactic(auto, using(std::proofs::lemmas::Fmt::decimal_digit))]
pub(crate) fn write_count(out: &mut Bytes, count: u64) -> Result<(), Memory>
    ensures written { OnOk result (out.new ≡ out.old ++ decimal count) }
{
    if count < 10 {
        return out.push(b'0' + count as u8);
    }
    let mut buffer = Buffer::new();
    out.extend_from_slice(buffer.format(count).as_bytes())
}

fn write_signed(out: &mut Bytes, number: i64) -> Result<(), Memory>
    ensures written { OnOk result (out.new ≡ out.old ++ signed_decimal number) }
{
    let mut buffer = Buffer::new();
    out.extend_from_slice(buffer.format(number).as_bytes())
}

/// Writes the number, where JSON's readers take it for a whole one: from -2^63 to 2^64 - 1.
pub(crate) fn write_integer(out: &mut Bytes, number: i128) -> Result<(), Memory>
    ensures written { OnOk result (out.new ≡ out.old ++ compact_text (integer number)) }
{
    if 0 <= number {
        if number < 1 << 64 {
            return write_count(out, number as u64);
        }
    } else if i64::MIN as i128 <= number {
        return write_signed(out, number as i64);
    }
    write_null(out)
}

/// Writes the begin and the end of a node.
pub(crate) fn write_span(out: &mut Bytes, span: Span) -> Result<(), Memory>
    ensures written { OnOk result (out.new ≡ out.old ++ compact_text (span_shown span)) }
{
    out.push(b'[')?;
    write_count(out, span.begin)?;
    out.push(b',')?;
    write_count(out, span.end)?;
    out.push(b']')
}
