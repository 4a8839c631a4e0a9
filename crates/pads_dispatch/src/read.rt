ghost use Rattle.std.specs.Prelude.{◌≡◌, ◌≤◌, true, Some, length, IfOk, option_map};
ghost use Rattle.pads_value.specs.declared.value.Val.TheVariants as val;
ghost use Rattle.pads_dispatch.specs.Applied.{applied};
ghost use Rattle.pads_dispatch.specs.Labels.{labels_fit};
ghost use Rattle.pads_dispatch.specs.Readings.{as_value, reading_of, base_reading};
ghost use Rattle.pads_dispatch.specs.Seen.{seen, applied_fits};
ghost use Rattle.pads_dispatch.specs.Sizes.{taken};

use crate::applied::{Applied, with_args};
use crate::kinds::range_of;
use crate::{Arg, Args, Base};
use pads_bases::{read_bin, read_char, read_class, read_enum, read_fixed, read_ip, read_until};
use pads_decimal::{read_packed, read_zoned};
use pads_int::{read_int, read_int_fw};
use pads_value::{Bytes, Cause, Memory, Read, Val};
use std::alloc::Global;

/// A reading of numbers as one of values.
fn number(read: Read<i128>) -> Read<Val>
    ensures same { result ≡ as_value val.Num read }
{
    match read {
        Read::Good(size, number) => Read::Good(size, Val::Num(number)),
        Read::Soft(size, cause) => Read::Soft(size, cause),
        Read::Hard(cause) => Read::Hard(cause),
    }
}

/// A reading of texts as one of values.
fn text(read: Read<Bytes>) -> Read<Val>
    ensures same { result ≡ as_value val.Text read }
{
    match read {
        Read::Good(size, text) => Read::Good(size, Val::Text(text)),
        Read::Soft(size, cause) => Read::Soft(size, cause),
        Read::Hard(cause) => Read::Hard(cause),
    }
}

/// A reading of labels as one of values.
fn label(read: Read<u16>) -> Read<Val>
    ensures same { result ≡ as_value val.Enum read }
{
    match read {
        Read::Good(size, label) => Read::Good(size, Val::Enum(label)),
        Read::Soft(size, cause) => Read::Soft(size, cause),
        Read::Hard(cause) => Read::Hard(cause),
    }
}

/// The reading of a base type with its arguments, by cases of the base.
fn read_applied(alloc: Global, whole: Applied<'_>, bytes: &[u8]) -> Result<Read<Val>, Memory>
    requires labels { applied_fits (seen whole) ≡ true }
    ensures reading { IfOk result (λ read. read ≡ reading_of (seen whole.entry) bytes.now) }
{
    Ok(match whole {
        Applied::Int(kind, coding) => number(read_int(kind, coding, bytes)),
        Applied::IntFw(kind, coding, width) => number(read_int_fw(kind, coding, width, bytes)),
        Applied::Bin(kind, order, size) => number(read_bin(range_of(kind), order, size, bytes)),
        Applied::Until(coding, stop) => text(read_until(alloc, coding, stop, bytes)?),
        Applied::Fixed(coding, width) => text(read_fixed(alloc, coding, width, bytes)?),
        Applied::Class(coding, class) => text(read_class(alloc, coding, class, bytes)?),
        Applied::Char(coding) => text(read_char(alloc, coding, bytes)?),
        Applied::Ip(coding) => number(read_ip(coding, bytes)),
        Applied::Enum(coding, labels) => label(read_enum(coding, labels, bytes)),
        Applied::Packed(signed, digits) => number(read_packed(digits, signed, bytes)),
        Applied::Zoned(signed, digits) => number(read_zoned(digits, signed, bytes)),
    })
}

/// The reading of a base type; arguments of a wrong number or sort are bad ones.
#[tactic(auto, unfolding(crate::specs::Readings::base_reading))]
fn read_or_refuse(
    alloc: Global,
    base: &Base,
    args: &[Arg],
    bytes: &[u8],
) -> Result<Read<Val>, Memory>
    requires labels { labels_fit base.now ≡ true }
    ensures reading { IfOk result (λ read. read ≡ base_reading base.now args.now bytes.now) }
{
    match with_args(base, args) {
        None => Ok(Read::Hard(Cause::BadParam)),
        Some(whole) => read_applied(alloc, whole, bytes),
    }
}

/// Reads a base type with its arguments from the front of the bytes, of which it takes no more than
/// there are. Arguments of a wrong number or sort are hard `BadParam`.
#[tactic(auto, using(crate::proofs::Takes::takes))]
pub fn read_base(alloc: Global, base: &Base, args: &Args, bytes: &[u8]) -> Result<Read<Val>, Memory>
    requires labels { labels_fit base.now ≡ true }
    ensures reading { IfOk result (λ read. read ≡ base_reading base.now args.now bytes.now) }
    ensures within { IfOk result (λ read. taken read ≤ length bytes.now) }
{
    read_or_refuse(alloc, base, args.as_slice(), bytes)
}
