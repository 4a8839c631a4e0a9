ghost use Rattle.std.specs.Prelude.{◌≡◌, ◌≤◌, ◌++◌, take, drop, length, option_map};
ghost use Rattle.std.specs.Int.{w128};
ghost use Rattle.byteorder.specs.Endian.{twos_complement, low_bytes};
ghost use Rattle.pads_bases.specs.Binaries.{unsigned, is_signed as is_signed_kind, has_number as number_of_kind, bin_number, ranged as number_or_range, bin_reading, bin_spelling, bytes_in, fits};

use crate::binary::{Order, Range};
use arrayvec::ArrayVec;
use byteorder::{BigEndian, ByteOrder, LittleEndian};
use pads_value::{Cause, Read};

/// Whether the kind has numbers below 0.
fn is_signed(range: Range) -> bool
    ensures signed { result ≡ is_signed_kind range }
{
    range.low < 0
}

/// Whether the kind has the number.
fn has_number(range: Range, number: i128) -> bool
    ensures range { result ≡ number_of_kind range number }
{
    range.low <= number && number <= range.high
}

/// The number of the bytes without a sign.
fn unsigned_number(order: Order, bytes: &[u8]) -> u64
    requires low { 1 ≤ length bytes.now }
    requires high { length bytes.now ≤ 8 }
    ensures number { result ≡ unsigned order bytes.now }
{
    match order {
        Order::Low => LittleEndian::read_uint(bytes, bytes.len()),
        Order::High => BigEndian::read_uint(bytes, bytes.len()),
    }
}

/// The number of the bytes in two's complement.
fn signed_number(order: Order, bytes: &[u8]) -> i64
    requires low { 1 ≤ length bytes.now }
    requires high { length bytes.now ≤ 8 }
    ensures number { result ≡ twos_complement (length bytes.now) (unsigned order bytes.now) }
{
    match order {
        Order::Low => LittleEndian::read_int(bytes, bytes.len()),
        Order::High => BigEndian::read_int(bytes, bytes.len()),
    }
}

/// The number of the bytes as the kind has it.
fn number(range: Range, order: Order, bytes: &[u8]) -> i128
    requires low { 1 ≤ length bytes.now }
    requires high { length bytes.now ≤ 8 }
    ensures number { result ≡ bin_number range order bytes.now }
{
    if is_signed(range) {
        signed_number(order, bytes).into()
    } else {
        unsigned_number(order, bytes).into()
    }
}

/// Reads a binary integer of `size` bytes. A size that isn't from 1 to 8 is hard `BadParam`, fewer bytes
/// hard `Width`. A number that the kind doesn't have is soft `Range` over all `size` bytes.
pub fn read_bin(range: Range, order: Order, size: i128, bytes: &[u8]) -> Read<i128>
    ensures reading { result ≡ bin_reading range order size bytes.now }
{
    if size < 1 {
        return Read::Hard(Cause::BadParam);
    }
    if 8 < size {
        return Read::Hard(Cause::BadParam);
    }
    if (bytes.len() as i128) < size {
        return Read::Hard(Cause::Width);
    }
    let (field, _) = bytes.split_at(size as usize);
    ranged(range, field.len(), number(range, order, field))
}

/// The number over the bytes that it takes, or `Range` where the kind doesn't have it.
fn ranged(range: Range, size: usize, number: i128) -> Read<i128>
    ensures range { result ≡ number_or_range range size number }
{
    let size = size as u64;
    if has_number(range, number) {
        Read::Good(size, number)
    } else {
        Read::Soft(size, Cause::Range)
    }
}

/// Whether so many bytes have a place for the number.
fn fits_size(signed: bool, size: usize, number: i128) -> bool
    requires low { 1 ≤ size }
    requires high { size ≤ 8 }
    ensures fits { result ≡ fits signed size number }
{
    if signed {
        let half = 1i128 << (8 * size - 1);
        -half <= number && number < half
    } else {
        let whole = 1i128 << (8 * size);
        0 <= number && number < whole
    }
}

/// The bytes of a number in two's complement.
fn spelled(order: Order, size: usize, number: i128) -> ArrayVec<u8, 8>
    requires low { 1 ≤ size }
    requires high { size ≤ 8 }
    ensures bytes { result.items ≡ bytes_in order size (low_bytes w128 size number) }
{
    let mut bytes = [0; 8];
    match order {
        Order::Low => LittleEndian::write_int128(&mut bytes, number, size),
        Order::High => BigEndian::write_int128(&mut bytes, number, size),
    }
    first_of(&bytes, size)
}

/// The first bytes of a buffer.
fn first_of(bytes: &[u8], size: usize) -> ArrayVec<u8, 8>
    requires low { size ≤ 8 }
    requires high { size ≤ length bytes.now }
    ensures bytes { result.items ≡ take size bytes.now }
{
    let mut first = ArrayVec::new();
    let (front, _) = bytes.split_at(size);
    for byte in front {
        first.push(*byte);
    }
    first
}

/// The canonical spelling of a number in `size` bytes. `None` exactly where the kind or so many bytes don't
/// have the number, or the size isn't from 1 to 8.
pub fn spell_bin(range: Range, order: Order, size: i128, v: i128) -> Option<ArrayVec<u8, 8>>
    ensures spelling { option_map (λ s. s.items) result ≡ bin_spelling range order size v }
{
    if size < 1 {
        return None;
    }
    if 8 < size {
        return None;
    }
    if !has_number(range, v) {
        return None;
    }
    let size = size as usize;
    if !fits_size(is_signed(range), size, v) {
        return None;
    }
    Some(spelled(order, size, v))
}
