//! The record of a number.

ghost use Rattle.std.specs.Prelude.{◌≡◌, ◌<◌, ◌≤◌, ◌+◌, ◌*◌, ◌%◌, ◌^◌, ◌++◌, length};
ghost use Rattle.arrayvec.specs.ArrayVec.{array_vec_len};
ghost use Rattle.pads_selftest.specs.Records.{bar_before, event, events, made, made_record as record_of, telephone};

use pads_describe::{Line, put, put_number};

/// Puts the telephone number of a record behind what stands there.
fn put_telephone(line: &mut Line, number: u64)
    requires room { array_vec_len line.old ≤ 21 }
    ensures put { line.new.items ≡ line.old.items ++ telephone number }
    ensures grown { array_vec_len line.new ≤ array_vec_len line.old + 20 }
{
    if number % 3 != 0 {
        put_number(line, number % 1000);
    }
}

/// Puts an event of a record behind what stands there.
fn put_event(line: &mut Line, number: u64, event_number: u64)
    requires room { array_vec_len line.old ≤ 91 }
    requires small { number < 2 ^ 32 }
    requires few { event_number < 4 }
    ensures put { line.new.items ≡ line.old.items ++ event number event_number }
    ensures grown { array_vec_len line.new ≤ array_vec_len line.old + 23 }
{
    let sum = number + event_number;
    put(line, b"s");
    line.push(b'0' + (sum % 10) as u8);
    put(line, b"|");
    put_number(line, sum);
}

/// Puts a bar before each event but the first.
fn put_bar(line: &mut Line, event_number: u64)
    requires room { array_vec_len line.old ≤ 90 }
    ensures put { line.new.items ≡ line.old.items ++ bar_before event_number }
    ensures grown { array_vec_len line.new ≤ array_vec_len line.old + 1 }
{
    if event_number != 0 {
        put(line, b"|");
    }
}

/// Puts the events of a record behind what stands there.
fn put_events(line: &mut Line, number: u64)
    requires room { array_vec_len line.old ≤ 42 }
    requires small { number < 2 ^ 32 }
    ensures put { line.new.items ≡ line.old.items ++ events number (number % 4) }
    ensures grown { array_vec_len line.new ≤ array_vec_len line.old + 72 }
{
    'events: for event_number in 0..number % 4 {
        put_bar(line, event_number);
        put_event(line, number, event_number);
    }
}

/// The record of this number, with its newline.
pub(crate) fn made_record(number: u32) -> Line
    ensures line { result.items ≡ record_of number }
{
    let number = u64::from(number);
    let mut line = Line::new();
    put_number(&mut line, number);
    put(&mut line, b"|");
    put_telephone(&mut line, number);
    put(&mut line, b"|");
    put_events(&mut line, number);
    line.push(b'\n');
    line
}

/// How many bytes so many records have: at most 128 each.
pub fn bytes_made(count: u32) -> u64
    ensures bytes { result ≡ length (made count) }
    ensures few { result ≤ 128 * count }
{
    let mut bytes = 0u64;
    'records: for number in 0..count {
        bytes += made_record(number).len() as u64;
    }
    bytes
}
