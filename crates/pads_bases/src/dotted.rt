ghost use Rattle.std.specs.Prelude.{◌≡◌, ◌≤◌, ◌+◌, ◌∷◌, ◌++◌, length, option_map, decimal};
ghost use Rattle.arrayvec.specs.ArrayVec.{array_vec_len};
ghost use Rattle.pads_code.specs.CodePage.{byte_of, bytes_of};
ghost use Rattle.pads_bases.specs.Addresses.{dot, ip_spelling};

use arrayvec::ArrayVec;
use itoa::Buffer;
use pads_code::{Coding, encode};

/// The longest spelling of an address.
type Spelled = ArrayVec<u8, 15>;

/// Puts the decimal text of an octet behind what is spelled so far.
fn push_octet(spelled: &mut Spelled, coding: Coding, octet: u8)
    requires { array_vec_len spelled.old + 3 ≤ 15 }
    ensures pushed { spelled.new.items ≡ spelled.old.items ++ bytes_of coding (decimal octet) }
    ensures short { array_vec_len spelled.new ≤ array_vec_len spelled.old + 3 }
{
    let mut buffer = Buffer::new();
    let text = buffer.format(octet).as_bytes();
    for point in text {
        spelled.push(encode(coding, *point));
    }
}

/// Puts a `.` and the decimal text of an octet behind what is spelled so far.
fn push_next(spelled: &mut Spelled, coding: Coding, octet: u8)
    requires { array_vec_len spelled.old + 4 ≤ 15 }
    ensures pushed { spelled.new.items ≡ spelled.old.items ++ byte_of coding dot ∷ bytes_of coding (decimal octet) }
    ensures short { array_vec_len spelled.new ≤ array_vec_len spelled.old + 4 }
{
    spelled.push(encode(coding, b'.'));
    push_octet(spelled, coding, octet);
}

/// The canonical spelling of an IP address of version 4: four decimals without leading zeros. `None`
/// exactly where the number isn't from 0 to 2^32 - 1.
pub fn spell_ip(coding: Coding, v: i128) -> Option<ArrayVec<u8, 15>>
    ensures spelling { option_map (λ s. s.items) result ≡ ip_spelling coding v }
{
    if v < 0 {
        return None;
    }
    if i128::from(u32::MAX) < v {
        return None;
    }
    let number = v as u32;
    let mut spelled = ArrayVec::new();
    push_octet(&mut spelled, coding, (number / (1 << 24)) as u8);
    push_next(&mut spelled, coding, (number / (1 << 16) % 256) as u8);
    push_next(&mut spelled, coding, (number / (1 << 8) % 256) as u8);
    push_next(&mut spelled, coding, (number % 256) as u8);
    Some(spelled)
}
