//! How many digits a decimal has, and the digits of a number.
ghost use Rattle.std.specs.Prelude.{◌≡◌, ◌≤◌, ◌<◌, ◌/◌, ◌%◌, ◌^◌, IfSome};
ghost use Rattle.pads_decimal.specs.Digits.{digit_count as count_of, fits as number_fits};

/// The number of digits where it is from 1 to 18.
pub(crate) fn digit_count(digits: i128) -> Option<usize>
    ensures count { result ≡ count_of digits }
    ensures some { IfSome result (λ count. 1 ≤ count) }
    ensures few { IfSome result (λ count. count ≤ 18) }
{
    if digits < 1 {
        return None;
    }
    if 18 < digits {
        return None;
    }
    Some(digits as usize)
}

/// 10 to a place.
fn power(place: usize) -> u64
    requires { place ≤ 18 }
    ensures power { result ≡ 10 ^ place }
    ensures some { 1 ≤ result }
    ensures small { result ≤ 10 ^ 18 }
{
    10u64.pow(place as u32)
}

/// The digit of a number at a place, which is counted from the right.
pub(crate) fn digit_at(number: u64, place: usize) -> u8
    requires { place ≤ 18 }
    ensures digit { result ≡ number / 10 ^ place % 10 }
    ensures small { result < 10 }
{
    (number / power(place) % 10) as u8
}

/// Whether so many digits write the number, which has a sign to be below 0.
pub(crate) fn fits(count: usize, signed: bool, v: i128) -> bool
    requires { count ≤ 18 }
    ensures fits { result ≡ number_fits count signed v }
{
    (signed || 0 <= v) && v.unsigned_abs() < u128::from(power(count))
}
