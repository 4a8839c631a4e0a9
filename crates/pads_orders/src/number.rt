ghost use Rattle.std.specs.Prelude.{IfSome, ◌≡◌, ◌<◌, ◌≤◌, ◌^◌, ◌+◌, ◌*◌, ◌-◌};
ghost use Rattle.std.specs.Char.{is_ascii_digit};
ghost use Rattle.std.specs.List.{list_all};
ghost use Rattle.pads_code.specs.Numerals.{is_numeral, number};
ghost use Rattle.pads_orders.specs.Numbers.{up_to, leads_well, count_to, number_to, hex_digit, hex_byte};

/// Whether each byte is a decimal digit.
fn all_digits(text: &[u8]) -> bool
    ensures all { result ≡ list_all is_ascii_digit text.now }
{
    text.iter().all(|byte| byte.is_ascii_digit())
}

/// Whether a text is decimal digits.
fn is_numeral(text: &[u8]) -> bool
    ensures numeral { result ≡ is_numeral text.now }
{
    text.len() != 0 && all_digits(text)
}

/// Whether a text has no zero in front of other digits.
fn leads_well(text: &[u8]) -> bool
    ensures leads { result ≡ leads_well text.now }
{
    !text.starts_with(b"0") || text.len() == 1
}

/// One digit more.
fn with_digit(number: u64, digit: u8) -> u64
    requires small { number ≤ 2 ^ 32 }
    ensures number { result ≡ number * 10 + (digit - 48) }
{
    number * 10 + u64::from(digit.saturating_sub(48))
}

/// The number that digits write, where it isn't above the greatest.
fn number_up_to(greatest: u64, text: &[u8]) -> Option<u64>
    requires small { greatest ≤ 2 ^ 32 }
    ensures number { result ≡ up_to greatest (number text.now) }
    ensures within { IfSome result (λ n. n ≤ greatest) }
{
    let mut number = 0u64;
    'digits: for digit in text {
        number = with_digit(number, *digit);
        if number > greatest {
            return None;
        }
    }
    Some(number)
}

/// A number from 0 to the greatest.
pub(crate) fn count_to(greatest: u64, text: &[u8]) -> Option<u64>
    requires small { greatest ≤ 2 ^ 32 }
    ensures number { result ≡ count_to greatest text.now }
    ensures within { IfSome result (λ n. n ≤ greatest) }
{
    if !is_numeral(text) || !leads_well(text) {
        return None;
    }
    number_up_to(greatest, text)
}

/// A number from 1 to the greatest.
pub(crate) fn number_to(greatest: u64, text: &[u8]) -> Option<u64>
    requires small { greatest ≤ 2 ^ 32 }
    ensures number { result ≡ number_to greatest text.now }
    ensures some { IfSome result (λ n. 0 < n) }
    ensures within { IfSome result (λ n. n ≤ greatest) }
{
    let number = count_to(greatest, text)?;
    if number == 0 {
        return None;
    }
    Some(number)
}

/// What a hexadecimal digit of either case stands for.
fn hex_digit(digit: u8) -> Option<u8>
    ensures digit { result ≡ hex_digit digit }
{
    match digit {
        b'0'..=b'9' => Some(digit - 48),
        b'A'..=b'F' => Some(digit - 55),
        b'a'..=b'f' => Some(digit - 87),
        _ => None,
    }
}

/// A byte in two hexadecimal digits.
pub(crate) fn hex_byte(text: &[u8]) -> Option<u8>
    ensures byte { result ≡ hex_byte text.now }
{
    let [high, low] = text else {
        return None;
    };
    let high = hex_digit(*high)?;
    let low = hex_digit(*low)?;
    Some(16 * high + low)
}
