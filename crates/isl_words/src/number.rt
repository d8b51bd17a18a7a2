//! Numbers in digits.

ghost use Rattle.std.specs.Prelude.{◌≡◌, ◌-◌, ◌<◌, ◌≤◌, ◌^◌, min, IfSome};
ghost use Rattle.std.specs.Char.{is_ascii_digit};
ghost use Rattle.std.specs.List.{list_all};
ghost use Rattle.isl_words.specs.Number as spec;
ghost use Rattle.isl_words.specs.Number.{value_of};

fn has_only_digits(text: &[u8]) -> bool
    ensures { result ≡ list_all is_ascii_digit text.now }
{
    text.iter().all(|b| b.is_ascii_digit())
}

fn are_digits(text: &[u8]) -> bool
    ensures { result ≡ spec.are_digits text.now }
{
    !text.is_empty() && has_only_digits(text)
}

// The number that the digits write, or the greatest that fits where it is greater.
fn saturated(digits: &[u8]) -> u128
    ensures { result ≡ min (value_of digits.now) (2 ^ 128 - 1) }
{
    let mut value: u128 = 0;
    for digit in digits {
        let unit = u128::from(digit.saturating_sub(b'0'));
        value = value.saturating_mul(10).saturating_add(unit);
    }
    value
}

/// The number that the text writes in digits, where it is at least the one and at most the other.
pub fn read_number(text: &[u8], low: u128, high: u128) -> Option<u128>
    requires { high < 2 ^ 128 - 1 }
    ensures number { result ≡ spec.number low high text.now }
    ensures range { IfSome result (λ n. (low ≤ n) × (n ≤ high)) }
{
    if !are_digits(text) {
        return None;
    }
    let value = saturated(text);
    if low <= value && value <= high {
        Some(value)
    } else {
        None
    }
}

/// The whole number that the text writes by an optional `-` and digits, where its magnitude is at most the limit.
pub fn read_whole(text: &[u8], limit: u128) -> Option<i128>
    requires { limit < 2 ^ 127 }
    ensures { result ≡ spec.whole limit text.now }
{
    match text {
        [] => None,
        [b'-', digits @ ..] => match read_number(digits, 0, limit) {
            Some(n) => Some(-(n as i128)),
            None => None,
        },
        digits => match read_number(digits, 0, limit) {
            Some(n) => Some(n as i128),
            None => None,
        },
    }
}
