//! The numbers that digits write.

ghost use Rattle.std.specs.Prelude.{◌≡◌, ◌<ℤ◌, ◌≤ℤ◌, ◌↔◌, pos, min, IsTrue};
ghost use Rattle.isl_token.specs.Number.{value_of, number_of, too_great};

/// The least number that is greater than every number of a tree.
const TOO_GREAT: u128 = 1 << 127;

/// The number that the digits write, or `TOO_GREAT` where it is not below that.
fn capped(digits: &[u8]) -> u128
    ensures { result ≡ min (value_of digits.now) too_great }
{
    let mut value: u128 = 0;
    for digit in digits {
        let unit = u128::from(digit.saturating_sub(b'0'));
        value = value.saturating_mul(10).saturating_add(unit).min(TOO_GREAT);
    }
    value
}

/// The number that the digits write, or the greatest that a tree holds where it is greater.
pub fn number_of(digits: &[u8]) -> i128
    ensures { result ≡ number_of digits.now }
{
    capped(digits).min(TOO_GREAT - 1) as i128
}

/// Whether the digits write a number above the limit, which is not negative.
pub fn is_above(digits: &[u8], limit: i128) -> bool
    requires { pos 0 ≤ℤ limit }
    ensures { IsTrue result ↔ (limit <ℤ pos (value_of digits.now)) }
{
    limit < 0 || capped(digits) > limit as u128
}
