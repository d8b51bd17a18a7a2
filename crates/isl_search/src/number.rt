//! Numbers of the search.

use isl_meter::Cut;

/// `a x + b y`.
pub(crate) fn sum_of(a: i128, x: i128, b: i128, y: i128) -> Result<i128, Cut> {
    let first = a.checked_mul(x).ok_or(Cut::Overflow)?;
    let second = b.checked_mul(y).ok_or(Cut::Overflow)?;
    first.checked_add(second).ok_or(Cut::Overflow)
}

/// The greatest common divisor; 256 steps are enough for all numbers.
pub(crate) fn common_divisor(a: i128, b: i128) -> Result<i128, Cut> {
    let mut pair = (a.unsigned_abs(), b.unsigned_abs());
    for _ in 0..256 {
        let Some(rest) = pair.0.checked_rem(pair.1) else {
            break;
        };
        pair = (pair.1, rest);
    }
    i128::try_from(pair.0).map_err(|_| Cut::Overflow)
}

/// The quotient, rounded down.
pub(crate) fn quotient(number: i128, k: i128) -> Result<i128, Cut> {
    number.checked_div_euclid(k).ok_or(Cut::Overflow)
}

/// What the number leaves above a multiple of `k`.
pub(crate) fn remainder(number: i128, k: i128) -> Result<i128, Cut> {
    number.checked_rem_euclid(k).ok_or(Cut::Overflow)
}

/// The negative.
pub(crate) fn negative(number: i128) -> Result<i128, Cut> {
    number.checked_neg().ok_or(Cut::Overflow)
}
