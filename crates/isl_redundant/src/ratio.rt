//! Quotients of numbers.

/// A number at least 0 over a positive one.
#[derive(Clone, Copy)]
pub(crate) struct Ratio {
    pub number: i128,
    pub divisor: i128,
}

impl Ratio {
    /// Whether this one is less, where the products show it.
    pub(crate) fn is_less(self, other: Ratio) -> bool {
        match (
            product(self.number, other.divisor),
            product(other.number, self.divisor),
        ) {
            (Some(own), Some(others)) => own < others,
            _ => false,
        }
    }
}

/// The product; none where it is too large. That of short numbers is cheap.
pub(crate) fn product(a: i128, b: i128) -> Option<i128> {
    match (i64::try_from(a), i64::try_from(b)) {
        (Ok(x), Ok(y)) => Some(i128::from(x).wrapping_mul(i128::from(y))),
        _ => a.checked_mul(b),
    }
}

// The greatest common divisor of short numbers; 128 steps are enough for all of them.
fn short_divisor(a: u64, b: u64) -> u64 {
    let mut pair = (a, b);
    for _ in 0..128 {
        let Some(rest) = pair.0.checked_rem(pair.1) else {
            break;
        };
        pair = (pair.1, rest);
    }
    pair.0
}

/// The greatest common divisor; once numbers are short, the rest is cheap.
pub(crate) fn common_divisor(a: u128, b: u128) -> u128 {
    let mut pair = (a, b);
    for _ in 0..256 {
        if let (Ok(x), Ok(y)) = (u64::try_from(pair.0), u64::try_from(pair.1)) {
            return u128::from(short_divisor(x, y));
        }
        let Some(rest) = pair.0.checked_rem(pair.1) else {
            break;
        };
        pair = (pair.1, rest);
    }
    pair.0
}
