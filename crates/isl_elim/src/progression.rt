//! Arithmetic progressions, by which numbers to try are found. No clause speaks of them: what they find is looked at.

use crate::line::Tries;

/// The numbers `first`, `first + step`, `first - step`, ..
#[derive(Clone, Copy)]
pub(crate) struct Progression {
    first: i128,
    step: i128,
}

// A number `x` with `a x = g` modulo `m`, and the greatest common divisor `g` of `a` and `m`.
fn inverse(a: u128, m: u128) -> Option<(i128, u128)> {
    let mut rest = (m, a);
    let mut factors: (i128, i128) = (0, 1);
    while rest.1 != 0 {
        let quotient = i128::try_from(rest.0 / rest.1).ok()?;
        let factor = factors.0.checked_sub(quotient.checked_mul(factors.1)?)?;
        rest = (rest.1, rest.0 % rest.1);
        factors = (factors.1, factor);
    }
    Some((factors.0, rest.0))
}

impl Progression {
    pub(crate) const ALL: Progression = Progression { first: 0, step: 1 };

    /// Those of the numbers `x` at which `k` divides `number x + value`; all of them where there is none or a number is too large.
    pub(crate) fn met(self, number: i128, value: i128, k: i128) -> Progression {
        self.met_by(number, value, k).unwrap_or(self)
    }

    // With `x = first + step y` the congruence says `step number y = - (number first + value)` modulo `k`.
    fn met_by(self, number: i128, value: i128, k: i128) -> Option<Progression> {
        let number = number.checked_rem_euclid(k)?;
        let step = self.step.checked_rem_euclid(k)?;
        let a = number.checked_mul(step)?.checked_rem_euclid(k)?;
        let first = self.first.checked_rem_euclid(k)?;
        let at_first = number
            .checked_mul(first)?
            .checked_add(value)?
            .checked_rem_euclid(k)?;
        let (inverse, divisor) = inverse(a.unsigned_abs(), k.unsigned_abs())?;
        let divisor = i128::try_from(divisor).ok()?;
        let modulus = k.checked_div(divisor)?;
        let quotient = at_first
            .checked_neg()?
            .checked_div(divisor)?
            .checked_rem_euclid(modulus)?;
        let y = quotient
            .checked_mul(inverse.checked_rem_euclid(modulus)?)?
            .checked_rem_euclid(modulus)?;
        Some(Progression {
            first: self.first.checked_add(self.step.checked_mul(y)?)?,
            step: self.step.checked_mul(modulus)?,
        })
    }

    /// Those from `bound` upwards.
    pub(crate) fn from(self, bound: i128) -> Tries {
        let up = self
            .first
            .checked_sub(bound)
            .and_then(|z| z.checked_rem_euclid(self.step));
        Tries {
            first: bound.saturating_add(up.unwrap_or(0)),
            step: if up.is_some() { self.step } else { 1 },
        }
    }

    /// Those from `bound` downwards.
    pub(crate) fn down_from(self, bound: i128) -> Tries {
        let down = bound
            .checked_sub(self.first)
            .and_then(|z| z.checked_rem_euclid(self.step));
        Tries {
            first: bound.saturating_sub(down.unwrap_or(0)),
            step: if down.is_some() {
                self.step.saturating_neg()
            } else {
                -1
            },
        }
    }
}
