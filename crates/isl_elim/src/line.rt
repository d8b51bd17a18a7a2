//! The numbers at one column where rows hold at given numbers for the others. Which numbers are tried is no matter of proof:
//! each of them is looked at.

ghost use Rattle.std.specs.Prelude.{◌≡◌, MatchResult, length};
ghost use Rattle.isl_meter.specs.Gauge.{IsWithin, overflown};

use crate::progression::Progression;
use isl_meter::{Int, Meter, Overflow};
use isl_piece::{Row, RowKind};

/// What rows say of the number at a column.
#[derive(Clone, Copy)]
struct Window {
    exact: Option<i128>,
    lower: Option<i128>,
    upper: Option<i128>,
    progression: Progression,
}

/// The numbers that are tried: the first, and a step.
#[derive(Clone, Copy)]
pub(crate) struct Tries {
    pub first: i128,
    pub step: i128,
}

// The number that the row's form has at the point.
fn value_at(row: &Row, point: &[i128], meter: &mut Meter) -> Result<i128, Overflow>
    ensures { MatchResult result (λ _. meter.new ≡ meter.old) (λ _. meter.new ≡ overflown meter.old) }
{
    let mut sum = row.constant();
    for (coef, x) in row.coefs.as_slice().iter().zip(point) {
        let product = coef.mul(Int::new(*x), meter)?;
        sum = sum.add(product, meter)?;
    }
    Ok(sum.get())
}

// The quotient, rounded down; the divisor is not 0.
fn floor(number: i128, divisor: i128) -> Option<i128> {
    let quotient = number.checked_div(divisor)?;
    if (number < 0) != (divisor < 0) && number.checked_rem(divisor)? != 0 {
        return quotient.checked_sub(1);
    }
    Some(quotient)
}

impl Window {
    const WHOLE: Window = Window {
        exact: None,
        lower: None,
        upper: None,
        progression: Progression::ALL,
    };

    // What is left where `number x + value` has to meet a row of the kind.
    fn narrowed(self, row: &Row, number: i128, value: i128) -> Window {
        match row.kind {
            RowKind::Zero => self.fixed(number, value),
            RowKind::AtLeast => self.bounded(number, value),
            RowKind::Divides => Window {
                progression: self.progression.met(number, value, row.modulus().get()),
                ..self
            },
            RowKind::NotDivides => self,
        }
    }

    fn fixed(self, number: i128, value: i128) -> Window {
        let exact = value.checked_neg().and_then(|z| floor(z, number));
        Window { exact, ..self }
    }

    fn bounded(self, number: i128, value: i128) -> Window {
        let Some(bound) = floor(value, number).filter(|_| number > 0) else {
            return self.bounded_above(number, value);
        };
        let least = bound.saturating_neg();
        Window {
            lower: Some(self.lower.map_or(least, |old| old.max(least))),
            ..self
        }
    }

    fn bounded_above(self, number: i128, value: i128) -> Window {
        let Some(most) = number.checked_neg().and_then(|b| floor(value, b)) else {
            return self;
        };
        Window {
            upper: Some(self.upper.map_or(most, |old| old.min(most))),
            ..self
        }
    }

    // The numbers to try, from a bound on.
    fn tries(self) -> Tries {
        if let Some(exact) = self.exact {
            return Tries {
                first: exact,
                step: 1,
            };
        }
        match (self.lower, self.upper) {
            (Some(lower), _) => self.progression.from(lower),
            (None, Some(upper)) => self.progression.down_from(upper),
            (None, None) => self.progression.from(0),
        }
    }
}

/// The numbers to try at the column, where the point has 0 and at the other columns the given numbers.
pub(crate) fn tries_at(
    rows: &[Row],
    point: &[i128],
    col: usize,
    meter: &mut Meter,
) -> Result<Tries, Overflow>
    ensures { MatchResult result (λ _. meter.new ≡ meter.old) (λ _. meter.new ≡ overflown meter.old) }
{
    let mut window = Window::WHOLE;
    for row in rows {
        let number = row.coefs.as_slice().get(col).map_or(0, |c| c.get());
        if number != 0 {
            let value = value_at(row, point, meter)?;
            window = window.narrowed(row, number, value);
        }
    }
    Ok(window.tries())
}
