//! Sides.

ghost use Rattle.std.specs.Prelude.{◌≡◌, neg_ℤ};
ghost use Rattle.isl_meter.specs.Gauge.{IsWithin};
ghost use Rattle.isl_bounds.specs.Side.{toward};

use isl_meter::{Int, Meter};

/// From where a number is bounded: from below, or from above.
#[derive(Clone, Copy, PartialEq, Eq)]
pub enum Side {
    Low,
    High,
}

impl Side {
    ghost use Rattle.isl_bounds.specs.Side.{opposite};

    /// The other side.
    pub fn opposite(self) -> Side
        ensures { result ≡ opposite self }
    {
        match self {
            Side::Low => Side::High,
            Side::High => Side::Low,
        }
    }

    // The coefficient of a column, with the sign at which the form bounds the column from here where it is above 0.
    pub(crate) fn toward(self, coef: Int, meter: &Meter) -> Int
        requires { IsWithin meter.now coef }
        ensures value { result ≡ toward self coef }
        ensures within { IsWithin meter.now result }
    {
        match self {
            Side::Low => coef,
            Side::High => coef.neg(meter),
        }
    }
}
