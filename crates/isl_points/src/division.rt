//! Division by numbers that are mostly 1.

ghost use Rattle.std.specs.Prelude.{◌≡◌, ◌≤ℤ◌, ◌<ℤ◌, pos};
ghost use Rattle.isl_math.specs.Divide.{floor_div, floor_mod};
ghost use Rattle.isl_meter.specs.Gauge.{IsWithin};

use isl_meter::{Int, Meter};

/// `number / k`, rounded down.
pub(crate) fn quotient(number: Int, k: Int, meter: &Meter) -> Int
    requires within { IsWithin meter.now number }
    requires divisor { pos 0 <ℤ k }
    ensures value { result ≡ floor_div number k }
    ensures within { IsWithin meter.now result }
{
    if k == Int::ONE {
        return number;
    }
    number.floor_div(k, meter)
}

/// What the number leaves above the greatest multiple of `k` that is not above it.
pub(crate) fn remainder(number: Int, k: Int, meter: &Meter) -> Int
    requires within { IsWithin meter.now k }
    requires divisor { pos 0 <ℤ k }
    ensures not_negative { pos 0 ≤ℤ result }
    ensures value { result ≡ floor_mod number k }
    ensures within { IsWithin meter.now result }
{
    if k == Int::ONE {
        return Int::ZERO;
    }
    number.modulo(k, meter)
}
