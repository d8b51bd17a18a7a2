//! Arithmetic on the numbers of a row.

ghost use Rattle.std.specs.Prelude.{◌≡◌, ◌↔◌, ◌∷◌, pos, negsuc, ◌<ℤ◌, ◌≤ℤ◌, All, IsTrue};
ghost use Rattle.isl_math.specs.Divide.{Divides};
ghost use Rattle.isl_math.specs.Dot.{scaled};
ghost use Rattle.isl_math.specs.Gcd.{content};
ghost use Rattle.isl_meter.specs.Gauge.{IsWithin};
ghost use Rattle.isl_piece.specs.Numbers.{divided, reduced, opposite, lead};

use isl_meter::{Int, Meter};

/// The greatest common divisor of the numbers.
pub(crate) fn content(numbers: &[Int], meter: &Meter) -> Int
    requires { All (IsWithin meter.now) numbers.now }
    ensures value { result ≡ content numbers.now }
    ensures not_negative { pos 0 ≤ℤ result }
    ensures within { IsWithin meter.now result }
{
    content_with(Int::ZERO, numbers, meter)
}

/// The greatest common divisor of `first` and the numbers.
pub(crate) fn content_with(first: Int, numbers: &[Int], meter: &Meter) -> Int
    requires first_within { IsWithin meter.now first }
    requires first_large { pos 0 ≤ℤ first }
    requires within { All (IsWithin meter.now) numbers.now }
    ensures value { result ≡ content (first ∷ numbers.now) }
    ensures not_negative { pos 0 ≤ℤ result }
    ensures divides_first { Divides result first }
    ensures within { IsWithin meter.now result }
{
    let mut g = first;
    for i in 0..numbers.len() {
        if g == Int::ONE {
            return g;
        }
        g = g.gcd(numbers[i], meter);
    }
    g
}

/// Divides each number by `g`, rounded down.
#[tactic(auto, using(std::proofs::lemmas::Grind::common_steps, crate::proofs::NumberSteps::steps))]
pub(crate) fn divide(numbers: &mut [Int], g: Int, meter: &Meter)
    requires within { All (IsWithin meter.now) numbers.old }
    requires divisor { pos 0 <ℤ g }
    ensures { numbers.new ≡ divided g numbers.old }
{
    if g == Int::ONE {
        return;
    }
    for i in 0..numbers.len() {
        numbers[i] = numbers[i].floor_div(g, meter);
    }
}

/// Puts the remainder by `k` in the place of each number.
#[tactic(auto, using(std::proofs::lemmas::Grind::common_steps, crate::proofs::NumberSteps::steps))]
pub(crate) fn reduce(numbers: &mut [Int], k: Int, meter: &Meter)
    requires within { IsWithin meter.now k }
    requires modulus { pos 0 <ℤ k }
    ensures { numbers.new ≡ reduced k numbers.old }
{
    for i in 0..numbers.len() {
        numbers[i] = numbers[i].modulo(k, meter);
    }
}

/// Puts the remainder by `k` of its negative in the place of each number.
#[tactic(auto, using(std::proofs::lemmas::Grind::common_steps, crate::proofs::NumberSteps::steps))]
pub(crate) fn oppose(numbers: &mut [Int], k: Int, meter: &Meter)
    requires numbers_within { All (IsWithin meter.now) numbers.old }
    requires within { IsWithin meter.now k }
    requires modulus { pos 0 <ℤ k }
    ensures { numbers.new ≡ opposite k numbers.old }
{
    for i in 0..numbers.len() {
        numbers[i] = numbers[i].neg(meter).modulo(k, meter);
    }
}

/// Puts its negative in the place of each number.
#[tactic(auto, using(std::proofs::lemmas::Grind::common_steps, crate::proofs::NumberSteps::steps))]
pub(crate) fn negate(numbers: &mut [Int], meter: &Meter)
    requires { All (IsWithin meter.now) numbers.old }
    ensures { numbers.new ≡ scaled (negsuc 0) numbers.old }
{
    for i in 0..numbers.len() {
        numbers[i] = numbers[i].neg(meter);
    }
}

/// The first number that is not 0, and 0 where there is none.
#[tactic(auto, using(std::proofs::lemmas::Grind::common_steps, crate::proofs::NumberSteps::leads))]
pub(crate) fn lead(numbers: &[Int]) -> Int
    ensures { result ≡ lead numbers.now }
{
    for number in numbers {
        if !number.is_zero() {
            return *number;
        }
    }
    Int::ZERO
}
