//! Linear forms at a point.

ghost use Rattle.std.specs.Prelude.{◌≡◌, ◌+ℤ◌, length, MatchResult};
ghost use Rattle.isl_math.specs.Dot.{dot};
ghost use Rattle.isl_meter.specs.Gauge.{overflown, IsWithin};
ghost use Rattle.isl_piece.specs.Row.{FormPassesLimit};

use isl_meter::{Int, Meter, Overflow};

// The number that the form has at the point: the sum of the products, in order, and the constant.
#[tactic(auto, using(std::proofs::lemmas::Grind::common_steps, crate::proofs::RowLemmas::value_steps))]
pub(crate) fn form_at(
    coefs: &[Int],
    constant: Int,
    point: &[i128],
    meter: &mut Meter,
) -> Result<Int, Overflow>
    requires { length coefs.now ≡ length point.now }
    ensures { MatchResult result
        (λ value. (value ≡ dot coefs.now point.now +ℤ constant) × IsWithin meter.old value × (meter.new ≡ meter.old))
        (λ _. FormPassesLimit meter.old coefs.now constant point.now × (meter.new ≡ overflown meter.old)) }
{
    let mut sum = Int::ZERO;
    for i in 0..coefs.len() {
        let product = coefs[i].mul(Int::new(point[i]), meter)?;
        sum = sum.add(product, meter)?;
    }
    sum.add(constant, meter)
}
