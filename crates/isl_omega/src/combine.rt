//! Sums of multiples of rows without a column.

ghost use Rattle.std.specs.Prelude.{◌≡◌, length, All, ℕ, ◌*◌, ◌+◌, ◌^◌, ◌<◌, ◌≤◌, pos, unsigned_abs, MatchResult, IfErr};
ghost use Rattle.std.specs.List.{remove};
ghost use Rattle.isl_math.specs.Dot.{weighted_sum};
ghost use Rattle.isl_meter.specs.Gauge.{IsWithin, IsCutUpTo, IsDone};
ghost use Rattle.isl_piece.specs.Combine.{combination, scaled_divisor};
ghost use Rattle.isl_piece.specs.Row.{IsRowWithin, IsRowUpTo};
ghost use Rattle.isl_omega.specs.Column.{dropped};
ghost use Rattle.isl_omega.specs.Magnitude.{IsNoOverflow};
ghost use Rattle.isl_omega.specs.Units.{IsAnsweredFor};

use isl_meter::{Cut, Int, Meter, Overflow};
use isl_piece::{Coefs, Row, RowKind, sum_of};
use std::alloc::Global;

/// Numbers of a row, and what each of them is to be multiplied by.
#[derive(Clone, Copy)]
pub struct Multiple<'a> {
    pub times: Int,
    pub numbers: &'a [Int],
}

/// The sums of two multiples, number by number, but for the one at `col`: one number less than each has.
///
/// # Errors
///
/// `Overflow` where a product or a sum passes the limit of the meter, and `NoMemory`.
#[tactic(auto, using(std::proofs::lemmas::Grind::common_steps, crate::proofs::CombineLemmas::weighted_steps))]
pub fn weighted_without(
    alloc: Global,
    left: &Multiple<'_>,
    right: &Multiple<'_>,
    col: usize,
    meter: &mut Meter,
) -> Result<Coefs, Cut>
    requires left_within { All (IsWithin meter.old) left.now.numbers.now }
    requires right_within { All (IsWithin meter.old) right.now.numbers.now }
    requires same_length { length left.now.numbers.now ≡ length right.now.numbers.now }
    ensures exact { IsDone meter.old meter.new
        (λ coefs. (coefs ≡ remove (weighted_sum left.now.times left.now.numbers.now right.now.times right.now.numbers.now) col)
        × All (IsWithin meter.old) coefs) result }
    ensures no_overflow { (u v w x : ℕ) → unsigned_abs left.now.times ≤ u → unsigned_abs right.now.times ≤ v
        → All (λ c. unsigned_abs c ≤ w) left.now.numbers.now → All (λ c. unsigned_abs c ≤ x) right.now.numbers.now
        → u * w + v * x < 2 ^ meter.old.bits → IsNoOverflow result }
    ensures answered { IsAnsweredFor 0 meter.old meter.new result }
{
    let (m, n) = (left.times, right.times);
    let mut coefs = Coefs::new(alloc);
    for i in 0..left.numbers.len() {
        if i != col {
            let (a, b) = (left.numbers[i], right.numbers[i]);
            coefs.push(sum_of(m, a, n, b, meter)?)?;
        }
    }
    Ok(coefs)
}

// The modulus of `m` times the row.
fn divisor_of(row: &Row, m: Int, meter: &mut Meter) -> Result<Int, Overflow>
    requires { IsRowWithin meter.old row.now }
    ensures exact { MatchResult result
        (λ k. (k ≡ scaled_divisor row.now.kind m row.now.k) × IsWithin meter.old k × (meter.new ≡ meter.old))
        (λ _. IsCutUpTo (pos 0) meter.old meter.new Cut.Overflow) }
    ensures no_overflow { (u w : ℕ) → unsigned_abs m ≤ u → IsRowUpTo w row.now → u * w < 2 ^ meter.old.bits → IfErr result (λ _. ⊥) }
{
    match row.kind {
        RowKind::Zero | RowKind::AtLeast => Ok(row.modulus()),
        RowKind::Divides | RowKind::NotDivides => m.mul(row.modulus(), meter),
    }
}

/// `m` times `row` plus `n` times `other` without the column, of the kind of `row`; the modulus of a congruence is multiplied by `m`
/// too. The row is written once. Uses no unit.
///
/// # Errors
///
/// `Overflow` where a number of the row, a product or a sum passes the limit of the meter, and `NoMemory`.
pub(crate) fn combination_without(
    alloc: Global,
    m: Int,
    row: &Row,
    n: Int,
    other: &Row,
    col: usize,
    meter: &mut Meter,
) -> Result<Row, Cut>
    requires row_within { IsRowWithin meter.old row.now }
    requires other_within { IsRowWithin meter.old other.now }
    requires same_width { length row.now.coefs ≡ length other.now.coefs }
    ensures exact { IsDone meter.old meter.new
        (λ sum. (sum ≡ dropped (combination m row.now n other.now) col) × IsRowWithin meter.old sum) result }
    ensures no_overflow { (u v w x : ℕ) → unsigned_abs m ≤ u → unsigned_abs n ≤ v → IsRowUpTo w row.now → IsRowUpTo x other.now
        → u * w + v * x < 2 ^ meter.old.bits → IsNoOverflow result }
{
    let left = Multiple {
        times: m,
        numbers: row.coefs.as_slice(),
    };
    let right = Multiple {
        times: n,
        numbers: other.coefs.as_slice(),
    };
    let coefs = weighted_without(alloc, &left, &right, col, meter)?;
    let constant = sum_of(m, row.constant(), n, other.constant(), meter)?;
    let k = divisor_of(row, m, meter)?;
    Ok(Row::new(row.kind, coefs, constant, k))
}
