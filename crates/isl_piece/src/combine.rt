//! Sums of multiples of rows.

ghost use Rattle.std.specs.Prelude.{◌≡◌, ◌*ℤ◌, ◌+ℤ◌, pos, length, All, MatchResult, ℕ, ◌*◌, ◌+◌, ◌^◌, ◌<◌, ◌≤◌, unsigned_abs, IfErr};
ghost use Rattle.isl_math.specs.Dot.{weighted_sum};
ghost use Rattle.isl_meter.specs.Gauge.{IsWithin, IsMeasured, IsCutUpTo, IsDone};
ghost use Rattle.isl_piece.specs.Row.{IsRowWithin, IsRowUpTo};
ghost use Rattle.isl_piece.specs.Combine.{combination, scaled_divisor};
ghost use Rattle.isl_piece.specs.Cut.{IsNoOverflow};

use crate::{Coefs, Row, RowKind};
use isl_meter::{Cut, Int, Meter, Overflow};
use std::alloc::Global;

// `m` times `number`. With 1 and of 0 nothing is multiplied.
#[inline]
fn times(m: Int, number: Int, meter: &mut Meter) -> Result<Int, Overflow>
    requires within { IsWithin meter.old number }
    ensures { IsMeasured meter.old meter.new (m *ℤ number) result }
{
    if m == Int::ONE || number.is_zero() {
        return Ok(number);
    }
    m.mul(number, meter)
}

/// `m` times `left` plus `n` times `right`.
///
/// # Errors
///
/// `Overflow` where a product or the sum passes the limit of the meter.
#[inline]
pub fn sum_of(m: Int, left: Int, n: Int, right: Int, meter: &mut Meter) -> Result<Int, Overflow>
    requires left_within { IsWithin meter.old left }
    requires right_within { IsWithin meter.old right }
    ensures exact { MatchResult result
        (λ sum. (sum ≡ m *ℤ left +ℤ n *ℤ right) × IsWithin meter.old sum × (meter.new ≡ meter.old))
        (λ _. IsCutUpTo (pos 0) meter.old meter.new Cut.Overflow) }
    ensures no_overflow { (u v w x : ℕ) → unsigned_abs m ≤ u → unsigned_abs n ≤ v → unsigned_abs left ≤ w → unsigned_abs right ≤ x
        → u * w + v * x < 2 ^ meter.old.bits → IfErr result (λ _. ⊥) }
{
    let first = times(m, left, meter)?;
    let second = times(n, right, meter)?;
    let sum = first.add(second, meter)?;
    Ok(sum)
}

/// `m` times each number of `left` plus `n` times that of `right`. Uses no unit.
///
/// # Errors
///
/// `Overflow` where a product or a sum passes the limit of the meter, and `NoMemory`.
#[tactic(auto, using(std::proofs::lemmas::Grind::common_steps, crate::proofs::CombineLaws::weighted_steps))]
pub fn weighted_sum(
    alloc: Global,
    m: Int,
    left: &[Int],
    n: Int,
    right: &[Int],
    meter: &mut Meter,
) -> Result<Coefs, Cut>
    requires left_within { All (IsWithin meter.old) left.now }
    requires right_within { All (IsWithin meter.old) right.now }
    requires same_length { length left.now ≡ length right.now }
    ensures exact { IsDone meter.old meter.new (λ coefs. (coefs ≡ weighted_sum m left.now n right.now) × All (IsWithin meter.old) coefs) result }
    ensures no_overflow { (u v w x : ℕ) → unsigned_abs m ≤ u → unsigned_abs n ≤ v → All (λ c. unsigned_abs c ≤ w) left.now → All (λ c. unsigned_abs c ≤ x) right.now
        → u * w + v * x < 2 ^ meter.old.bits → IsNoOverflow result }
{
    let mut coefs = Coefs::new(alloc);
    for i in 0..left.len() {
        coefs.push(sum_of(m, left[i], n, right[i], meter)?)?;
    }
    Ok(coefs)
}

// The modulus of `m` times a row.
fn divisor_of(row: &Row, m: Int, meter: &mut Meter) -> Result<Int, Overflow>
    requires m_within { IsWithin meter.old m }
    requires row_within { IsRowWithin meter.old row.now }
    ensures exact { MatchResult result
        (λ k. (k ≡ scaled_divisor row.now.kind m row.now.k) × IsWithin meter.old k × (meter.new ≡ meter.old))
        (λ _. IsCutUpTo (pos 0) meter.old meter.new Cut.Overflow) }
    ensures no_overflow { (u w : ℕ) → unsigned_abs m ≤ u → IsRowUpTo w row.now → u * w < 2 ^ meter.old.bits → IfErr result (λ _. ⊥) }
{
    match row.kind {
        RowKind::Zero | RowKind::AtLeast => Ok(row.modulus()),
        RowKind::Divides | RowKind::NotDivides => m.mul(row.modulus(), meter),
    }
}

/// `m` times `row` plus `n` times `other`, of the kind of `row`; the modulus of a congruence is multiplied by `m` too. Uses no
/// unit.
///
/// # Errors
///
/// `Overflow` where a number of the row, a product or a sum passes the limit of the meter, and `NoMemory`.
pub fn combination(
    alloc: Global,
    m: Int,
    row: &Row,
    n: Int,
    other: &Row,
    meter: &mut Meter,
) -> Result<Row, Cut>
    requires m_within { IsWithin meter.old m }
    requires n_within { IsWithin meter.old n }
    requires row_within { IsRowWithin meter.old row.now }
    requires other_within { IsRowWithin meter.old other.now }
    requires same_width { length row.now.coefs ≡ length other.now.coefs }
    ensures exact { IsDone meter.old meter.new (λ sum. (sum ≡ combination m row.now n other.now) × IsRowWithin meter.old sum) result }
    ensures no_overflow { (u v w x : ℕ) → unsigned_abs m ≤ u → unsigned_abs n ≤ v → IsRowUpTo w row.now → IsRowUpTo x other.now
        → u * w + v * x < 2 ^ meter.old.bits → IsNoOverflow result }
{
    let coefs = weighted_sum(
        alloc,
        m,
        row.coefs.as_slice(),
        n,
        other.coefs.as_slice(),
        meter,
    )?;
    let sum = sum_of(m, row.constant(), n, other.constant(), meter)?;
    let k = divisor_of(row, m, meter)?;
    Ok(Row::new(row.kind, coefs, sum, k))
}
