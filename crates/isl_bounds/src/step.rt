//! Congruences as steps.

ghost use Rattle.std.specs.Prelude.{◌≡◌, ◌+◌, ◌*ℤ◌, ◌<ℤ◌, pos, All, IfSome, IsNone, MatchResult, length, take};
ghost use Rattle.std.specs.List.{AllZip};
ghost use Rattle.isl_math.specs.Divide.{IsCongruent, IsGcdOf};
ghost use Rattle.isl_meter.specs.Gauge.{IsCutUpTo, IsDone, IsWithin};
ghost use Rattle.isl_piece.specs.declared.row.RowKind.TheVariants.{Divides};
ghost use Rattle.isl_piece.specs.Row.{coef_at, IsRowWithin, IsWellFormed};
ghost use Rattle.isl_bounds.specs.Step.{IsStepOf};

use isl_meter::{Cut, Int, Meter, Overflow};
use isl_piece::{Coefs, Row, RowKind};
use std::alloc::Global;

// Of the numbers that leave modulo `k` what the product leaves, one of the two that are nearest to 0.
fn product_modulo(number: Int, by: Int, k: Int, meter: &mut Meter) -> Result<Int, Overflow>
    requires k_within { IsWithin meter.old k }
    requires divisor { pos 0 <ℤ k }
    ensures { MatchResult result
        (λ left. IsCongruent k left (by *ℤ number) × IsWithin meter.old left × (meter.new ≡ meter.old))
        (λ _. IsCutUpTo (pos 0) meter.old meter.new Cut.Overflow) }
{
    let product = by.mul(number.modulo(k, meter), meter)?;
    let left = product.modulo(k, meter);
    let missing = k.sub(left, meter)?;
    if missing < left {
        return Ok(missing.neg(meter));
    }
    Ok(left)
}

// The first coefficients of the row, each times `by`, modulo the row's modulus.
fn coefs_modulo(
    alloc: Global,
    row: &Row,
    by: Int,
    variables: usize,
    meter: &mut Meter,
) -> Result<Coefs, Cut>
    requires row { IsWellFormed (variables + 1) row.now }
    requires within { IsRowWithin meter.old row.now }
    requires divisor { pos 0 <ℤ row.now.k }
    ensures { IsDone meter.old meter.new
        (λ coefs. AllZip (λ c d. IsCongruent row.now.k d (by *ℤ c)) (take variables row.now.coefs) coefs × All (IsWithin meter.old) coefs)
        result }
{
    let mut coefs = Coefs::new(alloc);
    for i in 0..variables {
        coefs.push(product_modulo(row.coefs.get(i), by, row.modulus(), meter)?)?;
    }
    Ok(coefs)
}

/// What a congruence over so many variables and one column behind them says of the column: what it leaves modulo `k`, as a congruence in
/// which its coefficient is 1. `None` where its coefficient has a divisor with `k`. Uses no unit.
///
/// # Errors
///
/// `Overflow` where a product passes the limit of the meter, and `NoMemory`.
pub fn step_of(
    alloc: Global,
    row: &Row,
    variables: usize,
    meter: &mut Meter,
) -> Result<Option<Row>, Cut>
    requires row { IsWellFormed (variables + 1) row.now }
    requires within { IsRowWithin meter.old row.now }
    requires kind { row.now.kind ≡ Divides }
    ensures { IsDone meter.old meter.new
        (λ step. IfSome step (IsStepOf meter.old variables row.now)
        × (IsNone step → ¬ IsGcdOf (coef_at row.now variables) row.now.k (pos 1)))
        result }
{
    // For what a meter keeps: it has at least 8 bits.
    let _limit = meter.limit();
    let k = row.modulus();
    let last = row.coefs.get(variables);
    if last.gcd(k, meter) != Int::ONE {
        return Ok(None);
    }
    let by = last.inverse(k, meter);
    let mut coefs = coefs_modulo(alloc, row, by, variables, meter)?;
    coefs.push(Int::ONE)?;
    let constant = product_modulo(row.constant(), by, k, meter)?;
    Ok(Some(Row::new(RowKind::Divides, coefs, constant, k)))
}
