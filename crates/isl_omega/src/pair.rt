//! What a lower and an upper bound leave without the column.

ghost use Rattle.std.specs.Prelude.{◌≡◌, ◌<◌, pos, ◌-ℤ◌, ◌*ℤ◌, neg_ℤ, ◌<ℤ◌, ℤ, List, [], ◌∷◌, All, IsTrue, IfOk, IfSome, MatchResult, ◌^◌, ◌≤◌, ◌+◌, ℕ, unsigned_abs, IfErr};
ghost use Rattle.isl_math.specs.Divide.{IsGcdOf, floor_div};
ghost use Rattle.isl_meter.specs.Gauge.{IsWithin, IsCutUpTo, IsDone};
ghost use Rattle.isl_piece.specs.declared.row.RowKind.TheVariants.{AtLeast};
ghost use Rattle.isl_piece.specs.Row.{HoldsRow, HasModulus, IsRowWithin, coef_at, IsRowUpTo};
ghost use Rattle.isl_omega.specs.Shadow.{ceiling, IsRealRow, IsDarkRow, IsExact, IsCap};
ghost use Rattle.isl_omega.specs.Sides.{IsLower, IsUpper};
ghost use Rattle.isl_omega.specs.Magnitude.{IsNoOverflow, IsNoOverflowWith, paired_magnitude};

use crate::column::Column;
use isl_meter::{Cut, Int, Meter, Overflow};
use isl_piece::{Outcome, Row, combination, settle};
use std::alloc::{AllocError, Global};

/// The row that holds where the pair is dark, whether it is so wherever the pair is real, and the greatest value that the lower
/// bound can have, where the sum of both is constant.
#[derive(Drop)]
pub(crate) struct Pair {
    pub dark: Row,
    pub exact: bool,
    pub cap: Option<Int>,
}

// (a - 1)(b - 1) / modulus, rounded up.
fn slack(a: Int, b: Int, modulus: Int, meter: &mut Meter) -> Result<Int, Overflow>
    requires positive { pos 0 <ℤ modulus }
    requires within { IsWithin meter.old modulus }
    ensures exact { MatchResult result
        (λ s. (s ≡ ceiling ((a -ℤ pos 1) *ℤ (b -ℤ pos 1)) modulus) × IsWithin meter.old s × (meter.new ≡ meter.old))
        (λ _. IsCutUpTo (pos 0) meter.old meter.new Cut.Overflow) }
    ensures no_overflow { meter.old.bits ≡ 127 → unsigned_abs a ≤ paired_magnitude → unsigned_abs b ≤ paired_magnitude → IfErr result (λ _. ⊥) }
{
    let m = a.sub(Int::ONE, meter)?;
    let n = b.sub(Int::ONE, meter)?;
    let product = m.mul(n, meter)?;
    Ok(product.neg(meter).floor_div(modulus, meter).neg(meter))
}

fn has_same_form(a: &Row, b: &Row) -> bool
    ensures { IsTrue result → (a.now.coefs ≡ b.now.coefs) × (a.now.constant ≡ b.now.constant) }
{
    a.coefs.as_slice() == b.coefs.as_slice() && a.constant() == b.constant()
}

// Whether the normal forms show that `dark` holds wherever `real` does.
fn is_tight(alloc: Global, real: &Row, dark: &Row, meter: &Meter) -> Result<bool, AllocError>
    requires real_kind { real.now.kind ≡ AtLeast }
    requires dark_kind { dark.now.kind ≡ AtLeast }
    requires real_divisor { HasModulus real.now.kind real.now.k }
    requires dark_divisor { HasModulus dark.now.kind dark.now.k }
    requires real_within { IsRowWithin meter.now real.now }
    requires dark_within { IsRowWithin meter.now dark.now }
    ensures { IfOk result (λ tight. IsTrue tight → (xs : List ℤ) → HoldsRow real.now xs → HoldsRow dark.now xs) }
{
    let mut first = real.copy(alloc)?;
    let mut second = dark.copy(alloc)?;
    match (settle(&mut first, meter), settle(&mut second, meter)) {
        (Outcome::Fails, _) => Ok(true),
        (_, Outcome::Holds) => Ok(true),
        (Outcome::Stays, Outcome::Stays) => Ok(has_same_form(&first, &second)),
        _ => Ok(false),
    }
}

// A lower and an upper bound.
#[derive(Clone, Copy)]
struct Bounds<'a> {
    lower: &'a Row,
    upper: &'a Row,
}

// The real row of a pair whose coefficients have the greatest common divisor `modulus`.
fn real_row(
    alloc: Global,
    bounds: &Bounds<'_>,
    column: Column,
    modulus: Int,
    meter: &mut Meter,
) -> Result<Row, Cut>
    requires lower { IsLower meter.old column.columns column.at bounds.now.lower.now }
    requires upper { IsUpper meter.old column.columns column.at bounds.now.upper.now }
    requires gcd { IsGcdOf (coef_at bounds.now.lower.now column.at) (neg_ℤ (coef_at bounds.now.upper.now column.at)) modulus }
    requires within { IsWithin meter.old modulus }
    ensures exact { IsDone meter.old meter.new
        (λ real. IsRealRow column.columns column.at bounds.now.lower.now bounds.now.upper.now modulus real
        × IsRowWithin meter.old real) result }
    ensures no_overflow { meter.old.bits ≡ 127 → IsRowUpTo paired_magnitude bounds.now.lower.now → IsRowUpTo paired_magnitude bounds.now.upper.now
        → IsNoOverflowWith (IsRowUpTo (2 ^ 125)) result }
{
    let m = bounds.lower.coefs.get(column.at).floor_div(modulus, meter);
    let n = bounds
        .upper
        .coefs
        .get(column.at)
        .neg(meter)
        .floor_div(modulus, meter);
    let real = combination(alloc, n, bounds.lower, m, bounds.upper, meter)?;
    Ok(real)
}

// Whether each of the numbers is 0.
fn are_zero(numbers: &[Int]) -> bool
    ensures { IsTrue result → All (λ z. z ≡ pos 0) numbers.now }
{
    for number in numbers {
        if !number.is_zero() {
            return false;
        }
    }
    true
}

// The greatest value of a lower bound that was multiplied by `n` in a real row, if that is constant.
fn cap_of(real: &Row, n: Int, meter: &Meter) -> Option<Int>
    requires positive { pos 0 <ℤ n }
    requires within { IsRowWithin meter.now real.now }
    ensures { IfSome result (λ cap. All (λ z. z ≡ pos 0) real.now.coefs × (cap ≡ floor_div real.now.constant n) × IsWithin meter.now cap) }
{
    if !are_zero(real.coefs.as_slice()) {
        return None;
    }
    Some(real.constant().floor_div(n, meter))
}

/// The row with its constant less `by`.
///
/// # Errors
///
/// `Overflow` where the constant passes the limit of the meter, and `NoMemory`.
pub fn reduced_by(alloc: Global, row: &Row, by: Int, meter: &mut Meter) -> Result<Row, Cut>
    requires within { IsRowWithin meter.old row.now }
    ensures exact { IsDone meter.old meter.new
        (λ low. (low ≡ record row.now { constant = row.now.constant -ℤ by }) × IsRowWithin meter.old low) result }
    ensures no_overflow { (u w : ℕ) → unsigned_abs by ≤ u → IsRowUpTo w row.now → w + u < 2 ^ meter.old.bits → IsNoOverflow result }
{
    let constant = row.constant().sub(by, meter)?;
    Ok(Row::new(row.kind, row.coefs.copy(alloc)?, constant, row.modulus()))
}

impl Pair {
    /// What the bounds leave.
    pub(crate) fn of(
        alloc: Global,
        lower: &Row,
        upper: &Row,
        column: Column,
        meter: &mut Meter,
    ) -> Result<Self, Cut>
        requires lower { IsLower meter.old column.columns column.at lower.now }
        requires upper { IsUpper meter.old column.columns column.at upper.now }
        ensures exact { IsDone meter.old meter.new
            (λ pair. IsDarkRow column.columns column.at lower.now upper.now pair.dark × IsRowWithin meter.old pair.dark
            × (IsTrue pair.exact → IsExact column.columns column.at lower.now upper.now)
            × IfSome pair.cap (λ cap. IsCap column.columns column.at lower.now (upper.now ∷ []) cap × IsWithin meter.old cap)) result }
        ensures no_overflow { meter.old.bits ≡ 127 → IsRowUpTo paired_magnitude lower.now → IsRowUpTo paired_magnitude upper.now → IsNoOverflow result }
    {
        let a = lower.coefs.get(column.at);
        let b = upper.coefs.get(column.at).neg(meter);
        let modulus = a.gcd(b, meter);
        let real = real_row(alloc, &Bounds { lower, upper }, column, modulus, meter)?;
        let by = slack(a, b, modulus, meter)?;
        let dark = reduced_by(alloc, &real, by, meter)?;
        let exact = is_tight(alloc, &real, &dark, meter)?;
        let cap = cap_of(&real, b.floor_div(modulus, meter), meter);
        Ok(Pair { dark, exact, cap })
    }
}
