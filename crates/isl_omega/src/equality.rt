//! Substitution by an equality.

ghost use Rattle.std.specs.Prelude.{◌≡◌, ◌≢◌, ◌-◌, ◌+◌, ◌*◌, ◌^◌, ◌<◌, ℕ, pos, length, All, IfOk};
ghost use Rattle.isl_meter.specs.Gauge.{IsWithin, IsDone};
ghost use Rattle.isl_piece.specs.Row.{IsRowWithin, IsWellFormed, coef_at};
ghost use Rattle.isl_omega.specs.Column.{IsAnswerFor, dropped};
ghost use Rattle.isl_omega.specs.Equality.{AreFactors, IsSolvedBy, solvable, row_factor, equality_factor, image_of, divisibility_of, short_images_of, solved_for};
ghost use Rattle.isl_omega.specs.Magnitude.{IsNoOverflow, IsRowUpToAt};

use crate::column::Column;
use crate::combine::combination_without;
use crate::rows::{coefs_without, row_without};
use isl_meter::{Cut, Int, Meter};
use isl_piece::{Row, RowKind, Rows};
use std::alloc::{AllocError, Global};

// What to multiply a row and an equality by, so that the column cancels.
fn factors(pivot: Int, own: Int, meter: &Meter) -> (Int, Int)
    requires pivot_within { IsWithin meter.now pivot }
    requires own_within { IsWithin meter.now own }
    requires occurs { pivot ≢ pos 0 }
    ensures first { result.0 ≡ row_factor pivot own }
    ensures second { result.1 ≡ equality_factor pivot own }
    ensures cancel { AreFactors pivot own result.0 result.1 }
    ensures first_within { IsWithin meter.now result.0 }
    ensures second_within { IsWithin meter.now result.1 }
{
    let modulus = pivot.gcd(own, meter);
    let m = pivot.abs(meter).floor_div(modulus, meter);
    let n = own.times_sign_of(pivot, meter).floor_div(modulus, meter);
    (m, n.neg(meter))
}

// The row where `fixed` is 0, without the column. It is written once: one that does not have the column is copied.
fn image_without(
    alloc: Global,
    row: &Row,
    fixed: &Row,
    column: Column,
    meter: &mut Meter,
) -> Result<Row, Cut>
    requires row_within { IsRowWithin meter.old row.now }
    requires fixed_within { IsRowWithin meter.old fixed.now }
    requires row_width { length row.now.coefs ≡ column.columns }
    requires fixed_width { length fixed.now.coefs ≡ column.columns }
    requires occurs { coef_at fixed.now column.at ≢ pos 0 }
    ensures exact { IsDone meter.old meter.new
        (λ short. (short ≡ dropped (image_of fixed.now column.at row.now) column.at) × IsRowWithin meter.old short) result }
    ensures no_overflow { (u v w x : ℕ) → IsRowUpToAt column.at u w row.now → IsRowUpToAt column.at v x fixed.now
        → v * w + u * x < 2 ^ meter.old.bits → IsNoOverflow result }
{
    let own = row.coefs.get(column.at);
    if own.is_zero() {
        return Ok(row_without(alloc, row, column.at)?);
    }
    let (m, n) = factors(fixed.coefs.get(column.at), own, meter);
    combination_without(alloc, m, row, n, fixed, column.at, meter)
}

// The row that says where some whole number makes `fixed` 0, without the column, in a list with room for `count` rows. Where any
// point has such a number, it is left out.
fn divisibility(
    alloc: Global,
    fixed: &Row,
    column: Column,
    count: usize,
    meter: &Meter,
) -> Result<Rows, AllocError>
    requires fixed_within { IsRowWithin meter.now fixed.now }
    requires width { length fixed.now.coefs ≡ column.columns }
    ensures { IfOk result (λ short. (short ≡ divisibility_of fixed.now column.at) × All (IsRowWithin meter.now) short) }
{
    let mut short = Rows::with_capacity(alloc, count)?;
    let k = fixed.coefs.get(column.at).abs(meter);
    if k == Int::ONE {
        return Ok(short);
    }
    let coefs = coefs_without(alloc, fixed.coefs.as_slice(), column.at)?;
    short.push(Row::new(RowKind::Divides, coefs, fixed.constant(), k))?;
    Ok(short)
}

// The rows where `fixed` is 0 at some whole number, without the column, which cancels in them.
fn images_without(
    alloc: Global,
    rows: &[Row],
    fixed: &Row,
    column: Column,
    meter: &mut Meter,
) -> Result<Rows, Cut>
    requires rows_formed { All (IsWellFormed column.columns) rows.now }
    requires rows_within { All (IsRowWithin meter.old) rows.now }
    requires fixed_formed { IsWellFormed column.columns fixed.now }
    requires fixed_within { IsRowWithin meter.old fixed.now }
    requires occurs { coef_at fixed.now column.at ≢ pos 0 }
    ensures exact { IsDone meter.old meter.new
        (λ short. (short ≡ short_images_of fixed.now column.at rows.now) × All (IsRowWithin meter.old) short) result }
    ensures no_overflow { (u v w x : ℕ) → All (IsRowUpToAt column.at u w) rows.now → IsRowUpToAt column.at v x fixed.now
        → v * w + u * x < 2 ^ meter.old.bits → IsNoOverflow result }
{
    let mut short = divisibility(alloc, fixed, column, rows.len() + 1, meter)?;
    for row in rows {
        short.push(image_without(alloc, row, fixed, column, meter)?)?;
    }
    Ok(short)
}

/// The rows where `fixed` is 0 at some whole number at `col`, without that column; none where no point is left. They are a function
/// of the rows and of `fixed`. No unit is used. (Pugh, the Omega test: substitution by an equality)
///
/// # Errors
///
/// `Overflow` where a number passes the limit of the meter, and `NoMemory`. Where the coefficients at `col` are small, the limit may be near
/// the numbers: one bit above them where these coefficients are at most 1.
pub fn equality_step(
    alloc: Global,
    rows: &[Row],
    fixed: &Row,
    column: Column,
    meter: &mut Meter,
) -> Result<Option<Rows>, Cut>
    requires rows_formed { All (IsWellFormed column.columns) rows.now }
    requires rows_within { All (IsRowWithin meter.old) rows.now }
    requires fixed_formed { IsWellFormed column.columns fixed.now }
    requires fixed_within { IsRowWithin meter.old fixed.now }
    requires occurs { coef_at fixed.now column.at ≢ pos 0 }
    ensures exact { IsDone meter.old meter.new
        (IsAnswerFor meter.old (column.columns - 1) (IsSolvedBy rows.now fixed.now column.at)) result }
    ensures function { IfOk result (λ left. left ≡ solved_for fixed.now column.at rows.now) }
    ensures no_overflow { (u v w x : ℕ) → All (IsRowUpToAt column.at u w) rows.now → IsRowUpToAt column.at v x fixed.now
        → v * w + u * x < 2 ^ meter.old.bits → IsNoOverflow result }
{
    let short = images_without(alloc, rows, fixed, column, meter)?;
    let left = short.normalise(alloc, meter)?;
    Ok(left)
}
