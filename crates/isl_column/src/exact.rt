//! The real rows of all pairs of bounds. Where a column is exact they are all that is left: no splinter, no residue, and no memory but for
//! the rows that are answered.

ghost use Rattle.std.specs.Prelude.{◌≡◌, ◌↔◌, ◌-◌, ◌∷◌, ◌*◌, ◌^◌, [], All, length, map, IfOk, IsTrue, MatchResult, ◌+◌, ◌≤◌, ◌<◌, ℕ};
ghost use Rattle.isl_piece.specs.Row.{IsRowWithin};
ghost use Rattle.isl_shadows.specs.Column.{HoldAtSome};
ghost use Rattle.isl_omega.specs.Column.{dropped, IsAnswerFor, IsProper};
ghost use Rattle.isl_omega.specs.Equality.{HasEquality};
ghost use Rattle.isl_shadows.specs.Exact.{IsExactRow, IsExactColumn, real_rows, rows_left, pairs_on, exact_rows, AreAdded};
ghost use Rattle.isl_shadows.specs.RealShadow.{HoldReally};
ghost use Rattle.isl_omega.specs.Shadow.{real_row};
ghost use Rattle.isl_omega.specs.Magnitude.{IsNoOverflow, IsRowUpToAt};
ghost use Rattle.isl_omega.specs.Units.{IsDoneFor, IsAnsweredFor};
ghost use Rattle.isl_shadows.specs.Magnitude.{IsSparedAt};
ghost use Rattle.isl_omega.specs.Sides.{IsLower, IsUpper, on_side};
ghost use Rattle.isl_shadows.specs.Units.{elimination_units};
ghost use Rattle.isl_meter.specs.Gauge.{IsDone, IsDoneWithin};

use isl_meter::{Cut, Int, Meter};
use isl_omega::column::Column;
use isl_omega::combine::{Multiple, weighted_without};
use isl_omega::rows::{MOST_PAIRS, row_without};
use isl_omega::sides::Side;
use isl_piece::{Row, RowKind, Rows, sum_of};
use std::alloc::{AllocError, Global};

// Whether the row leaves the column exact where the bounds on `side` are to have the factor 1.
fn is_exact_row(side: Side, row: &Row, column: Column, meter: &Meter) -> bool
    requires row { IsProper meter.now column.columns row.now }
    ensures { IsTrue result ↔ IsExactRow side column.at row.now }
{
    match Side::of(row, column, meter) {
        Side::Divides | Side::NotDivides => false,
        own => own != side || row.coefs.get(column.at).abs(meter) == Int::ONE,
    }
}

// Whether each of the rows does.
fn are_exact(side: Side, rows: &[Row], column: Column, meter: &Meter) -> bool
    requires rows { All (IsProper meter.now column.columns) rows.now }
    ensures { IsTrue result ↔ All (IsExactRow side column.at) rows.now }
{
    for row in rows {
        if !is_exact_row(side, row, column, meter) {
            return false;
        }
    }
    true
}

/// Whether no congruence depends on the column, and all lower bounds or all upper bounds have the factor 1.
pub(crate) fn is_exact(rows: &[Row], column: Column, meter: &Meter) -> bool
    requires rows { All (IsProper meter.now column.columns) rows.now }
    ensures { IsTrue result ↔ IsExactColumn column.at rows.now }
{
    are_exact(Side::Lower, rows, column, meter) || are_exact(Side::Upper, rows, column, meter)
}

// The real row of a lower and an upper bound, without the column.
fn real_row_without(
    alloc: Global,
    lower: &Row,
    upper: &Row,
    column: Column,
    meter: &mut Meter,
) -> Result<Row, Cut>
    requires lower { IsLower meter.old column.columns column.at lower.now }
    requires upper { IsUpper meter.old column.columns column.at upper.now }
    ensures exact { IsDone meter.old meter.new
        (λ row. (row ≡ dropped (real_row column.at lower.now upper.now) column.at) × IsRowWithin meter.old row) result }
    ensures no_overflow { (u w : ℕ) → IsRowUpToAt column.at u w lower.now → IsRowUpToAt column.at u w upper.now
        → u * w + u * w < 2 ^ meter.old.bits → IsNoOverflow result }
    ensures answered { IsAnsweredFor 0 meter.old meter.new result }
{
    let a = lower.coefs.get(column.at);
    let b = upper.coefs.get(column.at).neg(meter);
    let left = Multiple {
        times: b,
        numbers: lower.coefs.as_slice(),
    };
    let right = Multiple {
        times: a,
        numbers: upper.coefs.as_slice(),
    };
    let coefs = weighted_without(alloc, &left, &right, column.at, meter)?;
    let constant = sum_of(b, lower.constant(), a, upper.constant(), meter)?;
    Ok(Row::new(RowKind::AtLeast, coefs, constant, Int::ONE))
}

// The upper bounds among the rows.
fn uppers_of<'a>(
    alloc: Global,
    rows: &'a [Row],
    column: Column,
    meter: &Meter,
) -> Result<Vec<&'a Row>, AllocError>
    requires rows { All (IsProper meter.now column.columns) rows.now }
    ensures { IfOk result (λ uppers. map (λ row. row.now) uppers.items ≡ on_side Side.Upper column.at rows.now) }
{
    let mut uppers = Vec::new(alloc);
    for row in rows {
        if Side::Upper.has(row, column, meter) {
            uppers.push(row)?;
        }
    }
    Ok(uppers)
}

// Pushes the real row of a lower bound with an upper bound. It costs a unit.
fn push_pair(
    alloc: Global,
    lower: &Row,
    upper: &Row,
    column: Column,
    short: &mut Rows,
    meter: &mut Meter,
) -> Result<(), Cut>
    requires lower { IsLower meter.old column.columns column.at lower.now }
    requires upper { IsUpper meter.old column.columns column.at upper.now }
    ensures exact { IsDoneFor 1 meter.old meter.new
        (λ _. AreAdded meter.old column.at (real_row column.at lower.now upper.now ∷ []) short.old short.new) result }
    ensures no_overflow { (u w : ℕ) → IsRowUpToAt column.at u w lower.now → IsRowUpToAt column.at u w upper.now
        → u * w + u * w < 2 ^ meter.old.bits → IsNoOverflow result }
    ensures answered { IsAnsweredFor 1 meter.old meter.new result }
{
    meter.unit()?;
    let real = real_row_without(alloc, lower, upper, column, meter)?;
    if short.len() >= MOST_PAIRS {
        return Err(Cut::NoMemory);
    }
    short.push(real)?;
    Ok(())
}

// Pushes the real rows of a lower bound with the upper bounds.
fn push_pairs_of(
    alloc: Global,
    lower: &Row,
    uppers: &[&Row],
    column: Column,
    short: &mut Rows,
    meter: &mut Meter,
) -> Result<(), Cut>
    requires lower { IsLower meter.old column.columns column.at lower.now }
    requires uppers { All (IsUpper meter.old column.columns column.at) (map (λ row. row.now) uppers.now) }
    ensures exact { IsDoneFor (length uppers.now) meter.old meter.new
        (λ _. AreAdded meter.old column.at (map (real_row column.at lower.now) (map (λ row. row.now) uppers.now)) short.old short.new) result }
    ensures no_overflow { (u w : ℕ) → IsRowUpToAt column.at u w lower.now → All (IsRowUpToAt column.at u w) (map (λ row. row.now) uppers.now)
        → u * w + u * w < 2 ^ meter.old.bits → IsNoOverflow result }
    ensures answered { IsAnsweredFor (length uppers.now) meter.old meter.new result }
{
    for upper in uppers {
        push_pair(alloc, lower, upper, column, short, meter)?;
    }
    Ok(())
}

// Pushes the real rows of the row with the upper bounds, if it is a lower bound.
fn push_lower(
    alloc: Global,
    row: &Row,
    uppers: &[&Row],
    column: Column,
    short: &mut Rows,
    meter: &mut Meter,
) -> Result<(), Cut>
    requires row { IsProper meter.old column.columns row.now }
    requires uppers { All (IsUpper meter.old column.columns column.at) (map (λ row. row.now) uppers.now) }
    ensures exact { IsDoneFor (length (on_side Side.Lower column.at (row.now ∷ [])) * length uppers.now) meter.old meter.new
        (λ _. AreAdded meter.old column.at (real_rows column.at (on_side Side.Lower column.at (row.now ∷ [])) (map (λ row. row.now) uppers.now))
        short.old short.new) result }
    ensures no_overflow { (u w : ℕ) → IsRowUpToAt column.at u w row.now → All (IsRowUpToAt column.at u w) (map (λ row. row.now) uppers.now)
        → u * w + u * w < 2 ^ meter.old.bits → IsNoOverflow result }
    ensures answered { IsAnsweredFor (length (on_side Side.Lower column.at (row.now ∷ [])) * length uppers.now) meter.old meter.new result }
{
    if !Side::Lower.has(row, column, meter) {
        return Ok(());
    }
    push_pairs_of(alloc, row, uppers, column, short, meter)
}

// Pushes the real rows of the lower bounds among the rows with the upper bounds.
fn push_pairs(
    alloc: Global,
    rows: &[Row],
    uppers: &[&Row],
    column: Column,
    short: &mut Rows,
    meter: &mut Meter,
) -> Result<(), Cut>
    requires rows { All (IsProper meter.old column.columns) rows.now }
    requires uppers { All (IsUpper meter.old column.columns column.at) (map (λ row. row.now) uppers.now) }
    ensures exact { IsDoneFor (length (on_side Side.Lower column.at rows.now) * length uppers.now) meter.old meter.new
        (λ _. AreAdded meter.old column.at (real_rows column.at (on_side Side.Lower column.at rows.now) (map (λ row. row.now) uppers.now))
        short.old short.new) result }
    ensures no_overflow { (u w : ℕ) → All (IsRowUpToAt column.at u w) rows.now → All (IsRowUpToAt column.at u w) (map (λ row. row.now) uppers.now)
        → u * w + u * w < 2 ^ meter.old.bits → IsNoOverflow result }
    ensures answered { IsAnsweredFor (length (on_side Side.Lower column.at rows.now) * length uppers.now) meter.old meter.new result }
{
    for row in rows {
        push_lower(alloc, row, uppers, column, short, meter)?;
    }
    Ok(())
}

// Pushes the row without the column, if it does not depend on it.
fn push_row(
    alloc: Global,
    row: &Row,
    column: Column,
    short: &mut Rows,
    meter: &Meter,
) -> Result<(), Cut>
    requires row { IsProper meter.now column.columns row.now }
    ensures { MatchResult result
        (λ _. AreAdded meter.now column.at (on_side Side.Free column.at (row.now ∷ [])) short.old short.new)
        (λ cut. cut ≡ Cut.NoMemory) }
{
    if Side::Free.has(row, column, meter) {
        short.push(row_without(alloc, row, column.at)?)?;
    }
    Ok(())
}

// Pushes the rows that do not depend on the column, without it.
fn push_free(
    alloc: Global,
    rows: &[Row],
    column: Column,
    short: &mut Rows,
    meter: &Meter,
) -> Result<(), Cut>
    requires rows { All (IsProper meter.now column.columns) rows.now }
    ensures { MatchResult result
        (λ _. AreAdded meter.now column.at (on_side Side.Free column.at rows.now) short.old short.new)
        (λ cut. cut ≡ Cut.NoMemory) }
{
    for row in rows {
        push_row(alloc, row, column, short, meter)?;
    }
    Ok(())
}

// The rows that are left, without the column. At first there is room for as many as there are rows.
fn short_rows(alloc: Global, rows: &[Row], column: Column, meter: &mut Meter) -> Result<Rows, Cut>
    requires rows { All (IsProper meter.old column.columns) rows.now }
    ensures exact { IsDoneFor (pairs_on column.at rows.now) meter.old meter.new
        (λ short. AreAdded meter.old column.at (rows_left column.at rows.now) [] short) result }
    ensures no_overflow { IsSparedAt meter.old rows.now column.at result }
    ensures answered { IsAnsweredFor (pairs_on column.at rows.now) meter.old meter.new result }
{
    let mut short = Rows::with_capacity(alloc, rows.len())?;
    push_free(alloc, rows, column, &mut short, meter)?;
    let uppers = uppers_of(alloc, rows, column, meter)?;
    push_pairs(alloc, rows, uppers.as_slice(), column, &mut short, meter)?;
    Ok(short)
}

/// The rows that do not depend on the column, and the real rows of all pairs, without it; none where no point is left.
pub(crate) fn real_left(
    alloc: Global,
    rows: &[Row],
    column: Column,
    meter: &mut Meter,
) -> Result<Option<Rows>, Cut>
    requires rows { All (IsProper meter.old column.columns) rows.now }
    requires none { ¬ HasEquality column.at rows.now }
    ensures exact { IsDoneFor (pairs_on column.at rows.now) meter.old meter.new
        (IsAnswerFor meter.old (column.columns - 1) (HoldReally rows.now column.at)) result }
    ensures left { IfOk result (λ left. left ≡ exact_rows rows.now column.at) }
    ensures no_overflow { IsSparedAt meter.old rows.now column.at result }
    ensures answered { IsAnsweredFor (pairs_on column.at rows.now) meter.old meter.new result }
{
    let short = short_rows(alloc, rows, column, meter)?;
    let left = short.normalise(alloc, meter)?;
    Ok(left)
}

/// What is left where the column is exact: one list of rows, or none where no point is left.
pub(crate) fn exact_left(
    alloc: Global,
    rows: &[Row],
    column: Column,
    meter: &mut Meter,
) -> Result<Option<Rows>, Cut>
    requires rows { All (IsProper meter.old column.columns) rows.now }
    requires none { ¬ HasEquality column.at rows.now }
    requires exact { IsExactColumn column.at rows.now }
    ensures exact { IsDoneWithin (elimination_units rows.now column.at) meter.old meter.new
        (λ left. IsAnswerFor meter.old (column.columns - 1) (HoldAtSome rows.now column.at) left) result }
    ensures left { IfOk result (λ left. left ≡ exact_rows rows.now column.at) }
    ensures pairs { IfOk result (λ _. meter.old.units + pairs_on column.at rows.now ≤ meter.new.units) }
    ensures no_overflow { IsSparedAt meter.old rows.now column.at result }
    ensures answered { IsAnsweredFor (pairs_on column.at rows.now) meter.old meter.new result }
{
    real_left(alloc, rows, column, meter)
}
