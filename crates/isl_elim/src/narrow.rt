//! A column between two opposite bounds, which leave all but a few remainders a number. What is left are congruences that must not hold, in
//! one list of rows; splinters would be a list for each of the other remainders.

ghost use Rattle.std.specs.Prelude.{◌≡◌, ◌≢◌, ◌↔◌, ◌<◌, ◌++◌, ◌-◌, ◌-ℤ◌, ◌<ℤ◌, ◌≤ℤ◌, pos, negsuc, All, IfOk, IfSome, IsTrue, length, replicate};
ghost use Rattle.isl_math.specs.Dot.{scaled};
ghost use Rattle.isl_meter.specs.Gauge.{IsDone, IsWithin};
ghost use Rattle.isl_omega.specs.Column.{IsAnswerFor, IsProper};
ghost use Rattle.isl_piece.specs.Normal.{bound};
ghost use Rattle.isl_piece.specs.Row.{IsRowWithin, coef_at};
ghost use Rattle.isl_shadows.specs.Column.{HoldAtSome};
ghost use Rattle.isl_elim.specs.Narrow.{AreBounds, AreFreeBelow, AreOpposite, IsNarrow, remainders_out};

use isl_meter::{Cut, Int, Meter};
use isl_omega::column::Column;
use isl_omega::rows::settled;
use isl_piece::{Coefs, Row, RowKind, Rows};
use std::alloc::{AllocError, Global};

/// A column, the places of a lower and of an upper bound of it, and how many remainders they leave no number.
#[derive(Clone, Copy)]
pub(crate) struct Narrow {
    pub col: usize,
    pub lower: usize,
    pub upper: usize,
    pub count: usize,
}

// So many rows are put in place of a column at most.
const MOST_ROWS: i128 = 1_000;

// The number of the row at the column; 0 at a column that it has not.
fn number_at(row: &Row, col: usize) -> Int
    ensures { result ≡ coef_at row.now col }
{
    if col < row.coefs.len() {
        return row.coefs.get(col);
    }
    Int::ZERO
}

// The place of the first row that has the column with a negative number, or with a positive one.
#[tactic(auto, using(std::proofs::lemmas::Grind::common_steps))]
fn first_of(rows: &[Row], col: usize, negative: bool) -> Option<usize>
    ensures { IfSome result (λ at. at < length rows.now) }
{
    for at in 0..rows.len() {
        let own = number_at(&rows[at], col);
        if (negative && own.is_negative()) || (!negative && own.is_positive()) {
            return Some(at);
        }
    }
    None
}

// Whether each number of the one is that of the other, with the other sign.
#[tactic(auto, using(std::proofs::lemmas::Grind::common_steps, crate::proofs::OppositeLaws::opposite_steps))]
fn are_opposite(upper: &Coefs, lower: &Coefs, meter: &Meter) -> bool
    requires within { All (IsWithin meter.now) lower.now }
    ensures { IsTrue result ↔ (upper.now ≡ scaled (negsuc 0) lower.now) }
{
    if upper.len() != lower.len() {
        return false;
    }
    for i in 0..upper.len() {
        if upper.get(i) != lower.get(i).neg(meter) {
            return false;
        }
    }
    true
}

// How many remainders are left out between bounds with `k` at the column that are so far apart, where these are no more than the others
// and few.
fn left_out(k: i128, slack: i128) -> Option<usize>
    ensures { IfSome result (λ count. (pos 1 <ℤ k) × (pos 0 ≤ℤ slack) × (slack ≡ k -ℤ pos 1 -ℤ pos count)) }
{
    if k < 2 {
        return None;
    }
    if slack < 0 {
        return None;
    }
    if slack >= k {
        return None;
    }
    let count = k - 1 - slack;
    if count > slack {
        return None;
    }
    if count > MOST_ROWS {
        return None;
    }
    Some(count.unsigned_abs() as usize)
}

// How many remainders the bounds leave no number, where these are no more than the others and few.
#[tactic(auto, using(std::proofs::lemmas::Grind::common_steps))]
fn remainders_between(lower: &Row, upper: &Row, col: usize, meter: &Meter) -> Option<usize>
    requires within { IsRowWithin meter.now lower.now }
    ensures { IfSome result (AreOpposite col lower.now upper.now) }
{
    if lower.kind != RowKind::AtLeast || upper.kind != RowKind::AtLeast {
        return None;
    }
    let slack = lower.constant.checked_add(upper.constant)?;
    let count = left_out(number_at(lower, col).get(), slack)?;
    if !are_opposite(&upper.coefs, &lower.coefs, meter) {
        return None;
    }
    Some(count)
}

// Whether the row has none of the columns but this one.
fn names_alone(row: &Row, cols: &[usize], col: usize) -> bool {
    cols.iter()
        .all(|&other| other == col || number_at(row, other).is_zero())
}

// Whether the row at the place is one of the bounds, or does not have the column.
fn is_free_at(row: &Row, at: usize, narrow: Narrow) -> bool
    ensures { IsTrue result → at ≢ narrow.lower → at ≢ narrow.upper → coef_at row.now narrow.col ≡ pos 0 }
{
    if at == narrow.lower {
        return true;
    }
    if at == narrow.upper {
        return true;
    }
    number_at(row, narrow.col).is_zero()
}

// Whether the rows at other places do not have the column.
#[tactic(auto, using(std::proofs::lemmas::Grind::common_steps))]
fn are_free(rows: &[Row], narrow: Narrow) -> bool
    ensures { IsTrue result → AreFreeBelow rows.now narrow (length rows.now) }
{
    for at in 0..rows.len() {
        if !is_free_at(&rows[at], at, narrow) {
            return false;
        }
    }
    true
}

// Two opposite bounds on the column, which leave few remainders no number, where no other row has it and they have no other of the columns.
#[tactic(auto, using(std::proofs::lemmas::Grind::common_steps))]
fn narrow_at(rows: &[Row], cols: &[usize], col: usize, meter: &Meter) -> Option<Narrow>
    requires within { All (IsRowWithin meter.now) rows.now }
    ensures { IfSome result (λ narrow. (narrow.col ≡ col) × AreBounds rows.now narrow) }
{
    let lower = first_of(rows, col, false)?;
    let upper = first_of(rows, col, true)?;
    let count = remainders_between(&rows[lower], &rows[upper], col, meter)?;
    let narrow = Narrow {
        col,
        lower,
        upper,
        count,
    };
    if !names_alone(&rows[lower], cols, col) {
        return None;
    }
    if !are_free(rows, narrow) {
        return None;
    }
    Some(narrow)
}

/// The first of the columns that lies so between two opposite bounds.
pub(crate) fn narrow_among(rows: &[Row], cols: &[usize], meter: &Meter) -> Option<Narrow>
    requires within { All (IsRowWithin meter.now) rows.now }
    ensures { IfSome result (IsNarrow rows.now cols.now) }
{
    for &col in cols {
        if let Some(narrow) = narrow_at(rows, cols, col, meter) {
            return Some(narrow);
        }
    }
    None
}

// A row over so many columns that always holds.
fn always(alloc: Global, columns: usize) -> Result<Row, AllocError>
    ensures { IfOk result (λ row. row ≡ bound (replicate columns (pos 0)) (pos 0)) }
{
    let coefs = Coefs::zeros(alloc, columns)?;
    Ok(Row::new(RowKind::AtLeast, coefs, Int::ZERO, Int::ONE))
}

// Pushes that the number at the column divides the form with none of 1 to `count`.
#[tactic(auto, using(std::proofs::lemmas::Grind::common_steps, crate::proofs::NarrowLaws::narrow_steps))]
fn push_remainders(
    alloc: Global,
    row: &Row,
    count: usize,
    column: Column,
    rows: &mut Rows,
    meter: &mut Meter,
) -> Result<(), Cut>
    requires row { IsProper meter.old column.columns row.now }
    ensures { IsDone meter.old meter.new (λ _. (rows.new ≡ rows.old ++ remainders_out column.at row.now count)
        × All (IsRowWithin meter.old) (remainders_out column.at row.now count)) result }
{
    let k = row.coefs.get(column.at);
    let mut constant = row.constant();
    for _made in 0..count {
        let more = constant.add(Int::ONE, meter)?;
        let coefs = row.coefs.copy(alloc)?;
        rows.push(Row::new(RowKind::NotDivides, coefs, more, k))?;
        constant = more;
    }
    Ok(())
}

/// What is left of the rows without the column: normal rows that hold at a point exactly where some whole number at the column makes
/// these hold, or none where there is no such point. No unit is used. (Pugh, the Omega test: splinters, of which all but a few are one)
///
/// # Errors
///
/// `Overflow` where a number passes the limit of the meter, and `NoMemory`.
#[tactic(auto, using(std::proofs::lemmas::Grind::common_steps))]
pub(crate) fn without_narrow(
    alloc: Global,
    rows: Rows,
    narrow: Narrow,
    column: Column,
    meter: &mut Meter,
) -> Result<Option<Rows>, Cut>
    requires rows { All (IsProper meter.old column.columns) rows }
    requires narrow { AreBounds rows narrow }
    requires column { column.at ≡ narrow.col }
    ensures { IsDone meter.old meter.new (IsAnswerFor meter.old (column.columns - 1) (HoldAtSome rows column.at)) result }
{
    let mut left = rows;
    let row = left.as_slice()[narrow.lower].copy(alloc)?;
    left.replace(narrow.lower, always(alloc, column.columns)?);
    left.replace(narrow.upper, always(alloc, column.columns)?);
    push_remainders(alloc, &row, narrow.count, column, &mut left, meter)?;
    settled(alloc, &left, column, meter)
}
