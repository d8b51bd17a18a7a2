//! Whether a row is implied by others: a sum of multiples of them.

ghost use Rattle.std.specs.Prelude.{◌≡◌, ◌↔◌, ◌<◌, ◌<ℤ◌, ◌≤ℤ◌, pos, ℤ, List, All, IfOk, IfSome, IsTrue, length, slice_index_or};
ghost use Rattle.std.specs.List.{remove};
ghost use Rattle.isl_piece.specs.declared.row.Row.{Row};
ghost use Rattle.isl_piece.specs.Combine.{combination};
ghost use Rattle.isl_piece.specs.Row.{IsRowWithin, IsWellFormed};
ghost use Rattle.isl_piece.specs.System.{HoldRows};
ghost use Rattle.isl_redundant.specs.Redundant.{calculator, IsAtLeast, IsImplied, IsSumOf};

use isl_meter::{Cut, Int, Meter};
use isl_piece::{Coefs, Row, RowKind, combination};
use std::alloc::{AllocError, Global};

// Whether so many times the form of the row are surely at least 0 where the row holds.
#[tactic(auto, using(std::proofs::lemmas::Grind::common_steps, crate::proofs::SumLaws::part_steps))]
fn is_at_least(row: &Row, times: Int) -> bool
    ensures { IsTrue result → IsAtLeast row.now times }
{
    match row.kind {
        RowKind::Zero => true,
        RowKind::AtLeast => !times.is_negative(),
        RowKind::Divides | RowKind::NotDivides => false,
    }
}

// The sum and so many times the row; none where a number is too large.
#[tactic(auto, using(std::proofs::lemmas::Grind::common_steps, crate::proofs::SumLaws::meter_steps))]
fn with_row(alloc: Global, sum: &Row, times: Int, row: &Row) -> Result<Option<Row>, AllocError>
    requires sum_within { IsRowWithin calculator sum.now }
    requires row_within { IsRowWithin calculator row.now }
    requires same_width { length sum.now.coefs ≡ length row.now.coefs }
    ensures { IfOk result (λ new. IfSome new (λ s. (s ≡ combination (pos 1) sum.now times row.now) × IsRowWithin calculator s)) }
{
    let mut meter = Meter::new(127, 1);
    let Ok(number) = times.add(Int::ZERO, &mut meter) else {
        return Ok(None);
    };
    match combination(alloc, Int::ONE, sum, number, row, &mut meter) {
        Ok(new) => Ok(Some(new)),
        Err(Cut::NoMemory) => Err(AllocError),
        Err(_) => Ok(None),
    }
}

// A form of zeros.
#[tactic(auto, using(std::proofs::lemmas::Grind::common_steps, crate::proofs::SumLaws::sum_nothing))]
fn nothing(alloc: Global, columns: usize) -> Result<Row, AllocError>
    ensures { (rows : List Row) → IfOk result (IsSumOf columns rows) }
{
    let zeros = Coefs::zeros(alloc, columns)?;
    Ok(Row::new(RowKind::AtLeast, zeros, Int::ZERO, Int::ONE))
}

// The sum of so many times each row but the one at `at`, if there is one; none where that is not surely at least 0 where they hold.
fn sum_of_others(
    alloc: Global,
    rows: &[Row],
    columns: usize,
    at: usize,
    times: &[i128],
) -> Result<Option<Row>, AllocError>
    requires well_formed { All (IsWellFormed columns) rows.now }
    requires within { All (IsRowWithin calculator) rows.now }
    ensures { IfOk result (λ sum. IfSome sum (IsSumOf columns (remove rows.now at))) }
{
    let mut sum = nothing(alloc, columns)?;
    for i in 0..rows.len() {
        let number = Int::new(times.get(i).map_or(0, |n| *n));
        if i == at || number.is_zero() {
            continue;
        }
        let row = &rows[i];
        if !is_at_least(row, number) {
            return Ok(None);
        }
        let Some(more) = with_row(alloc, &sum, number, row)? else {
            return Ok(None);
        };
        sum = more;
    }
    Ok(Some(sum))
}

// Whether each of the numbers is 0.
fn are_zero(numbers: &[Int]) -> bool
    ensures { IsTrue result ↔ All (λ c. c ≡ pos 0) numbers.now }
{
    for number in numbers {
        if !number.is_zero() {
            return false;
        }
    }
    true
}

// Whether the form is at most 0 at each point.
fn is_at_most_zero(row: &Row) -> bool
    ensures { IsTrue result → All (λ c. c ≡ pos 0) row.now.coefs × (row.now.constant ≤ℤ pos 0) }
{
    if row.constant().is_positive() {
        return false;
    }
    are_zero(row.coefs.as_slice())
}

// Whether the form is below 0 at each point.
fn is_below_zero(row: &Row) -> bool
    ensures { IsTrue result → All (λ c. c ≡ pos 0) row.now.coefs × (row.now.constant <ℤ pos 0) }
{
    if !row.constant().is_negative() {
        return false;
    }
    are_zero(row.coefs.as_slice())
}

/// Whether the numbers for the rows, of which the one at `at` is negative, make them add up to a constant of at most 0, and so show
/// that the others imply the row at `at`.
///
/// # Errors
///
/// `AllocError` where memory ends.
pub(crate) fn is_implied_by(
    alloc: Global,
    rows: &[Row],
    columns: usize,
    at: usize,
    times: &[i128],
) -> Result<bool, AllocError>
    requires well_formed { All (IsWellFormed columns) rows.now }
    requires within { All (IsRowWithin calculator) rows.now }
    requires inside { at < length rows.now }
    ensures { (r : Row) → IfOk result (λ implied. IsTrue implied → IsImplied (remove rows.now at) (slice_index_or rows.now at r)) }
{
    let row = &rows[at];
    let own = Int::new(times.get(at).map_or(0, |n| *n));
    if row.kind != RowKind::AtLeast || !own.is_negative() {
        return Ok(false);
    }
    let Some(sum) = sum_of_others(alloc, rows, columns, at, times)? else {
        return Ok(false);
    };
    let Some(rest) = with_row(alloc, &sum, own, row)? else {
        return Ok(false);
    };
    if !is_at_most_zero(&rest) {
        return Ok(false);
    }
    Ok(true)
}

/// Whether the numbers for the rows make them add up to a constant below 0, and so show that they hold at no point.
///
/// # Errors
///
/// `AllocError` where memory ends.
pub(crate) fn are_contradictory(
    alloc: Global,
    rows: &[Row],
    columns: usize,
    times: &[i128],
) -> Result<bool, AllocError>
    requires well_formed { All (IsWellFormed columns) rows.now }
    requires within { All (IsRowWithin calculator) rows.now }
    ensures { IfOk result (λ none. IsTrue none → (point : List ℤ) → ¬ HoldRows rows.now point) }
{
    let Some(sum) = sum_of_others(alloc, rows, columns, rows.len(), times)? else {
        return Ok(false);
    };
    Ok(is_below_zero(&sum))
}
