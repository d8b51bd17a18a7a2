//! Pairs of bounds that leave a column no number but a quotient.

ghost use Rattle.std.specs.Prelude.{◌≡◌, ◌<◌, pos, true, All, length, IfSome, IsNone, IsSome, IsTrue, ◌↔◌, ◌<ℤ◌, negsuc, slice_index_or};
ghost use Rattle.isl_piece.specs.Row.{IsRowWithin, coef_at};
ghost use Rattle.isl_quotient.specs.Quotient.{IsQuotient, PinsNone};
ghost use Rattle.isl_quotient.specs.Pair.{names_only, IsPairAt, IsPairOf, PinNone};

use crate::quotient::are_quotient;
use isl_meter::{Int, Meter};
use isl_piece::{Coefs, Row};

/// A column, and the places of an upper and of a lower bound of it.
#[derive(Clone, Copy)]
pub(crate) struct Pair {
    pub col: usize,
    pub upper: usize,
    pub lower: usize,
}

/// The coefficient at the column; 0 at a column that has none.
pub(crate) fn coefficient(coefs: &Coefs, col: usize) -> Int
    ensures { result ≡ slice_index_or coefs.now col (pos 0) }
{
    if col < coefs.len() {
        return coefs.get(col);
    }
    Int::ZERO
}

/// Whether the row says of a number of at least 2 times the column that it is at most something.
pub(crate) fn is_steep(row: &Row, col: usize) -> bool
    ensures { IsTrue result ↔ (coef_at row.now col <ℤ negsuc 0) }
{
    coefficient(&row.coefs, col).get() < -1
}

// Whether the row names none of the columns but this one.
fn names_only(row: &Row, cols: &[usize], col: usize) -> bool
    ensures { result ≡ names_only col cols.now row.now }
{
    cols.iter()
        .all(|&c| c == col || coefficient(&row.coefs, c) == Int::ZERO)
}

/// The place of a lower bound that leaves the column no number but a quotient.
pub(crate) fn lower_of(rows: &[Row], upper: &Row, col: usize, meter: &Meter) -> Option<usize>
    requires inside { All (λ r. col < length r.coefs) rows.now }
    requires within { All (IsRowWithin meter.now) rows.now }
    ensures some { IfSome result (λ at. (at < length rows.now) × ((d : Row) → IsQuotient col upper.now (slice_index_or rows.now at d))) }
    ensures none { IsNone result → PinsNone rows.now col upper.now }
{
    for i in 0..rows.len() {
        if are_quotient(upper, &rows[i], col, meter) {
            return Some(i);
        }
    }
    None
}

// The same of an upper bound that names none of the columns beside.
fn partner_of(rows: &[Row], upper: &Row, cols: &[usize], col: usize, meter: &Meter) -> Option<usize>
    requires inside { All (λ r. col < length r.coefs) rows.now }
    requires within { All (IsRowWithin meter.now) rows.now }
    ensures some { IfSome result (λ at. (at < length rows.now) × ((d : Row) → IsQuotient col upper.now (slice_index_or rows.now at d))) }
    ensures alone { IsSome result → names_only col cols.now upper.now ≡ true }
    ensures none { IsNone result → names_only col cols.now upper.now ≡ true → PinsNone rows.now col upper.now }
{
    if !is_steep(upper, col) {
        return None;
    }
    if !names_only(upper, cols, col) {
        return None;
    }
    lower_of(rows, upper, col, meter)
}

// The first pair of the column.
fn pair_at(rows: &[Row], cols: &[usize], col: usize, meter: &Meter) -> Option<Pair>
    requires inside { All (λ r. col < length r.coefs) rows.now }
    requires within { All (IsRowWithin meter.now) rows.now }
    ensures some { IfSome result (IsPairAt rows.now cols.now col) }
    ensures none { IsNone result → PinNone rows.now cols.now col }
{
    for upper in 0..rows.len() {
        if let Some(lower) = partner_of(rows, &rows[upper], cols, col, meter) {
            return Some(Pair { col, upper, lower });
        }
    }
    None
}

/// The first pair of one of the columns.
pub(crate) fn quotient_pair(rows: &[Row], cols: &[usize], meter: &Meter) -> Option<Pair>
    requires inside { All (λ col. All (λ r. col < length r.coefs) rows.now) cols.now }
    requires within { All (IsRowWithin meter.now) rows.now }
    ensures some { IfSome result (IsPairOf rows.now cols.now) }
    ensures none { IsNone result → All (PinNone rows.now cols.now) cols.now }
{
    for &col in cols {
        if let Some(pair) = pair_at(rows, cols, col, meter) {
            return Some(pair);
        }
    }
    None
}
