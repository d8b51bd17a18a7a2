//! Whether a projection may keep a quotient.

ghost use Rattle.std.specs.Prelude.{◌≡◌, ◌<◌, pos, false, All, length, slice_index_or};
ghost use Rattle.std.specs.List.{list_all};
ghost use Rattle.std.specs.Ordering.{int_eq};
ghost use Rattle.isl_piece.specs.Row.{IsRowWithin};
ghost use Rattle.isl_quotient.specs.Candidate.{is_undefining};
ghost use Rattle.isl_quotient.specs.Quotient.{PinsNone};

use crate::pairs::{coefficient, is_steep, lower_of};
use crate::quotient::are_opposite;
use crate::solved::is_unit_equality;
use isl_meter::{Int, Meter};
use isl_piece::{Definition, Row, RowKind};

// Whether no definition names the column.
fn is_undefining(definitions: &[Definition], col: usize) -> bool
    ensures { result ≡ is_undefining definitions.now col }
{
    definitions.iter().all(|definition| coefficient(&definition.coefs, col) == Int::ZERO)
}

/// Whether no definition names one of the columns.
pub(crate) fn are_undefining(definitions: &[Definition], cols: &[usize]) -> bool
    ensures { result ≡ list_all (is_undefining definitions.now) cols.now }
{
    cols.iter().all(|&col| is_undefining(definitions, col))
}

// Whether an equation has one of the columns with 1 or -1, and one with another number but 0: what is put in place of the first may leave
// bounds on the other.
fn is_mixed(row: &Row, cols: &[usize]) -> bool {
    if row.kind != RowKind::Zero {
        return false;
    }
    let mut has_unit = false;
    let mut has_other = false;
    for &col in cols {
        if is_unit_equality(row, col) {
            has_unit = true;
        } else if coefficient(&row.coefs, col) != Int::ZERO {
            has_other = true;
        }
    }
    has_unit && has_other
}

// Whether the row is an upper bound of the column that goes with a lower one.
fn has_lower(rows: &[Row], row: &Row, col: usize, meter: &Meter) -> bool
    requires inside { All (λ r. col < length r.coefs) rows.now }
    requires within { All (IsRowWithin meter.now) rows.now }
    ensures { result ≡ false → PinsNone rows.now col row.now }
{
    if !is_steep(row, col) {
        return false;
    }
    lower_of(rows, row, col, meter).is_some()
}

// Whether the row is an upper bound of one of the columns that goes with a lower one, so that no number but a quotient is left.
fn is_upper(rows: &[Row], row: &Row, cols: &[usize], meter: &Meter) -> bool
    requires inside { All (λ col. All (λ r. col < length r.coefs) rows.now) cols.now }
    requires within { All (IsRowWithin meter.now) rows.now }
    ensures { result ≡ false → All (λ col. PinsNone rows.now col row.now) cols.now }
{
    if row.kind != RowKind::AtLeast {
        return false;
    }
    for &col in cols {
        if has_lower(rows, row, col, meter) {
            return true;
        }
    }
    false
}

// Whether the rows are bounds, and have different signs at the first of the columns that one of them has.
fn may_be_opposite(upper: &Row, lower: &Row, cols: &[usize]) -> bool {
    if upper.kind != RowKind::AtLeast || lower.kind != RowKind::AtLeast {
        return false;
    }
    for &col in cols {
        let one = coefficient(&upper.coefs, col).get();
        let other = coefficient(&lower.coefs, col).get();
        if one != 0 || other != 0 {
            return one < 0 && other > 0 || one > 0 && other < 0;
        }
    }
    false
}

// Whether two of the rows are bounds from either side on one form that has one of the columns.
fn has_band(rows: &[Row], cols: &[usize], meter: &Meter) -> bool
    requires { All (IsRowWithin meter.now) rows.now }
{
    for i in 0..rows.len() {
        for j in 0..i {
            let (upper, lower) = (&rows[i], &rows[j]);
            if may_be_opposite(upper, lower, cols)
                && are_opposite(&upper.coefs, &lower.coefs, meter)
            {
                return true;
            }
        }
    }
    false
}

// Whether some equation has one of the columns with 1 or -1, and another one.
fn has_mixed(rows: &[Row], cols: &[usize]) -> bool {
    for row in rows {
        if is_mixed(row, cols) {
            return true;
        }
    }
    false
}

/// Whether two bounds leave one of the columns no number but a quotient, or may once equations are solved: two bounds on one form
/// stay such. Where not, there is nothing to keep.
pub(crate) fn may_keep(rows: &[Row], cols: &[usize], meter: &Meter) -> bool
    requires inside { All (λ col. All (λ r. col < length r.coefs) rows.now) cols.now }
    requires within { All (IsRowWithin meter.now) rows.now }
    ensures { result ≡ false → All (λ row. All (λ col. PinsNone rows.now col row) cols.now) rows.now }
{
    for row in rows {
        if is_upper(rows, row, cols, meter) {
            return true;
        }
    }
    has_mixed(rows, cols) && has_band(rows, cols, meter)
}
