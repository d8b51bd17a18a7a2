//! Columns that rows bound on one side alone: some number there is beyond all of these bounds, so the rows that name such a column say
//! nothing of whether all rows hold somewhere.

ghost use Rattle.std.specs.Prelude.{◌≡◌, ◌<◌, All, IfSome, IsTrue, negsuc, pos};
ghost use Rattle.std.specs.Ordering.{int_eq};
ghost use Rattle.isl_piece.specs.Normal.{IsNormal};
ghost use Rattle.isl_piece.specs.Row.{coef_at};
ghost use Rattle.isl_omega.specs.Column.{IsProper};
ghost use Rattle.isl_redundant.specs.Redundant.{AreSome};
ghost use Rattle.isl_presolve.specs.OneSided.{IsOneSided, IsOnSide, rows_without};
ghost use Rattle.isl_presolve.specs.Shear.{IsReduction};

use crate::choice::number_at;
use isl_meter::Meter;
use isl_piece::{Row, RowKind, Rows};

// Whether the row has 0 at the column.
fn lacks(row: &Row, col: usize) -> bool
    ensures { result ≡ int_eq (coef_at row.now col) (pos 0) }
{
    number_at(row, col) == 0
}

// Whether the row does not name the column, or bounds it from below.
fn is_from_below(row: &Row, col: usize) -> bool
    ensures { IsTrue result → IsOnSide (pos 1) col row.now }
{
    let number = number_at(row, col);
    number == 0 || (number > 0 && row.kind == RowKind::AtLeast)
}

// Whether the row does not name the column, or bounds it from above.
fn is_from_above(row: &Row, col: usize) -> bool
    ensures { IsTrue result → IsOnSide (negsuc 0) col row.now }
{
    let number = number_at(row, col);
    number == 0 || (number < 0 && row.kind == RowKind::AtLeast)
}

// Whether all rows that name the column are bounds on the same side.
fn is_one_sided(rows: &[Row], col: usize) -> bool
    ensures { IsTrue result → IsOneSided col rows.now }
{
    rows.iter().all(|row| is_from_below(row, col)) || rows.iter().all(|row| is_from_above(row, col))
}

// A column that some rows name, all of them bounds on the same side.
fn one_sided_column(rows: &[Row], columns: usize) -> Option<usize>
    ensures { IfSome result (λ col. (col < columns) × IsOneSided col rows.now) }
{
    for col in 0..columns {
        if is_one_sided(rows, col) && rows.iter().any(|row| !lacks(row, col)) {
            return Some(col);
        }
    }
    None
}

// The rows that do not name the column.
fn without_named(rows: Rows, col: usize) -> Rows
    ensures { result ≡ rows_without col rows }
{
    let mut kept = Vec::from(rows);
    kept.retain(|row| lacks(row, col));
    Rows::from(kept)
}

/// The rows without those on columns that they bound on one side alone: there some number is beyond all of these bounds, whatever the
/// others are. So they hold nowhere exactly where the rows do. No unit is used.
pub fn without_one_sided(rows: Rows, columns: usize, _meter: &Meter) -> Rows
    requires rows { All (IsProper _meter.now columns) rows }
    requires normal { IsNormal rows }
    ensures reduction { IsReduction _meter.now columns rows result }
    ensures some { AreSome result rows }
{
    let mut rows = rows;
    for _ in 0..columns {
        let Some(col) = one_sided_column(rows.as_slice(), columns) else {
            break;
        };
        rows = without_named(rows, col);
    }
    rows
}
