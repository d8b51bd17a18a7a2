//! Columns that have one number.

ghost use Rattle.std.specs.Prelude.{◌≡◌, ◌+◌, ◌<◌, IfOk, IfSome, IsTrue, length};
ghost use Rattle.isl_frame.specs.Needed.{AreRowsOver};
ghost use Rattle.isl_piece.specs.declared.row.RowKind.TheVariants.{AtLeast};
ghost use Rattle.isl_piece.specs.Row.{coef_at};
ghost use Rattle.isl_loops.specs.Shared.{IsOnlyForm};

use isl_frame::isolated;
use isl_meter::{Int, Meter};
use isl_piece::{Row, RowKind, Rows};
use std::alloc::{AllocError, Global};

// Whether the row is an inequality in which the column has this coefficient.
fn is_bound_by(row: &Row, column: usize, coefficient: Int) -> bool
    requires { column < length row.now.coefs }
    ensures { IsTrue result → (row.now.kind ≡ AtLeast) × (coef_at row.now column ≡ coefficient) }
{
    row.kind == RowKind::AtLeast && row.coefs.get(column) == coefficient
}

fn has_same_form(row: &Row, other: &Row) -> bool
    ensures { IsTrue result → (row.now.coefs ≡ other.now.coefs) × (row.now.constant ≡ other.now.constant) }
{
    row.coefs.as_slice() == other.coefs.as_slice() && row.constant() == other.constant()
}

// The form that bounds the column behind so many variables from both sides, where the rows are a bound from below and one from above.
pub(crate) fn only_form(
    alloc: Global,
    rows: &Rows,
    variables: usize,
    meter: &Meter,
) -> Result<Option<Row>, AllocError>
    requires { AreRowsOver meter.now (variables + 1) rows.now }
    ensures { IfOk result (λ only. IfSome only (IsOnlyForm meter.now variables rows.now)) }
{
    let [low, high] = rows.as_slice() else {
        return Ok(None);
    };
    if !is_bound_by(low, variables, Int::ONE) || !is_bound_by(high, variables, Int::new(-1)) {
        return Ok(None);
    }
    let entry = isolated(alloc, low, variables, meter)?;
    let other = isolated(alloc, high, variables, meter)?;
    if has_same_form(&other, &entry) {
        return Ok(Some(entry));
    }
    Ok(None)
}
