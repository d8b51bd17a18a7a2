//! Columns that are variables themselves.

ghost use Rattle.std.specs.Prelude.{◌≡◌, ◌+◌, ◌≤◌, ◌++◌, ◌∷◌, [], pos, All, IfOk, map, replicate};
ghost use Rattle.isl_meter.specs.Gauge.{Gauge};
ghost use Rattle.isl_piece.specs.Row.{IsRowWithin};
ghost use Rattle.isl_piece.specs.System.{widened};
ghost use Rattle.isl_frame.specs.Frame.{own_column, IsFrame, IsOwnFrame, IsWithVariable};

use isl_meter::Int;
use isl_piece::{Coefs, Row, RowKind, Rows};
use std::alloc::{AllocError, Global};

// The numbers, and one more.
fn with_number(alloc: Global, coefs: &Coefs, number: Int) -> Result<Coefs, AllocError>
    ensures { IfOk result (λ made. made ≡ coefs.now ++ number ∷ []) }
{
    let mut made = coefs.copy(alloc)?;
    made.push(number)?;
    Ok(made)
}

/// The rows over one variable more, which they do not name.
///
/// # Errors
///
/// `AllocError` where memory ends.
pub fn widened(alloc: Global, rows: &Rows) -> Result<Rows, AllocError>
    ensures { IfOk result (λ made. made ≡ map widened rows.now) }
{
    let mut made = Rows::with_capacity(alloc, rows.len())?;
    for row in rows.as_slice() {
        let coefs = with_number(alloc, &row.coefs, Int::ZERO)?;
        made.push(Row::new(row.kind, coefs, row.constant(), row.modulus()))?;
    }
    Ok(made)
}

// The last of one variable more, as a column.
fn own_column(alloc: Global, variables: usize) -> Result<Row, AllocError>
    ensures { IfOk result (λ entry. entry ≡ own_column variables) }
{
    let coefs = with_number(alloc, &Coefs::zeros(alloc, variables)?, Int::ONE)?;
    Ok(Row::new(RowKind::Divides, coefs, Int::ZERO, Int::ONE))
}

/// The frame over one variable more, which is its last column.
///
/// # Errors
///
/// `AllocError` where memory ends.
pub fn with_variable(alloc: Global, frame: &Rows, variables: usize) -> Result<Rows, AllocError>
    ensures exact { IfOk result (λ made. made ≡ map widened frame.now ++ own_column variables ∷ []) }
    ensures frame { IsFrame variables frame.now → IfOk result (IsWithVariable variables frame.now) }
    ensures within { (g : Gauge) → 8 ≤ g.bits → All (IsRowWithin g) frame.now → IfOk result (All (IsRowWithin g)) }
{
    let mut made = widened(alloc, frame)?;
    made.push(own_column(alloc, variables)?)?;
    Ok(made)
}

/// The frame whose columns are so many variables.
///
/// # Errors
///
/// `AllocError` where memory ends.
pub fn own_frame(alloc: Global, variables: usize) -> Result<Rows, AllocError>
    ensures frame { IfOk result (IsOwnFrame variables) }
    ensures within { (g : Gauge) → 8 ≤ g.bits → IfOk result (All (IsRowWithin g)) }
{
    let mut frame = Rows::new(alloc);
    for i in 0..variables {
        frame = with_variable(alloc, &frame, i)?;
    }
    Ok(frame)
}
