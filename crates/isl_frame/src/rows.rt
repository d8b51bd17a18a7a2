//! Rows over columns, as rows over the variables.

ghost use Rattle.std.specs.Prelude.{◌≡◌, ◌+◌, All, length};
ghost use Rattle.std.specs.List.{AllZip};
ghost use Rattle.isl_meter.specs.Gauge.{IsDone};
ghost use Rattle.isl_piece.specs.Row.{IsRowWithin, IsWellFormed};
ghost use Rattle.isl_frame.specs.Frame.{IsFrame, IsThrough, IsThroughBehind};
ghost use Rattle.isl_frame.specs.Sum.{IsSum, IsSumOf};

use crate::sum::Sum;
use isl_meter::{Cut, Meter};
use isl_piece::{Row, Rows};
use std::alloc::Global;

// The row's form at the columns of the frame, times a number above 0.
fn sum_through(
    alloc: Global,
    row: &Row,
    frame: &[Row],
    variables: usize,
    meter: &mut Meter,
) -> Result<Sum, Cut>
    requires row { IsWellFormed (length frame.now) row.now }
    requires row_within { IsRowWithin meter.old row.now }
    requires frame { IsFrame variables frame.now }
    requires frame_within { All (IsRowWithin meter.old) frame.now }
    ensures { IsDone meter.old meter.new
        (λ sum. IsSum meter.old sum × IsSumOf variables row.now frame.now (length frame.now) sum) result }
{
    let mut sum = Sum::of_constant(alloc, row, variables, meter)?;
    for i in 0..frame.len() {
        sum = sum.with(alloc, row.coefs.get(i), &frame[i], meter)?;
    }
    Ok(sum)
}

/// The row over so many variables that holds where the row holds at the columns of the frame, wherever these are whole numbers. Uses
/// no unit. (Feautrier, on changes of variables)
///
/// # Errors
///
/// `Overflow` where a number passes the limit of the meter, and `NoMemory`.
pub fn through(
    alloc: Global,
    row: &Row,
    frame: &[Row],
    variables: usize,
    meter: &mut Meter,
) -> Result<Row, Cut>
    requires row { IsWellFormed (length frame.now) row.now }
    requires row_within { IsRowWithin meter.old row.now }
    requires frame { IsFrame variables frame.now }
    requires frame_within { All (IsRowWithin meter.old) frame.now }
    ensures { IsDone meter.old meter.new (λ made. IsThrough variables row.now frame.now made × IsRowWithin meter.old made) result }
{
    let sum = sum_through(alloc, row, frame, variables, meter)?;
    Ok(sum.row)
}

/// The same of a row over the columns and one column behind them, which is a variable more: a row over so many variables and that one.
/// Uses no unit.
///
/// # Errors
///
/// `Overflow` where a number passes the limit of the meter, and `NoMemory`.
pub fn through_behind(
    alloc: Global,
    row: &Row,
    frame: &[Row],
    variables: usize,
    meter: &mut Meter,
) -> Result<Row, Cut>
    requires row { IsWellFormed (length frame.now + 1) row.now }
    requires row_within { IsRowWithin meter.old row.now }
    requires frame { IsFrame variables frame.now }
    requires frame_within { All (IsRowWithin meter.old) frame.now }
    ensures { IsDone meter.old meter.new
        (λ made. IsThroughBehind variables row.now frame.now made × IsRowWithin meter.old made) result }
{
    let mut front = row.copy(alloc)?;
    let last = front.coefs.remove(frame.len());
    let sum = sum_through(alloc, &front, frame, variables, meter)?;
    let product = sum.scale.mul(last, meter)?;
    let mut made = sum.row;
    made.coefs.push(product)?;
    Ok(made)
}

/// Each of the rows over the columns as a row over so many variables. Uses no unit.
///
/// # Errors
///
/// `Overflow` where a number passes the limit of the meter, and `NoMemory`.
pub fn all_through(
    alloc: Global,
    rows: &Rows,
    frame: &[Row],
    variables: usize,
    meter: &mut Meter,
) -> Result<Rows, Cut>
    requires rows { All (IsWellFormed (length frame.now)) rows.now }
    requires rows_within { All (IsRowWithin meter.old) rows.now }
    requires frame { IsFrame variables frame.now }
    requires frame_within { All (IsRowWithin meter.old) frame.now }
    ensures { IsDone meter.old meter.new
        (λ made. AllZip (λ row through. IsThrough variables row frame.now through) rows.now made × All (IsRowWithin meter.old) made)
        result }
{
    let mut made = Rows::with_capacity(alloc, rows.len())?;
    for row in rows.as_slice() {
        made.push(through(alloc, row, frame, variables, meter)?)?;
    }
    Ok(made)
}

/// Each of the rows over the columns and one column behind them as a row over so many variables and that one. Uses no unit.
///
/// # Errors
///
/// `Overflow` where a number passes the limit of the meter, and `NoMemory`.
pub fn all_through_behind(
    alloc: Global,
    rows: &Rows,
    frame: &[Row],
    variables: usize,
    meter: &mut Meter,
) -> Result<Rows, Cut>
    requires rows { All (IsWellFormed (length frame.now + 1)) rows.now }
    requires rows_within { All (IsRowWithin meter.old) rows.now }
    requires frame { IsFrame variables frame.now }
    requires frame_within { All (IsRowWithin meter.old) frame.now }
    ensures { IsDone meter.old meter.new
        (λ made. AllZip (λ row through. IsThroughBehind variables row frame.now through) rows.now made × All (IsRowWithin meter.old) made)
        result }
{
    let mut made = Rows::with_capacity(alloc, rows.len())?;
    for row in rows.as_slice() {
        made.push(through_behind(alloc, row, frame, variables, meter)?)?;
    }
    Ok(made)
}
