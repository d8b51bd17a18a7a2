//! Rows that say something where a context holds.

ghost use Rattle.std.specs.Prelude.{◌≡◌, ◌↔◌, ◌<◌, ◌≤◌, [], ◌∷◌, ◌++◌, IfOk, IsTrue, length, slice_index_or};
ghost use Rattle.std.specs.List.{remove};
ghost use Rattle.isl_meter.specs.Gauge.{IsMetered};
ghost use Rattle.isl_piece.specs.declared.row.Row.{Row};
ghost use Rattle.isl_frame.specs.Needed.{AreKnown, AreRowsOver, IsKnown, IsNeeded, NoneIsKnown};

use isl_difference::hold_throughout;
use isl_meter::{Cut, Meter};
use isl_piece::{Row, Rows, System};
use std::alloc::{AllocError, Global};

// Leaves the row at `at` out.
fn drop_row(rows: &mut Rows, at: usize)
    requires { at < length rows.old }
    ensures { rows.new ≡ remove rows.old at }
{
    rows.remove(at);
}

// The context, and the rows but the one at `at`.
fn beside(alloc: Global, context: &Rows, rows: &Rows, at: usize) -> Result<Rows, AllocError>
    requires { at < length rows.now }
    ensures { IfOk result (λ made. made ≡ context.now ++ remove rows.now at) }
{
    let mut others = rows.copy(alloc)?;
    drop_row(&mut others, at);
    let mut made = context.copy(alloc)?;
    made.append(alloc, &others)?;
    Ok(made)
}

// A list of one row.
fn only(alloc: Global, row: &Row) -> Result<Rows, AllocError>
    ensures { IfOk result (λ rows. rows ≡ row.now ∷ []) }
{
    let mut rows = Rows::new(alloc);
    rows.push(row.copy(alloc)?)?;
    Ok(rows)
}

// Whether the row at `at` holds wherever the context and the other rows do.
fn is_known(
    alloc: Global,
    context: &Rows,
    rows: &Rows,
    at: usize,
    variables: usize,
    meter: &mut Meter,
) -> Result<bool, Cut>
    requires context { AreRowsOver meter.old variables context.now }
    requires rows { AreRowsOver meter.old variables rows.now }
    requires inside { at < length rows.now }
    ensures exact { (d : Row) → IfOk result (λ known. IsTrue known ↔ IsKnown variables (context.now ++ remove rows.now at)
        (slice_index_or rows.now at d)) }
    ensures meter { IsMetered meter.old meter.new result }
{
    let others = beside(alloc, context, rows, at)?;
    let row = only(alloc, &rows.as_slice()[at])?;
    let system = System::from_rows(alloc, variables, others);
    hold_throughout(alloc, &system, &row, meter)
}

/// Whether the other rows hold wherever the rows do, over so many variables.
///
/// # Errors
///
/// `Overflow` where a number passes the limit of the meter, `Budget` where its units are used up, and `NoMemory`.
pub fn are_known(
    alloc: Global,
    rows: &Rows,
    others: &Rows,
    variables: usize,
    meter: &mut Meter,
) -> Result<bool, Cut>
    requires rows { AreRowsOver meter.old variables rows.now }
    requires others { AreRowsOver meter.old variables others.now }
    ensures exact { IfOk result (λ known. IsTrue known ↔ AreKnown variables rows.now others.now) }
    ensures meter { IsMetered meter.old meter.new result }
{
    let system = System::from_rows(alloc, variables, rows.copy(alloc)?);
    hold_throughout(alloc, &system, others, meter)
}

/// The rows over so many variables without those that hold wherever the context and the other ones do, asked from the last one on; in the
/// same order. At least `least` are kept; where more are, none of them holds wherever the context and the others do.
///
/// # Errors
///
/// `Overflow` where a number passes the limit of the meter, `Budget` where its units are used up, and `NoMemory`.
pub fn needed(
    alloc: Global,
    context: &Rows,
    rows: Rows,
    least: usize,
    variables: usize,
    meter: &mut Meter,
) -> Result<Rows, Cut>
    requires context { AreRowsOver meter.old variables context.now }
    requires rows { AreRowsOver meter.old variables rows }
    ensures exact { IfOk result (IsNeeded variables context.now rows) }
    ensures least { least ≤ length rows → IfOk result (λ kept. least ≤ length kept) }
    ensures none_known { IfOk result (λ kept. least < length kept → NoneIsKnown variables context.now kept) }
    ensures meter { IsMetered meter.old meter.new result }
{
    let mut kept = rows;
    let mut at = kept.len();
    while at > 0 && kept.len() > least {
        at -= 1;
        if is_known(alloc, context, &kept, at, variables, meter)? {
            drop_row(&mut kept, at);
        }
    }
    Ok(kept)
}
