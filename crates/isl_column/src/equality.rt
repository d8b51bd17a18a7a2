//! The equality by which a column is taken out, and what it leaves.

ghost use Rattle.std.specs.Prelude.{◌≡◌, ◌≢◌, ◌↔◌, ◌-◌, ◌<◌, ◌+◌, pos, All, IfOk, length, take, IsTrue, MatchOption};
ghost use Rattle.isl_meter.specs.Gauge.{IsDone};
ghost use Rattle.isl_piece.specs.declared.row.RowKind.TheVariants.{Zero};
ghost use Rattle.isl_piece.specs.Row.{coef_at};
ghost use Rattle.isl_shadows.specs.Column.{HoldAtSome};
ghost use Rattle.isl_shadows.specs.Magnitude.{IsSparedAt};
ghost use Rattle.isl_shadows.specs.Solved.{solved_rows, IsLeastAmong};
ghost use Rattle.isl_omega.specs.Column.{IsAnswerFor, IsProper};
ghost use Rattle.isl_omega.specs.Equality.{HasEquality};
ghost use Rattle.isl_omega.specs.Units.{IsAnsweredFor};

use isl_meter::{Cut, Meter};
use isl_omega::column::Column;
use isl_omega::equality::equality_step;
use isl_piece::{Row, RowKind, Rows};
use std::alloc::Global;

// Whether the row is an equality that has the column.
fn is_equality(row: &Row, column: Column) -> bool
    requires width { length row.now.coefs ≡ column.columns }
    ensures { IsTrue result ↔ ((row.now.kind ≡ Zero) × (coef_at row.now column.at ≢ pos 0)) }
{
    row.kind == RowKind::Zero && !row.coefs.get(column.at).is_zero()
}

// Of an equality that was found and the row at a place, the one with the lesser coefficient, if it is an equality with the column.
fn better(
    rows: &[Row],
    found: Option<usize>,
    at: usize,
    column: Column,
    meter: &Meter,
) -> Option<usize>
    requires rows { All (IsProper meter.now column.columns) rows.now }
    requires found { MatchOption found (¬ HasEquality column.at (take at rows.now)) (IsLeastAmong column.at rows.now at) }
    requires at_in { at < length rows.now }
    ensures { MatchOption result (¬ HasEquality column.at (take (at + 1) rows.now)) (IsLeastAmong column.at rows.now (at + 1)) }
{
    let row = &rows[at];
    if !is_equality(row, column) {
        return found;
    }
    if let Some(old) = found
        && rows[old].coefs.get(column.at).abs(meter) <= row.coefs.get(column.at).abs(meter)
    {
        return found;
    }
    Some(at)
}

/// The place of the first of the equalities with the least coefficient at the column.
pub(crate) fn equality_at(rows: &[Row], column: Column, meter: &Meter) -> Option<usize>
    requires rows { All (IsProper meter.now column.columns) rows.now }
    ensures { MatchOption result (¬ HasEquality column.at rows.now) (IsLeastAmong column.at rows.now (length rows.now)) }
{
    let mut found = None;
    for i in 0..rows.len() {
        found = better(rows, found, i, column, meter);
    }
    found
}

/// What that equality leaves of the rows: they are a function of the rows, and no unit is used.
pub(crate) fn solved_left(
    alloc: Global,
    rows: &[Row],
    at: usize,
    column: Column,
    meter: &mut Meter,
) -> Result<Option<Rows>, Cut>
    requires rows { All (IsProper meter.old column.columns) rows.now }
    requires equality { IsLeastAmong column.at rows.now (length rows.now) at }
    ensures exact { IsDone meter.old meter.new (IsAnswerFor meter.old (column.columns - 1) (HoldAtSome rows.now column.at)) result }
    ensures left { IfOk result (λ left. left ≡ solved_rows rows.now column.at) }
    ensures no_overflow { IsSparedAt meter.old rows.now column.at result }
    ensures answered { IsAnsweredFor 1 meter.old meter.new result }
{
    let left = equality_step(alloc, rows, &rows[at], column, meter)?;
    Ok(left)
}
