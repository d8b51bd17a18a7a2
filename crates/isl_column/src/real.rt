//! The real shadow of a column: what its bounds say of the other columns where any number may stand there.

ghost use Rattle.std.specs.Prelude.{◌≡◌, ◌-◌, ◌<◌, ◌*◌, [], All, length, IfOk};
ghost use Rattle.isl_meter.specs.Gauge.{IsDone, IsMetered};
ghost use Rattle.isl_omega.specs.Column.{IsAnswerFor, IsProper};
ghost use Rattle.isl_omega.specs.Equality.{HasEquality};
ghost use Rattle.isl_omega.specs.Units.{IsDoneFor};
ghost use Rattle.isl_shadows.specs.Column.{HoldAtSome};
ghost use Rattle.isl_shadows.specs.Exact.{exact_rows, pairs_on};
ghost use Rattle.isl_shadows.specs.RealShadow.{IsImplied, bounds_and_free};
ghost use Rattle.isl_shadows.specs.Residue.{HasNumber};
ghost use Rattle.isl_shadows.specs.Solved.{solved_rows};
ghost use Rattle.isl_omega.specs.Sides.{AreSided, on_side};

use crate::equality::{equality_at, solved_left};
use crate::exact::real_left;
use isl_meter::{Cut, Meter};
use isl_omega::column::Column;
use isl_omega::sides::{Side, Sides};
use isl_omega::step::congruence_step;
use isl_piece::{Row, Rows};
use std::alloc::{AllocError, Global};

// The bounds and the rows that do not depend on the column, one list again.
fn bounds_and_free(alloc: Global, sides: &Sides) -> Result<Rows, AllocError>
    ensures { IfOk result (λ rows. rows ≡ bounds_and_free sides.now) }
{
    let mut rows = sides.lowers.copy(alloc)?;
    rows.append(alloc, &sides.uppers)?;
    rows.append(alloc, &sides.free)?;
    Ok(rows)
}

// The real shadow of sides with congruences, which become a substitution for the column.
fn substituted_shadow(
    alloc: Global,
    sides: &Sides,
    column: Column,
    meter: &mut Meter,
) -> Result<Option<Rows>, Cut>
    requires sided { AreSided meter.old column.columns column.at sides.now }
    requires some { 0 < length sides.now.divides }
    ensures { IsDoneFor (length sides.now.lowers * length sides.now.uppers) meter.old meter.new
        (IsImplied meter.old (column.columns - 1) (HasNumber sides.now column.at)) result }
{
    let new = congruence_step(alloc, sides, column, meter)?;
    let rows = bounds_and_free(alloc, &new)?;
    real_left(alloc, rows.as_slice(), column, meter)
}

// The real shadow where no equality has the column.
fn bounds_shadow(
    alloc: Global,
    rows: &[Row],
    column: Column,
    meter: &mut Meter,
) -> Result<Option<Rows>, Cut>
    requires rows { All (IsProper meter.old column.columns) rows.now }
    requires none { ¬ HasEquality column.at rows.now }
    ensures exact { IsDoneFor (pairs_on column.at rows.now) meter.old meter.new
        (IsImplied meter.old (column.columns - 1) (HoldAtSome rows.now column.at)) result }
    ensures left { on_side Side.Divides column.at rows.now ≡ [] → IfOk result (λ left. left ≡ exact_rows rows.now column.at) }
{
    let sides = Sides::of(alloc, rows, column, meter)?;
    if sides.divides.is_empty() {
        return real_left(alloc, rows, column, meter);
    }
    substituted_shadow(alloc, &sides, column, meter)
}

/// The real shadow of the rows, without the column: rows that hold wherever some whole number put at the column makes `rows` hold, and
/// perhaps elsewhere; none only where no whole numbers make `rows` hold.
///
/// Where an equality has the column, no unit is used, and it is what is left exactly. Else a unit is used for each pair of a lower and an
/// upper bound; and where no congruence has the column, these are the rows that do not depend on it and the real rows of all pairs.
///
/// # Errors
///
/// `Overflow` where a number passes the limit of the meter, `Budget` where its units are used up, and `NoMemory`.
pub fn real_shadow(
    alloc: Global,
    rows: &[Row],
    column: Column,
    meter: &mut Meter,
) -> Result<Option<Rows>, Cut>
    requires rows { All (IsProper meter.old column.columns) rows.now }
    ensures implied { IfOk result (IsImplied meter.old (column.columns - 1) (HoldAtSome rows.now column.at)) }
    ensures meter { IsMetered meter.old meter.new result }
    ensures equality { HasEquality column.at rows.now → IsDone meter.old meter.new (λ left. left ≡ solved_rows rows.now column.at) result }
    ensures solved { HasEquality column.at rows.now
        → IsDone meter.old meter.new (IsAnswerFor meter.old (column.columns - 1) (HoldAtSome rows.now column.at)) result }
    ensures pairs { ¬ HasEquality column.at rows.now → IsDoneFor (pairs_on column.at rows.now) meter.old meter.new (λ _. Unit {0}) result }
    ensures real_rows { ¬ HasEquality column.at rows.now → on_side Side.Divides column.at rows.now ≡ [] → IfOk result
        (λ left. left ≡ exact_rows rows.now column.at) }
{
    if let Some(at) = equality_at(rows, column, meter) {
        return solved_left(alloc, rows, at, column, meter);
    }
    bounds_shadow(alloc, rows, column, meter)
}
