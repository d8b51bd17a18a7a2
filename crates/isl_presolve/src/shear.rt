//! Columns changed by a unimodular map, one step after another, so that the numbers of rows get small.

ghost use Rattle.std.specs.Prelude.{◌≡◌, ◌<◌, All, MatchOption, Ok, Some, length, map};
ghost use Rattle.isl_meter.specs.Gauge.{IsDone};
ghost use Rattle.isl_piece.specs.Normal.{IsNormal};
ghost use Rattle.isl_piece.specs.Row.{IsRowWithin};
ghost use Rattle.isl_omega.specs.Column.{IsProper};
ghost use Rattle.isl_presolve.specs.Emptiness.{HoldNowhere};
ghost use Rattle.isl_presolve.specs.Shear.{sheared, AreSheared, IsReduction};
ghost use Rattle.isl_presolve.specs.Unit.{IsUnitRow};

use crate::fixed::with_fixed;
use crate::reduction::next_shear;
use isl_meter::{Cut, Int, Meter};
use isl_piece::{Row, Rows};
use std::alloc::Global;

// How many steps are made at most.
const STEPS: usize = 100;

/// A step: the coefficient at `from`, so many times, is added to that at `to`.
#[derive(Clone, Copy)]
pub(crate) struct Shear {
    pub from: usize,
    pub to: usize,
    pub times: Int,
}

// The row after a step.
fn sheared(alloc: Global, row: &Row, shear: Shear, meter: &mut Meter) -> Result<Row, Cut>
    requires within { IsRowWithin meter.old row.now }
    requires from_in { shear.from < length row.now.coefs }
    requires to_in { shear.to < length row.now.coefs }
    ensures { IsDone meter.old meter.new
        (λ new. (new ≡ sheared shear.from shear.to shear.times row.now) × IsRowWithin meter.old new) result }
{
    let added = shear.times.mul(row.coefs.get(shear.from), meter)?;
    let number = row.coefs.get(shear.to).add(added, meter)?;
    let mut new = row.copy(alloc)?;
    new.coefs.set(shear.to, number);
    Ok(new)
}

// The rows after a step: they hold at no point exactly where the old ones do.
fn sheared_rows(
    alloc: Global,
    rows: &[Row],
    columns: usize,
    shear: Shear,
    meter: &mut Meter,
) -> Result<Rows, Cut>
    requires rows { All (IsProper meter.old columns) rows.now }
    requires from_in { shear.from < columns }
    requires to_in { shear.to < columns }
    ensures { IsDone meter.old meter.new
        (λ new. (new ≡ map (sheared shear.from shear.to shear.times) rows.now) × All (IsRowWithin meter.old) new) result }
{
    let mut new = Rows::with_capacity(alloc, rows.len())?;
    for row in rows {
        new.push(sheared(alloc, row, shear, meter)?)?;
    }
    Ok(new)
}

// The rows after steps by which their numbers get smaller, as long as some are seen.
fn shortened(alloc: Global, rows: Rows, columns: usize, meter: &mut Meter) -> Result<Rows, Cut>
    requires rows { All (IsProper meter.old columns) rows }
    ensures { IsDone meter.old meter.new (AreSheared meter.old columns rows) result }
{
    let mut rows = rows;
    for _ in 0..STEPS {
        let Some(shear) = next_shear(rows.as_slice(), columns, meter.limit()) else {
            break;
        };
        if shear.from >= columns || shear.to >= columns || shear.from == shear.to {
            break;
        }
        rows = sheared_rows(alloc, rows.as_slice(), columns, shear, meter)?;
    }
    Ok(rows)
}

/// Normal rows with small numbers, which hold at no point exactly where the old ones do; none where they are seen to hold nowhere. Where a
/// congruence and bounds leave one number at a column, they say so. Without a congruence, and with coefficients of 1, 0 and -1 alone, these
/// are the rows themselves.
///
/// # Errors
///
/// `Overflow` where a number passes the limit of the meter, and `NoMemory`.
pub fn reduced(
    alloc: Global,
    rows: Rows,
    columns: usize,
    meter: &mut Meter,
) -> Result<Option<Rows>, Cut>
    requires rows { All (IsProper meter.old columns) rows }
    requires normal { IsNormal rows }
    ensures exact { IsDone meter.old meter.new
        (λ found. MatchOption found (HoldNowhere columns rows) (IsReduction meter.old columns rows)) result }
    ensures itself { 0 < columns → All IsUnitRow rows → (result ≡ Ok (Some rows)) × (meter.new ≡ meter.old) }
{
    let Some(fixed) = with_fixed(alloc, rows, columns, meter)? else {
        return Ok(None);
    };
    if next_shear(fixed.as_slice(), columns, meter.limit()).is_none() {
        return Ok(Some(fixed));
    }
    let short = shortened(alloc, fixed, columns, meter)?;
    Ok(short.normalise(alloc, meter)?)
}
