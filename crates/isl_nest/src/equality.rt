//! Equalities that tell columns.

ghost use Rattle.std.specs.Prelude.{◌≡◌, ◌≢◌, ◌↔◌, ◌+◌, ◌^◌, ◌<◌, pos, All, Any, Contains, IfOk, IfSome, IsTrue, length};
ghost use Rattle.isl_meter.specs.Gauge.{IsWithin};
ghost use Rattle.isl_piece.specs.declared.row.RowKind.TheVariants.{Zero};
ghost use Rattle.isl_piece.specs.Row.{coef_at, IsRowWithin, IsWellFormed};
ghost use Rattle.isl_frame.specs.Needed.{AreRowsOver};
ghost use Rattle.isl_nest.specs.Covered.{view_of, IsCovered};
ghost use Rattle.isl_nest.specs.Equality.{IsEquality, IsSaidBy, MayTell, TellsForm};
ghost use Rattle.isl_nest.specs.Places.{IsPlace};
ghost use Rattle.isl_nest.specs.Striding.{Asks};

use crate::naming::named;
use crate::{Item, Place};
use isl_meter::{Int, Meter};
use isl_piece::{Row, RowKind, Rows};
use std::alloc::{AllocError, Global};

// An equality among the rows that names the column.
fn equality_in(alloc: Global, rows: &Rows, column: usize) -> Result<Option<Row>, AllocError>
    requires { All (IsWellFormed (column + 1)) rows.now }
    ensures { IfOk result (λ found. IfSome found (λ r. Contains rows.now r × (r.kind ≡ Zero) × (coef_at r column ≢ pos 0))) }
{
    for row in rows.as_slice() {
        if row.kind == RowKind::Zero && !row.coefs.get(column).is_zero() {
            return Ok(Some(row.copy(alloc)?));
        }
    }
    Ok(None)
}

// An equality that tells the last of so many columns and one more, of the own rows, or of the system where it is the only one.
fn equality_at(
    alloc: Global,
    own: &Rows,
    systems: &[Rows],
    column: usize,
    meter: &Meter,
) -> Result<Option<Row>, AllocError>
    requires own { AreRowsOver meter.now (column + 1) own.now }
    requires systems { All (AreRowsOver meter.now (column + 1)) systems.now }
    ensures { IfOk result (λ found. IfSome found (λ r. IsEquality meter.now column r × IsSaidBy own.now systems.now r)) }
{
    if let Some(row) = equality_in(alloc, own, column)? {
        return Ok(Some(row));
    }
    if systems.len() == 1 {
        return equality_in(alloc, &systems[0], column);
    }
    Ok(None)
}

// Whether the equality tells the column behind those of the place as a form.
fn tells_form(place: &Place, equality: &Row, meter: &Meter) -> bool
    requires row { IsWellFormed (length place.now.frame + 1) equality.now }
    requires within { IsRowWithin meter.now equality.now }
    ensures { IsTrue result → TellsForm place.now.frame equality.now }
{
    let column = place.frame.len();
    if equality.coefs.get(column).abs(meter) != Int::ONE {
        return false;
    }
    for i in 0..column {
        if !equality.coefs.get(i).is_zero() && place.frame.as_slice()[i].modulus() != Int::ONE {
            return false;
        }
    }
    true
}

// Whether a congruence of a later column names the column.
fn is_asked(rows: &Rows, column: usize) -> bool
    requires room { column + 1 < 2 ^ 64 }
    requires wide { All (λ r. column < length r.coefs) rows.now }
    ensures { IsTrue result ↔ Any (Asks column) rows.now }
{
    for row in rows.as_slice() {
        if row.kind == RowKind::Divides
            && named(&row.coefs) > column + 1
            && !row.coefs.get(column).is_zero()
        {
            return true;
        }
    }
    false
}

// The equality that tells the column behind those of the place. `None` where there is none, and where a congruence of a later column asks
// for what would be a quotient: a loop goes through the column then, so that the congruence tells a step.
pub(crate) fn told_by(
    alloc: Global,
    item: &Item,
    place: &Place,
    own: &Rows,
    systems: &[Rows],
    meter: &Meter,
) -> Result<Option<Row>, AllocError>
    requires item { IsCovered meter.now item.now }
    requires room { length place.now.frame < item.now.params + item.now.levels }
    requires own { AreRowsOver meter.now (length place.now.frame + 1) own.now }
    requires systems { All (AreRowsOver meter.now (length place.now.frame + 1)) systems.now }
    ensures equality { IfOk result (λ found. IfSome found (λ r. IsEquality meter.now (length place.now.frame) r
        × IsSaidBy own.now systems.now r)) }
    ensures may { IfOk result (λ found. IfSome found (MayTell (view_of item.now) place.now)) }
{
    let column = place.frame.len();
    let Some(equality) = equality_at(alloc, own, systems, column, meter)? else {
        return Ok(None);
    };
    if tells_form(place, &equality, meter)
        || item.params + item.times <= column
        || !is_asked(&item.rows, column)
    {
        return Ok(Some(equality));
    }
    Ok(None)
}
