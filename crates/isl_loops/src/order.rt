//! Which items come before which.

ghost use Rattle.std.specs.Prelude.{◌≡◌, ◌↔◌, ◌+◌, ◌^◌, ◌<◌, ◌≤◌, ◌<ℤ◌, ◌∷◌, ◌++◌, ℤ, List, [], All, IfOk, IsTrue, length};
ghost use Rattle.isl_meter.specs.Gauge.{Gauge, IsDone, IsMetered};
ghost use Rattle.isl_piece.specs.Row.{HoldsRow, IsRowWithin, IsWellFormed};
ghost use Rattle.isl_frame.specs.Frame.{columns_at};
ghost use Rattle.isl_frame.specs.Needed.{AreRowsOver};
ghost use Rattle.isl_nest.specs.Places.{IsPlace};
ghost use Rattle.isl_loops.specs.Order.{ArePairRows, IsLessRow, SystemsPrecede};
ghost use Rattle.isl_loops.specs.Together.{ComesBefore, IsOver};

use crate::groups::Extent;
use isl_frame::{all_through_behind, are_known, widened};
use isl_meter::{Cut, Int, Meter};
use isl_nest::{Item, Place};
use isl_piece::{Coefs, Row, RowKind, Rows};
use std::alloc::{AllocError, Global};

// The row over so many columns and two more that says that the number of the first of these is less.
fn less_row(alloc: Global, columns: usize) -> Result<Row, AllocError>
    requires { columns + 2 < 2 ^ 64 }
    ensures { IfOk result (IsLessRow columns) }
{
    let mut coefs = Coefs::zeros(alloc, columns)?;
    coefs.push(Int::new(-1))?;
    coefs.push(Int::ONE)?;
    Ok(Row::new(RowKind::AtLeast, coefs, Int::new(-1), Int::ONE))
}

// The rows over the variables and two columns that hold where the context does, and behind the place's columns the one system holds at the
// first of the two and the other at the second. Uses no unit.
fn pair_rows(
    alloc: Global,
    place: &Place,
    one: &Rows,
    other: &Rows,
    meter: &mut Meter,
) -> Result<Rows, Cut>
    requires place { IsPlace meter.old place.now }
    requires room { place.now.variables + 2 < 2 ^ 64 }
    requires one { AreRowsOver meter.old (length place.now.frame + 1) one.now }
    requires other { AreRowsOver meter.old (length place.now.frame + 1) other.now }
    ensures { IsDone meter.old meter.new (ArePairRows meter.old place.now one.now other.now) result }
{
    let variables = place.variables;
    let first = all_through_behind(alloc, one, place.frame.as_slice(), variables, meter)?;
    let frame = widened(alloc, &place.frame)?;
    let second = all_through_behind(alloc, other, frame.as_slice(), variables + 1, meter)?;
    let mut behind = widened(alloc, &place.context)?;
    behind.append(alloc, &first)?;
    let mut rows = widened(alloc, &behind)?;
    rows.append(alloc, &second)?;
    Ok(rows)
}

// Whether behind the place's columns each number at which the one system holds is less than each at which the other does.
fn systems_precede(
    alloc: Global,
    place: &Place,
    one: &Rows,
    other: &Rows,
    meter: &mut Meter,
) -> Result<bool, Cut>
    requires place { IsPlace meter.old place.now }
    requires room { place.now.variables + 2 < 2 ^ 64 }
    requires one { AreRowsOver meter.old (length place.now.frame + 1) one.now }
    requires other { AreRowsOver meter.old (length place.now.frame + 1) other.now }
    ensures precede { IfOk result (λ precede. IsTrue precede → SystemsPrecede place.now one.now other.now) }
    ensures meter { IsMetered meter.old meter.new result }
{
    // For what a meter keeps: it has at least 8 bits.
    let _limit = meter.limit();
    let rows = pair_rows(alloc, place, one, other, meter)?;
    let mut less = Rows::new(alloc);
    less.push(less_row(alloc, place.variables)?)?;
    are_known(alloc, &rows, &less, place.variables + 2, meter)
}

// Whether the system's numbers are less than those of each of the others.
fn precedes_all(
    alloc: Global,
    place: &Place,
    one: &Rows,
    others: &[Rows],
    meter: &mut Meter,
) -> Result<bool, Cut>
    requires place { IsPlace meter.old place.now }
    requires room { place.now.variables + 2 < 2 ^ 64 }
    requires one { AreRowsOver meter.old (length place.now.frame + 1) one.now }
    requires others { All (AreRowsOver meter.old (length place.now.frame + 1)) others.now }
    ensures precede { IfOk result (λ precedes. IsTrue precedes → All (SystemsPrecede place.now one.now) others.now) }
    ensures meter { IsMetered meter.old meter.new result }
{
    for other in others {
        if !systems_precede(alloc, place, one, other, meter)? {
            return Ok(false);
        }
    }
    Ok(true)
}

/// Whether the numbers of the one item's points in the column behind those of the place are told to be less than those of the other's.
///
/// # Errors
///
/// As every call under a meter.
pub(crate) fn comes_before(
    alloc: Global,
    extent: Extent,
    place: &Place,
    one: &Item,
    other: &Item,
    meter: &mut Meter,
) -> Result<bool, Cut>
    requires place { IsPlace meter.old place.now }
    requires one { IsOver meter.old extent.params extent.times one.now }
    requires other { IsOver meter.old extent.params extent.times other.now }
    requires low { extent.params ≤ length place.now.frame }
    requires inner { length place.now.frame < extent.params + extent.times }
    requires room { extent.params + extent.times < 2 ^ 63 }
    ensures before { IfOk result (λ before. IsTrue before → ComesBefore place.now one.now other.now) }
    ensures meter { IsMetered meter.old meter.new result }
{
    let level = place.frame.len() + 1 - extent.params;
    let others = other.covers[level].as_slice();
    for system in one.covers[level].as_slice() {
        if !precedes_all(alloc, place, system, others, meter)? {
            return Ok(false);
        }
    }
    Ok(true)
}
