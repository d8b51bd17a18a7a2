//! Rows that are asked in front of a nest.

ghost use Rattle.std.specs.Prelude.{◌≢◌, ◌+◌, ◌^◌, ◌<◌, ◌++◌, IfOk};
ghost use Rattle.isl_meter.specs.Gauge.{IsMetered};
ghost use Rattle.isl_frame.specs.Needed.{AreRowsOver};
ghost use Rattle.isl_nest.specs.Asked.{AreAsked};
ghost use Rattle.isl_nest.specs.Nest.{IsNestOver};
ghost use Rattle.isl_nest.specs.Places.{IsPlace};

use crate::naming::naming;
use crate::sides::joined;
use crate::{Nested, Place};
use isl_frame::{needed, widened};
use isl_meter::{Cut, Meter};
use isl_piece::Rows;
use std::alloc::Global;

// The rows and those of the nest, with so many levels left, but for rows that hold wherever the place's context and the others do and the
// nest's loop has a turn.
pub(crate) fn asked(
    alloc: Global,
    place: &Place,
    left: usize,
    rows: &Rows,
    nested: &Nested,
    meter: &mut Meter,
) -> Result<Rows, Cut>
    requires place { IsPlace meter.old place.now }
    requires room { left ≢ 0 → place.now.variables + 1 < 2 ^ 64 }
    requires rows { AreRowsOver meter.old place.now.variables rows.now }
    requires nested { IsNestOver meter.old place.now.variables nested.now }
    ensures asked { IfOk result (AreAsked place.now.variables place.now.context nested.now.inside (rows.now ++ nested.now.rows)) }
    ensures meter { IsMetered meter.old meter.new result }
{
    // For what a meter keeps: it has at least 8 bits.
    let _limit = meter.limit();
    let all = joined(alloc, rows, &nested.rows)?;
    if left == 0 {
        return Ok(all);
    }
    let context = widened(alloc, &place.context)?;
    let known = joined(alloc, &context, &nested.inside)?;
    let wide = widened(alloc, &all)?;
    let kept = needed(alloc, &known, wide, 0, place.variables + 1, meter)?;
    Ok(naming(alloc, &kept, 0, place.variables)?)
}
