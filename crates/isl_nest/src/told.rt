//! Columns that an equality tells.

ghost use Rattle.std.specs.Prelude.{◌+◌, IfOk, MatchOption, length};
ghost use Rattle.isl_meter.specs.Gauge.{IsMetered};
ghost use Rattle.isl_frame.specs.Needed.{AreRowsOver};
ghost use Rattle.isl_nest.specs.Equality.{IsEquality};

use crate::Place;
use isl_frame::{all_through, needed, solution, through_behind};
use isl_meter::{Cut, Meter};
use isl_piece::{Row, Rows};
use std::alloc::Global;

/// A column's quotient of a form over the variables, and rows that say where it is whole and its own rows hold.
#[derive(Drop)]
pub(crate) struct Told {
    pub entry: Row,
    pub rows: Rows,
}

impl Told {
    ghost use Rattle.isl_nest.specs.Places.{IsPlace};
    ghost use Rattle.isl_nest.specs.Told.{IsTold, IsUntold};

    // What the equality over the place's columns and the next one tells of it, and the own rows of the next one; `None` where they hold
    // nowhere.
    pub(crate) fn of(
        alloc: Global,
        place: &Place,
        equality: &Row,
        own: &Rows,
        meter: &mut Meter,
    ) -> Result<Option<Told>, Cut>
        requires place { IsPlace meter.old place.now }
        requires equality { IsEquality meter.old (length place.now.frame) equality.now }
        requires own { AreRowsOver meter.old (length place.now.frame + 1) own.now }
        ensures told { IfOk result (λ told. MatchOption told (IsUntold place.now equality.now own.now)
            (IsTold meter.old place.now equality.now own.now)) }
        ensures meter { IsMetered meter.old meter.new result }
    {
        let variables = place.variables;
        let through = through_behind(alloc, equality, place.frame.as_slice(), variables, meter)?;
        let entry = solution(alloc, &through, variables, meter)?;
        let mut frame = place.frame.copy(alloc)?;
        frame.push(entry.copy(alloc)?)?;
        let mut rows = all_through(alloc, own, frame.as_slice(), variables, meter)?;
        rows.push(entry.copy(alloc)?)?;
        let Some(normal) = rows.normalise(alloc, meter)? else {
            return Ok(None);
        };
        let rows = needed(alloc, &place.context, normal, 0, variables, meter)?;
        Ok(Some(Told { entry, rows }))
    }
}
