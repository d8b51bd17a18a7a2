//! Groups of bounds on either side of a column.

ghost use Rattle.std.specs.Prelude.{◌≡◌, ◌+◌, ◌++◌, All, IfOk, length};
ghost use Rattle.isl_meter.specs.Gauge.{IsDone};
ghost use Rattle.isl_frame.specs.Needed.{AreRowsOver};
ghost use Rattle.isl_bounds.specs.Bound.{IsEnd};
ghost use Rattle.isl_bounds.specs.Ends.{AreEnded};
ghost use Rattle.isl_bounds.specs.declared.side.Side.TheVariants.{Low, High};
ghost use Rattle.isl_nest.specs.Places.{AreEndsThrough, IsPlace};

use crate::Place;
use isl_bounds::Ends;
use isl_frame::all_through_behind;
use isl_meter::{Cut, Meter};
use isl_piece::Rows;
use std::alloc::{AllocError, Global};

/// Groups of bounds from below, and from above.
#[derive(Drop)]
pub(crate) struct Sides {
    pub lows: Vec<Rows>,
    pub highs: Vec<Rows>,
}

// The rows, and the others.
pub(crate) fn joined(alloc: Global, rows: &Rows, others: &Rows) -> Result<Rows, AllocError>
    ensures { IfOk result (λ made. made ≡ rows.now ++ others.now) }
{
    let mut made = rows.copy(alloc)?;
    made.append(alloc, others)?;
    Ok(made)
}

// The rows over the place's columns and the next one, over the variables and one more, taken apart by what they say of it. Uses no unit.
pub(crate) fn ends_through(
    alloc: Global,
    place: &Place,
    rows: &Rows,
    meter: &mut Meter,
) -> Result<Ends, Cut>
    requires place { IsPlace meter.old place.now }
    requires rows { AreRowsOver meter.old (length place.now.frame + 1) rows.now }
    ensures { IsDone meter.old meter.new (AreEndsThrough meter.old place.now rows.now) result }
{
    let through = all_through_behind(alloc, rows, place.frame.as_slice(), place.variables, meter)?;
    Ok(Ends::of_rows(alloc, &through, place.variables, meter)?)
}

impl Sides {
    ghost use Rattle.isl_nest.specs.Around.{AreSides};

    // Groups of the own bounds and those of each system. Uses no unit.
    pub(crate) fn of(
        alloc: Global,
        place: &Place,
        own: &Ends,
        systems: &[Rows],
        meter: &mut Meter,
    ) -> Result<Sides, Cut>
        requires place { IsPlace meter.old place.now }
        requires low { All (IsEnd meter.old place.now.variables Low) own.now.low }
        requires high { All (IsEnd meter.old place.now.variables High) own.now.high }
        requires systems { All (AreRowsOver meter.old (length place.now.frame + 1)) systems.now }
        requires ended { All (AreEnded (length place.now.frame)) systems.now }
        ensures { IsDone meter.old meter.new (AreSides meter.old place.now own.now systems.now) result }
    {
        let mut lows = Vec::new(alloc);
        let mut highs = Vec::new(alloc);
        for system in systems {
            let ends = ends_through(alloc, place, system, meter)?;
            lows.push(joined(alloc, &own.low, &ends.low)?)?;
            highs.push(joined(alloc, &own.high, &ends.high)?)?;
        }
        Ok(Sides { lows, highs })
    }
}
