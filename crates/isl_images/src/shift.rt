//! Systems over more columns, and systems of two that share some of theirs.

ghost use Rattle.std.specs.Prelude.{◌≡◌, ◌+◌, ◌<◌, ◌^◌, IfOk};
ghost use Rattle.isl_meter.specs.Gauge.{Gauge};
ghost use Rattle.isl_piece.specs.System.{IsSystemWithin, free_columns};
ghost use Rattle.isl_images.specs.Shift.{shifted_places, IsOfBoth, IsShift, IsShifted, ShareMiddle};

use isl_elim::columns_between;
use isl_piece::{System, meet};
use std::alloc::{AllocError, Global};

/// Where columns stand among more of them: the first so many stay, and the others stand from `start` on.
#[derive(Clone, Copy)]
pub(crate) struct Shift {
    pub columns: usize,
    pub stay: usize,
    pub start: usize,
}

// The places of so many columns.
fn shifted_places(alloc: Global, free: usize, shift: Shift) -> Result<Vec<usize>, AllocError>
    requires { IsShift free shift }
    ensures { IfOk result (λ places. places.items ≡ shifted_places free shift) }
{
    let mut places = columns_between(alloc, 0, shift.stay)?;
    let mut behind = columns_between(alloc, shift.start, shift.start + (free - shift.stay))?;
    places.append(&mut behind)?;
    Ok(places)
}

/// The system, with its columns at other places.
pub(crate) fn shifted(alloc: Global, system: &System, shift: Shift) -> Result<System, AllocError>
    requires { IsShift (free_columns system.now) shift }
    ensures columns { IfOk result (λ made. free_columns made ≡ shift.columns) }
    ensures shifted { (g : Gauge) → IsSystemWithin g system.now → IfOk result (IsShifted g system.now shift) }
{
    let places = shifted_places(alloc, system.free(), shift)?;
    system.placed(alloc, shift.columns, places.as_slice())
}

/// The system over parameters, x, y and z that holds where the first holds at parameters, x and y, and the second at parameters, y
/// and z. There are so many parameters, and x has so many columns.
pub(crate) fn of_both(
    alloc: Global,
    first: &System,
    second: &System,
    parameters: usize,
    from: usize,
) -> Result<System, AllocError>
    requires share { ShareMiddle first.now second.now parameters from }
    requires fits { free_columns second.now + from < 2 ^ 64 }
    ensures { (g : Gauge) → IsSystemWithin g first.now → IsSystemWithin g second.now
        → IfOk result (IsOfBoth g first.now second.now parameters from) }
{
    let columns = second.free() + from;
    let own = Shift {
        columns,
        stay: parameters,
        start: parameters,
    };
    let behind = Shift {
        columns,
        stay: parameters,
        start: parameters + from,
    };
    meet(
        alloc,
        &shifted(alloc, first, own)?,
        &shifted(alloc, second, behind)?,
    )
}
