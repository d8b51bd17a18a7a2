//! Whether there are loops that visit what a value tells.

ghost use Rattle.std.specs.Prelude.{◌↔◌, IfOk, IsTrue, MatchResult};
ghost use Rattle.isl_meter.specs.Gauge.{IsCharged, IsMetered};
ghost use Rattle.isl_union.specs.Finite.{IsFinite};
ghost use Rattle.isl_union.specs.Numbers.{IsWithinLimit};
ghost use Rattle.isl_schedule.specs.Refused.{IsRefused};
ghost use Rattle.isl_schedule.specs.Schedule.{IsSchedule};

use crate::GenFault;
use crate::shapes::{have_nested, have_one_shape};
use crate::times::are_single;
use crate::visits::visits_of;
use isl_meter::{Cut, Meter};
use isl_union::{OpFault, Value};
use std::alloc::Global;

// Whether it has finitely many elements at every valuation.
fn is_finite(alloc: Global, value: &Value, meter: &mut Meter) -> Result<bool, Cut>
    requires { IsWithinLimit meter.old value.now }
    ensures exact { IfOk result (λ finite. IsTrue finite ↔ IsFinite value.now) }
    ensures meter { IsMetered meter.old meter.new result }
{
    match value.bounded(alloc, meter) {
        Ok(finite) => Ok(finite),
        Err(OpFault::Cut(cut)) => Err(cut),
        Err(OpFault::TooWide) => unreachable!(),
    }
}

/// Whether loops can visit each point of the value once, at its time: the points of a set at themselves, what a map relates to times
/// at these. Each two lists of points use a unit for each place at which times may differ. (isl manual, on code generation)
///
/// # Errors
///
/// The first that is so: `Nested` exactly where a pair is visited, `TimeShape` exactly where two times differ in shape, which both are
/// told without work; `Unbounded` where infinitely many points are visited at some valuation; `SeveralTimes` where a point has two times
/// at one. Then as every call under a meter.
pub fn check_schedule(alloc: Global, value: &Value, meter: &mut Meter) -> Result<(), GenFault>
    requires { IsWithinLimit meter.old value.now }
    ensures { MatchResult result
        (λ _. IsSchedule value.now × IsCharged meter.old meter.new)
        (IsRefused value.now meter.old meter.new) }
{
    let pieces = value.pieces();
    if have_nested(pieces) {
        return Err(GenFault::Nested);
    }
    if !have_one_shape(pieces) {
        return Err(GenFault::TimeShape);
    }
    if !is_finite(alloc, value, meter)? {
        return Err(GenFault::Unbounded);
    }
    let visits = visits_of(alloc, value.params(), pieces, meter)?;
    if !are_single(alloc, value.params(), visits.as_slice(), meter)? {
        return Err(GenFault::SeveralTimes);
    }
    Ok(())
}
