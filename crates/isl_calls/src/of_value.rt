//! What is called for a value.

ghost use Rattle.std.specs.Prelude.{MatchResult};
ghost use Rattle.isl_meter.specs.Gauge.{IsCharged, IsCutBy};
ghost use Rattle.isl_union.specs.KeptValue.{HasNoDefinitions};
ghost use Rattle.isl_union.specs.Numbers.{IsWithinLimit};
ghost use Rattle.isl_schedule.specs.Refused.{IsRefused};
ghost use Rattle.isl_schedule.specs.Schedule.{IsSchedule};
ghost use Rattle.isl_calls.specs.Calls.{AreCallsOf};

use crate::Calls;
use crate::apart::apart;
use crate::laid::laid_out;
use isl_meter::{Cut, Meter};
use isl_schedule::{GenFault, check_schedule};
use isl_union::Value;
use std::alloc::Global;

// The calls of a value that tells when each point is visited.
fn scheduled_calls(alloc: Global, value: &Value, meter: &mut Meter) -> Result<Vec<Calls>, Cut>
    requires schedule { IsSchedule value.now }
    requires plain { HasNoDefinitions value.now }
    requires within { IsWithinLimit meter.old value.now }
    ensures { MatchResult result
        (λ calls. AreCallsOf meter.old value.now calls.items × IsCharged meter.old meter.new)
        (IsCutBy meter.old meter.new) }
{
    let laid = laid_out(alloc, value.params(), value.pieces(), meter)?;
    if laid.len() <= 1 {
        return Ok(laid);
    }
    apart(alloc, laid.as_slice(), meter)
}

/// What is to be called for a value without defined columns: each point that it tells to be visited, once, at its time; the points of a
/// set at themselves. A point of several pieces is called for the first of them alone. (isl manual, on code generation)
///
/// # Errors
///
/// The first that is so: `Nested` exactly where a pair is visited, `TimeShape` exactly where two times differ in shape, which both are
/// told without work; `Unbounded` where infinitely many points are visited at some valuation; `SeveralTimes` where a point has two times
/// at one. Then as every call under a meter.
pub fn calls_of(alloc: Global, value: &Value, meter: &mut Meter) -> Result<Vec<Calls>, GenFault>
    requires plain { HasNoDefinitions value.now }
    requires within { IsWithinLimit meter.old value.now }
    ensures { MatchResult result
        (λ calls. IsSchedule value.now × AreCallsOf meter.old value.now calls.items × IsCharged meter.old meter.new)
        (IsRefused value.now meter.old meter.new) }
{
    check_schedule(alloc, value, meter)?;
    Ok(scheduled_calls(alloc, value, meter)?)
}
