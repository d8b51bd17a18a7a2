//! The items of a value.

ghost use Rattle.std.specs.Prelude.{◌≡◌, ◌↔◌, ◌+◌, ◌-◌, ◌*◌, IsTrue, All, IfOk, MatchResult, length, min};
ghost use Rattle.std.specs.List.{AllZip};
ghost use Rattle.isl_difference.specs.Weight.{AreTooHeavy};
ghost use Rattle.isl_meter.specs.Gauge.{IsCharged, IsMetered};
ghost use Rattle.isl_union.specs.KeptValue.{HasNoDefinitions};
ghost use Rattle.isl_union.specs.Numbers.{IsWithinLimit};
ghost use Rattle.isl_schedule.specs.Refused.{IsRefused};
ghost use Rattle.isl_schedule.specs.Schedule.{IsSchedule};
ghost use Rattle.isl_calls.specs.Calls.{AreCalls};
ghost use Rattle.isl_calls.specs.Items.{AreItemsOf, IsItemOf};

use crate::item::item_of;
use crate::{Calls, calls_of};
use isl_difference::are_too_many;
use isl_meter::{Cut, Meter};
use isl_nest::Item;
use isl_schedule::GenFault;
use isl_union::Value;
use std::alloc::Global;

// Whether so many items like one of these calls, each with a cover of each level, take more memory than is kept.
fn have_too_many(items: usize, params: usize, calls: &Calls) -> bool
    ensures { IsTrue result ↔ AreTooHeavy (min (items * (calls.now.system.columns - params)) usize.MAX * (length calls.now.system.rows + 1))
        calls.now.system.columns }
{
    let levels = calls.system.columns.saturating_sub(params);
    are_too_many(items.saturating_mul(levels), &calls.system)
}

// An item for each of the calls, in order.
fn all_items(
    alloc: Global,
    params: usize,
    calls: &[Calls],
    meter: &mut Meter,
) -> Result<Vec<Item>, Cut>
    requires { All (AreCalls meter.old params) calls.now }
    ensures items { IfOk result (λ items. AllZip (IsItemOf meter.old params) calls.now items.items) }
    ensures meter { IsMetered meter.old meter.new result }
{
    let mut items = Vec::with_capacity(alloc, calls.len())?;
    for one in calls {
        if have_too_many(items.len(), params, one) {
            return Err(Cut::NoMemory);
        }
        items.push(item_of(alloc, params, one, meter)?)?;
    }
    Ok(items)
}

/// What loops are made of for a value without defined columns: items with covers, which together tell what it tells to be visited, and
/// when, no two of them the same call at one time. (isl manual, on code generation)
///
/// # Errors
///
/// The first that is so: `Nested` exactly where a pair is visited, `TimeShape` exactly where two times differ in shape, which both are
/// told without work; `Unbounded` where infinitely many points are visited at some valuation; `SeveralTimes` where a point has two times
/// at one. Then as every call under a meter.
pub fn items_of(alloc: Global, value: &Value, meter: &mut Meter) -> Result<Vec<Item>, GenFault>
    requires plain { HasNoDefinitions value.now }
    requires within { IsWithinLimit meter.old value.now }
    ensures { MatchResult result
        (λ items. IsSchedule value.now × AreItemsOf meter.old value.now items.items × IsCharged meter.old meter.new)
        (IsRefused value.now meter.old meter.new) }
{
    let calls = calls_of(alloc, value, meter)?;
    Ok(all_items(alloc, value.params().len(), calls.as_slice(), meter)?)
}
