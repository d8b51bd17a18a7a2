//! Loops from values.

ghost use Rattle.std.specs.Prelude.{◌≡◌, ◌≤◌, ℕ, List, All, IfOk, length};
ghost use Rattle.isl_meter.specs.Gauge.{IsMetered};
ghost use Rattle.isl_loop.specs.Formed.{IsLoopOver};
ghost use Rattle.isl_loop.specs.Program.{IsProgram};
ghost use Rattle.isl_union.specs.KeptValue.{HasNoDefinitions};
ghost use Rattle.isl_union.specs.Numbers.{IsWithinLimit};
ghost use Rattle.isl_schedule.specs.Good.{IsGenerated, ListsCalls};
ghost use Rattle.isl_schedule.specs.Schedule.{IsSchedule};
ghost use Rattle.isl_space.specs.Form.{width_of};
ghost use Rattle.isl_piece.specs.declared.row.Row.{Row};
ghost use Rattle.isl_nest.specs.Changing.{AsksWhatChanges};
ghost use Rattle.isl_nest.specs.Strided.{IsStrided};
ghost use Rattle.isl_calls.specs.Items.{AreItemsOf, IsOnlyItem};
ghost use Rattle.isl_loops.specs.Strided.{IsNeverIdle, IsStridedSet};

use crate::groups::Extent;
use crate::together::together;
use isl_calls::items_of;
use isl_frame::own_frame;
use isl_loop::Loop;
use isl_meter::{Cut, Meter};
use isl_nest::{Item, Place};
use isl_piece::Rows;
use isl_schedule::GenFault;
use isl_union::Value;
use std::alloc::Global;

// How many numbers the times of the items have; 0 where there is no item.
fn times_of(items: &[Item]) -> usize
    ensures same { All (λ a. All (λ b. a.times ≡ b.times) items.now) items.now → All (λ item. item.times ≡ result) items.now }
    ensures few { (most : ℕ) → All (λ item. item.times ≤ most) items.now → result ≤ most }
{
    match items.first() {
        Some(item) => item.times,
        None => 0,
    }
}

// The loops of the items of a value.
fn loops_of(alloc: Global, value: &Value, items: Vec<Item>, meter: &mut Meter) -> Result<Loop, Cut>
    requires { AreItemsOf meter.old value.now items.items }
    ensures lists { IfOk result (ListsCalls value.now) }
    ensures strided { (levels : ℕ) (rows : List Row) → IsOnlyItem levels rows items.items
        → IsStrided (length value.now.params) levels rows → IfOk result (IsNeverIdle value.now.params levels) }
    ensures over { IfOk result (IsLoopOver meter.old (length value.now.params)) }
    ensures changing { IfOk result (AsksWhatChanges (length value.now.params)) }
    ensures program { IfOk result (IsProgram value.now.params) }
    ensures meter { IsMetered meter.old meter.new result }
{
    // For what a meter keeps: it has at least 8 bits.
    let _limit = meter.limit();
    let params = value.params().len();
    let times = times_of(items.as_slice());
    let place = Place {
        variables: params,
        frame: own_frame(alloc, params)?,
        context: Rows::new(alloc),
    };
    together(alloc, Extent { params, times }, &place, items, meter)
}

/// Loops that visit what a value without defined columns tells to be visited, each point once, and none before one of an earlier time; the
/// points of a set at themselves. Their text tells what they execute. No loop asks at each turn what does not change. Of a strided set no turn
/// of a loop is idle. (isl manual, on code generation)
///
/// # Errors
///
/// The first that is so: `Nested` exactly where a pair is visited, `TimeShape` exactly where two times differ in shape, which both are
/// told without work; `Unbounded` where infinitely many points are visited at some valuation; `SeveralTimes` where a point has two times
/// at one. Then as every call under a meter.
pub fn codegen(alloc: Global, value: &Value, meter: &mut Meter) -> Result<Loop, GenFault>
    requires plain { HasNoDefinitions value.now }
    requires within { IsWithinLimit meter.old value.now }
    ensures tree { IsGenerated value.now meter.old meter.new result }
    ensures schedule { IfOk result (λ _. IsSchedule value.now) }
    ensures strided { (set : IsStridedSet value.now) → IfOk result (IsNeverIdle value.now.params (width_of set.form)) }
    ensures changing { IfOk result (AsksWhatChanges (length value.now.params)) }
    ensures program { IfOk result (IsProgram value.now.params) }
{
    let items = items_of(alloc, value, meter)?;
    Ok(loops_of(alloc, value, items, meter)?)
}
