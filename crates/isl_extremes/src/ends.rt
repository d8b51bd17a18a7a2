//! Whether numbers end on a side.

ghost use Rattle.std.specs.Prelude.{◌≡◌, ◌↔◌, ◌+◌, ◌-◌, ◌<◌, ◌∷◌, [], All, IfOk, IsTrue, length};
ghost use Rattle.isl_meter.specs.Gauge.{IsMetered};
ghost use Rattle.isl_piece.specs.System.{IsSystemWithin, free_columns};
ghost use Rattle.isl_extremes.specs.Systems.{AreAnswered, ArePlain, HasEnd, IsClosedOn};

use crate::systems::Order;
use isl_blocks::Direction;
use isl_elim::{columns_between, eliminate_all, is_empty};
use isl_meter::{Cut, Meter};
use isl_piece::{Row, System};
use isl_tower::{has_lower_end, has_upper_end};
use std::alloc::Global;

// Whether some row ends the column on the side.
fn has_end(rows: &[Row], col: usize, direction: Direction) -> bool
    requires { All (λ r. col < length r.coefs) rows.now }
    ensures { IsTrue result ↔ HasEnd direction col rows.now }
{
    match direction {
        Direction::Before => has_lower_end(rows, col),
        Direction::After => has_upper_end(rows, col),
    }
}

// Whether the last column has an end on the side, or there is no point.
fn is_closed(
    alloc: Global,
    system: &System,
    direction: Direction,
    meter: &mut Meter,
) -> Result<bool, Cut>
    requires within { IsSystemWithin meter.old system.now }
    requires plain { system.now.definitions ≡ [] }
    requires some_column { 0 < free_columns system.now }
    ensures exact { IfOk result (λ closed. IsTrue closed ↔ IsClosedOn direction system.now) }
    ensures meter { IsMetered meter.old meter.new result }
{
    if has_end(system.rows.as_slice(), system.free() - 1, direction) {
        return Ok(true);
    }
    is_empty(alloc, system, meter)
}

#[tactic(auto, using(std::proofs::lemmas::Grind::common_steps, isl_meter::proofs::CutLemmas::charges))]
fn are_closed(
    alloc: Global,
    systems: &[System],
    direction: Direction,
    meter: &mut Meter,
) -> Result<bool, Cut>
    requires within { All (IsSystemWithin meter.old) systems.now }
    requires plain { All (λ s. s.definitions ≡ []) systems.now }
    requires some_column { All (λ s. 0 < free_columns s) systems.now }
    ensures exact { IfOk result (λ closed. IsTrue closed ↔ All (IsClosedOn direction) systems.now) }
    ensures meter { IsMetered meter.old meter.new result }
{
    for system in systems {
        if !is_closed(alloc, system, direction, meter)? {
            return Ok(false);
        }
    }
    Ok(true)
}

// Whether the number at the place ends on the side, where the front and the numbers before it are given.
#[tactic(auto, using(std::proofs::lemmas::Grind::common_steps, isl_meter::proofs::CutLemmas::charges))]
fn is_ended(
    alloc: Global,
    system: &System,
    order: Order,
    at: usize,
    meter: &mut Meter,
) -> Result<bool, Cut>
    requires within { IsSystemWithin meter.old system.now }
    requires plain { system.now.definitions ≡ [] }
    requires free { free_columns system.now ≡ order.front + order.width }
    requires at { at < order.width }
    ensures answer { IfOk result (AreAnswered order at (system.now ∷ [])) }
    ensures meter { IsMetered meter.old meter.new result }
{
    let free = system.free();
    let columns = columns_between(alloc, order.front + at + 1, free)?;
    let left = eliminate_all(alloc, system, columns.as_slice(), meter)?;
    are_closed(alloc, left.as_slice(), order.direction, meter)
}

/// The same of each of the systems.
#[tactic(auto, using(std::proofs::lemmas::Grind::common_steps, isl_meter::proofs::CutLemmas::charges))]
pub(crate) fn are_ended(
    alloc: Global,
    systems: &[System],
    order: Order,
    at: usize,
    meter: &mut Meter,
) -> Result<bool, Cut>
    requires systems { ArePlain meter.old (order.front + order.width) systems.now }
    requires at { at < order.width }
    ensures answer { IfOk result (AreAnswered order at systems.now) }
    ensures meter { IsMetered meter.old meter.new result }
{
    for system in systems {
        if !is_ended(alloc, system, order, at, meter)? {
            return Ok(false);
        }
    }
    Ok(true)
}
