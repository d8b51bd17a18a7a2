//! Where other numbers are ahead.

ghost use Rattle.std.specs.Prelude.{◌≡◌, ◌+◌, ◌<◌, ◌^◌, [], ◌∷◌, IfOk};
ghost use Rattle.isl_meter.specs.Gauge.{IsMetered};
ghost use Rattle.isl_piece.specs.System.{IsSystemWithin, free_columns};
ghost use Rattle.isl_extremes.specs.Beaten.{IsWithAhead};
ghost use Rattle.isl_extremes.specs.Systems.{AreBeaten, ArePlain};

use crate::systems::Order;
use isl_blocks::{live_without, order_case, spread};
use isl_difference::append;
use isl_meter::{Cut, Meter};
use isl_piece::{System, meet};
use std::alloc::{AllocError, Global};

// The system over the front and two lists of numbers that holds where the other one does at the front and the second list, and this is
// ahead of the first one at the place.
fn with_ahead(
    alloc: Global,
    system: &System,
    order: Order,
    at: usize,
    meter: &Meter,
) -> Result<System, AllocError>
    requires within { IsSystemWithin meter.now system.now }
    requires free { free_columns system.now ≡ order.front + order.width }
    requires at { at < order.width }
    requires fits { order.front + (order.width + order.width) < 2 ^ 64 }
    ensures { IfOk result (IsWithAhead meter.now order at system.now) }
{
    // For what a meter keeps: it has at least 8 bits.
    let _limit = meter.limit();
    let widths = [order.front, order.width, order.width];
    let moved = spread(alloc, system, &widths, &[0, 2])?;
    let case = order_case(alloc, &widths, 2, 1, at, order.direction)?;
    meet(alloc, &moved, &case)
}

// Where numbers of the system are ahead at the place.
fn beaten(
    alloc: Global,
    system: &System,
    order: Order,
    at: usize,
    meter: &mut Meter,
) -> Result<Vec<System>, Cut>
    requires within { IsSystemWithin meter.old system.now }
    requires plain { system.now.definitions ≡ [] }
    requires free { free_columns system.now ≡ order.front + order.width }
    requires at { at < order.width }
    requires fits { order.front + (order.width + order.width) < 2 ^ 64 }
    ensures beaten { IfOk result (λ found. AreBeaten meter.old order at (system.now ∷ []) found.items) }
    ensures meter { IsMetered meter.old meter.new result }
{
    let both = with_ahead(alloc, system, order, at, meter)?;
    live_without(alloc, &both, order.front + order.width, order.width, meter)
}

/// Where numbers that some of the systems leave behind the same front are ahead at the place.
#[tactic(auto, using(std::proofs::lemmas::Grind::common_steps, isl_meter::proofs::CutLemmas::charges))]
pub(crate) fn all_beaten(
    alloc: Global,
    systems: &[System],
    order: Order,
    at: usize,
    meter: &mut Meter,
) -> Result<Vec<System>, Cut>
    requires systems { ArePlain meter.old (order.front + order.width) systems.now }
    requires at { at < order.width }
    requires fits { order.front + (order.width + order.width) < 2 ^ 64 }
    ensures beaten { IfOk result (λ found. AreBeaten meter.old order at systems.now found.items) }
    ensures meter { IsMetered meter.old meter.new result }
{
    let mut found = Vec::new(alloc);
    for system in systems {
        let mut more = beaten(alloc, system, order, at, meter)?;
        append(&mut found, &mut more)?;
    }
    Ok(found)
}
