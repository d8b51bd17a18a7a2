//! What is left of systems without their last columns.

ghost use Rattle.std.specs.Prelude.{◌≡◌, ◌↔◌, ◌+◌, [], ℤ, List, All, IfOk, length};
ghost use Rattle.isl_meter.specs.Gauge.{IsMetered};
ghost use Rattle.isl_piece.specs.System.{HoldsSystem, IsSystemWithin, free_columns};
ghost use Rattle.isl_elim.specs.Elimination.{HoldsAtAny};
ghost use Rattle.isl_blocks.specs.Left.{AreLiveOf, HoldsBefore, IsLeftWithout};

use isl_difference::live_form;
use isl_elim::{columns_between, eliminate_all};
use isl_meter::{Cut, Meter};
use isl_piece::System;
use std::alloc::Global;

/// What is left of the system over the first `kept` of its free columns, without the last `count`.
///
/// # Errors
///
/// `Overflow` where a number passes the limit of the meter, `Budget` where its units are used up, and `NoMemory`.
pub fn without_last(
    alloc: Global,
    system: &System,
    kept: usize,
    count: usize,
    meter: &mut Meter,
) -> Result<Vec<System>, Cut>
    requires within { IsSystemWithin meter.old system.now }
    requires columns { free_columns system.now ≡ kept + count }
    ensures points { (point : List ℤ) → length point ≡ kept
        → IfOk result (λ systems. HoldsAtAny systems.items point ↔ HoldsBefore system.now count point) }
    ensures columns { IfOk result (λ systems. All (λ s. free_columns s ≡ kept) systems.items) }
    ensures definitions { system.now.definitions ≡ [] → IfOk result (λ systems. All (λ s. s.definitions ≡ []) systems.items) }
    ensures within { IfOk result (λ systems. All (IsSystemWithin meter.old) systems.items) }
    ensures meter { IsMetered meter.old meter.new result }
{
    // For what a system keeps: its free columns are so many as a number may be.
    let _free = system.free();
    let columns = columns_between(alloc, kept, kept + count)?;
    eliminate_all(alloc, system, columns.as_slice(), meter)
}

// Those of the systems that have a point, in their normal form.
#[tactic(auto, using(std::proofs::lemmas::Grind::common_steps, isl_meter::proofs::CutLemmas::charges))]
fn live_of(
    alloc: Global,
    systems: &[System],
    kept: usize,
    meter: &mut Meter,
) -> Result<Vec<System>, Cut>
    requires within { All (IsSystemWithin meter.old) systems.now }
    requires columns { All (λ s. free_columns s ≡ kept) systems.now }
    ensures live { IfOk result (λ left. AreLiveOf meter.old kept systems.now left.items) }
    ensures meter { IsMetered meter.old meter.new result }
{
    let mut left = Vec::with_capacity(alloc, systems.len())?;
    for system in systems {
        if let Some(live) = live_form(alloc, system.copy(alloc)?, meter)? {
            left.push(live)?;
        }
    }
    Ok(left)
}

/// What is left of the system over the first `kept` of its free columns, without the last `count`: systems of which each has a point.
///
/// # Errors
///
/// `Overflow` where a number passes the limit of the meter, `Budget` where its units are used up, and `NoMemory`.
pub fn live_without(
    alloc: Global,
    system: &System,
    kept: usize,
    count: usize,
    meter: &mut Meter,
) -> Result<Vec<System>, Cut>
    requires within { IsSystemWithin meter.old system.now }
    requires columns { free_columns system.now ≡ kept + count }
    ensures left { IfOk result (λ systems. IsLeftWithout meter.old system.now kept count systems.items) }
    ensures meter { IsMetered meter.old meter.new result }
{
    let systems = without_last(alloc, system, kept, count, meter)?;
    live_of(alloc, systems.as_slice(), kept, meter)
}
