//! What is left of several systems without their last columns.

ghost use Rattle.std.specs.Prelude.{◌≡◌, ◌+◌, All, IfOk};
ghost use Rattle.isl_meter.specs.Gauge.{IsMetered};
ghost use Rattle.isl_piece.specs.System.{IsSystemWithin, free_columns};
ghost use Rattle.isl_assumed.specs.Left.{AreLeftOf};

use isl_blocks::live_without;
use isl_difference::append;
use isl_meter::{Cut, Meter};
use isl_piece::System;
use std::alloc::Global;

/// What is left of the systems over the first `kept` of their free columns, without the last `count`: systems of which each has a
/// point.
///
/// # Errors
///
/// As every call under a meter.
#[tactic(auto, using(std::proofs::lemmas::Grind::common_steps, isl_meter::proofs::CutLemmas::charges))]
pub(crate) fn left_of(
    alloc: Global,
    systems: &[System],
    kept: usize,
    count: usize,
    meter: &mut Meter,
) -> Result<Vec<System>, Cut>
    requires within { All (IsSystemWithin meter.old) systems.now }
    requires columns { All (λ s. free_columns s ≡ kept + count) systems.now }
    ensures left { IfOk result (λ left. AreLeftOf meter.old kept count systems.now left.items) }
    ensures meter { IsMetered meter.old meter.new result }
{
    let mut left = Vec::with_capacity(alloc, systems.len())?;
    for system in systems {
        let mut more = live_without(alloc, system, kept, count, meter)?;
        append(&mut left, &mut more)?;
    }
    Ok(left)
}
