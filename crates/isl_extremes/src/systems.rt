//! The first of the numbers that systems leave behind others.

ghost use Rattle.std.specs.Prelude.{◌≡◌, ◌+◌, ◌<◌, ◌^◌, All, IfOk, MatchResult};
ghost use Rattle.isl_meter.specs.Gauge.{IsCharged, IsCutBy, IsMetered};
ghost use Rattle.isl_extremes.specs.Fault.{IsLexAnswer};
ghost use Rattle.isl_extremes.specs.Systems.{AreFirst, AreOutside, ArePlain, AreStanding, HaveFirst, IsDecided};

use crate::LexFault;
use crate::beaten::all_beaten;
use crate::ends::are_ended;
use isl_blocks::Direction;
use isl_difference::{append, outside, references};
use isl_meter::{Cut, Meter};
use isl_piece::System;
use std::alloc::{AllocError, Global};

/// Which columns are put in order: so many behind so many others. First are the least numbers, or the greatest.
#[derive(Clone, Copy)]
pub(crate) struct Order {
    pub front: usize,
    pub width: usize,
    pub direction: Direction,
}

fn copies(alloc: Global, systems: &[System]) -> Result<Vec<System>, AllocError>
    ensures { IfOk result (λ copied. copied.items ≡ systems.now) }
{
    let mut copied = Vec::with_capacity(alloc, systems.len())?;
    for system in systems {
        copied.push(system.copy(alloc)?)?;
    }
    Ok(copied)
}

// What is left of the systems without the others.
#[tactic(auto, using(std::proofs::lemmas::Grind::common_steps, isl_meter::proofs::CutLemmas::charges))]
fn all_outside(
    alloc: Global,
    systems: &[System],
    others: &[System],
    columns: usize,
    meter: &mut Meter,
) -> Result<Vec<System>, Cut>
    requires systems { ArePlain meter.old columns systems.now }
    requires others { ArePlain meter.old columns others.now }
    ensures left { IfOk result (λ left. AreOutside meter.old columns systems.now others.now left.items) }
    ensures meter { IsMetered meter.old meter.new result }
{
    let others = references(alloc, others)?;
    let mut left = Vec::new(alloc);
    for system in systems {
        let mut parts = outside(alloc, system, others.as_slice(), meter)?;
        append(&mut left, &mut parts)?;
    }
    Ok(left)
}

// What stands of the lists of the systems at one more place, from those that stood before it.
#[tactic(auto, using(std::proofs::lemmas::Grind::common_steps, isl_meter::proofs::CutLemmas::charges))]
fn unbeaten(
    alloc: Global,
    standing: &[System],
    systems: &[System],
    order: Order,
    at: usize,
    meter: &mut Meter,
) -> Result<Vec<System>, Cut>
    requires standing { AreStanding meter.old order at systems.now standing.now }
    requires systems { ArePlain meter.old (order.front + order.width) systems.now }
    requires at { at < order.width }
    requires fits { order.front + (order.width + order.width) < 2 ^ 64 }
    ensures left { IfOk result (λ left. AreStanding meter.old order (at + 1) systems.now left.items) }
    ensures decided { IfOk result (λ _. IsDecided order at systems.now) }
    ensures meter { IsMetered meter.old meter.new result }
{
    let beaten = all_beaten(alloc, systems, order, at, meter)?;
    all_outside(
        alloc,
        standing,
        beaten.as_slice(),
        order.front + order.width,
        meter,
    )
}

/// The systems of the first lists of numbers behind each front.
///
/// # Errors
///
/// As every call under a meter; and `NoMinimum` exactly where there is a list behind some front, and no first one.
#[tactic(auto, using(std::proofs::lemmas::Grind::common_steps, isl_meter::proofs::CutLemmas::charges))]
pub(crate) fn first_systems(
    alloc: Global,
    systems: &[System],
    order: Order,
    meter: &mut Meter,
) -> Result<Vec<System>, LexFault>
    requires systems { ArePlain meter.old (order.front + order.width) systems.now }
    requires fits { order.front + (order.width + order.width) < 2 ^ 64 }
    ensures first { IfOk result (λ left. AreFirst meter.old order systems.now left.items) }
    ensures meter { IsLexAnswer (HaveFirst order systems.now) meter.old meter.new result }
{
    let mut left = copies(alloc, systems)?;
    for at in 0..order.width {
        if !are_ended(alloc, left.as_slice(), order, at, meter)? {
            return Err(LexFault::NoMinimum);
        }
        left = unbeaten(alloc, left.as_slice(), systems, order, at, meter)?;
    }
    Ok(left)
}
