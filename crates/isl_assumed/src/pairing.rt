//! Systems that hold where one does, and another at the first columns.

ghost use Rattle.std.specs.Prelude.{◌≡◌, ◌+◌, ◌<◌, ◌^◌, All, IfOk, length};
ghost use Rattle.isl_meter.specs.Gauge.{IsMetered};
ghost use Rattle.isl_piece.specs.System.{IsSystemWithin, free_columns};
ghost use Rattle.isl_assumed.specs.Left.{ArePairs, IsPair};

use isl_blocks::spread;
use isl_difference::are_too_many;
use isl_meter::{Cut, Meter};
use isl_piece::{System, meet};
use std::alloc::Global;

/// The system that holds where the one does, over a column for each name and so many more, and the other at the names alone. One unit is
/// used.
///
/// # Errors
///
/// As every call under a meter.
#[tactic(auto, using(std::proofs::lemmas::Grind::common_steps, isl_meter::proofs::CutLemmas::charges))]
pub fn pair(
    alloc: Global,
    system: &System,
    other: &System,
    names: usize,
    more: usize,
    meter: &mut Meter,
) -> Result<System, Cut>
    requires fits { names + more < 2 ^ 64 }
    requires system { IsSystemWithin meter.old system.now }
    requires other { IsSystemWithin meter.old other.now }
    requires columns { free_columns system.now ≡ names + more }
    requires other_columns { free_columns other.now ≡ names }
    ensures pair { IfOk result (IsPair meter.old names more system.now other.now) }
    ensures unit { IfOk result (λ _. meter.new ≡ record meter.old { units = meter.old.units + 1 }) }
    ensures meter { IsMetered meter.old meter.new result }
{
    meter.unit()?;
    let wide = spread(alloc, other, &[names, more], &[0])?;
    Ok(meet(alloc, system, &wide)?)
}

/// The pairs of the system with each of the others. One unit is used for each.
///
/// # Errors
///
/// As every call under a meter.
#[tactic(auto, using(std::proofs::lemmas::Grind::common_steps, isl_meter::proofs::CutLemmas::charges))]
pub fn pairs(
    alloc: Global,
    system: &System,
    others: &[System],
    names: usize,
    more: usize,
    meter: &mut Meter,
) -> Result<Vec<System>, Cut>
    requires fits { names + more < 2 ^ 64 }
    requires system { IsSystemWithin meter.old system.now }
    requires others { All (IsSystemWithin meter.old) others.now }
    requires columns { free_columns system.now ≡ names + more }
    requires other_columns { All (λ s. free_columns s ≡ names) others.now }
    ensures pairs { IfOk result (λ pairs. ArePairs meter.old names more system.now others.now pairs.items) }
    ensures units { IfOk result (λ _. meter.new.units ≡ meter.old.units + length others.now) }
    ensures meter { IsMetered meter.old meter.new result }
{
    let mut pairs = Vec::with_capacity(alloc, others.len())?;
    for other in others {
        let both = pair(alloc, system, other, names, more, meter)?;
        if are_too_many(pairs.len(), &both) {
            return Err(Cut::NoMemory);
        }
        pairs.push(both)?;
    }
    Ok(pairs)
}
