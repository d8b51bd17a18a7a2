//! Systems that hold somewhere.

ghost use Rattle.std.specs.Prelude.{◌≡◌, ◌+◌, ◌*◌, ◌≤◌, ℕ, ⊤, All, IfOk, OnOk, length, map};
ghost use Rattle.isl_meter.specs.Gauge.{IsMetered};
ghost use Rattle.isl_piece.specs.System.{IsSystemWithin};
ghost use Rattle.isl_ledger.specs.Answered.{IsTame};
ghost use Rattle.isl_ledger.specs.Difference.{IsDifferenceSystem};
ghost use Rattle.isl_cert.specs.Living.{AreLiving, IsPutLiving};

use isl_elim::is_empty;
use isl_meter::{Cut, Meter};
use isl_piece::System;
use std::alloc::Global;

// Puts the system behind the others, where it holds somewhere.
#[tactic(auto, using(std::proofs::lemmas::Grind::common_steps, isl_meter::proofs::CutLemmas::charges))]
fn push_living<'a>(
    alloc: Global,
    system: &'a System,
    living: &mut Vec<&'a System>,
    meter: &mut Meter,
) -> Result<(), Cut>
    requires { IsSystemWithin meter.old system.now }
    ensures pushed { OnOk result (IsPutLiving system.now (map (λ s. s.now) living.old.items) (map (λ s. s.now) living.new.items)) }
    ensures meter { IsMetered meter.old meter.new result }
    ensures tame { (columns bits : ℕ) → meter.old.bits ≡ 127 → bits + columns ≤ 120 → IsDifferenceSystem columns bits system.now
        → IsTame (columns * (columns * columns)) meter.old meter.new (λ _. ⊤) result }
{
    let empty = is_empty(alloc, system, meter)?;
    if empty {
        return Ok(());
    }
    living.push(system)?;
    Ok(())
}

/// Of the systems those that hold somewhere.
#[tactic(auto, using(std::proofs::lemmas::Grind::common_steps, isl_meter::proofs::CutLemmas::charges))]
pub(crate) fn living_of<'a>(
    alloc: Global,
    systems: &'a [System],
    meter: &mut Meter,
) -> Result<Vec<&'a System>, Cut>
    requires { All (IsSystemWithin meter.old) systems.now }
    ensures living { IfOk result (λ living. AreLiving systems.now (map (λ s. s.now) living.items)) }
    ensures meter { IsMetered meter.old meter.new result }
    ensures tame { (columns bits : ℕ) → meter.old.bits ≡ 127 → bits + columns ≤ 120 → All (IsDifferenceSystem columns bits) systems.now
        → IsTame (length systems.now * (columns * (columns * columns))) meter.old meter.new (λ _. ⊤) result }
{
    let mut living = Vec::new(alloc);
    for system in systems {
        push_living(alloc, system, &mut living, meter)?;
    }
    Ok(living)
}
