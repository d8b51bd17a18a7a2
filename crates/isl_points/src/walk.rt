//! Up a tower, level by level.

ghost use Rattle.std.specs.Prelude.{◌≡◌, ◌↔◌, ◌⊎◌, ◌+◌, ◌-◌, ◌≤◌, [], ◌∷◌, length, All, IfOk, IsTrue, MatchResult};
ghost use Rattle.isl_meter.specs.Gauge.{IsCutBy, IsMetered, IsWithin};
ghost use Rattle.isl_elim.specs.Elimination.{HoldsAtAny};
ghost use Rattle.isl_piece.specs.declared.system.System.{System};
ghost use Rattle.isl_tower.specs.Level.{AreOver};
ghost use Rattle.isl_tower.specs.Tower.{IsTowerOf};
ghost use Rattle.isl_points.specs.Fibre.{AreLevelsWithin};
ghost use Rattle.isl_points.specs.Level.{AreBeginnings};

use crate::Points;
use crate::level::all_longer;
use isl_meter::{Cut, Meter};
use isl_piece::System;
use isl_tower::Tower;
use std::alloc::Global;

// Whether some of the systems, which have no columns, holds.
fn any_holds(alloc: Global, systems: &[System], meter: &mut Meter) -> Result<bool, Cut>
    requires { AreOver meter.old 0 systems.now }
    ensures { MatchResult result
        (λ holds. (IsTrue holds ↔ HoldsAtAny systems.now []) × (meter.new ≡ meter.old))
        (IsCutBy meter.old meter.new) }
{
    for system in systems {
        if system.holds_at(alloc, &[], meter)? {
            return Ok(true);
        }
    }
    Ok(false)
}

// What begins points and has no number: one list, or none where there is no point. Uses a unit.
fn lowest(alloc: Global, systems: &[System], meter: &mut Meter) -> Result<Points, Cut>
    requires { AreOver meter.old 0 systems.now }
    ensures { MatchResult result
        (λ points. ((HoldsAtAny systems.now [] × (points ≡ [] ∷ [])) ⊎ ((¬ HoldsAtAny systems.now []) × (points ≡ [])))
        × (meter.new ≡ record meter.old { units = meter.old.units + 1 }))
        (IsCutBy meter.old meter.new) }
{
    meter.unit()?;
    if any_holds(alloc, systems, meter)? {
        Ok(Points::of(0, 1, Vec::new(alloc)))
    } else {
        Ok(Points::new(alloc))
    }
}

/// The points of the system of the tower, which is bounded: at each level what begins them is one number longer. A unit or more
/// is used for each.
///
/// # Errors
///
/// `Overflow` where a number passes the limit of the meter, `Budget` where its units are used up, and `NoMemory`.
pub(crate) fn points_of(alloc: Global, tower: &Tower, meter: &mut Meter) -> Result<Points, Cut>
    requires levels { AreLevelsWithin meter.old tower.now }
    requires tower { (s : System) × IsTowerOf s 0 tower.now }
    ensures exact { IfOk result (λ points. (s : System) → IsTowerOf s 0 tower.now → AreBeginnings s (length tower.now - 1) points) }
    ensures within { IfOk result (All (All (IsWithin meter.old))) }
    ensures counted { IfOk result (λ points. meter.old.units + length points ≤ meter.new.units) }
    ensures meter { IsMetered meter.old meter.new result }
{
    let mut points = lowest(alloc, tower.level(0), meter)?;
    for height in 1..tower.levels() {
        points = all_longer(alloc, tower.level(height), &points, height, meter)?;
    }
    Ok(points)
}
