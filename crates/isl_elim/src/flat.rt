//! Systems without definitions.

ghost use Rattle.std.specs.Prelude.{◌≡◌, ◌↔◌, ◌+◌, ◌≤◌, [], length, ℤ, List, All, IfOk, option_to_list};
ghost use Rattle.isl_meter.specs.Gauge.{IsMetered};
ghost use Rattle.isl_piece.specs.Normal.{IsNormal, normal_system};
ghost use Rattle.isl_piece.specs.System.{HoldsSystem, IsSystemWithin};
ghost use Rattle.isl_elim.specs.Elimination.{HoldsAtAny};
ghost use Rattle.isl_elim.specs.Flatten.{IsFlattening};

use crate::along::rows_without;
use crate::columns::columns_between;
use crate::opened::opened_rows;
use crate::projection::systems_of;
use isl_meter::{Cut, Meter};
use isl_piece::{System, normalise};
use std::alloc::{AllocError, Global};

// The system with its normal rows; no system where one of its rows holds nowhere.
fn normal_alone(
    alloc: Global,
    system: &System,
    meter: &mut Meter,
) -> Result<Vec<System>, AllocError>
    requires { IsSystemWithin meter.old system.now }
    ensures exact { IfOk result (λ systems. systems.items ≡ option_to_list (normal_system system.now)) }
    ensures points { IfOk result (λ systems. (point : List ℤ) → HoldsAtAny systems.items point ↔ HoldsSystem system.now point) }
    ensures within { IfOk result (λ systems. All (IsSystemWithin meter.old) systems.items) }
    ensures normal { IfOk result (λ systems. All (λ s. IsNormal s.rows) systems.items) }
    ensures meter { meter.new ≡ meter.old }
{
    let mut systems = Vec::new(alloc);
    if let Some(normal) = normalise(alloc, system.copy(alloc)?, meter)? {
        systems.push(normal)?;
    }
    Ok(systems)
}

/// Systems over the free columns of this one, which define no column, and of which some holds at a point exactly where this one
/// does. Each is in normal form. Of a system without definitions this is the system itself as it is made normal, and no unit is
/// used.
///
/// # Errors
///
/// `Overflow` where a number passes the limit of the meter, `Budget` where its units are used up, and `NoMemory`.
pub fn flatten(alloc: Global, system: &System, meter: &mut Meter) -> Result<Vec<System>, Cut>
    requires well_formed { IsSystemWithin meter.old system.now }
    ensures exact { IfOk result (λ systems. IsFlattening system.now systems.items) }
    ensures within { IfOk result (λ systems. All (IsSystemWithin meter.old) systems.items) }
    ensures normal { IfOk result (λ systems. All (λ s. IsNormal s.rows) systems.items) }
    ensures meter { IsMetered meter.old meter.new result }
    ensures itself { system.now.definitions ≡ [] → IfOk result (λ systems. systems.items ≡ option_to_list (normal_system system.now)) }
    ensures units { system.now.definitions ≡ [] → meter.new.units ≡ meter.old.units }
    ensures counted { IfOk result (λ systems. meter.old.units + length systems.items ≤ meter.new.units + 1) }
{
    if system.definitions.is_empty() {
        return Ok(normal_alone(alloc, system, meter)?);
    }
    let gone = columns_between(alloc, system.free(), system.columns)?;
    let rows = opened_rows(alloc, system, gone.as_slice(), meter)?;
    let lists = rows_without(alloc, rows, system.columns, gone.as_slice(), meter)?;
    let systems = systems_of(alloc, lists, &System::new(alloc, system.free()))?;
    Ok(systems)
}
