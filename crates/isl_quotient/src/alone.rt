//! A system that stays as it is, in its normal form.

ghost use Rattle.std.specs.Prelude.{◌≡◌, ◌≤◌, [], All, IfOk, length, option_to_list};
ghost use Rattle.isl_piece.specs.Normal.{IsNormal, normal_system};
ghost use Rattle.isl_piece.specs.System.{IsSystemWithin};
ghost use Rattle.isl_elim.specs.Elimination.{IsProjectionAlong};

use isl_meter::Meter;
use isl_piece::{System, normalise};
use std::alloc::{AllocError, Global};

/// The system with its normal rows; no system where one of its rows holds nowhere.
pub(crate) fn normal_alone(
    alloc: Global,
    system: System,
    meter: &mut Meter,
) -> Result<Vec<System>, AllocError>
    requires { IsSystemWithin meter.old system }
    ensures exact { IfOk result (λ systems. systems.items ≡ option_to_list (normal_system system)) }
    ensures projection { IfOk result (λ systems. IsProjectionAlong system [] systems.items) }
    ensures within { IfOk result (λ systems. All (IsSystemWithin meter.old) systems.items) }
    ensures normal { IfOk result (λ systems. All (λ s. IsNormal s.rows) systems.items) }
    ensures few { IfOk result (λ systems. length systems.items ≤ 1) }
    ensures meter { meter.new ≡ meter.old }
{
    let mut systems = Vec::new(alloc);
    if let Some(normal) = normalise(alloc, system, meter)? {
        systems.push(normal)?;
    }
    Ok(systems)
}
