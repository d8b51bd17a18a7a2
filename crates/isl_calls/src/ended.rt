//! Systems whose last column has an end on each side.

ghost use Rattle.std.specs.Prelude.{◌≡◌, ◌↔◌, ◌<◌, [], All, IfOk, IsTrue};
ghost use Rattle.isl_meter.specs.Gauge.{Gauge};
ghost use Rattle.isl_piece.specs.System.{IsSystemWithin, free_columns};
ghost use Rattle.isl_calls.specs.Covers.{IsEnded};

use isl_piece::System;
use isl_tower::{has_lower_end, has_upper_end};

// Whether the last column of the system has an end on each side.
pub(crate) fn is_ended(system: &System) -> bool
    requires within { (g : Gauge) × IsSystemWithin g system.now }
    requires plain { system.now.definitions ≡ [] }
    requires some_column { 0 < free_columns system.now }
    ensures { IsTrue result ↔ IsEnded system.now }
{
    let last = system.free() - 1;
    let rows = system.rows.as_slice();
    has_lower_end(rows, last) && has_upper_end(rows, last)
}

/// Whether the last column of each has.
pub(crate) fn are_ended(systems: &[System]) -> bool
    requires within { (g : Gauge) × All (IsSystemWithin g) systems.now }
    requires plain { All (λ s. s.definitions ≡ []) systems.now }
    requires some_column { All (λ s. 0 < free_columns s) systems.now }
    ensures { IsTrue result ↔ All IsEnded systems.now }
{
    for system in systems {
        if !is_ended(system) {
            return false;
        }
    }
    true
}
