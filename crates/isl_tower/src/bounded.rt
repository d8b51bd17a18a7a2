//! Whether systems are bounded.

ghost use Rattle.std.specs.Prelude.{◌≡◌, ◌↔◌, ◌<◌, ◌≤◌, ℕ, [], All, length, IfOk, IsTrue, MatchResult};
ghost use Rattle.isl_meter.specs.Gauge.{IsCharged, IsCutBy, IsMetered};
ghost use Rattle.isl_piece.specs.declared.system.System.{System};
ghost use Rattle.isl_piece.specs.System.{IsSystemWithin, free_columns};
ghost use Rattle.isl_tower.specs.Bounded.{IsBounded, IsBoundedAt};
ghost use Rattle.isl_tower.specs.Closed.{IsClosed};
ghost use Rattle.isl_tower.specs.Tower.{IsTower, IsTowerOf};

use crate::Tower;
use crate::ends::{has_lower_end, has_upper_end};
use crate::numbers::system_at;
use isl_elim::is_empty;
use isl_meter::{Cut, Meter};
use isl_piece::System;
use std::alloc::Global;

// Whether the last column of the system has an end on each side, or there is no point.
#[tactic(auto, using(crate::proofs::ClosedLaws::closed_steps))]
fn is_closed(alloc: Global, system: &System, meter: &mut Meter) -> Result<bool, Cut>
    requires well_formed { IsSystemWithin meter.old system.now }
    requires plain { system.now.definitions ≡ [] }
    requires some_column { 0 < free_columns system.now }
    ensures exact { IfOk result (λ closed. IsTrue closed ↔ IsClosed system.now) }
    ensures meter { IsMetered meter.old meter.new result }
{
    let last = system.free() - 1;
    let rows = system.rows.as_slice();
    if has_lower_end(rows, last) && has_upper_end(rows, last) {
        return Ok(true);
    }
    is_empty(alloc, system, meter)
}

#[tactic(auto, using(crate::proofs::ClosedLaws::closed_steps))]
fn are_closed(alloc: Global, systems: &[System], meter: &mut Meter) -> Result<bool, Cut>
    requires within { All (IsSystemWithin meter.old) systems.now }
    requires plain { All (λ s. s.definitions ≡ []) systems.now }
    requires some_column { All (λ s. 0 < free_columns s) systems.now }
    ensures exact { MatchResult result
        (λ closed. (IsTrue closed ↔ All IsClosed systems.now) × IsCharged meter.old meter.new)
        (IsCutBy meter.old meter.new) }
{
    for system in systems {
        if !is_closed(alloc, system, meter)? {
            return Ok(false);
        }
    }
    Ok(true)
}

impl Tower {
    /// Whether the system of the tower is bounded in the columns behind the outer ones. Each level above the lowest is looked
    /// at: a system that lacks an end on one side of its last column must hold nowhere.
    ///
    /// # Errors
    ///
    /// `Overflow` where a number passes the limit of the meter, `Budget` where its units are used up, and `NoMemory`.
    #[tactic(auto, using(crate::proofs::ClosedLaws::closed_steps))]
    pub fn is_bounded(&self, alloc: Global, meter: &mut Meter) -> Result<bool, Cut>
        requires tower { IsTower self.now }
        requires within { All (All (IsSystemWithin meter.old)) self.now }
        requires plain { All (All (λ s. s.definitions ≡ [])) self.now }
        ensures exact { IfOk result (λ bounded. (s : System) (outer : ℕ)
            → IsTowerOf s outer self.now → IsTrue bounded ↔ IsBounded s outer) }
        ensures meter { IsMetered meter.old meter.new result }
    {
        for height in 1..self.levels() {
            if !are_closed(alloc, self.level(height), meter)? {
                return Ok(false);
            }
        }
        Ok(true)
    }
}

/// Whether the system, in which no column is defined, is bounded in the columns behind its first `outer` ones: whether for each
/// list of numbers at these some number bounds the magnitudes of the others at all points.
///
/// # Errors
///
/// `Overflow` where a number passes the limit of the meter, `Budget` where its units are used up, and `NoMemory`.
pub fn is_bounded(
    alloc: Global,
    system: &System,
    outer: usize,
    meter: &mut Meter,
) -> Result<bool, Cut>
    requires well_formed { IsSystemWithin meter.old system.now }
    requires plain { system.now.definitions ≡ [] }
    requires outer_in { outer ≤ free_columns system.now }
    ensures exact { IfOk result (λ bounded. IsTrue bounded ↔ IsBounded system.now outer) }
    ensures meter { IsMetered meter.old meter.new result }
{
    let tower = Tower::of(alloc, system, outer, meter)?;
    tower.is_bounded(alloc, meter)
}

/// Whether the system, in which no column is defined, is bounded where its first columns have these numbers: whether some number
/// bounds the magnitudes of the others at all points that they begin.
///
/// # Errors
///
/// `Overflow` where a number passes the limit of the meter, `Budget` where its units are used up, and `NoMemory`.
pub fn is_bounded_at(
    alloc: Global,
    system: &System,
    numbers: &[i128],
    meter: &mut Meter,
) -> Result<bool, Cut>
    requires well_formed { IsSystemWithin meter.old system.now }
    requires plain { system.now.definitions ≡ [] }
    requires numbers_in { length numbers.now ≤ free_columns system.now }
    ensures exact { IfOk result (λ bounded. IsTrue bounded ↔ IsBoundedAt system.now numbers.now) }
    ensures meter { IsMetered meter.old meter.new result }
{
    let left = system_at(alloc, system, numbers, meter)?;
    is_bounded(alloc, &left, 0, meter)
}
