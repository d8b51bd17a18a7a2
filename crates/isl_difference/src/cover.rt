//! Whether each point of one system is one of others.

ghost use Rattle.std.specs.Prelude.{◌≡◌, ◌≢◌, ◌+◌, ◌*◌, ◌<◌, ◌≤◌, ◌∷◌, ℕ, ⊤, [], All, IfOk, IsTrue, length, map};
ghost use Rattle.isl_meter.specs.Gauge.{IsMetered};
ghost use Rattle.isl_piece.specs.System.{HoldsSystem, IsSystemWithin, free_columns};
ghost use Rattle.isl_ledger.specs.Answered.{IsTame};
ghost use Rattle.isl_ledger.specs.Difference.{IsDifferenceSystem};
ghost use Rattle.isl_ledger.specs.Work.{row_limit};
ghost use Rattle.isl_elim.specs.Sample.{IsNowhere};
ghost use Rattle.isl_difference.specs.Cover.{AreInside, IsInside};
ghost use Rattle.isl_difference.specs.Difference.{IsCovered};
ghost use Rattle.isl_difference.specs.Tame.{HasFewDifferences, part_limit, test_work, left_work};

use crate::bounds::{are_apart, are_implied};
use crate::difference::{align, outside};
use crate::split::hold_throughout;
use isl_meter::{Cut, Meter};
use isl_piece::System;
use std::alloc::Global;

// Whether each point of the system is one of the other, over the same columns. Once a part is left, no other is asked for.
#[tactic(auto, using(std::proofs::lemmas::Grind::common_steps, crate::proofs::CoverLaws::cover_steps))]
fn is_inside_aligned(
    alloc: Global,
    system: &System,
    other: &System,
    meter: &mut Meter,
) -> Result<bool, Cut>
    requires within { IsSystemWithin meter.old system.now }
    requires other_within { IsSystemWithin meter.old other.now }
    requires columns { other.now.columns ≡ system.now.columns }
    requires definitions { other.now.definitions ≡ system.now.definitions }
    ensures exact { IfOk result (IsInside system.now other.now) }
    ensures meter { IsMetered meter.old meter.new result }
    ensures tame { (columns bits : ℕ) → meter.old.bits ≡ 127 → bits + 1 + columns ≤ 120 → IsDifferenceSystem columns (bits + 1) system.now
        → HasFewDifferences columns bits other.now → length other.now.rows < row_limit columns
        → IsTame (part_limit columns 1 * test_work columns) meter.old meter.new (λ _. ⊤) result }
{
    if are_implied(system.rows.as_slice(), other.rows.as_slice()) {
        return Ok(true);
    }
    if are_apart(system.rows.as_slice(), other.rows.as_slice()) {
        return Ok(false);
    }
    hold_throughout(alloc, system, &other.rows, meter)
}

// The same, where the definitions differ.
#[tactic(auto, using(std::proofs::lemmas::Grind::common_steps, crate::proofs::CoverLaws::cover_steps))]
fn is_inside_moved(
    alloc: Global,
    system: &System,
    other: &System,
    meter: &mut Meter,
) -> Result<bool, Cut>
    requires within { IsSystemWithin meter.old system.now }
    requires other_within { IsSystemWithin meter.old other.now }
    requires columns { free_columns other.now ≡ free_columns system.now }
    requires different { system.now.definitions ≢ other.now.definitions }
    ensures exact { IfOk result (IsInside system.now other.now) }
    ensures meter { IsMetered meter.old meter.new result }
{
    let both = align(alloc, system, other)?;
    is_inside_aligned(alloc, &both.wide, &both.moved, meter)
}

// Whether each point of the system is one of the other.
#[tactic(auto, using(std::proofs::lemmas::Grind::common_steps, crate::proofs::CoverLaws::cover_steps))]
fn is_inside(alloc: Global, system: &System, other: &System, meter: &mut Meter) -> Result<bool, Cut>
    requires within { IsSystemWithin meter.old system.now }
    requires other_within { IsSystemWithin meter.old other.now }
    requires columns { free_columns other.now ≡ free_columns system.now }
    ensures exact { IfOk result (IsInside system.now other.now) }
    ensures meter { IsMetered meter.old meter.new result }
    ensures tame { (columns bits : ℕ) → meter.old.bits ≡ 127 → bits + 1 + columns ≤ 120 → IsDifferenceSystem columns (bits + 1) system.now
        → HasFewDifferences columns bits other.now → length other.now.rows < row_limit columns
        → IsTame (part_limit columns 1 * test_work columns) meter.old meter.new (λ _. ⊤) result }
{
    if system.definitions.same(&other.definitions) {
        return is_inside_aligned(alloc, system, other, meter);
    }
    is_inside_moved(alloc, system, other, meter)
}

// Whether each point of the systems is one of the other.
#[tactic(auto, using(std::proofs::lemmas::Grind::common_steps, crate::proofs::CoverLaws::cover_steps))]
fn are_inside(
    alloc: Global,
    systems: &[System],
    other: &System,
    meter: &mut Meter,
) -> Result<bool, Cut>
    requires within { All (IsSystemWithin meter.old) systems.now }
    requires other_within { IsSystemWithin meter.old other.now }
    requires columns { All (λ s. free_columns s ≡ free_columns other.now) systems.now }
    ensures exact { IfOk result (AreInside systems.now other.now) }
    ensures meter { IsMetered meter.old meter.new result }
    ensures tame { (columns bits : ℕ) → meter.old.bits ≡ 127 → bits + 1 + columns ≤ 120
        → All (IsDifferenceSystem columns (bits + 1)) systems.now
        → HasFewDifferences columns bits other.now → length other.now.rows < row_limit columns
        → IsTame (length systems.now * (part_limit columns 1 * test_work columns)) meter.old meter.new (λ _. ⊤) result }
{
    for system in systems {
        if !is_inside(alloc, system, other, meter)? {
            return Ok(false);
        }
    }
    Ok(true)
}

/// Whether each point of the system is one of the others. Of a system without a point the answer may be no. What is left of it
/// without all but the last is looked at one after another, and nothing is asked behind the first part that the last leaves.
///
/// # Errors
///
/// `Overflow` where a number passes the limit of the meter, `Budget` where its units are used up, and `NoMemory`.
#[tactic(auto, using(std::proofs::lemmas::Grind::common_steps, crate::proofs::CoverLaws::cover_steps))]
pub fn is_covered(
    alloc: Global,
    system: &System,
    others: &[&System],
    meter: &mut Meter,
) -> Result<bool, Cut>
    requires within { IsSystemWithin meter.old system.now }
    requires others_within { All (IsSystemWithin meter.old) (map (λ other. other.now) others.now) }
    requires columns { All (λ other. free_columns other ≡ free_columns system.now) (map (λ other. other.now) others.now) }
    ensures covered { IfOk result (λ covered. IsTrue covered → IsCovered system.now (map (λ other. other.now) others.now)) }
    ensures only { ¬ IsNowhere (free_columns system.now) (HoldsSystem system.now)
        → IfOk result (λ covered. IsCovered system.now (map (λ other. other.now) others.now) → IsTrue covered) }
    ensures meter { IsMetered meter.old meter.new result }
    ensures tame { (columns bits : ℕ) → meter.old.bits ≡ 127 → bits + 1 + columns ≤ 120 → IsDifferenceSystem columns (bits + 1) system.now
        → All (HasFewDifferences columns bits) (map (λ other. other.now) others.now)
        → All (λ other. ¬ IsNowhere (free_columns other) (HoldsSystem other)) (map (λ other. other.now) others.now)
        → IsTame (left_work columns (length others.now)) meter.old meter.new (λ _. ⊤) result }
{
    if others.is_empty() {
        return Ok(false);
    }
    let last = others.len() - 1;
    let left = outside(alloc, system, &others[..last], meter)?;
    are_inside(alloc, left.as_slice(), others[last], meter)
}
