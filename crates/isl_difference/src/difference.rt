//! One system without others.

ghost use Rattle.std.specs.Prelude.{◌≡◌, ◌≢◌, ◌+◌, ◌*◌, ◌<◌, ◌≤◌, ◌∷◌, ℕ, [], All, AllPairs, IfOk, IfSome, MatchOption, MatchResult, length};
ghost use Rattle.std.specs.Prelude.{map};
ghost use Rattle.isl_meter.specs.Gauge.{Gauge, IsAnsweredWithin, IsCharged, IsCutBy};
ghost use Rattle.isl_piece.specs.Placed.{both_systems};
ghost use Rattle.isl_piece.specs.System.{HoldsSystem, IsSystemWithin, free_columns};
ghost use Rattle.isl_ledger.specs.Answered.{IsTame};
ghost use Rattle.isl_ledger.specs.Difference.{IsDifferenceSystem};
ghost use Rattle.isl_ledger.specs.Work.{AreOfSize};
ghost use Rattle.isl_difference.specs.Difference.{AreDisjoint, IsCounted, IsDifference, IsPartition};
ghost use Rattle.isl_difference.specs.Split.{frame_of, AreAligned, AreLiveParts, ArePaid, HoldsBeside, IsLeftOfAny};
ghost use Rattle.isl_difference.specs.Tame.{HasFewDifferences, part_limit, test_work, left_size, left_work};
ghost use Rattle.isl_difference.specs.Told.{AreTold, IsTold};

use crate::bounds::{are_apart, are_implied};
use crate::lists::{append, push};
use crate::live::is_nowhere;
use crate::split::split;
use isl_meter::{Cut, Meter};
use isl_piece::{Rows, System, meet};
use std::alloc::{AllocError, Global};

// The system without its rows.
fn frame(alloc: Global, system: &System) -> Result<System, AllocError>
    ensures { IfOk result (λ made. made ≡ frame_of system.now) }
{
    Ok(System::over(
        system.columns,
        system.definitions.copy(alloc)?,
        Rows::new(alloc),
    ))
}

// Live parts of the system in which the other one, over the same columns, does not hold; none where no point is in both.
// One unit is used for that question, and then those of `split`.
#[tactic(auto, using(std::proofs::lemmas::Grind::common_steps, crate::proofs::DifferenceLaws::aligned_steps))]
fn parts_asked(
    alloc: Global,
    system: &System,
    other: &System,
    meter: &mut Meter,
) -> Result<Option<Vec<System>>, Cut>
    requires within { IsSystemWithin meter.old system.now }
    requires other_within { IsSystemWithin meter.old other.now }
    requires columns { other.now.columns ≡ system.now.columns }
    requires definitions { other.now.definitions ≡ system.now.definitions }
    ensures exact { MatchResult result
        (λ found. MatchOption found (AreDisjoint (free_columns system.now) system.now other.now)
        (λ parts. AreLiveParts meter.old system.now other.now parts.items)
        × IsCharged meter.old meter.new)
        (IsCutBy meter.old meter.new) }
    ensures definitions { IfOk result (λ found. IfSome found (λ parts. All (λ s. s.definitions ≡ system.now.definitions) parts.items)) }
    ensures paid { IfOk result (λ found. IfSome found (λ parts. ArePaid meter.old meter.new parts.items)) }
    ensures asked { IfOk result (λ _. meter.old.units < meter.new.units) }
    ensures tame { (columns bits : ℕ) → meter.old.bits ≡ 127 → bits + 1 + columns ≤ 120 → IsDifferenceSystem columns (bits + 1) system.now
        → HasFewDifferences columns bits other.now
        → IsTame (part_limit columns 1 * test_work columns) meter.old meter.new
        (λ found. IfSome found (λ parts. AreOfSize (left_size columns bits 1) parts.items)) result }
{
    meter.unit()?;
    let both = meet(alloc, system, other)?;
    if is_nowhere(alloc, both, meter)? {
        return Ok(None);
    }
    let parts = split(alloc, system, &other.rows, meter)?;
    Ok(Some(parts))
}

// The same. No unit is used exactly where the rows tell, as they are written.
#[tactic(auto, using(std::proofs::lemmas::Grind::common_steps, crate::proofs::DifferenceLaws::aligned_steps))]
fn parts_aligned(
    alloc: Global,
    system: &System,
    other: &System,
    meter: &mut Meter,
) -> Result<Option<Vec<System>>, Cut>
    requires within { IsSystemWithin meter.old system.now }
    requires other_within { IsSystemWithin meter.old other.now }
    requires columns { other.now.columns ≡ system.now.columns }
    requires definitions { other.now.definitions ≡ system.now.definitions }
    ensures exact { MatchResult result
        (λ found. MatchOption found (AreDisjoint (free_columns system.now) system.now other.now)
        (λ parts. AreLiveParts meter.old system.now other.now parts.items)
        × IsCharged meter.old meter.new)
        (IsCutBy meter.old meter.new) }
    ensures definitions { IfOk result (λ found. IfSome found (λ parts. All (λ s. s.definitions ≡ system.now.definitions) parts.items)) }
    ensures paid { IfOk result (λ found. IfSome found (λ parts. ArePaid meter.old meter.new parts.items)) }
    ensures told { AreTold system.now.rows other.now.rows → IsAnsweredWithin 0 meter.old meter.new result }
    ensures asked { ¬ AreTold system.now.rows other.now.rows → IfOk result (λ _. meter.old.units < meter.new.units) }
    ensures tame { (columns bits : ℕ) → meter.old.bits ≡ 127 → bits + 1 + columns ≤ 120 → IsDifferenceSystem columns (bits + 1) system.now
        → HasFewDifferences columns bits other.now
        → IsTame (part_limit columns 1 * test_work columns) meter.old meter.new
        (λ found. IfSome found (λ parts. AreOfSize (left_size columns bits 1) parts.items)) result }
{
    let rows = system.rows.as_slice();
    let others = other.rows.as_slice();
    if are_implied(rows, others) {
        return Ok(Some(Vec::new(alloc)));
    }
    if are_apart(rows, others) {
        return Ok(None);
    }
    parts_asked(alloc, system, other, meter)
}

/// Two systems over the same columns.
#[derive(Drop)]
pub(crate) struct Aligned {
    pub(crate) wide: System,
    pub(crate) moved: System,
}

/// The two systems over the columns of both.
pub(crate) fn align(alloc: Global, system: &System, other: &System) -> Result<Aligned, AllocError>
    requires columns { free_columns other.now ≡ free_columns system.now }
    requires different { system.now.definitions ≢ other.now.definitions }
    ensures aligned { (g : Gauge) → IsSystemWithin g system.now → IsSystemWithin g other.now
        → IfOk result (λ both. AreAligned g system.now other.now both.wide both.moved) }
    ensures exact { IfOk result (λ both. (both.wide ≡ both_systems system.now (frame_of other.now))
        × (both.moved ≡ both_systems (frame_of system.now) other.now)) }
{
    let other_frame = frame(alloc, other)?;
    let own_frame = frame(alloc, system)?;
    let wide = meet(alloc, system, &other_frame)?;
    let moved = meet(alloc, &own_frame, other)?;
    Ok(Aligned { wide, moved })
}

// The same as `parts_outside`, where the definitions differ.
fn parts_moved(
    alloc: Global,
    system: &System,
    other: &System,
    meter: &mut Meter,
) -> Result<Option<Vec<System>>, Cut>
    requires within { IsSystemWithin meter.old system.now }
    requires other_within { IsSystemWithin meter.old other.now }
    requires columns { free_columns other.now ≡ free_columns system.now }
    requires different { system.now.definitions ≢ other.now.definitions }
    ensures exact { MatchResult result
        (λ found. MatchOption found (AreDisjoint (free_columns system.now) system.now other.now)
        (λ parts. AreLiveParts meter.old system.now other.now parts.items)
        × IsCharged meter.old meter.new)
        (IsCutBy meter.old meter.new) }
    ensures paid { IfOk result (λ found. IfSome found (λ parts. ArePaid meter.old meter.new parts.items)) }
    ensures told { IsTold system.now other.now → IsAnsweredWithin 0 meter.old meter.new result }
    ensures asked { ¬ IsTold system.now other.now → IfOk result (λ _. meter.old.units < meter.new.units) }
{
    let both = align(alloc, system, other)?;
    match parts_aligned(alloc, &both.wide, &both.moved, meter)? {
        None => Ok(None),
        Some(parts) => Ok(Some(parts)),
    }
}

// Live parts of the system in which the other does not hold; none where no point is in both.
#[tactic(auto, using(std::proofs::lemmas::Grind::common_steps, crate::proofs::DifferenceLaws::outside_steps))]
fn parts_outside(
    alloc: Global,
    system: &System,
    other: &System,
    meter: &mut Meter,
) -> Result<Option<Vec<System>>, Cut>
    requires within { IsSystemWithin meter.old system.now }
    requires other_within { IsSystemWithin meter.old other.now }
    requires columns { free_columns other.now ≡ free_columns system.now }
    ensures exact { MatchResult result
        (λ found. MatchOption found (AreDisjoint (free_columns system.now) system.now other.now)
        (λ parts. AreLiveParts meter.old system.now other.now parts.items)
        × IsCharged meter.old meter.new)
        (IsCutBy meter.old meter.new) }
    ensures definitions { system.now.definitions ≡ [] → other.now.definitions ≡ []
        → IfOk result (λ found. IfSome found (λ parts. All (λ s. s.definitions ≡ []) parts.items)) }
    ensures paid { IfOk result (λ found. IfSome found (λ parts. ArePaid meter.old meter.new parts.items)) }
    ensures told { IsTold system.now other.now → IsAnsweredWithin 0 meter.old meter.new result }
    ensures asked { ¬ IsTold system.now other.now → IfOk result (λ _. meter.old.units < meter.new.units) }
    ensures tame { (columns bits : ℕ) → meter.old.bits ≡ 127 → bits + 1 + columns ≤ 120 → IsDifferenceSystem columns (bits + 1) system.now
        → HasFewDifferences columns bits other.now
        → IsTame (part_limit columns 1 * test_work columns) meter.old meter.new
        (λ found. IfSome found (λ parts. AreOfSize (left_size columns bits 1) parts.items)) result }
{
    if system.definitions.same(&other.definitions) {
        return parts_aligned(alloc, system, other, meter);
    }
    parts_moved(alloc, system, other, meter)
}

/// What is left of the system without the other one: disjoint systems over its free columns, each with a point where the system
/// has one. Both may have defined columns. Where no point is in both this is the system itself.
///
/// No unit is used exactly where the rows of both, as they are written over the columns of both, tell that nothing is left or that
/// no point is in both (`IsTold`); nothing but memory can be wanting then. Else a unit is used, and one for each system that is
/// left, unless that is the system itself.
///
/// # Errors
///
/// `Overflow` where a number passes the limit of the meter, `Budget` where its units are used up, and `NoMemory`.
#[tactic(auto, using(std::proofs::lemmas::Grind::common_steps, crate::proofs::DifferenceLaws::subtract_steps))]
pub fn subtract(
    alloc: Global,
    system: &System,
    other: &System,
    meter: &mut Meter,
) -> Result<Vec<System>, Cut>
    requires within { IsSystemWithin meter.old system.now }
    requires other_within { IsSystemWithin meter.old other.now }
    requires columns { free_columns other.now ≡ free_columns system.now }
    ensures exact { MatchResult result
        (λ left. IsDifference meter.old system.now (other.now ∷ []) left.items × IsCharged meter.old meter.new)
        (IsCutBy meter.old meter.new) }
    ensures definitions { system.now.definitions ≡ [] → other.now.definitions ≡ []
        → IfOk result (λ left. All (λ s. s.definitions ≡ []) left.items) }
    ensures counted { IfOk result (λ left. IsCounted meter.old meter.new system.now left.items) }
    ensures told { IsTold system.now other.now → IsAnsweredWithin 0 meter.old meter.new result }
    ensures asked { ¬ IsTold system.now other.now → IfOk result (λ _. meter.old.units < meter.new.units) }
    ensures tame { (columns bits : ℕ) → meter.old.bits ≡ 127 → bits + 1 + columns ≤ 120 → IsDifferenceSystem columns (bits + 1) system.now
        → HasFewDifferences columns bits other.now
        → IsTame (part_limit columns 1 * test_work columns) meter.old meter.new
        (λ left. AreOfSize (left_size columns bits 1) left.items) result }
{
    match parts_outside(alloc, system, other, meter)? {
        Some(parts) => Ok(parts),
        None => whole(alloc, system),
    }
}

// A list of the system alone.
fn whole(alloc: Global, system: &System) -> Result<Vec<System>, Cut>
    ensures { MatchResult result (λ left. left.items ≡ system.now ∷ []) (λ cut. cut ≡ Cut.NoMemory) }
{
    let mut left = Vec::new(alloc);
    left.push(system.copy(alloc)?)?;
    Ok(left)
}

// What is left of disjoint systems without the other one. A system that has no point of it is moved, and not copied.
#[tactic(auto, using(std::proofs::lemmas::Grind::common_steps, crate::proofs::DifferenceLaws::beside_steps))]
fn all_without(
    alloc: Global,
    systems: Vec<System>,
    other: &System,
    meter: &mut Meter,
) -> Result<Vec<System>, Cut>
    requires within { All (IsSystemWithin meter.old) systems.items }
    requires other_within { IsSystemWithin meter.old other.now }
    requires columns { All (λ s. free_columns s ≡ free_columns other.now) systems.items }
    requires disjoint { AllPairs (AreDisjoint (free_columns other.now)) systems.items }
    ensures exact { MatchResult result
        (λ left. IsPartition (IsLeftOfAny meter.old systems.items) (free_columns other.now) (HoldsBeside systems.items other.now) left.items
        × IsCharged meter.old meter.new)
        (IsCutBy meter.old meter.new) }
    ensures definitions { All (λ s. s.definitions ≡ []) systems.items → other.now.definitions ≡ []
        → IfOk result (λ left. All (λ s. s.definitions ≡ []) left.items) }
    ensures counted { IfOk result (λ left. length left.items + meter.old.units ≤ meter.new.units + length systems.items) }
    ensures tame { (columns bits : ℕ) → meter.old.bits ≡ 127 → bits + 1 + columns ≤ 120
        → All (IsDifferenceSystem columns (bits + 1)) systems.items
        → HasFewDifferences columns bits other.now
        → IsTame (length systems.items * (part_limit columns 1 * test_work columns)) meter.old meter.new
        (λ left. AreOfSize (record { pieces = length systems.items * part_limit columns 1; columns = columns; bits = bits + 1 })
        left.items) result }
{
    let mut left = Vec::new(alloc);
    for system in systems {
        let Some(mut parts) = parts_outside(alloc, &system, other, meter)? else {
            push(&mut left, system)?;
            continue;
        };
        append(&mut left, &mut parts)?;
    }
    Ok(left)
}

/// What is left of the system without all of the others, as by `subtract` for one after another.
///
/// # Errors
///
/// `Overflow` where a number passes the limit of the meter, `Budget` where its units are used up, and `NoMemory`.
#[tactic(auto, using(std::proofs::lemmas::Grind::common_steps, crate::proofs::DifferenceLaws::each_steps))]
pub fn outside(
    alloc: Global,
    system: &System,
    others: &[&System],
    meter: &mut Meter,
) -> Result<Vec<System>, Cut>
    requires within { IsSystemWithin meter.old system.now }
    requires others_within { All (IsSystemWithin meter.old) (map (λ other. other.now) others.now) }
    requires columns { All (λ other. free_columns other ≡ free_columns system.now) (map (λ other. other.now) others.now) }
    ensures exact { MatchResult result
        (λ left. IsDifference meter.old system.now (map (λ other. other.now) others.now) left.items × IsCharged meter.old meter.new)
        (IsCutBy meter.old meter.new) }
    ensures definitions { system.now.definitions ≡ [] → All (λ other. other.definitions ≡ []) (map (λ other. other.now) others.now)
        → IfOk result (λ left. All (λ s. s.definitions ≡ []) left.items) }
    ensures counted { IfOk result (λ left. length left.items + meter.old.units ≤ meter.new.units + 1) }
    ensures tame { (columns bits : ℕ) → meter.old.bits ≡ 127 → bits + 1 + columns ≤ 120 → IsDifferenceSystem columns (bits + 1) system.now
        → All (HasFewDifferences columns bits) (map (λ other. other.now) others.now)
        → IsTame (left_work columns (length others.now)) meter.old meter.new
        (λ left. AreOfSize (left_size columns bits (length others.now)) left.items) result }
{
    let mut left = whole(alloc, system)?;
    for other in others {
        if left.is_empty() {
            return Ok(left);
        }
        left = all_without(alloc, left, other, meter)?;
    }
    Ok(left)
}

/// References to the systems, in their order.
///
/// # Errors
///
/// Where memory ends.
pub fn references<'a>(alloc: Global, systems: &'a [System]) -> Result<Vec<&'a System>, AllocError>
    ensures { IfOk result (λ found. map (λ system. system.now) found.items ≡ systems.now) }
{
    let mut found = Vec::with_capacity(alloc, systems.len())?;
    for system in systems {
        found.push(system)?;
    }
    Ok(found)
}
