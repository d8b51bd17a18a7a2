//! The cases of each column, by towers of projections.

ghost use Rattle.std.specs.Prelude.{◌≡◌, ◌+◌, ◌<◌, ◌^◌, ℕ, [], All, IfOk, MatchResult, length, slice_index_or};
ghost use Rattle.isl_meter.specs.Gauge.{IsCutBy, IsMetered};
ghost use Rattle.isl_greatest.specs.Problem.{IsProblem};
ghost use Rattle.isl_pip.specs.Levels.{AreCasesOf, AreCasesOn, AreLevelsOf, ArePlainOver, AreTowersOf, IsProblemOf};

use isl_greatest::{Case, Level, Problem, case_of};
use isl_meter::{Cut, Meter};
use isl_piece::System;
use isl_tower::Tower;
use std::alloc::Global;

// The towers of the systems over the front.
#[tactic(auto, using(std::proofs::lemmas::Grind::common_steps, isl_meter::proofs::CutLemmas::charges))]
fn towers_of(
    alloc: Global,
    systems: &[System],
    front: usize,
    width: usize,
    meter: &mut Meter,
) -> Result<Vec<Tower>, Cut>
    requires { ArePlainOver meter.old (front + width) systems.now }
    ensures towers { IfOk result (λ towers. AreTowersOf meter.old front systems.now towers.items) }
    ensures meter { IsMetered meter.old meter.new result }
{
    let mut towers = Vec::new(alloc);
    for system in systems {
        towers.push(Tower::of(alloc, system, front, meter)?)?;
    }
    Ok(towers)
}

// The cases of the systems.
fn cases_of(
    alloc: Global,
    systems: &[System],
    column: usize,
    meter: &mut Meter,
) -> Result<Vec<Case>, Cut>
    requires { ArePlainOver meter.old (column + 1) systems.now }
    ensures { MatchResult result (λ cases. AreCasesOf meter.old column systems.now cases.items × (meter.new ≡ meter.old))
        (IsCutBy meter.old meter.new) }
{
    let mut cases = Vec::new(alloc);
    for system in systems {
        cases.push(case_of(alloc, system, column, meter)?)?;
    }
    Ok(cases)
}

// The cases of the systems that the towers have over so many columns and one more.
fn cases_on(
    alloc: Global,
    towers: &[Tower],
    height: usize,
    column: usize,
    meter: &mut Meter,
) -> Result<Vec<Case>, Cut>
    requires height { All (λ levels. height < length levels) towers.now }
    requires systems { All (λ levels. ArePlainOver meter.old (column + 1) (slice_index_or levels height [])) towers.now }
    ensures { MatchResult result (λ cases. AreCasesOn meter.old column height towers.now cases.items × (meter.new ≡ meter.old))
        (IsCutBy meter.old meter.new) }
{
    let mut cases = Vec::new(alloc);
    for tower in towers {
        let mut more = cases_of(alloc, tower.level(height), column, meter)?;
        cases.append(&mut more)?;
    }
    Ok(cases)
}

// The cases of each column behind the front.
fn levels_of(
    alloc: Global,
    towers: &[Tower],
    front: usize,
    width: usize,
    meter: &mut Meter,
) -> Result<Vec<Level>, Cut>
    requires fits { front + width + 1 < 2 ^ 64 }
    requires height { All (λ levels. length levels ≡ width + 1) towers.now }
    requires systems { (depth : ℕ) → depth < width
        → All (λ levels. ArePlainOver meter.old (front + depth + 1) (slice_index_or levels (depth + 1) [])) towers.now }
    ensures { MatchResult result
        (λ levels. AreLevelsOf meter.old front towers.now levels.items × (length levels.items ≡ width) × (meter.new ≡ meter.old))
        (IsCutBy meter.old meter.new) }
{
    let mut levels = Vec::new(alloc);
    for depth in 0..width {
        let cases = cases_on(alloc, towers, depth + 1, front + depth, meter)?;
        levels.push(Level::new(cases))?;
    }
    Ok(levels)
}

/// The problem of the systems, which have so many columns behind the front.
///
/// # Errors
///
/// As every call under a meter.
#[tactic(auto, using(std::proofs::lemmas::Grind::common_steps, isl_meter::proofs::CutLemmas::charges))]
pub(crate) fn problem_of(
    alloc: Global,
    systems: Vec<System>,
    front: usize,
    width: usize,
    meter: &mut Meter,
) -> Result<Problem, Cut>
    requires systems { ArePlainOver meter.old (front + width) systems.items }
    requires some { 0 < width }
    requires fits { front + width + 1 < 2 ^ 64 }
    ensures problem { IfOk result (IsProblem meter.old) }
    ensures parts { IfOk result (IsProblemOf front width systems.items) }
    ensures meter { IsMetered meter.old meter.new result }
{
    let towers = towers_of(alloc, systems.as_slice(), front, width, meter)?;
    let levels = levels_of(alloc, towers.as_slice(), front, width, meter)?;
    Ok(Problem::new(front, systems, levels))
}
