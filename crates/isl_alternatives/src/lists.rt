//! Lists of systems: copied, met with others, without others, in their normal form, and without those that hold nowhere.

ghost use Rattle.std.specs.Prelude.{◌≡◌, ◌⊎◌, ◌+◌, ◌≤◌, ◌++◌, [], All, IfOk, IsTrue, MatchResult, OnOk, length};
ghost use Rattle.isl_meter.specs.Gauge.{Gauge, IsCharged, IsCutBy};
ghost use Rattle.isl_piece.specs.Normal.{IsNormal};
ghost use Rattle.isl_piece.specs.System.{HoldsSystem, free_columns};
ghost use Rattle.isl_elim.specs.Elimination.{HoldsAtAny};
ghost use Rattle.isl_affine.specs.Scope.{Scope as Names};
ghost use Rattle.isl_alternatives.specs.Restricted.{AreRestricted, HoldEverywhere, HoldsAs, IsOver};

use isl_affine::Scope;
use isl_difference::{are_too_heavy, live_form, outside, references, take_too_much};
use isl_meter::{Cut, Meter};
use isl_piece::{Rows, System, meet, normalise};
use std::alloc::{AllocError, Global};

/// So many rows a system may have before it is made normal.
pub(crate) const ROOM: usize = 1_024;

// So many rows more a copied system takes without new memory: mostly one row comes, or both of an interval.
const MORE_ROWS: usize = 2;

// Each system counts so many times: the lists, which grow, have room for twice as many.
const TIMES: usize = 2;

/// Puts the other systems behind these. A list alone is as long as it was.
///
/// # Errors
///
/// `AllocError` where memory ends, or they are too many together.
pub(crate) fn append(systems: &mut Vec<System>, more: &mut Vec<System>) -> Result<(), AllocError>
    ensures items { OnOk result (systems.new.items ≡ systems.old.items ++ more.old.items) }
{
    let room = systems.capacity();
    if !systems.is_empty() && take_too_much(systems.as_slice(), more.as_slice(), room, TIMES) {
        return Err(AllocError);
    }
    systems.append(more)
}

// A copy of the system, with room for some rows more.
fn roomy_copy(alloc: Global, system: &System) -> Result<System, AllocError>
    ensures { IfOk result (λ copy. copy ≡ system.now) }
{
    let room = system.rows.len().saturating_add(MORE_ROWS);
    let mut rows = Rows::with_capacity(alloc, room)?;
    rows.append(alloc, &system.rows)?;
    let definitions = system.definitions.copy(alloc)?;
    Ok(System::over(system.columns, definitions, rows))
}

/// Copies of the systems.
pub(crate) fn copies(alloc: Global, systems: &[System]) -> Result<Vec<System>, AllocError>
    ensures { IfOk result (λ copies. copies.items ≡ systems.now) }
{
    let mut copies = Vec::with_capacity(alloc, systems.len())?;
    for system in systems {
        copies.push(roomy_copy(alloc, system)?)?;
    }
    Ok(copies)
}

// Uses a unit for each of the systems where something is found already.
#[tactic(auto, using(std::proofs::lemmas::Grind::common_steps, isl_meter::proofs::CutLemmas::charges))]
fn pay(systems: &[System], found: &[System], meter: &mut Meter) -> Result<(), Cut>
    ensures { MatchResult result
        (λ _. ((found.now ≡ []) ⊎ (meter.old.units + length systems.now ≤ meter.new.units)) × IsCharged meter.old meter.new)
        (IsCutBy meter.old meter.new) }
{
    if !found.is_empty() {
        for _turn in 0..systems.len() {
            meter.unit()?;
        }
    }
    Ok(())
}

/// Copies of the systems, of which alternatives come beside those that are found: a unit for each but of the first.
#[tactic(auto, using(std::proofs::lemmas::Grind::common_steps, isl_meter::proofs::CutLemmas::charges))]
pub(crate) fn begun(
    alloc: Global,
    systems: &[System],
    found: &[System],
    meter: &mut Meter,
) -> Result<Vec<System>, Cut>
    ensures { MatchResult result
        (λ copies. (copies.items ≡ systems.now)
        × ((found.now ≡ []) ⊎ (meter.old.units + length systems.now ≤ meter.new.units)) × IsCharged meter.old meter.new)
        (IsCutBy meter.old meter.new) }
{
    pay(systems, found, meter)?;
    Ok(copies(alloc, systems)?)
}

// Each of the systems together with the other.
#[tactic(auto, using(std::proofs::lemmas::Grind::common_steps, isl_meter::proofs::CutLemmas::charges))]
fn met_with(alloc: Global, systems: &[System], other: &System) -> Result<Vec<System>, AllocError>
    requires columns { All (λ s. free_columns s ≡ free_columns other.now) systems.now }
    ensures { (g : Gauge) (scope : Names) → All (IsOver g scope) systems.now → IsOver g scope other.now
        → IfOk result (λ met. AreRestricted g g scope systems.now (λ point env. HoldsSystem other.now point) met.items) }
{
    let mut met = Vec::with_capacity(alloc, systems.len())?;
    let mut weight = 0usize;
    for system in systems {
        let both = meet(alloc, system, other)?;
        weight = weight.saturating_add(both.rows.len()).saturating_add(1);
        if are_too_heavy(weight.saturating_mul(TIMES), both.columns) {
            return Err(AllocError);
        }
        met.push(both)?;
    }
    Ok(met)
}

// The systems together with some of the others, over the columns of the scope: one unit for each pair but those of the first other.
#[tactic(auto, using(std::proofs::lemmas::Grind::common_steps, isl_meter::proofs::CutLemmas::charges))]
fn met(
    alloc: Global,
    systems: &[System],
    others: &[System],
    scope: &Scope,
    meter: &mut Meter,
) -> Result<Vec<System>, Cut>
    requires over { All (IsOver meter.old scope.now) systems.now }
    requires others_over { All (IsOver meter.old scope.now) others.now }
    ensures { MatchResult result
        (λ met. AreRestricted meter.old meter.new scope.now systems.now (λ point env. HoldsAtAny others.now point) met.items)
        (IsCutBy meter.old meter.new) }
{
    let mut found = Vec::new(alloc);
    for other in others {
        pay(systems, found.as_slice(), meter)?;
        let mut more = met_with(alloc, systems, other)?;
        append(&mut found, &mut more)?;
    }
    Ok(found)
}

// The systems without the others, over the columns of the scope.
#[tactic(auto, using(std::proofs::lemmas::Grind::common_steps, isl_meter::proofs::CutLemmas::charges))]
fn without(
    alloc: Global,
    systems: &[System],
    others: &[System],
    scope: &Scope,
    meter: &mut Meter,
) -> Result<Vec<System>, Cut>
    requires over { All (IsOver meter.old scope.now) systems.now }
    requires others_over { All (IsOver meter.old scope.now) others.now }
    ensures { MatchResult result
        (λ left. AreRestricted meter.old meter.new scope.now systems.now (λ point env. ¬ HoldsAtAny others.now point) left.items)
        (IsCutBy meter.old meter.new) }
{
    let list = references(alloc, others)?;
    let mut found = Vec::new(alloc);
    for system in systems {
        let mut left = outside(alloc, system, list.as_slice(), meter)?;
        append(&mut found, &mut left)?;
    }
    Ok(found)
}

// Whether there is one system, which holds at every point and defines no column.
fn hold_everywhere(systems: &[System]) -> bool
    ensures { IsTrue result → HoldEverywhere systems.now }
{
    match systems {
        [system] => system.rows.is_empty() && system.definitions.is_empty(),
        _ => false,
    }
}

// The others themselves, for a unit for each but the first: they are what the system that holds everywhere leaves of them.
#[tactic(auto, using(std::proofs::lemmas::Grind::common_steps, isl_meter::proofs::CutLemmas::charges, crate::proofs::RestrictedLaws::everywhere_met))]
fn met_everywhere(
    systems: &[System],
    others: Vec<System>,
    scope: &Scope,
    meter: &mut Meter,
) -> Result<Vec<System>, Cut>
    requires everywhere { HoldEverywhere systems.now }
    requires others_over { All (IsOver meter.old scope.now) others.items }
    ensures { MatchResult result
        (λ met. AreRestricted meter.old meter.new scope.now systems.now (λ point env. HoldsAtAny others.items point) met.items)
        (IsCutBy meter.old meter.new) }
{
    for _other in 0..others.len().saturating_sub(1) {
        meter.unit()?;
    }
    Ok(others)
}

/// The systems together with some of the others, or without all of them.
pub(crate) fn selected(
    alloc: Global,
    systems: &[System],
    others: Vec<System>,
    holds: bool,
    scope: &Scope,
    meter: &mut Meter,
) -> Result<Vec<System>, Cut>
    requires over { All (IsOver meter.old scope.now) systems.now }
    requires others_over { All (IsOver meter.old scope.now) others.items }
    ensures { MatchResult result
        (λ new. AreRestricted meter.old meter.new scope.now systems.now
        (λ point env. HoldsAs holds (λ e. HoldsAtAny others.items point) point env) new.items)
        (IsCutBy meter.old meter.new) }
{
    if !holds {
        return without(alloc, systems, others.as_slice(), scope, meter);
    }
    if hold_everywhere(systems) {
        return met_everywhere(systems, others, scope, meter);
    }
    met(alloc, systems, others.as_slice(), scope, meter)
}

/// The systems in their normal form, without those of which a row holds nowhere. No unit is used.
#[tactic(auto, using(std::proofs::lemmas::Grind::common_steps, isl_meter::proofs::CutLemmas::charges))]
pub(crate) fn normal_forms(
    alloc: Global,
    systems: Vec<System>,
    scope: &Scope,
    meter: &mut Meter,
) -> Result<Vec<System>, AllocError>
    requires over { All (IsOver meter.old scope.now) systems.items }
    ensures exact { IfOk result
        (λ forms. AreRestricted meter.old meter.new scope.now systems.items (λ point env. Unit {0}) forms.items) }
    ensures normal { IfOk result (λ forms. All (λ s. IsNormal s.rows) forms.items) }
    ensures meter { meter.new ≡ meter.old }
{
    let mut forms = Vec::new(alloc);
    for system in systems {
        let found = normalise(alloc, system, meter)?;
        if let Some(form) = found {
            forms.push(form)?;
        }
    }
    Ok(forms)
}

// The number of rows of the system that has most of them.
fn most_rows(systems: &[System]) -> usize {
    let mut most = 0;
    for system in systems {
        most = most.max(system.rows.len());
    }
    most
}

/// The systems, in their normal form where one of them has passed the room for rows; the room is for twice as many then. No unit is
/// used.
#[tactic(auto, using(std::proofs::lemmas::Grind::common_steps, crate::proofs::RestrictedLaws::as_they_are))]
pub(crate) fn with_room(
    alloc: Global,
    systems: Vec<System>,
    room: &mut usize,
    scope: &Scope,
    meter: &mut Meter,
) -> Result<Vec<System>, AllocError>
    requires over { All (IsOver meter.old scope.now) systems.items }
    ensures exact { IfOk result
        (λ forms. AreRestricted meter.old meter.new scope.now systems.items (λ point env. Unit {0}) forms.items) }
    ensures meter { meter.new ≡ meter.old }
{
    if take_too_much(&[], systems.as_slice(), 0, TIMES) {
        return Err(AllocError);
    }
    if most_rows(systems.as_slice()) <= *room {
        return Ok(systems);
    }
    let forms = normal_forms(alloc, systems, scope, meter)?;
    *room = most_rows(forms.as_slice()).saturating_mul(2).max(ROOM);
    Ok(forms)
}

/// The systems that hold somewhere, in their normal form.
#[tactic(auto, using(std::proofs::lemmas::Grind::common_steps, isl_meter::proofs::CutLemmas::charges))]
pub(crate) fn live(
    alloc: Global,
    systems: Vec<System>,
    scope: &Scope,
    meter: &mut Meter,
) -> Result<Vec<System>, Cut>
    requires over { All (IsOver meter.old scope.now) systems.items }
    ensures { MatchResult result
        (λ live. AreRestricted meter.old meter.new scope.now systems.items (λ point env. Unit {0}) live.items)
        (IsCutBy meter.old meter.new) }
{
    let mut live = Vec::new(alloc);
    for system in systems {
        let found = live_form(alloc, system, meter)?;
        if let Some(part) = found {
            live.push(part)?;
        }
    }
    Ok(live)
}
