//! Columns out of a system: its projection, in which quotients are kept.

ghost use Rattle.std.specs.Prelude.{◌≡◌, ◌≢◌, ◌<◌, ◌≤◌, ◌+◌, ◌-◌, ◌∷◌, [], ℕ, All, AllPairs, IfOk, option_to_list, slice_index_or, length};
ghost use Rattle.isl_meter.specs.Gauge.{IsMetered};
ghost use Rattle.isl_piece.specs.declared.row.Row.{Row};
ghost use Rattle.isl_piece.specs.Normal.{IsNormal, normal_system};
ghost use Rattle.isl_piece.specs.System.{IsSystemWithin, free_columns};
ghost use Rattle.isl_elim.specs.Elimination.{IsProjectionAlong};
ghost use Rattle.isl_elim.specs.Others.{others_of};
ghost use Rattle.isl_elim.specs.Solved.{IsUnitEquality};
ghost use Rattle.isl_quotient.specs.Kept.{IsKept, IsPinned};
ghost use Rattle.isl_quotient.specs.Quotient.{with_quotient, HavePinning, IsUndefining};
ghost use Rattle.isl_quotient.specs.Pair.{IsPairOf};
ghost use Rattle.isl_quotient.specs.Turned.{IsTurned};

use crate::alone::normal_alone;
use crate::candidate::{are_undefining, may_keep};
use crate::opened::{opened, with_defined};
use crate::pairs::{Pair, quotient_pair};
use crate::quotient::with_quotient;
use crate::solved::{given_column, solved};
use isl_elim::eliminate_all;
use isl_meter::{Cut, Meter};
use isl_piece::System;
use std::alloc::{AllocError, Global};

/// The other columns, where they stand once the column was taken out.
#[tactic(auto, using(std::proofs::lemmas::Grind::common_steps, isl_elim::proofs::OthersLaws::others_steps))]
pub(crate) fn others(alloc: Global, cols: &[usize], col: usize) -> Result<Vec<usize>, AllocError>
    ensures { IfOk result (λ left. left.items ≡ others_of col cols.now) }
{
    let mut left = Vec::with_capacity(alloc, cols.len())?;
    for &other in cols {
        if other < col {
            left.push(other)?;
        } else if other > col {
            left.push(other - 1)?;
        }
    }
    Ok(left)
}

// The system in which a quotient stands for the column of the pair.
#[tactic(auto, using(std::proofs::lemmas::Grind::common_steps, crate::proofs::TurnLaws::turn_steps))]
fn turned(
    alloc: Global,
    system: &System,
    cols: &[usize],
    pair: Pair,
    meter: &Meter,
) -> Result<System, AllocError>
    requires well_formed { IsSystemWithin meter.now system.now }
    requires cols_in { All (λ col. col < free_columns system.now) cols.now }
    requires undefining { All (λ col. IsUndefining col system.now.definitions) cols.now }
    requires pair { IsPairOf system.now.rows cols.now pair }
    ensures turned { IfOk result (IsTurned meter.now system.now cols.now pair.col) }
    ensures exact { (d : Row) → IfOk result (λ made. made ≡ with_quotient pair.col (slice_index_or system.now.rows pair.upper d)
        (slice_index_or system.now.rows pair.lower d) system.now) }
{
    let rows = system.rows.as_slice();
    with_quotient(
        alloc,
        system,
        pair.col,
        &rows[pair.upper],
        &rows[pair.lower],
        meter,
    )
}

// What is left of the system without the columns, of which no definition names one: a quotient stands for each that two bounds leave
// no other number, as long as there is such a one.
#[tactic(auto, using(std::proofs::lemmas::Grind::common_steps, crate::proofs::TurnLaws::project_steps))]
fn kept_without(
    alloc: Global,
    system: System,
    cols: &[usize],
    meter: &mut Meter,
) -> Result<Vec<System>, Cut>
    requires well_formed { IsSystemWithin meter.old system }
    requires distinct { AllPairs (λ a b. a ≢ b) cols.now }
    requires cols_in { All (λ col. col < free_columns system) cols.now }
    requires undefining { All (λ col. IsUndefining col system.definitions) cols.now }
    ensures projection { IfOk result (λ systems. IsProjectionAlong system cols.now systems.items) }
    ensures within { IfOk result (λ systems. All (IsSystemWithin meter.old) systems.items) }
    ensures normal { IfOk result (λ systems. All (λ s. IsNormal s.rows) systems.items) }
    ensures counted { IfOk result (λ systems. meter.old.units + length systems.items ≤ meter.new.units + 1) }
    ensures meter { IsMetered meter.old meter.new result }
    ensures alone { cols.now ≡ [] → IfOk result (λ systems. systems.items ≡ option_to_list (normal_system system)) }
    ensures kept { (col : ℕ) → cols.now ≡ col ∷ [] → HavePinning system.rows col
        → IfOk result (λ systems. IsKept col system systems.items) }
{
    if cols.is_empty() {
        return Ok(normal_alone(alloc, system, meter)?);
    }
    let Some(pair) = quotient_pair(system.rows.as_slice(), cols, meter) else {
        return eliminate_all(alloc, &system, cols, meter);
    };
    let left = others(alloc, cols, pair.col)?;
    let short = turned(alloc, &system, cols, pair, meter)?;
    kept_without(alloc, short, left.as_slice(), meter)
}

// What is left of the system without the columns, of which no definition names one. Those that an equation has with 1 or -1 go first.
#[tactic(auto, using(std::proofs::lemmas::Grind::common_steps, isl_meter::proofs::CutLemmas::charges))]
fn solved_without(
    alloc: Global,
    system: System,
    cols: &[usize],
    meter: &mut Meter,
) -> Result<Vec<System>, Cut>
    requires well_formed { IsSystemWithin meter.old system }
    requires distinct { AllPairs (λ a b. a ≢ b) cols.now }
    requires cols_in { All (λ col. col < free_columns system) cols.now }
    requires undefining { All (λ col. IsUndefining col system.definitions) cols.now }
    ensures projection { IfOk result (λ systems. IsProjectionAlong system cols.now systems.items) }
    ensures within { IfOk result (λ systems. All (IsSystemWithin meter.old) systems.items) }
    ensures normal { IfOk result (λ systems. All (λ s. IsNormal s.rows) systems.items) }
    ensures counted { IfOk result (λ systems. meter.old.units + length systems.items ≤ meter.new.units + 1) }
    ensures meter { IsMetered meter.old meter.new result }
    ensures kept { (col : ℕ) → cols.now ≡ col ∷ [] → All (λ r. ¬ IsUnitEquality col r) system.rows → HavePinning system.rows col
        → IfOk result (λ systems. IsKept col system systems.items) }
{
    let Some(given) = given_column(system.rows.as_slice(), cols) else {
        return kept_without(alloc, system, cols, meter);
    };
    let left = others(alloc, cols, given.col)?;
    let Some(short) = solved(alloc, &system, cols, given, meter)? else {
        return Ok(Vec::new(alloc));
    };
    solved_without(alloc, short, left.as_slice(), meter)
}

// What is left of the system without the columns, all its definitions opened: those that say the same of the columns that stay are
// found again.
#[tactic(auto, using(std::proofs::lemmas::Grind::common_steps, isl_meter::proofs::CutLemmas::charges))]
fn opened_without(
    alloc: Global,
    system: &System,
    cols: &[usize],
    meter: &mut Meter,
) -> Result<Vec<System>, Cut>
    requires well_formed { IsSystemWithin meter.old system.now }
    requires distinct { AllPairs (λ a b. a ≢ b) cols.now }
    requires cols_in { All (λ col. col < free_columns system.now) cols.now }
    ensures projection { IfOk result (λ systems. IsProjectionAlong system.now cols.now systems.items) }
    ensures within { IfOk result (λ systems. All (IsSystemWithin meter.old) systems.items) }
    ensures normal { IfOk result (λ systems. All (λ s. IsNormal s.rows) systems.items) }
    ensures counted { IfOk result (λ systems. meter.old.units + length systems.items ≤ meter.new.units + 1) }
    ensures meter { IsMetered meter.old meter.new result }
{
    let whole = opened(alloc, system, meter)?;
    let all = with_defined(alloc, system, cols)?;
    solved_without(alloc, whole, all.as_slice(), meter)
}

/// The systems without the free columns `cols`, of which some holds at a point of the other free columns exactly where some whole
/// numbers put at `cols` make `system` hold. Each is in normal form. Of one column `x` with `k x <= e <= k x + s`, where `0 <= s < k`
/// and `1 < k`, that no definition names and no equation has with 1 or -1, one system is left at most, whose last column is the quotient of
/// `e` by `k`, defined. Of several columns this may keep quotients too.
///
/// # Errors
///
/// `Overflow` where a number passes the limit of the meter, `Budget` where its units are used up, and `NoMemory`.
#[tactic(auto, using(std::proofs::lemmas::Grind::common_steps, crate::proofs::TurnLaws::project_steps))]
pub fn project(
    alloc: Global,
    system: &System,
    cols: &[usize],
    meter: &mut Meter,
) -> Result<Vec<System>, Cut>
    requires well_formed { IsSystemWithin meter.old system.now }
    requires distinct { AllPairs (λ a b. a ≢ b) cols.now }
    requires cols_in { All (λ col. col < free_columns system.now) cols.now }
    ensures projection { IfOk result (λ systems. IsProjectionAlong system.now cols.now systems.items) }
    ensures within { IfOk result (λ systems. All (IsSystemWithin meter.old) systems.items) }
    ensures normal { IfOk result (λ systems. All (λ s. IsNormal s.rows) systems.items) }
    ensures counted { IfOk result (λ systems. meter.old.units + length systems.items ≤ meter.new.units + 1) }
    ensures meter { IsMetered meter.old meter.new result }
    ensures kept { (col : ℕ) → cols.now ≡ col ∷ [] → IsPinned col system.now
        → IfOk result (λ systems. IsKept col system.now systems.items) }
{
    if !are_undefining(system.definitions.as_slice(), cols) {
        return opened_without(alloc, system, cols, meter);
    }
    if !may_keep(system.rows.as_slice(), cols, meter) {
        return eliminate_all(alloc, system, cols, meter);
    }
    solved_without(alloc, system.copy(alloc)?, cols, meter)
}
