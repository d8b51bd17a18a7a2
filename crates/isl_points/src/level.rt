//! The numbers at one level of a tower, behind what begins points below it.

ghost use Rattle.std.specs.Prelude.{◌≡◌, ◌↔◌, ◌+◌, ◌≤◌, ◌<◌, ℤ, List, [], ◌∷◌, ◌++◌, length, All, AllPairs, IfOk, MatchResult, OnOk};
ghost use Rattle.isl_math.specs.Order.{IsBefore};
ghost use Rattle.isl_meter.specs.Gauge.{IsCharged, IsCutBy, IsWithin};
ghost use Rattle.isl_piece.specs.System.{HoldRows, HoldsSystem, IsSystemWithin, free_columns};
ghost use Rattle.isl_omega.specs.Column.{IsProper};
ghost use Rattle.isl_elim.specs.Elimination.{HoldsAtAny};
ghost use Rattle.isl_tower.specs.Ends.{HasLowerEnd, HasUpperEnd};
ghost use Rattle.isl_tower.specs.Level.{AreOver};
ghost use Rattle.isl_points.specs.Fibre.{IsEnded};
ghost use Rattle.isl_points.specs.Flat.{laid_out};
ghost use Rattle.isl_points.specs.Level.{AreLonger, IsLengthened, behind};
ghost use Rattle.isl_points.specs.Line.{IsListing};

use crate::Points;
use crate::line::{Line, excluding};
use crate::list::check_count;
use crate::row::{LineRow, rows_behind, rows_behind_on, solution};
use isl_meter::{Cut, Int, Meter};
use isl_piece::System;
use std::alloc::{AllocError, Global};

// Rows and numbers behind one prefix. Their memory is used again for the next one.
#[derive(Drop)]
struct Behind {
    rows: Vec<LineRow>,
    numbers: Vec<Int>,
}

// The numbers at which the rows hold, in the place of what was found before.
fn on_line(rows: Vec<LineRow>, mut numbers: Vec<Int>, meter: &mut Meter) -> Result<Behind, Cut>
    requires rows { All (IsProper meter.old 1) rows.items }
    requires ended { (¬ (HasLowerEnd 0 rows.items × HasUpperEnd 0 rows.items)) → (x : ℤ) → ¬ HoldRows rows.items (x ∷ []) }
    ensures { MatchResult result
        (λ found. IsListing meter.old meter.new (λ x. HoldRows rows.items (x ∷ [])) found.numbers.items)
        (IsCutBy meter.old meter.new) }
{
    match Line::of(rows.as_slice(), meter)? {
        None => {
            numbers.clear();
            Ok(Behind { rows, numbers })
        }
        Some(line) => {
            let numbers = line.list(excluding(rows.as_slice()), numbers, meter)?;
            Ok(Behind { rows, numbers })
        }
    }
}

// The number at which alone the rows hold. Uses a unit.
fn on_one(
    rows: Vec<LineRow>,
    mut numbers: Vec<Int>,
    x: Int,
    meter: &mut Meter,
) -> Result<Behind, Cut>
    requires within { IsWithin meter.old x }
    requires only { (z : ℤ) → HoldRows rows.items (z ∷ []) ↔ (z ≡ x) }
    ensures { MatchResult result
        (λ found. IsListing meter.old meter.new (λ z. HoldRows rows.items (z ∷ [])) found.numbers.items)
        (IsCutBy meter.old meter.new) }
{
    meter.unit()?;
    numbers.clear();
    numbers.push(x)?;
    Ok(Behind { rows, numbers })
}

// The numbers at which the rows hold. Many are one equation.
fn on_rows(rows: Vec<LineRow>, numbers: Vec<Int>, meter: &mut Meter) -> Result<Behind, Cut>
    requires rows { All (IsProper meter.old 1) rows.items }
    requires ended { (¬ (HasLowerEnd 0 rows.items × HasUpperEnd 0 rows.items)) → (x : ℤ) → ¬ HoldRows rows.items (x ∷ []) }
    ensures { MatchResult result
        (λ found. IsListing meter.old meter.new (λ x. HoldRows rows.items (x ∷ [])) found.numbers.items)
        (IsCutBy meter.old meter.new) }
{
    match solution(rows.as_slice(), meter) {
        Some(x) => on_one(rows, numbers, x, meter),
        None => on_line(rows, numbers, meter),
    }
}

// The numbers behind the prefix at which the system holds.
fn numbers_of(
    system: &System,
    prefix: &[i128],
    room: Behind,
    meter: &mut Meter,
) -> Result<Behind, Cut>
    requires well_formed { IsSystemWithin meter.old system.now }
    requires plain { system.now.definitions ≡ [] }
    requires columns { free_columns system.now ≡ length prefix.now + 1 }
    requires ended { IsEnded system.now }
    ensures exact { MatchResult result
        (λ found. IsListing meter.old meter.new (λ x. HoldsSystem system.now (prefix.now ++ x ∷ [])) found.numbers.items)
        (IsCutBy meter.old meter.new) }
{
    let Behind { rows, numbers } = room;
    let rows = rows_behind(system.rows.as_slice(), prefix, rows, meter)?;
    on_rows(rows, numbers, meter)
}

// The same, where there is such a number: then the rows hold that do not depend on it.
fn numbers_begun(
    system: &System,
    prefix: &[i128],
    room: Behind,
    meter: &mut Meter,
) -> Result<Behind, Cut>
    requires well_formed { IsSystemWithin meter.old system.now }
    requires plain { system.now.definitions ≡ [] }
    requires columns { free_columns system.now ≡ length prefix.now + 1 }
    requires ended { IsEnded system.now }
    requires begun { (x : ℤ) × HoldsSystem system.now (prefix.now ++ x ∷ []) }
    ensures exact { MatchResult result
        (λ found. IsListing meter.old meter.new (λ x. HoldsSystem system.now (prefix.now ++ x ∷ [])) found.numbers.items)
        (IsCutBy meter.old meter.new) }
{
    let Behind { rows, numbers } = room;
    let rows = rows_behind_on(system.rows.as_slice(), prefix, rows, meter)?;
    on_rows(rows, numbers, meter)
}

// The numbers behind the prefix at which some of the systems holds, in ascending order.
fn numbers_of_any(
    alloc: Global,
    systems: &[System],
    prefix: &[i128],
    room: Behind,
    meter: &mut Meter,
) -> Result<Behind, Cut>
    requires over { AreOver meter.old (length prefix.now + 1) systems.now }
    requires ended { All IsEnded systems.now }
    ensures exact { MatchResult result
        (λ found. IsListing meter.old meter.new (λ x. HoldsAtAny systems.now (prefix.now ++ x ∷ [])) found.numbers.items)
        (IsCutBy meter.old meter.new) }
{
    let mut found = Vec::new(alloc);
    let mut room = room;
    for system in systems {
        room = numbers_of(system, prefix, room, meter)?;
        check_count(found.len())?;
        found.extend_from_slice(room.numbers.as_slice())?;
    }
    found.sort()?;
    found.dedup();
    Ok(Behind {
        rows: room.rows,
        numbers: found,
    })
}

// The same, where there is one: of one system without the sorting.
fn numbers_behind(
    alloc: Global,
    systems: &[System],
    prefix: &[i128],
    room: Behind,
    meter: &mut Meter,
) -> Result<Behind, Cut>
    requires over { AreOver meter.old (length prefix.now + 1) systems.now }
    requires ended { All IsEnded systems.now }
    requires begun { (x : ℤ) × HoldsAtAny systems.now (prefix.now ++ x ∷ []) }
    ensures exact { MatchResult result
        (λ found. IsListing meter.old meter.new (λ x. HoldsAtAny systems.now (prefix.now ++ x ∷ [])) found.numbers.items)
        (IsCutBy meter.old meter.new) }
{
    match systems {
        [system] => numbers_begun(system, prefix, room, meter),
        _ => numbers_of_any(alloc, systems, prefix, room, meter),
    }
}

// Puts the numbers of the prefix with each of the numbers behind it behind the others.
fn push_each(prefix: &[i128], numbers: &[Int], longer: &mut Vec<i128>) -> Result<(), AllocError>
    ensures { OnOk result (longer.new.items ≡ longer.old.items ++ laid_out (behind prefix.now numbers.now)) }
{
    for x in numbers {
        check_count(longer.len())?;
        longer.extend_from_slice(prefix)?;
        longer.push(x.get())?;
    }
    Ok(())
}

// Puts the numbers of the prefix with each number behind it at which some of the systems holds behind the others.
fn lengthen(
    alloc: Global,
    systems: &[System],
    prefix: &[i128],
    room: Behind,
    longer: &mut Vec<i128>,
    meter: &mut Meter,
) -> Result<Behind, Cut>
    requires over { AreOver meter.old (length prefix.now + 1) systems.now }
    requires ended { All IsEnded systems.now }
    requires begun { (x : ℤ) × HoldsAtAny systems.now (prefix.now ++ x ∷ []) }
    ensures { MatchResult result
        (λ _. (lists : List (List ℤ)) → longer.old.items ≡ laid_out lists
        → (new : List (List ℤ)) × IsLengthened meter.old meter.new systems.now prefix.now lists new × (longer.new.items ≡ laid_out new))
        (IsCutBy meter.old meter.new) }
{
    let room = numbers_behind(alloc, systems, prefix, room, meter)?;
    push_each(prefix, room.numbers.as_slice(), longer)?;
    Ok(room)
}

/// The lists, each with each number behind it at which some of the systems holds, in lexicographic order as these are. There is one
/// for each list. A unit is used for each number that is tried.
///
/// # Errors
///
/// `Overflow` where a number passes the limit of the meter, `Budget` where its units are used up, and `NoMemory`.
pub(crate) fn all_longer(
    alloc: Global,
    systems: &[System],
    shorter: &Points,
    width: usize,
    meter: &mut Meter,
) -> Result<Points, Cut>
    requires over { AreOver meter.old width systems.now }
    requires ended { All IsEnded systems.now }
    requires widths { All (λ q. length q + 1 ≡ width) shorter.now }
    requires begun { All (λ q. (x : ℤ) × HoldsAtAny systems.now (q ++ x ∷ [])) shorter.now }
    requires some_column { 0 < width }
    requires ordered { AllPairs IsBefore shorter.now }
    requires within { All (All (IsWithin meter.old)) shorter.now }
    ensures exact { MatchResult result (AreLonger meter.old meter.new systems.now shorter.now) (IsCutBy meter.old meter.new) }
{
    let mut numbers = Vec::new(alloc);
    let mut room = Behind {
        rows: Vec::new(alloc),
        numbers: Vec::new(alloc),
    };
    for place in 0..shorter.len() {
        room = lengthen(
            alloc,
            systems,
            shorter.get(place),
            room,
            &mut numbers,
            meter,
        )?;
    }
    Ok(Points::of(width, numbers.len() / width, numbers))
}
