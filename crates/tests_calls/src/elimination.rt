//! What elimination leaves of systems, emptiness, and samples.

ghost use Rattle.isl_piece.specs.System.{IsSystemWithin};

use crate::reference::{holds_somewhere, numbered, system_holds};
use crate::wanted::{FIRST, GIVEN, SIDE, WANTED, is_listed, points};
use isl_elim::{eliminate, eliminate_all, is_empty, sample_point};
use isl_meter::{Cut, Meter};
use isl_piece::System;
use std::alloc::{AllocError, Global};
use tests_made::{field, number, numbers, system_of};

// What is left of the system without up to three of its free columns.
fn without_columns(
    alloc: Global,
    system: &System,
    columns: &[usize],
    meter: &mut Meter,
) -> Result<Option<Vec<System>>, Cut>
    requires { IsSystemWithin meter.old system.now }
{
    let free = system.free();
    match *columns {
        [a] if a < free => Ok(Some(eliminate(alloc, system, a, meter)?)),
        [a, b] if a < b && b < free => Ok(Some(eliminate_all(alloc, system, &[a, b], meter)?)),
        [a, b, c] if a < b && b < c && c < free => {
            Ok(Some(eliminate_all(alloc, system, &[a, b, c], meter)?))
        }
        _ => Ok(None),
    }
}

fn some_hold(alloc: Global, systems: &Vec<System>, point: &[i128]) -> Result<bool, AllocError> {
    let mut some = false;
    for system in systems {
        some = some || system_holds(alloc, system, point)?;
    }
    Ok(some)
}

// Whether some of the systems holds exactly where a search finds numbers for the columns that are gone.
fn are_found(
    alloc: Global,
    case: &str,
    given: &System,
    gone: &[usize],
    left: &Vec<System>,
) -> Result<bool, AllocError> {
    let others = given.free().saturating_sub(gone.len());
    let mut same = true;
    for at in 0..points(others) {
        let point = numbered(alloc, at, others, FIRST, SIDE)?;
        let found = some_hold(alloc, left, &point)?;
        same = same
            && found == holds_somewhere(alloc, given, &point, gone)?
            && is_listed(case, &point, found);
    }
    Ok(same)
}

// Whether each system has the definitions that are wanted over so many free columns, and no others.
fn have_kept(
    alloc: Global,
    case: &str,
    free: usize,
    systems: &Vec<System>,
    meter: &Meter,
) -> Result<bool, AllocError> {
    match system_of(alloc, case, free, WANTED, meter)? {
        Some(wanted) => Ok(
            systems.iter().all(|system| {
                system.columns == wanted.columns && system.definitions.same(&wanted.definitions)
            }),
        ),
        None => Ok(false),
    }
}

// Whether the meter has used the units that the case names, if it names some.
fn has_used(case: &str, key: &str, meter: &Meter) -> bool {
    let used = meter.units() as usize;
    number(case, key, used) == used
}

// Whether the system is called empty; none where that does not cost what is wanted.
fn is_called_empty(alloc: Global, case: &str, columns: usize) -> Result<Option<bool>, Cut> {
    let mut meter = Meter::new(127, 1_000_000);
    let Some(system) = system_of(alloc, case, columns, GIVEN, &meter)? else {
        return Ok(None);
    };
    let empty = is_empty(alloc, &system, &mut meter)?;
    Ok(has_used(case, "empty-units ", &meter).then_some(empty))
}

// Whether the sample is a point at which the system holds; where there is none, whether a search finds none either.
fn sample_is_right(alloc: Global, case: &str, columns: usize, empty: bool) -> Result<bool, Cut> {
    let mut meter = Meter::new(127, 1_000_000);
    let Some(system) = system_of(alloc, case, columns, GIVEN, &meter)? else {
        return Ok(false);
    };
    let sample = sample_point(alloc, &system, &mut meter)?;
    let paid = has_used(case, "sample-units ", &meter);
    match sample {
        Some(point) => {
            let holds = system_holds(alloc, &system, &point)?;
            Ok(paid && !empty && point.len() == columns && holds)
        }
        None => {
            let all: Vec<usize> = (0..columns).collect(alloc)?;
            let found = holds_somewhere(alloc, &system, &[], &all)?;
            Ok(paid && empty && !found)
        }
    }
}

// Whether no point is left without all free columns. Systems are left then only where a definition is kept: one that depends on none
// of them.
fn nothing_is_left(alloc: Global, case: &str, columns: usize) -> Result<bool, Cut> {
    let mut meter = Meter::new(127, 1_000_000);
    let Some(system) = system_of(alloc, case, columns, GIVEN, &meter)? else {
        return Ok(false);
    };
    let all: Vec<usize> = (0..columns).collect(alloc)?;
    let Some(left) = without_columns(alloc, &system, &all, &mut meter)? else {
        return Ok(false);
    };
    let kept = left.iter().any(|system| !system.definitions.is_empty());
    Ok(!some_hold(alloc, &left, &[])? && (kept || left.is_empty()))
}

// Whether the system is called empty exactly where it has no sample, and nothing is left of it without its columns. It is to be
// empty where the case says `never`.
fn is_decided(alloc: Global, case: &str, columns: usize) -> Result<bool, Cut> {
    let Some(empty) = is_called_empty(alloc, case, columns)? else {
        return Ok(false);
    };
    let right = sample_is_right(alloc, case, columns, empty)?;
    let gone = nothing_is_left(alloc, case, columns)?;
    Ok(right && gone == empty && (empty || field(case, "never").is_none()))
}

// The columns that the case takes out: those that it lists, or the last one.
fn gone_of(alloc: Global, case: &str, columns: usize) -> Result<Vec<usize>, AllocError> {
    let mut gone = Vec::new(alloc);
    for column in numbers(alloc, case, "gone ")? {
        gone.push(usize::try_from(column).unwrap_or(columns))?;
    }
    if gone.is_empty() {
        gone.push(columns.saturating_sub(1))?;
    }
    Ok(gone)
}

// Whether the systems that are left have the definitions and hold at the points that are wanted, and the given one is decided.
fn is_found(
    alloc: Global,
    case: &str,
    given: &System,
    gone: &[usize],
    left: &Vec<System>,
    meter: &Meter,
) -> Result<bool, Cut> {
    let columns = given.free();
    Ok(
        have_kept(alloc, case, columns.saturating_sub(gone.len()), left, meter)?
            && are_found(alloc, case, given, gone, left)?
            && is_decided(alloc, case, columns)?,
    )
}

/// Whether what is left of the system of a case is what is wanted, and costs what is wanted. Systems over more than three columns are not
/// searched.
pub(crate) fn is_eliminated(alloc: Global, case: &str, columns: usize) -> Result<bool, Cut> {
    let mut meter = Meter::new(127, 1_000_000);
    let gone = gone_of(alloc, case, columns)?;
    let Some(given) = system_of(alloc, case, columns, GIVEN, &meter)? else {
        return Ok(false);
    };
    let Some(left) = without_columns(alloc, &given, &gone, &mut meter)? else {
        return Ok(false);
    };
    let right = number(case, "systems ", left.len()) == left.len()
        && has_used(case, "units ", &meter);
    Ok(right && (columns > 3 || is_found(alloc, case, &given, &gone, &left, &meter)?))
}
