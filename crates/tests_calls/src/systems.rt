//! Where systems hold, their normal rows, what two of them have together, and negations.

use crate::reference::{all_hold, numbered, system_holds};
use crate::wanted::{FIRST, GIVEN, OTHER, SIDE, WANTED, is_listed, points};
use isl_meter::{Cut, Meter};
use isl_piece::{Row, Rows, System, meet, negate, normalise};
use std::alloc::{AllocError, Global};
use std::slice;
use tests_made::{field, is_proper_row, system_of};

// Whether the row says at each point what it means.
fn row_tells(alloc: Global, row: &Row, columns: usize, meter: &mut Meter) -> Result<bool, Cut> {
    let mut same = true;
    for at in 0..points(columns) {
        let point = numbered(alloc, at, columns, FIRST, SIDE)?;
        let one = slice::from_ref(row);
        same = same
            && is_proper_row(row, point.len(), meter)
            && row.holds_at(&point, meter)? == all_hold(one, &point);
    }
    Ok(same)
}

// Whether the first system holds exactly where each of the others does.
fn holds_where_all(
    alloc: Global,
    system: &System,
    others: &[&System],
    columns: usize,
) -> Result<bool, AllocError> {
    let mut same = true;
    for at in 0..points(columns) {
        let point = numbered(alloc, at, columns, FIRST, SIDE)?;
        let mut all = true;
        for other in others {
            all = all && system_holds(alloc, other, &point)?;
        }
        same = same && system_holds(alloc, system, &point)? == all;
    }
    Ok(same)
}

fn is_same(one: &System, other: &System) -> bool {
    one.columns == other.columns
        && one.definitions.same(&other.definitions)
        && one.rows.as_slice() == other.rows.as_slice()
}

// Whether the normal rows are those that are wanted, and hold where the rows do.
pub(crate) fn is_normalised(
    alloc: Global,
    case: &str,
    columns: usize,
    meter: &mut Meter,
) -> Result<bool, Cut> {
    let Some(system) = system_of(alloc, case, columns, GIVEN, meter)? else {
        return Ok(false);
    };
    let given = system.copy(alloc)?;
    let Some(wanted) = system_of(alloc, case, columns, (GIVEN.0, WANTED.1), meter)? else {
        return Ok(false);
    };
    match normalise(alloc, system, meter)? {
        Some(found) => Ok(
            field(case, "never").is_none()
                && is_same(&found, &wanted)
                && holds_where_all(alloc, &found, &[&given], columns)?,
        ),
        None => Ok(field(case, "never").is_some()),
    }
}

// Whether two systems have the wanted definitions and rows together, and hold together where these do.
pub(crate) fn is_met(
    alloc: Global,
    case: &str,
    columns: usize,
    meter: &Meter,
) -> Result<bool, Cut> {
    let Some(one) = system_of(alloc, case, columns, GIVEN, meter)? else {
        return Ok(false);
    };
    let Some(other) = system_of(alloc, case, columns, OTHER, meter)? else {
        return Ok(false);
    };
    let Some(wanted) = system_of(alloc, case, columns, WANTED, meter)? else {
        return Ok(false);
    };
    if one.free() != other.free() {
        return Ok(false);
    }
    let found = meet(alloc, &one, &other)?;
    Ok(is_same(&found, &wanted) && holds_where_all(alloc, &found, &[&one, &other], columns)?)
}

// Whether the row's negation has the wanted rows, and says at each point what it means.
pub(crate) fn is_negated(
    alloc: Global,
    row: &Row,
    wanted: &Rows,
    meter: &mut Meter,
) -> Result<bool, Cut> {
    let columns = row.coefs.len();
    if !is_proper_row(row, columns, meter) {
        return Ok(false);
    }
    let found = negate(alloc, row, meter)?;
    Ok(found.as_slice() == wanted.as_slice() && row_tells(alloc, row, columns, meter)?)
}

// Whether the case's system says at the point what it means, and what is wanted.
fn tells(alloc: Global, case: &str, columns: usize, point: &[i128]) -> Result<bool, Cut> {
    let mut meter = Meter::new(127, 1);
    match system_of(alloc, case, columns, GIVEN, &meter)? {
        Some(system) if system.free() == point.len() => {
            let holds = system.holds_at(alloc, point, &mut meter)?;
            Ok(holds == system_holds(alloc, &system, point)? && is_listed(case, point, holds))
        }
        _ => Ok(false),
    }
}

// Whether the system says at each point what it means, and what is wanted.
pub(crate) fn all_tell(alloc: Global, case: &str, columns: usize) -> Result<bool, Cut> {
    let mut same = true;
    for at in 0..points(columns) {
        let point = numbered(alloc, at, columns, FIRST, SIDE)?;
        same = same && tells(alloc, case, columns, &point)?;
    }
    Ok(same)
}
