//! At which points rows and systems hold, said once more: plainly, slowly, and without contracts. It shares no definition with what is
//! tested, so that the two can disagree.

use isl_piece::{Coefs, Definition, Row, RowKind, System};
use std::alloc::{AllocError, Global};

fn divides(by: i128, number: i128) -> bool {
    number.checked_rem_euclid(by) == Some(0)
}

fn form_at(coefs: &Coefs, constant: i128, point: &[i128]) -> i128 {
    let mut sum = constant;
    for (coef, x) in coefs.as_slice().iter().zip(point) {
        sum = sum.wrapping_add(coef.get().wrapping_mul(*x));
    }
    sum
}

fn holds(row: &Row, point: &[i128]) -> bool {
    let sum = form_at(&row.coefs, row.constant().get(), point);
    match row.kind {
        RowKind::Zero => sum == 0,
        RowKind::AtLeast => sum >= 0,
        RowKind::Divides => divides(row.modulus().get(), sum),
        RowKind::NotDivides => !divides(row.modulus().get(), sum),
    }
}

/// Whether each row holds at the point.
pub(crate) fn all_hold(rows: &[Row], point: &[i128]) -> bool {
    rows.iter().all(|row| holds(row, point))
}

// The greatest whole number that is no greater than the quotient; 0 where nothing is divided by.
fn floor_of(number: i128, by: i128) -> i128 {
    number.checked_div_euclid(by).unwrap_or(0)
}

// Puts the numbers of the defined columns behind those of the free ones.
fn complete(definitions: &[Definition], point: &mut Vec<i128>) -> Result<(), AllocError> {
    for definition in definitions {
        let form = form_at(&definition.coefs, definition.constant, point);
        point.push(floor_of(form, definition.k))?;
    }
    Ok(())
}

// The same with a list that has room already, and is left as it was.
fn holds_within(system: &System, point: &mut Vec<i128>) -> Result<bool, AllocError> {
    let free = point.len();
    complete(system.definitions.as_slice(), point)?;
    let holds = all_hold(system.rows.as_slice(), point);
    point.truncate(free);
    Ok(holds)
}

/// Whether the system holds where its free columns have these numbers.
pub(crate) fn system_holds(
    alloc: Global,
    system: &System,
    point: &[i128],
) -> Result<bool, AllocError> {
    holds_within(system, &mut point.to_vec(alloc)?)
}

// The number that has this place among so many from `first` on, again and again.
fn number_at(place: u32, first: i128, side: u32) -> i128 {
    first.wrapping_add(i128::from(place % side.max(1)))
}

/// The point with so many coordinates from `first` on, `side` numbers each, that has this number among them.
pub(crate) fn numbered(
    alloc: Global,
    number: u32,
    columns: usize,
    first: i128,
    side: u32,
) -> Result<Vec<i128>, AllocError> {
    let mut left = number;
    let mut point = Vec::new(alloc);
    for _column in 0..columns {
        point.push(number_at(left, first, side))?;
        left /= side.max(1);
    }
    Ok(point)
}

// Puts numbers from -20 to 20 at the columns: those of the point that has this number among all of them.
fn put(point: &mut [i128], columns: &[usize], number: u32) {
    let mut left = number;
    for column in columns {
        if let Some(place) = point.get_mut(*column) {
            *place = number_at(left, -20, 41);
        }
        left /= 41;
    }
}

/// Whether the system holds somewhere where its other free columns have these numbers, and those at `columns`, in order, some from
/// -20 to 20.
pub(crate) fn holds_somewhere(
    alloc: Global,
    system: &System,
    others: &[i128],
    columns: &[usize],
) -> Result<bool, AllocError> {
    let mut point = others.to_vec(alloc)?;
    for column in columns {
        point.insert((*column).min(point.len()), 0)?;
    }
    for number in 0..41u32.saturating_pow(u32::try_from(columns.len()).unwrap_or(0)) {
        put(&mut point, columns, number);
        if holds_within(system, &mut point)? {
            return Ok(true);
        }
    }
    Ok(false)
}
