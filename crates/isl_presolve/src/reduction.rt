//! Which step makes the numbers of rows smaller: Euclid's algorithm on an equality, and a reduction of the columns of bounds, two at a
//! time. No clause speaks of what is found: each step is right.

ghost use Rattle.std.specs.Prelude.{◌≡◌, ◌<◌, ◌≤◌, All, None, IfSome, unsigned_abs};
ghost use Rattle.isl_presolve.specs.Unit.{IsUnitRow};

use crate::choice::leaves_many_splinters;
use crate::shear::Shear;
use isl_meter::Int;
use isl_piece::{Row, RowKind};

// How large numbers may be that are looked at.
const MOST: u128 = 1 << 40;

// The number that the row has at the column.
fn number_at(row: &Row, col: usize) -> i128 {
    row.coefs.as_slice().get(col).map_or(0, |c| c.get())
}

// The whole number that is closest to the opposite of the quotient.
fn opposite_quotient(number: i128, divisor: i128) -> i128 {
    let half = divisor.saturating_abs() / 2;
    let up = number.saturating_add(half);
    up.checked_div_euclid(divisor)
        .map_or(0, |q| q.saturating_neg())
}

/// A column of a row and the number there.
#[derive(Clone, Copy)]
struct Entry {
    col: usize,
    number: i128,
}

// The least and the greatest number of the row by magnitude, but for 0, if two columns have one.
fn ends(row: &Row) -> Option<(Entry, Entry)>
    ensures { All (λ c. unsigned_abs c ≤ 1) row.now.coefs → IfSome result (λ pair. unsigned_abs pair.0.number ≡ 1) }
{
    let mut least: Option<Entry> = None;
    let mut greatest: Option<Entry> = None;
    for col in 0..row.coefs.len() {
        let entry = Entry {
            col,
            number: row.coefs.get(col).get(),
        };
        if entry.number == 0 {
            continue;
        }
        let magnitude = entry.number.unsigned_abs();
        if least.is_none_or(|old| magnitude < old.number.unsigned_abs()) {
            least = Some(entry);
        }
        if greatest.is_none_or(|old| magnitude >= old.number.unsigned_abs()) {
            greatest = Some(entry);
        }
    }
    match (least, greatest) {
        (Some(a), Some(b)) if a.col != b.col => Some((a, b)),
        _ => None,
    }
}

// A step of Euclid's algorithm on an equality, where none takes a column out at once.
fn euclid_step(rows: &[Row]) -> Option<Shear>
    ensures { All IsUnitRow rows.now → result ≡ None }
{
    let mut found: Option<(Entry, Entry)> = None;
    for row in rows {
        if row.kind != RowKind::Zero {
            continue;
        }
        let Some((least, greatest)) = ends(row) else {
            continue;
        };
        if least.number.unsigned_abs() == 1 {
            return None;
        }
        if found.is_none_or(|old| least.number.unsigned_abs() < old.0.number.unsigned_abs()) {
            found = Some((least, greatest));
        }
    }
    let (least, greatest) = found?;
    Some(Shear {
        from: least.col,
        to: greatest.col,
        times: Int::new(opposite_quotient(greatest.number, least.number)),
    })
}

// Whether all rows are bounds whose numbers are not too large to be looked at.
fn are_short_bounds(rows: &[Row]) -> bool {
    rows.iter().all(|row| {
        row.kind == RowKind::AtLeast
            && row
                .coefs
                .as_slice()
                .iter()
                .all(|c| c.get().unsigned_abs() <= MOST)
    })
}

// The sum of the products of the numbers at two columns.
fn product(rows: &[Row], a: usize, b: usize) -> Option<i128> {
    let mut sum: i128 = 0;
    for row in rows {
        let term = number_at(row, a).checked_mul(number_at(row, b))?;
        sum = sum.checked_add(term)?;
    }
    Some(sum)
}

/// A step, and by how much it makes the square of the column's length less.
#[derive(Clone, Copy)]
struct Gain {
    shear: Shear,
    less: i128,
}

// The step from one column to another that makes that one shortest, if it gets shorter by a sixteenth of its square.
fn gain_of(rows: &[Row], from: usize, to: usize) -> Option<Gain> {
    if from == to {
        return None;
    }
    let own = product(rows, from, from)?;
    let both = product(rows, from, to)?;
    let old = product(rows, to, to)?;
    if own == 0 {
        return None;
    }
    let times = opposite_quotient(both, own);
    let change = both
        .checked_mul(2)?
        .checked_add(times.checked_mul(own)?)?
        .checked_mul(times)?;
    let less = change.saturating_neg();
    (less > 0 && less >= old / 16).then_some(Gain {
        shear: Shear {
            from,
            to,
            times: Int::new(times),
        },
        less,
    })
}

// Of two steps the one by which more is gained.
fn better(a: Option<Gain>, b: Option<Gain>) -> Option<Gain> {
    match (a, b) {
        (Some(old), Some(new)) => Some(if old.less < new.less { new } else { old }),
        (None, _) => b,
        _ => a,
    }
}

// The step between two columns of bounds by which most is gained.
fn shortest_step(rows: &[Row], columns: usize) -> Option<Shear> {
    let mut best: Option<Gain> = None;
    for from in 0..columns {
        for to in 0..columns {
            best = better(best, gain_of(rows, from, to));
        }
    }
    best.map(|gain| gain.shear)
}

// Whether the numbers of all rows are within the limit after the step.
fn stays_within(rows: &[Row], shear: &Shear, limit: i128) -> bool {
    rows.iter().all(|row| {
        let added = shear.times.get().checked_mul(number_at(row, shear.from));
        let number = added.and_then(|n| n.checked_add(number_at(row, shear.to)));
        number.is_some_and(|n| n.unsigned_abs() <= limit.unsigned_abs())
            && added.is_some_and(|n| n.unsigned_abs() <= limit.unsigned_abs())
    })
}

// A step that makes numbers smaller, or those of some rows, whatever the limit.
fn likely_shear(rows: &[Row], columns: usize) -> Option<Shear>
    ensures { 0 < columns → All IsUnitRow rows.now → result ≡ None }
{
    if rows.iter().any(|row| row.kind == RowKind::Zero) {
        return euclid_step(rows);
    }
    if leaves_many_splinters(rows, columns) && are_short_bounds(rows) {
        return shortest_step(rows, columns);
    }
    None
}

/// A step that makes numbers smaller: where no equality has a coefficient of 1 or -1, or where any column leaves many splinters.
pub(crate) fn next_shear(rows: &[Row], columns: usize, limit: i128) -> Option<Shear>
    ensures { 0 < columns → All IsUnitRow rows.now → result ≡ None }
{
    let Some(shear) = likely_shear(rows, columns) else {
        return None;
    };
    if !stays_within(rows, &shear, limit) {
        return None;
    }
    Some(shear)
}
