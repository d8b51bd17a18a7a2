//! A point at which rows may hold: one is guessed, and looked at before anything is done by it.

ghost use Rattle.std.specs.Prelude.{All, IfOk, IsTrue};
ghost use Rattle.isl_omega.specs.Column.{IsProper};
ghost use Rattle.isl_presolve.specs.Emptiness.{HoldNowhere};

use crate::choice::number_at;
use crate::pairs::pairs_at;
use isl_meter::Meter;
use isl_piece::{Row, RowKind, Rows};
use std::alloc::{AllocError, Global};

// From how many rows on, and how many pairs of bounds whichever column goes, a point is guessed: it costs more than a few pairs.
const MANY_ROWS: usize = 16;

const MANY_PAIRS: usize = 64;

/// A point, and the numbers of the rows' forms there.
#[derive(Drop)]
struct Guess {
    point: Vec<i128>,
    values: Vec<i128>,
}

/// What is added to one number of a point, and at how many rows it fails then.
#[derive(Clone, Copy)]
struct Step {
    at: usize,
    added: i128,
    failing: usize,
}

// Whether each of the columns has many pairs of bounds.
fn have_many_pairs(rows: &[Row], columns: usize) -> bool {
    rows.len() >= MANY_ROWS && (0..columns).all(|col| pairs_at(rows, col) >= MANY_PAIRS)
}

// Whether the row fails where its form has this number.
fn fails(row: &Row, value: i128) -> bool {
    match row.kind {
        RowKind::Zero => value != 0,
        RowKind::AtLeast => value < 0,
        RowKind::Divides => value.checked_rem(row.modulus().get()) != Some(0),
        RowKind::NotDivides => value.checked_rem(row.modulus().get()) == Some(0),
    }
}

// What to add at a column, where the row has this number, so that the form with this value fails no more.
fn needed(row: &Row, number: i128, value: i128) -> Option<i128> {
    let size = number.unsigned_abs();
    if size == 0 {
        return None;
    }
    let times = match row.kind {
        RowKind::AtLeast => value.unsigned_abs().div_ceil(size),
        RowKind::Zero if value.unsigned_abs().checked_rem(size) == Some(0) => value.unsigned_abs()
            / size,
        RowKind::Zero => return None,
        RowKind::Divides | RowKind::NotDivides => 1,
    };
    let times = i128::try_from(times).ok()?;
    if (number > 0) == (value < 0) {
        Some(times)
    } else {
        Some(times.saturating_neg())
    }
}

impl Guess {
    // The point of zeros.
    fn zero(alloc: Global, rows: &[Row], columns: usize) -> Result<Guess, AllocError> {
        let point = Vec::from_elem(alloc, 0, columns)?;
        let mut values = Vec::with_capacity(alloc, rows.len())?;
        for row in rows {
            values.push(row.constant().get())?;
        }
        Ok(Guess { point, values })
    }

    // At how many rows the point fails once so much is added at a column.
    fn failing(&self, rows: &[Row], col: usize, added: i128) -> usize {
        let mut count: usize = 0;
        for (row, value) in rows.iter().zip(self.values.iter()) {
            let moved = value.saturating_add(number_at(row, col).saturating_mul(added));
            if fails(row, moved) {
                count = count.saturating_add(1);
            }
        }
        count
    }

    // The step by which the first row that fails holds, and fewest rows fail.
    fn step(&self, rows: &[Row]) -> Option<Step> {
        let (row, value) = rows
            .iter()
            .zip(self.values.iter())
            .find(|(row, value)| fails(row, **value))?;
        let mut best: Option<Step> = None;
        for at in 0..self.point.len() {
            let Some(added) = needed(row, number_at(row, at), *value) else {
                continue;
            };
            let failing = self.failing(rows, at, added);
            if best.is_none_or(|old| failing < old.failing) {
                best = Some(Step { at, added, failing });
            }
        }
        best
    }

    // Adds what the step says.
    fn take(&mut self, rows: &[Row], step: Step) {
        if let Some(number) = self.point.get_mut(step.at) {
            *number = number.saturating_add(step.added);
        }
        for (row, value) in rows.iter().zip(self.values.iter_mut()) {
            *value = value.saturating_add(number_at(row, step.at).saturating_mul(step.added));
        }
    }

    // The point after some steps.
    fn of(alloc: Global, rows: &[Row], columns: usize) -> Result<Guess, AllocError> {
        let mut guess = Guess::zero(alloc, rows, columns)?;
        for _ in 0..columns.saturating_mul(2) {
            let Some(step) = guess.step(rows) else {
                break;
            };
            guess.take(rows, step);
            if step.failing == 0 {
                break;
            }
        }
        Ok(guess)
    }
}

/// Whether the rows hold at a point that is guessed; else they may hold somewhere, or nowhere. None is guessed where some column has
/// few pairs of bounds.
///
/// # Errors
///
/// `AllocError` where memory ends.
pub fn hold_at_guess(
    alloc: Global,
    rows: &Rows,
    columns: usize,
    meter: &Meter,
) -> Result<bool, AllocError>
    requires rows { All (IsProper meter.now columns) rows.now }
    ensures { IfOk result (λ found. IsTrue found → ¬ HoldNowhere columns rows.now) }
{
    if !have_many_pairs(rows.as_slice(), columns) {
        return Ok(false);
    }
    let guess = Guess::of(alloc, rows.as_slice(), columns)?;
    if guess.point.len() != columns {
        return Ok(false);
    }
    // For the proof: the limit has at most 127 bits.
    let _bits = meter.limit();
    let mut calculator = Meter::new(127, 1);
    Ok(
        rows.hold_at(guess.point.as_slice(), &mut calculator)
            .unwrap_or(false),
    )
}
