//! The normal form of rows and systems, made in place.

ghost use Rattle.std.specs.Prelude.{◌≡◌, ◌+◌, ◌<◌, ◌≤◌, length, take, drop, All, Some, None, MatchOption, IfOk, OnOk, slice_index_or};
ghost use Rattle.std.specs.Int.{int_min};
ghost use Rattle.isl_piece.specs.declared.row.Row.{Row};
ghost use Rattle.isl_piece.specs.Row.{IsRowWithin, HasModulus};
ghost use Rattle.isl_piece.specs.Normal.{with_row, normal_rows};
ghost use Rattle.isl_piece.specs.Index.{IsIndexOf};

use crate::Row;
use crate::index::BoundIndex;
use crate::reduction::{Outcome, settle};
use isl_meter::{Int, Meter};
use std::alloc::{AllocError, Global};

// Gives the row the constant where that is less.
fn take_lesser(row: &mut Row, constant: Int)
    ensures { row.new ≡ record row.old { constant = int_min row.old.constant constant } }
{
    if constant < row.constant() {
        row.set_constant(constant);
    }
}

// Puts the row at `at` to the first `kept` rows, which stand before it, and answers how many these are then.
fn keep(
    rows: &mut [Row],
    kept: usize,
    at: usize,
    index: &mut BoundIndex,
) -> Result<usize, AllocError>
    requires before { kept ≤ at }
    requires inside { at < length rows.old }
    requires index { IsIndexOf index.old (take kept rows.old) }
    ensures front { IfOk result (λ count. (d : Row) → take count rows.new ≡ with_row (take kept rows.old) (slice_index_or rows.old at d)) }
    ensures bound { IfOk result (λ count. count ≤ at + 1) }
    ensures rest { OnOk result (drop (at + 1) rows.new ≡ drop (at + 1) rows.old) }
    ensures index { IfOk result (λ count. IsIndexOf index.new (take count rows.new)) }
{
    let all = &rows[..];
    let row = &all[at];
    match index.place_of(&all[..kept], row) {
        Some(place) => {
            let constant = rows[at].constant();
            take_lesser(&mut rows[place], constant);
            Ok(kept)
        }
        None => {
            index.push(&all[..kept], row)?;
            rows.swap(kept, at);
            Ok(kept + 1)
        }
    }
}

/// Makes the rows normal, and moves those that are kept to the front. Answers how many they are; `None` where one of the
/// rows holds at no point.
///
/// # Errors
///
/// `AllocError` where memory ends; the rows are in no order then. Few rows take none.
pub(crate) fn normalise_rows(
    alloc: Global,
    rows: &mut [Row],
    meter: &Meter,
) -> Result<Option<usize>, AllocError>
    requires divisors { All (λ r. HasModulus r.kind r.k) rows.old }
    requires within { All (IsRowWithin meter.now) rows.old }
    ensures { IfOk result (λ found. MatchOption found
        (normal_rows rows.old ≡ None) (λ kept. normal_rows rows.old ≡ Some (take kept rows.new))) }
{
    let mut index = BoundIndex::for_rows(alloc, rows.len())?;
    let mut kept = 0;
    for at in 0..rows.len() {
        match settle(&mut rows[at], meter) {
            Outcome::Holds => {}
            Outcome::Fails => return Ok(None),
            Outcome::Stays => kept = keep(rows, kept, at, &mut index)?,
        }
    }
    Ok(Some(kept))
}
