//! Lists of rows, and how many of them are kept.

ghost use Rattle.std.specs.Prelude.{◌≡◌, ◌↔◌, ◌++◌, ◌∷◌, ◌*◌, ◌+◌, [], OnOk, IsTrue, length, min};
ghost use Rattle.isl_column.specs.Weight.{TakeTooMuch, row_bytes};

use isl_piece::{Row, Rows};
use std::alloc::AllocError;

// How many bytes the rows of all lists take at most, as the last one tells. More count as want of memory, so that memory is bounded as time
// is.
const MOST_BYTES: usize = 100_663_296;

// A row takes so many bytes, and so many coefficients lie in it; where there are more, each takes so many beside it.
const ROW_BYTES: usize = 208;

const INLINE: usize = 8;

const NUMBER_BYTES: usize = 16;

// How many bytes a row over so many columns takes.
fn row_bytes(columns: usize) -> usize
    ensures { result ≡ min (row_bytes columns) usize.MAX }
{
    if columns <= INLINE {
        return ROW_BYTES;
    }
    columns
        .saturating_mul(NUMBER_BYTES)
        .saturating_add(ROW_BYTES)
}

/// Whether so many lists of rows like these, over so many columns, take more memory than is kept.
pub fn are_too_many(count: usize, rows: &[Row], columns: usize) -> bool
    ensures { IsTrue result ↔ TakeTooMuch (count * (length rows.now + 1)) columns }
{
    let of_one = rows.len().saturating_add(1);
    count
        .saturating_mul(of_one)
        .saturating_mul(row_bytes(columns))
        > MOST_BYTES
}

/// Puts the rows, which are over so many columns, behind the other lists. They were made of more rows, and keep no room for these.
///
/// # Errors
///
/// `AllocError` where memory ends, or they are too many together.
pub fn push_list(lists: &mut Vec<Rows>, rows: Rows, columns: usize) -> Result<(), AllocError>
    ensures pushed { OnOk result (lists.new.items ≡ lists.old.items ++ rows ∷ []) }
    ensures few { OnOk result (¬ TakeTooMuch (length lists.old.items * (length rows + 1)) columns) }
{
    let mut kept = Vec::from(rows);
    if are_too_many(lists.len(), kept.as_slice(), columns) {
        return Err(AllocError);
    }
    kept.shrink_to_fit();
    lists.push(Rows::from(kept))?;
    Ok(())
}
