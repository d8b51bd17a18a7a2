//! Rows without some that the others imply.

ghost use Rattle.std.specs.Prelude.{ℤ, List, All, IfOk, MatchOption};
ghost use Rattle.isl_piece.specs.Row.{IsRowWithin, IsWellFormed};
ghost use Rattle.isl_piece.specs.System.{HoldRows};
ghost use Rattle.isl_redundant.specs.Redundant.{IsReduced, calculator};

use crate::certificate::{are_contradictory, is_implied_by};
use crate::search::Start;
use crate::tableau::Tableau;
use isl_meter::Meter;
use isl_piece::{Row, RowKind, Rows};
use std::alloc::{AllocError, Global};

// From how many bounds on, and how many for each column, a search is made. Where few are, all pairs of them cost less, and those of
// bounds that the others imply may be tighter than theirs, once they are rounded.
const LEAST_BOUNDS: usize = 10;

const BOUNDS_OF_COLUMN: usize = 2;

// Whether there are many bounds over so many columns.
fn are_many(rows: &[Row], columns: usize) -> bool {
    let mut bounds: usize = 0;
    for row in rows {
        if row.kind == RowKind::AtLeast {
            bounds = bounds.saturating_add(1);
        }
    }
    bounds >= LEAST_BOUNDS && bounds > columns.saturating_mul(BOUNDS_OF_COLUMN)
}

// The rows without those that are shown to be implied by the others, from the last one on.
#[tactic(auto, using(std::proofs::lemmas::Grind::common_steps, crate::proofs::KeptLaws::kept_steps))]
fn reduced(alloc: Global, rows: Rows, columns: usize, tableau: Tableau) -> Result<Rows, AllocError>
    requires well_formed { All (IsWellFormed columns) rows }
    requires within { All (IsRowWithin calculator) rows }
    ensures { IfOk result (IsReduced columns rows) }
{
    let mut kept = rows;
    let mut tableau = tableau;
    let mut at = kept.len();
    while at > 0 {
        at -= 1;
        let Some(times) = tableau.multiples(alloc, at)? else {
            continue;
        };
        if is_implied_by(alloc, kept.as_slice(), columns, at, times.as_slice())? {
            kept.remove(at);
            tableau.forget(at);
        }
    }
    Ok(kept)
}

/// The rows over so many columns, without some of those bounds that the others imply, in the same order; none where they are seen to
/// hold at no point. What is looked for is in no clause: where bounds are few, where numbers grow, or a search takes long, rows stay. A
/// congruence and an equality always stay.
///
/// # Errors
///
/// `AllocError` where memory ends.
pub fn without_redundant(
    alloc: Global,
    rows: Rows,
    columns: usize,
    meter: &Meter,
) -> Result<Option<Rows>, AllocError>
    requires well_formed { All (IsWellFormed columns) rows }
    requires within { All (IsRowWithin meter.now) rows }
    ensures { IfOk result (λ found. MatchOption found ((point : List ℤ) → ¬ HoldRows rows point) (IsReduced columns rows)) }
{
    if !are_many(rows.as_slice(), columns) {
        return Ok(Some(rows));
    }
    // For the proof: the limit has at most 127 bits.
    let _bits = meter.limit();
    match Tableau::started(alloc, rows.as_slice(), columns)? {
        Start::Begun(tableau) => {
            let kept = reduced(alloc, rows, columns, tableau)?;
            Ok(Some(kept))
        }
        Start::Nowhere(times) => {
            if are_contradictory(alloc, rows.as_slice(), columns, times.as_slice())? {
                return Ok(None);
            }
            Ok(Some(rows))
        }
        Start::GivenUp => Ok(Some(rows)),
    }
}
