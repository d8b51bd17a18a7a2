//! How many pairs of bounds a column has, and whether many rows are added where these stand for its bounds.

ghost use Rattle.std.specs.Prelude.{◌≡◌, ◌↔◌, ◌*◌, ◌^◌, ◌-◌, All, IsTrue, length, min};
ghost use Rattle.isl_omega.specs.Equality.{HasEquality};
ghost use Rattle.isl_omega.specs.Sides.{is_same, on_side, side_of};
ghost use Rattle.isl_shadows.specs.Exact.{pairs_on};
ghost use Rattle.isl_presolve.specs.Pairs.{AddsManyRows, bound_side};

use crate::choice::number_at;
use isl_piece::{Row, RowKind};

// Where fewer rows are added as a column goes, all pairs cost less than a search for rows that the others imply.
const LEAST_ADDED: u128 = 8;

// Whether an equality has the column.
fn has_equality(rows: &[Row], col: usize) -> bool
    ensures { IsTrue result ↔ HasEquality col rows.now }
{
    rows.iter().any(|row| row.kind == RowKind::Zero && number_at(row, col) != 0)
}

// Whether the row is a bound of the column from below, or from above.
#[tactic(auto, using(std::proofs::lemmas::Grind::common_steps, crate::proofs::PairLaws::bound_steps))]
fn is_bound(row: &Row, col: usize, lower: bool) -> bool
    ensures { result ≡ is_same (bound_side lower) (side_of col row.now) }
{
    if row.kind != RowKind::AtLeast {
        return false;
    }
    let number = number_at(row, col);
    if lower { number > 0 } else { number < 0 }
}

// How many bounds of the column there are from below, or from above.
fn bounds_on(rows: &[Row], col: usize, lower: bool) -> usize
    ensures { result ≡ length (on_side (bound_side lower) col rows.now) }
{
    let mut count = 0;
    for row in rows {
        if is_bound(row, col, lower) {
            count += 1;
        }
    }
    count
}

/// How many pairs of bounds the column has, or the greatest number that there is; none where an equality has it.
pub fn pairs_at(rows: &[Row], col: usize) -> usize
    ensures equality { HasEquality col rows.now → result ≡ 0 }
    ensures pairs { ¬ HasEquality col rows.now → result ≡ min (pairs_on col rows.now) (2 ^ 64 - 1) }
{
    if has_equality(rows, col) {
        return 0;
    }
    bounds_on(rows, col, true).saturating_mul(bounds_on(rows, col, false))
}

// Whether many rows are added as the column goes.
fn adds_many_rows(rows: &[Row], col: usize) -> bool
    ensures { IsTrue result ↔ AddsManyRows rows.now col }
{
    if has_equality(rows, col) {
        return false;
    }
    let lowers = bounds_on(rows, col, true) as u128;
    let uppers = bounds_on(rows, col, false) as u128;
    lowers.saturating_mul(uppers) >= lowers + uppers + LEAST_ADDED
}

/// Whether many rows are added whichever of the columns is taken out.
pub fn add_many_rows(rows: &[Row], cols: &[usize]) -> bool
    ensures { IsTrue result ↔ All (AddsManyRows rows.now) cols.now }
{
    cols.iter().all(|col| adds_many_rows(rows, *col))
}
