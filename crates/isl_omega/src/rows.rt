//! Rows without a column.

ghost use Rattle.std.specs.Prelude.{◌≡◌, ◌-◌, pos, All, IfOk, OnErr, map};
ghost use Rattle.std.specs.List.{remove};
ghost use Rattle.isl_piece.specs.Normal.{normal_rows};
ghost use Rattle.isl_piece.specs.Row.{IsRowWithin, IsWellFormed};
ghost use Rattle.isl_omega.specs.Column.{dropped, IsFree, IsAnswerFor, HoldAt};
ghost use Rattle.isl_omega.specs.Magnitude.{IsNoOverflow};
ghost use Rattle.isl_meter.specs.Gauge.{IsDone};

use crate::column::Column;
use isl_meter::{Cut, Int, Meter};
use isl_piece::{Coefs, Row, Rows};
use std::alloc::{AllocError, AllocFailed, Global};

/// So many rows are kept at most of the pairs of bounds on one column. More count as want of memory, so that memory is bounded as time is.
pub const MOST_PAIRS: usize = 131_072;

// The numbers but for the one at `col`.
#[tactic(auto, using(std::proofs::lemmas::Grind::common_steps, crate::proofs::ColumnLemmas::removals))]
pub(crate) fn coefs_without(
    alloc: Global,
    coefs: &[Int],
    col: usize,
) -> Result<Coefs, AllocFailed<Int>>
    ensures { IfOk result (λ kept. kept ≡ remove coefs.now col) }
{
    let mut kept = Coefs::new(alloc);
    for i in 0..coefs.len() {
        if i != col {
            kept.push(coefs[i])?;
        }
    }
    Ok(kept)
}

/// The row without the column, so of one column less.
///
/// # Errors
///
/// Want of memory.
pub fn row_without(alloc: Global, row: &Row, col: usize) -> Result<Row, AllocFailed<Int>>
    ensures { IfOk result (λ short. short ≡ dropped row.now col) }
{
    let coefs = coefs_without(alloc, row.coefs.as_slice(), col)?;
    Ok(Row {
        kind: row.kind,
        coefs,
        constant: row.constant,
        k: row.k,
    })
}

fn rows_without(alloc: Global, rows: &[Row], col: usize) -> Result<Rows, Cut>
    ensures ok { IfOk result (λ short. short ≡ map (λ r. dropped r col) rows.now) }
    ensures err { OnErr result (result ≡ Err Cut.NoMemory) }
{
    let mut short = Rows::with_capacity(alloc, rows.len())?;
    for row in rows {
        short.push(row_without(alloc, row, col)?)?;
    }
    Ok(short)
}

/// The rows without the column, in normal form; none where no point is left. The rows must not depend on the column.
///
/// # Errors
///
/// `NoMemory`.
pub fn settled(
    alloc: Global,
    rows: &Rows,
    column: Column,
    meter: &mut Meter,
) -> Result<Option<Rows>, Cut>
    requires well_formed { All (IsWellFormed column.columns) rows.now }
    requires within { All (IsRowWithin meter.old) rows.now }
    requires free { All (IsFree column.at) rows.now }
    ensures exact { IsDone meter.old meter.new
        (IsAnswerFor meter.old (column.columns - 1) (λ point. HoldAt rows.now column.at point (pos 0))) result }
    ensures function { IfOk result (λ left. left ≡ normal_rows (map (λ r. dropped r column.at) rows.now)) }
    ensures memory { IsNoOverflow result }
{
    let short = rows_without(alloc, rows.as_slice(), column.at)?;
    Ok(short.normalise(alloc, meter)?)
}
