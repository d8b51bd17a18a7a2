//! Questions: systems of one row.

ghost use Rattle.std.specs.Prelude.{◌≡◌, ◌≢◌, ◌↔◌, ◌+◌, ◌<ℤ◌, ◌<◌, ◌^◌, ℕ, ℤ, List, IfOk, length};
ghost use Rattle.isl_piece.specs.Row.{HoldsRow, IsRowWithin, IsWellFormed};
ghost use Rattle.isl_piece.specs.System.{HoldsSystem, free_columns};
ghost use Rattle.isl_greatest.specs.State.{full, number, BothBehind, IsCandidate, IsFrame, IsQuestion};

use crate::candidate::numbers_of;
use isl_meter::{Int, Meter};
use isl_piece::{Coefs, Row, RowKind, System};
use std::alloc::{AllocError, Global};

/// Whether the row holds at the columns.
pub(crate) fn row_question(
    alloc: Global,
    cur: &System,
    row: &Row,
    meter: &Meter,
) -> Result<System, AllocError>
    requires frame { IsFrame meter.now (free_columns cur.now) cur.now }
    requires formed { IsWellFormed cur.now.columns row.now }
    requires within { IsRowWithin meter.now row.now }
    requires kind { row.now.kind ≢ RowKind.Zero }
    ensures asked { IfOk result (IsQuestion meter.now (free_columns cur.now)) }
    ensures points { (v : List ℤ) → IfOk result (λ question. HoldsSystem question v ↔ HoldsRow row.now (full cur.now v)) }
{
    let mut question = cur.copy(alloc)?;
    question.rows.push(row.copy(alloc)?)?;
    Ok(question)
}

// Both numbers behind what is chosen: that of `cur`, and that of `best`.
fn both(
    alloc: Global,
    chosen: &System,
    best: &System,
    cur: &System,
    meter: &Meter,
) -> Result<System, AllocError>
    requires chosen { IsFrame meter.now (free_columns chosen.now) chosen.now }
    requires best { IsCandidate meter.now (free_columns chosen.now) chosen.now best.now }
    requires cur { IsCandidate meter.now (free_columns chosen.now) chosen.now cur.now }
    ensures frame { IfOk result (λ both. IsFrame meter.now (free_columns chosen.now) both × (both.columns ≡ chosen.now.columns + 2)) }
    ensures numbers { (v : List ℤ) → length v ≡ free_columns chosen.now
        → IfOk result (λ both. BothBehind (full chosen.now v) (number cur.now v) (number best.now v) (full both v)) }
{
    let definition = &best.definitions.as_slice()[chosen.defined()];
    let mut coefs = numbers_of(alloc, definition.coefs.as_slice())?;
    coefs.push(0)?;
    let mut both = cur.copy(alloc)?;
    both.define(coefs.as_slice(), definition.constant, definition.k)?;
    Ok(both)
}

/// Whether the number of `cur` is greater than that of `best`.
pub(crate) fn later_question(
    alloc: Global,
    chosen: &System,
    best: &System,
    cur: &System,
    meter: &Meter,
) -> Result<System, AllocError>
    requires chosen { IsFrame meter.now (free_columns chosen.now) chosen.now }
    requires best { IsCandidate meter.now (free_columns chosen.now) chosen.now best.now }
    requires cur { IsCandidate meter.now (free_columns chosen.now) chosen.now cur.now }
    ensures asked { IfOk result (IsQuestion meter.now (free_columns chosen.now)) }
    ensures points { (v : List ℤ) → length v ≡ free_columns chosen.now
        → IfOk result (λ question. HoldsSystem question v ↔ (number best.now v <ℤ number cur.now v)) }
{
    // For what a meter keeps: it has at least 8 bits.
    let _limit = meter.limit();
    let mut question = both(alloc, chosen, best, cur, meter)?;
    let mut coefs = Coefs::zeros(alloc, chosen.columns)?;
    coefs.push(Int::ONE)?;
    coefs.push(Int::new(-1))?;
    question
        .rows
        .push(Row::new(RowKind::AtLeast, coefs, Int::new(-1), Int::ONE))?;
    Ok(question)
}
