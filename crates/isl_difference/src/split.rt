//! The parts of a system in which rows do not hold.

ghost use Rattle.std.specs.Prelude.{◌≡◌, ◌↔◌, ◌+◌, ◌*◌, ◌≤◌, ◌∷◌, ℕ, ⊤, [], All, IfOk, IsTrue, MatchResult, length};
ghost use Rattle.isl_meter.specs.Gauge.{IsCharged, IsCutBy, IsMetered};
ghost use Rattle.isl_piece.specs.Negation.{negation_of};
ghost use Rattle.isl_piece.specs.Row.{IsRowWithin, IsWellFormed};
ghost use Rattle.isl_piece.specs.System.{IsSystemWithin, free_columns};
ghost use Rattle.isl_ledger.specs.Answered.{IsTame};
ghost use Rattle.isl_ledger.specs.Difference.{HasDifferenceRows, IsDifferenceRow, IsDifferenceSystem};
ghost use Rattle.isl_ledger.specs.Work.{AreOfSize};
ghost use Rattle.isl_elim.specs.Sample.{IsNowhere};
ghost use Rattle.isl_difference.specs.Difference.{IsPartition};
ghost use Rattle.isl_difference.specs.Split.{AreExclusive, ArePaidBy, and_rows, HoldsBut, HoldsWithAny, IsLive};
ghost use Rattle.isl_difference.specs.Tame.{test_work};

use crate::bounds::is_implied;
use crate::lists::append;
use crate::live::push_live;
use isl_meter::{Cut, Meter};
use isl_piece::{Row, Rows, System, negate};
use std::alloc::{AllocError, Global};

// The system with one more row.
fn with_row(alloc: Global, system: &System, row: &Row) -> Result<System, AllocError>
    ensures { IfOk result (λ made. made ≡ and_rows system.now (row.now ∷ [])) }
{
    let mut made = system.copy(alloc)?;
    made.rows.push(row.copy(alloc)?)?;
    Ok(made)
}

// The parts of the system in which one of the rows holds. One unit is used for each row.
#[tactic(auto, using(std::proofs::lemmas::Grind::common_steps, crate::proofs::SplitLaws::failing_steps))]
fn holding(
    alloc: Global,
    system: &System,
    rows: &Rows,
    meter: &mut Meter,
) -> Result<Vec<System>, Cut>
    requires within { IsSystemWithin meter.old system.now }
    requires formed { All (IsWellFormed system.now.columns) rows.now }
    requires rows_within { All (IsRowWithin meter.old) rows.now }
    requires exclusive { AreExclusive rows.now }
    ensures exact { MatchResult result
        (λ parts. IsPartition (IsLive meter.old (free_columns system.now)) (free_columns system.now)
        (HoldsWithAny system.now rows.now) parts.items
        × IsCharged meter.old meter.new)
        (IsCutBy meter.old meter.new) }
    ensures definitions { IfOk result (λ parts. All (λ s. s.definitions ≡ system.now.definitions) parts.items) }
    ensures paid { IfOk result (λ parts. ArePaidBy meter.old meter.new rows.now parts.items) }
    ensures tame { (columns bits : ℕ) → meter.old.bits ≡ 127 → bits + columns ≤ 120 → HasDifferenceRows columns bits system.now
        → All (IsDifferenceRow bits) rows.now → IsTame (length rows.now * test_work columns) meter.old meter.new
        (λ parts. All (IsDifferenceSystem columns bits) parts.items) result }
{
    let mut parts = Vec::new(alloc);
    for row in rows.as_slice() {
        meter.unit()?;
        let both = with_row(alloc, system, row)?;
        push_live(alloc, both, &mut parts, meter)?;
    }
    Ok(parts)
}

// The parts of the system in which the row does not hold. One unit is used for each row of its negation.
#[tactic(auto, using(std::proofs::lemmas::Grind::common_steps, crate::proofs::SplitLaws::failing_steps))]
fn failing(alloc: Global, system: &System, row: &Row, meter: &mut Meter) -> Result<Vec<System>, Cut>
    requires within { IsSystemWithin meter.old system.now }
    requires formed { IsWellFormed system.now.columns row.now }
    requires row_within { IsRowWithin meter.old row.now }
    ensures exact { MatchResult result
        (λ parts. IsPartition (IsLive meter.old (free_columns system.now)) (free_columns system.now)
        (HoldsBut system.now (row.now ∷ [])) parts.items
        × IsCharged meter.old meter.new)
        (IsCutBy meter.old meter.new) }
    ensures definitions { IfOk result (λ parts. All (λ s. s.definitions ≡ system.now.definitions) parts.items) }
    ensures paid { IfOk result (λ parts. ArePaidBy meter.old meter.new (negation_of row.now) parts.items) }
    ensures tame { (columns bits : ℕ) → meter.old.bits ≡ 127 → bits + 1 + columns ≤ 120 → HasDifferenceRows columns (bits + 1) system.now
        → IsDifferenceRow bits row.now → IsTame (2 * test_work columns) meter.old meter.new
        (λ parts. All (IsDifferenceSystem columns (bits + 1)) parts.items) result }
{
    let denied = negate(alloc, row, meter)?;
    let parts = holding(alloc, system, &denied, meter)?;
    Ok(parts)
}

/// The parts of the system in which not all of the rows hold, which are over its columns: for each row that is not said
/// already those in which it does not hold, and the rows before it do. One unit or more is used for each part.
#[tactic(auto, using(std::proofs::lemmas::Grind::common_steps, crate::proofs::SplitLaws::split_steps))]
pub(crate) fn split(
    alloc: Global,
    system: &System,
    rows: &Rows,
    meter: &mut Meter,
) -> Result<Vec<System>, Cut>
    requires within { IsSystemWithin meter.old system.now }
    requires formed { All (IsWellFormed system.now.columns) rows.now }
    requires rows_within { All (IsRowWithin meter.old) rows.now }
    ensures exact { MatchResult result
        (λ parts. IsPartition (IsLive meter.old (free_columns system.now)) (free_columns system.now)
        (HoldsBut system.now rows.now) parts.items
        × IsCharged meter.old meter.new)
        (IsCutBy meter.old meter.new) }
    ensures definitions { IfOk result (λ parts. All (λ s. s.definitions ≡ system.now.definitions) parts.items) }
    ensures paid { IfOk result (λ parts. meter.old.units + length parts.items ≤ meter.new.units) }
    ensures tame { (columns bits : ℕ) → meter.old.bits ≡ 127 → bits + 1 + columns ≤ 120 → HasDifferenceRows columns (bits + 1) system.now
        → All (IsDifferenceRow bits) rows.now → IsTame (length rows.now * (2 * test_work columns)) meter.old meter.new
        (λ parts. AreOfSize (record { pieces = length rows.now * 2; columns = columns; bits = bits + 1 }) parts.items) result }
{
    let mut rest = system.copy(alloc)?;
    let mut parts = Vec::new(alloc);
    for row in rows.as_slice() {
        if is_implied(rest.rows.as_slice(), row) {
            continue;
        }
        let mut new = failing(alloc, &rest, row, meter)?;
        append(&mut parts, &mut new)?;
        rest.rows.push(row.copy(alloc)?)?;
    }
    Ok(parts)
}

/// Whether the rows, which are over its columns, hold at each point of the system. Nothing is asked behind the first row that fails
/// somewhere. One unit is used for each row of the negation of a row that is not said already.
///
/// # Errors
///
/// `Overflow` where a number passes the limit of the meter, `Budget` where its units are used up, and `NoMemory`.
#[tactic(auto, using(std::proofs::lemmas::Grind::common_steps, crate::proofs::SplitLaws::split_steps))]
pub fn hold_throughout(
    alloc: Global,
    system: &System,
    rows: &Rows,
    meter: &mut Meter,
) -> Result<bool, Cut>
    requires within { IsSystemWithin meter.old system.now }
    requires formed { All (IsWellFormed system.now.columns) rows.now }
    requires rows_within { All (IsRowWithin meter.old) rows.now }
    ensures exact { IfOk result (λ all. IsTrue all ↔ IsNowhere (free_columns system.now) (HoldsBut system.now rows.now)) }
    ensures meter { IsMetered meter.old meter.new result }
    ensures tame { (columns bits : ℕ) → meter.old.bits ≡ 127 → bits + 1 + columns ≤ 120 → HasDifferenceRows columns (bits + 1) system.now
        → All (IsDifferenceRow bits) rows.now → IsTame (length rows.now * (2 * test_work columns)) meter.old meter.new (λ _. ⊤) result }
{
    let mut rest = system.copy(alloc)?;
    for row in rows.as_slice() {
        if is_implied(rest.rows.as_slice(), row) {
            continue;
        }
        let failed = failing(alloc, &rest, row, meter)?;
        if !failed.is_empty() {
            return Ok(false);
        }
        rest.rows.push(row.copy(alloc)?)?;
    }
    Ok(true)
}
