//! Systems that hold at the points that are points of others once one number is changed by 1.

ghost use Rattle.std.specs.Prelude.{◌≡◌, ◌+◌, ◌<◌, ◌≤◌, ◌+ℤ◌, [], pos, ℕ, ⊤, All, IfOk, MatchResult, map};
ghost use Rattle.isl_meter.specs.Gauge.{IsCutBy, IsMetered, IsWithin};
ghost use Rattle.isl_piece.specs.Row.{IsRowWithin, IsWellFormed, coef_at};
ghost use Rattle.isl_piece.specs.System.{IsSystemWithin};
ghost use Rattle.isl_ledger.specs.Answered.{IsTame};
ghost use Rattle.isl_ledger.specs.Difference.{IsDifferenceRow};
ghost use Rattle.isl_span.specs.Moved.{moved_row};

use isl_meter::{Cut, Meter};
use isl_piece::{Row, Rows, System};
use std::alloc::Global;

// The row that says of a point what this one says of the point with 1 added at the column.
#[tactic(auto, using(std::proofs::lemmas::Grind::common_steps, isl_meter::proofs::CutLemmas::charges))]
fn moved_row(alloc: Global, row: &Row, column: usize, meter: &mut Meter) -> Result<Row, Cut>
    requires formed { IsWellFormed (column + 1) row.now }
    requires within { IsRowWithin meter.old row.now }
    ensures exact { IfOk result (λ made. made ≡ moved_row column row.now) }
    ensures within { IfOk result (IsRowWithin meter.old) }
    ensures meter { IsMetered meter.old meter.new result }
    ensures tame { (bits : ℕ) → meter.old.bits ≡ 127 → bits + 1 ≤ 120 → IsDifferenceRow bits row.now
        → IsTame 0 meter.old meter.new (λ _. ⊤) result }
{
    let constant = row.constant().add(row.coefs.get(column), meter)?;
    let coefs = row.coefs.copy(alloc)?;
    Ok(Row::new(row.kind, coefs, constant, row.modulus()))
}

/// The system that holds at a point where this one holds at the point with 1 added at the last column.
///
/// # Errors
///
/// `Overflow` where a number passes the limit of the meter, and `NoMemory`.
#[tactic(auto, using(std::proofs::lemmas::Grind::common_steps, isl_meter::proofs::CutLemmas::charges))]
pub(crate) fn moved(
    alloc: Global,
    system: &System,
    last: usize,
    meter: &mut Meter,
) -> Result<System, Cut>
    requires plain { system.now.definitions ≡ [] }
    requires columns { system.now.columns ≡ last + 1 }
    requires within { IsSystemWithin meter.old system.now }
    ensures exact { IfOk result (λ new. new
        ≡ record { columns = system.now.columns; definitions = []; rows = map (moved_row last) system.now.rows }) }
    ensures within { IfOk result (IsSystemWithin meter.old) }
    ensures meter { IsMetered meter.old meter.new result }
    ensures tame { (bits : ℕ) → meter.old.bits ≡ 127 → bits + 1 ≤ 120 → All (IsDifferenceRow bits) system.now.rows
        → IsTame 0 meter.old meter.new (λ _. ⊤) result }
{
    let mut rows = Rows::with_capacity(alloc, system.rows.len())?;
    for row in system.rows.as_slice() {
        rows.push(moved_row(alloc, row, last, meter)?)?;
    }
    Ok(System::from_rows(alloc, system.columns, rows))
}
