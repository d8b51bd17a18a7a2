//! Systems without rows that their others imply.

ghost use Rattle.std.specs.Prelude.{◌↔◌, ◌∷◌, [], ℕ, ℤ, List, All, IfOk, IfSome, MatchOption};
ghost use Rattle.isl_piece.specs.System.{HoldsSystem, IsSystemWithin};
ghost use Rattle.isl_ledger.specs.Difference.{IsDifferenceSystem};
ghost use Rattle.isl_ledger.specs.Work.{Size, AreOfSize};
ghost use Rattle.isl_elim.specs.Elimination.{HoldsAtAny, IsReducedSystem};
ghost use Rattle.isl_span.specs.Points.{IsOver};

use isl_meter::Meter;
use isl_piece::System;
use isl_redundant::without_redundant;
use std::alloc::{AllocError, Global};

// The system without some rows that its others imply; none where it is seen to hold nowhere.
fn with_few_rows(
    alloc: Global,
    system: &System,
    meter: &Meter,
) -> Result<Option<System>, AllocError>
    requires { IsSystemWithin meter.now system.now }
    ensures exact { IfOk result (λ found. MatchOption found ((point : List ℤ) → ¬ HoldsSystem system.now point)
        (IsReducedSystem meter.now system.now)) }
    ensures differences { (columns bits : ℕ) → IsDifferenceSystem columns bits system.now
        → IfOk result (λ found. IfSome found (IsDifferenceSystem columns bits)) }
{
    let rows = system.rows.copy(alloc)?;
    let Some(few) = without_redundant(alloc, rows, system.columns, meter)? else {
        return Ok(None);
    };
    let definitions = system.definitions.copy(alloc)?;
    Ok(Some(System::over(system.columns, definitions, few)))
}

/// The systems without some rows that their others imply, and without those that are seen to hold nowhere: each point off a form is
/// looked for among few rows then. No unit is used.
///
/// # Errors
///
/// Where memory ends.
pub(crate) fn all_with_few_rows(
    alloc: Global,
    systems: &[System],
    columns: usize,
    meter: &Meter,
) -> Result<Vec<System>, AllocError>
    requires { All (IsOver meter.now columns) systems.now }
    ensures over { IfOk result (λ few. All (IsOver meter.now columns) few.items) }
    ensures points { (point : List ℤ) → IfOk result (λ few. HoldsAtAny few.items point ↔ HoldsAtAny systems.now point) }
    ensures size { (size : Size) → AreOfSize size systems.now → IfOk result (λ few. AreOfSize size few.items) }
{
    let mut few = Vec::with_capacity(alloc, systems.len())?;
    for system in systems {
        if let Some(one) = with_few_rows(alloc, system, meter)? {
            few.push(one)?;
        }
    }
    Ok(few)
}
