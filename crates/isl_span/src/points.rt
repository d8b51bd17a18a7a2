//! Points of systems at which a form is not 0.

ghost use Rattle.std.specs.Prelude.{◌≡◌, ◌≢◌, ◌+◌, ◌*◌, ◌≤◌, ◌∷◌, [], ℤ, ⊤, List, pos, All, Any, IfOk, MatchOption, length};
ghost use Rattle.isl_meter.specs.Gauge.{IsMetered};
ghost use Rattle.isl_piece.specs.Row.{HoldsRow, IsRowWithin, IsWellFormed, value_at};
ghost use Rattle.isl_piece.specs.System.{HoldsSystem};
ghost use Rattle.isl_ledger.specs.Answered.{IsTame};
ghost use Rattle.isl_ledger.specs.Work.{Size, AreOfSize};
ghost use Rattle.isl_elim.specs.Elimination.{HoldsAtAny};
ghost use Rattle.isl_elim.specs.Sample.{IsNowhere, IsSample};
ghost use Rattle.isl_span.specs.Forms.{IsForm};
ghost use Rattle.isl_span.specs.Points.{IsOver, IsPoint};
ghost use Rattle.isl_span.specs.Work.{test_units};

use isl_elim::sample_point;
use isl_meter::{Cut, Meter};
use isl_piece::{Row, Rows, System, meet, negate};
use std::alloc::{AllocError, Global};

/// A point of some of the systems, if there is one.
///
/// # Errors
///
/// `Overflow` where a number passes the limit of the meter, `Budget` where its units are used up, and `NoMemory`.
#[tactic(auto, using(std::proofs::lemmas::Grind::common_steps, isl_meter::proofs::CutLemmas::charges))]
pub(crate) fn first_point(
    alloc: Global,
    systems: &[System],
    columns: usize,
    meter: &mut Meter,
) -> Result<Option<Vec<i128>>, Cut>
    requires { All (IsOver meter.old columns) systems.now }
    ensures exact { IfOk result (λ found. MatchOption found
        (IsNowhere columns (HoldsAtAny systems.now))
        (λ point. IsSample meter.old columns (HoldsAtAny systems.now) point.items)) }
    ensures meter { IsMetered meter.old meter.new result }
    ensures tame { (size : Size) → meter.old.bits ≡ 127 → size.bits + size.columns ≤ 119 → AreOfSize size systems.now
        → IsTame (length systems.now * test_units size.columns) meter.old meter.new (λ _. ⊤) result }
{
    for system in systems {
        if let Some(point) = sample_point(alloc, system, meter)? {
            return Ok(Some(point));
        }
    }
    Ok(None)
}

/// The system of this row alone.
///
/// # Errors
///
/// Where memory ends.
pub(crate) fn only(alloc: Global, columns: usize, row: &Row) -> Result<System, AllocError>
    ensures { IfOk result (λ only. only ≡ record { columns = columns; definitions = []; rows = row.now ∷ [] }) }
{
    let mut rows = Rows::new(alloc);
    rows.push(row.copy(alloc)?)?;
    Ok(System::from_rows(alloc, columns, rows))
}

// A point of the system at which the row holds, if there is one.
#[tactic(auto, using(std::proofs::lemmas::Grind::common_steps, isl_meter::proofs::CutLemmas::charges))]
fn point_with(
    alloc: Global,
    system: &System,
    columns: usize,
    row: &Row,
    meter: &mut Meter,
) -> Result<Option<Vec<i128>>, Cut>
    requires system { IsOver meter.old columns system.now }
    requires formed { IsWellFormed columns row.now }
    requires within { IsRowWithin meter.old row.now }
    ensures exact { IfOk result (λ found. MatchOption found
        (IsNowhere columns (λ point. HoldsSystem system.now point × HoldsRow row.now point))
        (λ point. IsSample meter.old columns (λ q. HoldsSystem system.now q × HoldsRow row.now q) point.items)) }
    ensures meter { IsMetered meter.old meter.new result }
{
    let both = meet(alloc, system, &only(alloc, columns, row)?)?;
    sample_point(alloc, &both, meter)
}

// A point of the system at which one of the rows holds, if there is one.
#[tactic(auto, using(std::proofs::lemmas::Grind::common_steps, isl_meter::proofs::CutLemmas::charges))]
fn point_with_any(
    alloc: Global,
    system: &System,
    columns: usize,
    rows: &Rows,
    meter: &mut Meter,
) -> Result<Option<Vec<i128>>, Cut>
    requires system { IsOver meter.old columns system.now }
    requires formed { All (IsWellFormed columns) rows.now }
    requires within { All (IsRowWithin meter.old) rows.now }
    ensures exact { IfOk result (λ found. MatchOption found
        (IsNowhere columns (λ point. Any (λ r. HoldsSystem system.now point × HoldsRow r point) rows.now))
        (λ point. IsSample meter.old columns (λ q. Any (λ r. HoldsSystem system.now q × HoldsRow r q) rows.now) point.items)) }
    ensures meter { IsMetered meter.old meter.new result }
{
    for row in rows.as_slice() {
        if let Some(point) = point_with(alloc, system, columns, row, meter)? {
            return Ok(Some(point));
        }
    }
    Ok(None)
}

// A point of some of the systems at which one of the rows holds, if there is one.
#[tactic(auto, using(std::proofs::lemmas::Grind::common_steps, isl_meter::proofs::CutLemmas::charges))]
fn point_of_any(
    alloc: Global,
    systems: &[System],
    columns: usize,
    rows: &Rows,
    meter: &mut Meter,
) -> Result<Option<Vec<i128>>, Cut>
    requires systems { All (IsOver meter.old columns) systems.now }
    requires formed { All (IsWellFormed columns) rows.now }
    requires within { All (IsRowWithin meter.old) rows.now }
    ensures exact { IfOk result (λ found. MatchOption found
        (IsNowhere columns (λ point. Any (λ s. Any (λ r. HoldsSystem s point × HoldsRow r point) rows.now) systems.now))
        (λ point. IsSample meter.old columns (λ q. Any (λ s. Any (λ r. HoldsSystem s q × HoldsRow r q) rows.now) systems.now)
        point.items)) }
    ensures meter { IsMetered meter.old meter.new result }
{
    for system in systems {
        if let Some(point) = point_with_any(alloc, system, columns, rows, meter)? {
            return Ok(Some(point));
        }
    }
    Ok(None)
}

/// A point of some of the systems at which the form is not 0, if there is one.
///
/// # Errors
///
/// `Overflow` where a number passes the limit of the meter, `Budget` where its units are used up, and `NoMemory`.
#[tactic(auto, using(std::proofs::lemmas::Grind::common_steps, isl_meter::proofs::CutLemmas::charges))]
pub(crate) fn point_off(
    alloc: Global,
    systems: &[System],
    columns: usize,
    form: &Row,
    meter: &mut Meter,
) -> Result<Option<Vec<i128>>, Cut>
    requires systems { All (IsOver meter.old columns) systems.now }
    requires form { IsForm meter.old columns form.now }
    ensures exact { IfOk result (λ found. MatchOption found
        ((point : List ℤ) → IsPoint columns systems.now point → value_at form.now point ≡ pos 0)
        (λ point. IsSample meter.old columns (λ q. HoldsAtAny systems.now q × (value_at form.now q ≢ pos 0)) point.items)) }
    ensures meter { IsMetered meter.old meter.new result }
{
    let sides = negate(alloc, form, meter)?;
    point_of_any(alloc, systems, columns, &sides, meter)
}
