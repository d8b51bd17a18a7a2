//! A system with one of several others, without its last columns.

ghost use Rattle.std.specs.Prelude.{◌≡◌, ◌↔◌, ◌+◌, ◌∷◌, [], ℤ, List, All, IfOk, length};
ghost use Rattle.isl_meter.specs.Gauge.{IsMetered};
ghost use Rattle.isl_piece.specs.System.{IsSystemWithin, free_columns};
ghost use Rattle.isl_elim.specs.Elimination.{HoldsAtAny};
ghost use Rattle.isl_blocks.specs.Left.{HoldsBefore};
ghost use Rattle.isl_orders.specs.Left.{AreLeftWith};

use isl_difference::append;
use isl_elim::columns_between;
use isl_meter::{Cut, Meter};
use isl_piece::{System, meet};
use isl_quotient::project;
use std::alloc::Global;

// What is left of the system over the first `kept` of its free columns, without the last `count`: quotients are kept.
fn projected(
    alloc: Global,
    system: &System,
    kept: usize,
    count: usize,
    meter: &mut Meter,
) -> Result<Vec<System>, Cut>
    requires within { IsSystemWithin meter.old system.now }
    requires columns { free_columns system.now ≡ kept + count }
    ensures points { (point : List ℤ) → length point ≡ kept
        → IfOk result (λ systems. HoldsAtAny systems.items point ↔ HoldsBefore system.now count point) }
    ensures columns { IfOk result (λ systems. All (λ s. free_columns s ≡ kept) systems.items) }
    ensures within { IfOk result (λ systems. All (IsSystemWithin meter.old) systems.items) }
    ensures meter { IsMetered meter.old meter.new result }
{
    // For what a system keeps: its free columns are so many as a number may be.
    let _free = system.free();
    let columns = columns_between(alloc, kept, kept + count)?;
    project(alloc, system, columns.as_slice(), meter)
}

// What is left of the system with another one, for a unit.
#[tactic(auto, using(std::proofs::lemmas::Grind::common_steps, isl_meter::proofs::CutLemmas::charges))]
fn left_with(
    alloc: Global,
    system: &System,
    case: &System,
    kept: usize,
    count: usize,
    meter: &mut Meter,
) -> Result<Vec<System>, Cut>
    requires within { IsSystemWithin meter.old system.now }
    requires case_within { IsSystemWithin meter.old case.now }
    requires columns { free_columns system.now ≡ kept + count }
    requires case_columns { free_columns case.now ≡ kept + count }
    ensures left { IfOk result (λ left. AreLeftWith meter.old system.now (case.now ∷ []) kept count left.items) }
    ensures meter { IsMetered meter.old meter.new result }
{
    meter.unit()?;
    let both = meet(alloc, system, case)?;
    projected(alloc, &both, kept, count, meter)
}

/// What is left of the system with one of the others, over the first `kept` of its free columns, without the last `count`. Each of the
/// others uses a unit.
///
/// # Errors
///
/// `Overflow` where a number passes the limit of the meter, `Budget` where its units are used up, and `NoMemory`.
#[tactic(auto, using(std::proofs::lemmas::Grind::common_steps, isl_meter::proofs::CutLemmas::charges))]
pub(crate) fn left_with_any(
    alloc: Global,
    system: &System,
    cases: &[System],
    kept: usize,
    count: usize,
    meter: &mut Meter,
) -> Result<Vec<System>, Cut>
    requires within { IsSystemWithin meter.old system.now }
    requires cases_within { All (IsSystemWithin meter.old) cases.now }
    requires columns { free_columns system.now ≡ kept + count }
    requires case_columns { All (λ case. free_columns case ≡ kept + count) cases.now }
    ensures left { IfOk result (λ left. AreLeftWith meter.old system.now cases.now kept count left.items) }
    ensures meter { IsMetered meter.old meter.new result }
{
    let mut left = Vec::new(alloc);
    for case in cases {
        let mut more = left_with(alloc, system, case, kept, count, meter)?;
        append(&mut left, &mut more)?;
    }
    Ok(left)
}
