//! The rows of a system that say something new at the points of other systems.

ghost use Rattle.std.specs.Prelude.{◌≡◌, ◌≢◌, ◌↔◌, ◌+◌, ◌<◌, [], ◌∷◌, ◌++◌, All, IfOk, IsTrue, drop, length, map};
ghost use Rattle.isl_meter.specs.Gauge.{IsMetered};
ghost use Rattle.isl_piece.specs.declared.row.RowKind.TheVariants.{Zero};
ghost use Rattle.isl_gist.specs.declared.pass.Pass.TheVariants.{Inequalities, Equations};
ghost use Rattle.isl_gist.specs.Thinned.{plain_system, AreNeeded, AreThinned, IsAmong, IsDone, IsNeeded};
ghost use Rattle.isl_gist.specs.Thinned.{IsPart, IsPlain, IsRest, IsRowOver};
ghost use Rattle.isl_gist.specs.Thinned.{WillBeDone};

use crate::half::{lower_half, upper_half};
use crate::idle::{is_idle, only};
use crate::pass::Pass;
use isl_meter::{Cut, Meter};
use isl_piece::{Row, RowKind, Rows, System};
use std::alloc::{AllocError, Global};

// Whether the row is an equation.
fn is_equation(row: &Row) -> bool
    ensures { IsTrue result ↔ (row.now.kind ≡ Zero) }
{
    matches!(row.kind, RowKind::Zero)
}

// The system with one more row.
fn with_row(alloc: Global, system: &System, row: &Row) -> Result<System, AllocError>
    requires { system.now.definitions ≡ [] }
    ensures { IfOk result (λ made. made ≡ plain_system system.now.columns (row.now ∷ system.now.rows)) }
{
    let mut rows = only(alloc, row.copy(alloc)?)?;
    rows.append(alloc, &system.rows)?;
    Ok(System::from_rows(alloc, system.columns, rows))
}

// The rows that are kept, and those behind the row at `at`.
fn beside(alloc: Global, system: &System, kept: &Rows, at: usize) -> Result<System, AllocError>
    requires { at < length system.now.rows }
    ensures { IfOk result (λ made. made ≡ plain_system system.now.columns (kept.now ++ drop (at + 1) system.now.rows)) }
{
    let mut rows = kept.copy(alloc)?;
    for row in &system.rows.as_slice()[at + 1..] {
        rows.push(row.copy(alloc)?)?;
    }
    Ok(System::from_rows(alloc, system.columns, rows))
}

// The row, where it is not idle beside the others.
#[tactic(auto, using(std::proofs::lemmas::Grind::common_steps, crate::proofs::PartLaws::part_steps))]
fn needed_row(
    alloc: Global,
    others: &System,
    row: Row,
    contexts: &[&System],
    meter: &mut Meter,
) -> Result<Rows, Cut>
    requires others { IsPlain meter.old others.now.columns others.now }
    requires row { IsRowOver meter.old others.now.columns row }
    requires contexts { All (IsPlain meter.old others.now.columns) (map (λ context. context.now) contexts.now) }
    ensures exact { IfOk result
        (IsRest (IsAmong others.now.columns (map (λ context. context.now) contexts.now)) others.now.rows row) }
    ensures meter { IsMetered meter.old meter.new result }
{
    if is_idle(alloc, others, &row, contexts, meter)? {
        return Ok(Rows::new(alloc));
    }
    Ok(only(alloc, row)?)
}

// The equation, or what is left of its halves where one of them is idle beside the other and the others.
#[tactic(auto, using(std::proofs::lemmas::Grind::common_steps, crate::proofs::PartLaws::part_steps))]
fn needed_halves(
    alloc: Global,
    others: &System,
    row: &Row,
    contexts: &[&System],
    meter: &mut Meter,
) -> Result<Rows, Cut>
    requires equation { row.now.kind ≡ Zero }
    requires others { IsPlain meter.old others.now.columns others.now }
    requires row { IsRowOver meter.old others.now.columns row.now }
    requires contexts { All (IsPlain meter.old others.now.columns) (map (λ context. context.now) contexts.now) }
    ensures exact { IfOk result
        (IsPart Equations (IsAmong others.now.columns (map (λ context. context.now) contexts.now)) others.now.rows row.now) }
    ensures meter { IsMetered meter.old meter.new result }
{
    let upper = upper_half(alloc, row)?;
    let lower = lower_half(alloc, row, meter)?;
    let with_lower = with_row(alloc, others, &lower)?;
    if is_idle(alloc, &with_lower, &upper, contexts, meter)? {
        return needed_row(alloc, others, lower, contexts, meter);
    }
    let with_upper = with_row(alloc, others, &upper)?;
    if is_idle(alloc, &with_upper, &lower, contexts, meter)? {
        return Ok(only(alloc, upper)?);
    }
    Ok(only(alloc, row.copy(alloc)?)?)
}

// What the pass leaves of the row beside the others.
#[tactic(auto, using(std::proofs::lemmas::Grind::common_steps, crate::proofs::PartLaws::part_steps))]
fn part(
    alloc: Global,
    pass: Pass,
    others: &System,
    row: &Row,
    contexts: &[&System],
    meter: &mut Meter,
) -> Result<Rows, Cut>
    requires others { IsPlain meter.old others.now.columns others.now }
    requires row { IsRowOver meter.old others.now.columns row.now }
    requires contexts { All (IsPlain meter.old others.now.columns) (map (λ context. context.now) contexts.now) }
    requires needed { IsDone pass row.now
        → IsNeeded (IsAmong others.now.columns (map (λ context. context.now) contexts.now)) others.now.rows row.now }
    ensures exact { IfOk result
        (IsPart pass (IsAmong others.now.columns (map (λ context. context.now) contexts.now)) others.now.rows row.now) }
    ensures meter { IsMetered meter.old meter.new result }
{
    match pass {
        Pass::Inequalities => {
            if is_equation(row) {
                return Ok(only(alloc, row.copy(alloc)?)?);
            }
            needed_row(alloc, others, row.copy(alloc)?, contexts, meter)
        }
        Pass::Equations => {
            if is_equation(row) {
                return needed_halves(alloc, others, row, contexts, meter);
            }
            Ok(only(alloc, row.copy(alloc)?)?)
        }
    }
}

// What the pass leaves of each of the rows beside those that are left in front of it, and those behind it.
#[tactic(auto, using(std::proofs::lemmas::Grind::common_steps, crate::proofs::SweepLaws::sweep_steps))]
fn swept(
    alloc: Global,
    pass: Pass,
    system: &System,
    contexts: &[&System],
    meter: &mut Meter,
) -> Result<System, Cut>
    requires system { IsPlain meter.old system.now.columns system.now }
    requires contexts { All (IsPlain meter.old system.now.columns) (map (λ context. context.now) contexts.now) }
    requires needed { AreNeeded (IsDone pass) (IsAmong system.now.columns (map (λ context. context.now) contexts.now)) [] system.now.rows }
    ensures exact { IfOk result (λ left. AreThinned (WillBeDone pass)
        (IsAmong system.now.columns (map (λ context. context.now) contexts.now)) system.now.rows left.rows) }
    ensures plain { IfOk result (IsPlain meter.old system.now.columns) }
    ensures meter { IsMetered meter.old meter.new result }
{
    let mut kept = Rows::new(alloc);
    for at in 0..system.rows.len() {
        let others = beside(alloc, system, &kept, at)?;
        let row = &system.rows.as_slice()[at];
        let left = part(alloc, pass, &others, row, contexts, meter)?;
        kept.append(alloc, &left)?;
    }
    Ok(System::from_rows(alloc, system.columns, kept))
}

/// The system without the rows, and the halves of equations, that are idle at the points of the contexts: one after another, those
/// that are no equations first.
///
/// # Errors
///
/// As every call under a meter.
#[tactic(auto, using(std::proofs::lemmas::Grind::common_steps, crate::proofs::SweepLaws::sweep_steps))]
pub(crate) fn needed(
    alloc: Global,
    system: &System,
    contexts: &[&System],
    meter: &mut Meter,
) -> Result<System, Cut>
    requires system { IsPlain meter.old system.now.columns system.now }
    requires contexts { All (IsPlain meter.old system.now.columns) (map (λ context. context.now) contexts.now) }
    ensures exact { IfOk result (λ left. AreThinned (WillBeDone Equations)
        (IsAmong system.now.columns (map (λ context. context.now) contexts.now)) system.now.rows left.rows) }
    ensures plain { IfOk result (IsPlain meter.old system.now.columns) }
    ensures meter { IsMetered meter.old meter.new result }
{
    let equations = swept(alloc, Pass::Inequalities, system, contexts, meter)?;
    swept(alloc, Pass::Equations, &equations, contexts, meter)
}
