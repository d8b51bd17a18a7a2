//! What one system keeps of its rows beside another.

ghost use Rattle.std.specs.Prelude.{◌≡◌, ◌↔◌, All, IfOk, IsTrue, negsuc};
ghost use Rattle.isl_math.specs.Dot.{scaled};
ghost use Rattle.isl_meter.specs.Gauge.{IsMetered, IsWithin};
ghost use Rattle.isl_piece.specs.Row.{IsRowWithin};
ghost use Rattle.isl_assumed.specs.declared.assumed.Assumed.TheVariants.{Where};
ghost use Rattle.isl_coalesce.specs.Found.{IsFit, IsKnown, IsKnownOf, IsPlain, IsTrueThroughout};
ghost use Rattle.isl_coalesce.specs.Parts.{halves, AreParts, AreThose, IsPart};

use isl_assumed::{Assumed, Region, pair};
use isl_difference::hold_throughout;
use isl_meter::{Cut, Int, Meter};
use isl_piece::{Coefs, Row, RowKind, Rows, System};
use std::alloc::{AllocError, Global};

// ---- halves
// The negative of each number.
#[tactic(auto, using(std::proofs::lemmas::Grind::common_steps, isl_piece::proofs::NumberSteps::steps))]
fn negatives(alloc: Global, numbers: &[Int], meter: &Meter) -> Result<Coefs, AllocError>
    requires { All (IsWithin meter.now) numbers.now }
    ensures { IfOk result (λ coefs. coefs ≡ scaled (negsuc 0) numbers.now) }
{
    let mut coefs = Coefs::new(alloc);
    for number in numbers {
        coefs.push(number.neg(meter))?;
    }
    Ok(coefs)
}

/// The halves of an equation: its form is at least 0, and at most 0. No other row has any.
pub(crate) fn halves(alloc: Global, row: &Row, meter: &Meter) -> Result<Rows, AllocError>
    requires { IsRowWithin meter.now row.now }
    ensures { IfOk result (λ rows. rows ≡ halves row.now) }
{
    let mut rows = Rows::new(alloc);
    if matches!(row.kind, RowKind::Zero) {
        let opposite = negatives(alloc, row.coefs.as_slice(), meter)?;
        let coefs = row.coefs.copy(alloc)?;
        rows.push(Row::new(RowKind::AtLeast, coefs, row.constant(), Int::ONE))?;
        rows.push(Row::new(
            RowKind::AtLeast,
            opposite,
            row.constant().neg(meter),
            Int::ONE,
        ))?;
    }
    Ok(rows)
}

// ---- rows that are true
// Whether the row holds at each point of the system.
#[tactic(auto, using(std::proofs::lemmas::Grind::common_steps, isl_meter::proofs::CutLemmas::charges))]
fn true_in(alloc: Global, system: &System, row: &Row, meter: &mut Meter) -> Result<bool, Cut>
    requires system { IsPlain meter.old system.now }
    requires row { IsFit meter.old system.now.columns row.now }
    ensures exact { IfOk result (λ all. IsTrue all ↔ IsTrueThroughout (λ point. Unit {0}) system.now row.now) }
    ensures meter { IsMetered meter.old meter.new result }
{
    let mut rows = Rows::new(alloc);
    rows.push(row.copy(alloc)?)?;
    hold_throughout(alloc, system, &rows, meter)
}

// Whether the row holds at each point of the system at the first numbers of which one of the region's systems does.
#[tactic(auto, using(std::proofs::lemmas::Grind::common_steps, isl_meter::proofs::CutLemmas::charges))]
fn true_in_region(
    alloc: Global,
    system: &System,
    region: &Region,
    row: &Row,
    meter: &mut Meter,
) -> Result<bool, Cut>
    requires system { IsPlain meter.old system.now }
    requires region { IsKnownOf meter.old system.now.columns (Where region.now) }
    requires row { IsFit meter.old system.now.columns row.now }
    ensures exact { IfOk result (λ all. IsTrue all ↔ IsTrueThroughout (IsKnown (Where region.now)) system.now row.now) }
    ensures meter { IsMetered meter.old meter.new result }
{
    let names = region.params.len();
    let more = system.columns - names;
    for known in region.systems.as_slice() {
        let both = pair(alloc, system, known, names, more, meter)?;
        if !true_in(alloc, &both, row, meter)? {
            return Ok(false);
        }
    }
    Ok(true)
}

// Whether the row holds at each known point of the system. What is known of points is asked for here and in `is_of_either` alone.
fn true_throughout(
    alloc: Global,
    system: &System,
    known: &Assumed,
    row: &Row,
    meter: &mut Meter,
) -> Result<bool, Cut>
    requires system { IsPlain meter.old system.now }
    requires known { IsKnownOf meter.old system.now.columns known.now }
    requires row { IsFit meter.old system.now.columns row.now }
    ensures exact { IfOk result (λ all. IsTrue all ↔ IsTrueThroughout (IsKnown known.now) system.now row.now) }
    ensures meter { IsMetered meter.old meter.new result }
{
    match known {
        Assumed::Nothing => true_in(alloc, system, row, meter),
        Assumed::Where(region) => true_in_region(alloc, system, region, row, meter),
    }
}

// Those of the rows that hold at each known point of the system.
#[tactic(auto, using(std::proofs::lemmas::Grind::common_steps, isl_meter::proofs::CutLemmas::charges))]
fn those(
    alloc: Global,
    system: &System,
    known: &Assumed,
    rows: &Rows,
    meter: &mut Meter,
) -> Result<Rows, Cut>
    requires system { IsPlain meter.old system.now }
    requires known { IsKnownOf meter.old system.now.columns known.now }
    requires rows { All (IsFit meter.old system.now.columns) rows.now }
    ensures exact { IfOk result (AreThose (IsTrueThroughout (IsKnown known.now) system.now) rows.now) }
    ensures meter { IsMetered meter.old meter.new result }
{
    let mut kept = Rows::new(alloc);
    for row in rows.as_slice() {
        if true_throughout(alloc, system, known, row, meter)? {
            kept.push(row.copy(alloc)?)?;
        }
    }
    Ok(kept)
}

// What is kept of the row beside the system.
#[tactic(auto, using(std::proofs::lemmas::Grind::common_steps, isl_meter::proofs::CutLemmas::charges))]
fn part(
    alloc: Global,
    system: &System,
    known: &Assumed,
    row: &Row,
    meter: &mut Meter,
) -> Result<Rows, Cut>
    requires system { IsPlain meter.old system.now }
    requires known { IsKnownOf meter.old system.now.columns known.now }
    requires row { IsFit meter.old system.now.columns row.now }
    ensures exact { IfOk result (IsPart (IsTrueThroughout (IsKnown known.now) system.now) row.now) }
    ensures meter { IsMetered meter.old meter.new result }
{
    if true_throughout(alloc, system, known, row, meter)? {
        let mut whole = Rows::new(alloc);
        whole.push(row.copy(alloc)?)?;
        return Ok(whole);
    }
    let halves = halves(alloc, row, meter)?;
    those(alloc, system, known, &halves, meter)
}

/// What is kept of the rows beside the system: those that hold at each of its known points, and of an equation that does not,
/// the halves that do.
#[tactic(auto, using(std::proofs::lemmas::Grind::common_steps, isl_meter::proofs::CutLemmas::charges))]
pub(crate) fn parts(
    alloc: Global,
    system: &System,
    known: &Assumed,
    rows: &Rows,
    meter: &mut Meter,
) -> Result<Rows, Cut>
    requires system { IsPlain meter.old system.now }
    requires known { IsKnownOf meter.old system.now.columns known.now }
    requires rows { All (IsFit meter.old system.now.columns) rows.now }
    ensures exact { IfOk result (AreParts (IsTrueThroughout (IsKnown known.now) system.now) rows.now) }
    ensures meter { IsMetered meter.old meter.new result }
{
    let mut kept = Rows::new(alloc);
    for row in rows.as_slice() {
        let part = part(alloc, system, known, row, meter)?;
        kept.append(alloc, &part)?;
    }
    Ok(kept)
}
