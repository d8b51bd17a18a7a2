//! What is left of a system without others, and without its last columns. A column that a row gives by the others goes first.

ghost use Rattle.std.specs.Prelude.{◌≡◌, ◌+◌, ◌<◌, ◌≤◌, [], All, Any, IfOk, IfSome, IsTrue, length};
ghost use Rattle.isl_meter.specs.Gauge.{Gauge, IsMetered};
ghost use Rattle.isl_piece.specs.System.{IsSystemWithin};
ghost use Rattle.isl_difference.specs.Split.{IsLive};
ghost use Rattle.isl_remainder.specs.Made.{AreMade};
ghost use Rattle.isl_remainder.specs.Over.{row_alone, GivesColumn, GivesLast, HoldsGiven, HoldsLong, HoldsLongBefore, IsAcross, IsLeftOver};
ghost use Rattle.isl_remainder.specs.Over.{IsReduced, IsRemainder, IsShortened};

use crate::equations::left_without;
use isl_blocks::without_last;
use isl_difference::{append, outside, references};
use isl_meter::{Cut, Int, Meter};
use isl_piece::{Coefs, Row, RowKind, Rows, System, meet};
use std::alloc::{AllocError, Global};

/// A system, others that are to be taken from it, and how many of the last columns are to go.
#[derive(Drop)]
pub struct Remainder {
    pub system: System,
    pub others: Vec<System>,
    pub count: usize,
}

// Whether the row gives the number at the last of the first `free` columns by those before it.
fn gives(row: &Row, free: usize) -> bool
    requires { free ≤ length row.now.coefs }
    ensures { IsTrue result → GivesColumn free row.now }
{
    if free == 0 || row.kind != RowKind::Zero {
        return false;
    }
    let last = row.coefs.get(free - 1).get();
    if last != 1 && last != -1 {
        return false;
    }
    row.coefs.as_slice()[free..].iter().all(|c| c.get() == 0)
}

// The system of the row alone, over its first `free` columns.
fn alone(alloc: Global, row: &Row, free: usize) -> Result<System, AllocError>
    requires { free ≤ length row.now.coefs }
    ensures { IfOk result (λ one. one ≡ row_alone free row.now) }
{
    let coefs = Coefs::from_slice(alloc, &row.coefs.as_slice()[..free])?;
    let mut rows = Rows::new(alloc);
    rows.push(Row::new(RowKind::Zero, coefs, row.constant(), Int::ONE))?;
    Ok(System::from_rows(alloc, free, rows))
}

// The system of a row that gives the number at the last free column; nothing where no row does.
fn giving(alloc: Global, system: &System) -> Result<Option<System>, AllocError>
    requires { (g : Gauge) × IsSystemWithin g system.now }
    ensures { (g : Gauge) → IsSystemWithin g system.now → IfOk result (λ found. IfSome found (GivesLast g system.now)) }
{
    let free = system.free();
    for row in system.rows.as_slice() {
        if gives(row, free) {
            return Ok(Some(alone(alloc, row, free)?));
        }
    }
    Ok(None)
}

// What is left of the other system with the row and without the last column, over so many columns.
#[tactic(auto, using(std::proofs::lemmas::Grind::common_steps, isl_meter::proofs::CutLemmas::charges))]
fn given(
    alloc: Global,
    other: &System,
    one: &System,
    columns: usize,
    meter: &mut Meter,
) -> Result<Vec<System>, Cut>
    requires other { IsAcross meter.old (columns + 1) other.now }
    requires one { IsAcross meter.old (columns + 1) one.now }
    ensures made { IfOk result (λ made. AreMade (HoldsLong columns) (IsAcross meter.old columns) (λ s. s.definitions ≡ [])
        ((one.now.definitions ≡ []) × (other.now.definitions ≡ [])) (λ point. HoldsGiven one.now columns point other.now) made.items) }
    ensures meter { IsMetered meter.old meter.new result }
{
    let both = meet(alloc, other, one)?;
    without_last(alloc, &both, columns, 1, meter)
}

// That of all the others.
#[tactic(auto, using(std::proofs::lemmas::Grind::common_steps, isl_meter::proofs::CutLemmas::charges))]
fn all_given(
    alloc: Global,
    others: &[System],
    one: &System,
    columns: usize,
    meter: &mut Meter,
) -> Result<Vec<System>, Cut>
    requires others { All (IsAcross meter.old (columns + 1)) others.now }
    requires one { IsAcross meter.old (columns + 1) one.now }
    ensures made { IfOk result (λ made. AreMade (HoldsLong columns) (IsAcross meter.old columns) (λ s. s.definitions ≡ [])
        ((one.now.definitions ≡ []) × All (λ s. s.definitions ≡ []) others.now)
        (λ point. Any (HoldsGiven one.now columns point) others.now) made.items) }
    ensures meter { IsMetered meter.old meter.new result }
{
    let mut made = Vec::new(alloc);
    for other in others {
        let mut more = given(alloc, other, one, columns, meter)?;
        append(&mut made, &mut more)?;
    }
    Ok(made)
}

// What is left of the system without its last column; nothing where that is not one system.
#[tactic(auto, using(std::proofs::lemmas::Grind::common_steps, isl_meter::proofs::CutLemmas::charges))]
fn shortened(
    alloc: Global,
    system: &System,
    columns: usize,
    meter: &mut Meter,
) -> Result<Option<System>, Cut>
    requires { IsAcross meter.old (columns + 1) system.now }
    ensures made { IfOk result (λ found. IfSome found (IsShortened meter.old columns system.now)) }
    ensures meter { IsMetered meter.old meter.new result }
{
    let mut parts = without_last(alloc, system, columns, 1, meter)?;
    if parts.len() != 1 {
        return Ok(None);
    }
    Ok(parts.pop())
}

// The same with one column less; nothing where no row gives it, or more than one system would be left.
#[tactic(auto, using(std::proofs::lemmas::Grind::common_steps, isl_meter::proofs::CutLemmas::charges))]
fn reduced(
    alloc: Global,
    asked: &Remainder,
    kept: usize,
    meter: &mut Meter,
) -> Result<Option<Remainder>, Cut>
    requires { IsRemainder meter.old kept asked.now }
    ensures made { IfOk result (λ found. IfSome found (IsReduced meter.old kept asked.now)) }
    ensures meter { IsMetered meter.old meter.new result }
{
    if asked.count == 0 {
        return Ok(None);
    }
    let Some(one) = giving(alloc, &asked.system)? else {
        return Ok(None);
    };
    let columns = asked.system.free() - 1;
    let Some(system) = shortened(alloc, &asked.system, columns, meter)? else {
        return Ok(None);
    };
    Ok(Some(Remainder {
        system,
        others: all_given(alloc, asked.others.as_slice(), &one, columns, meter)?,
        count: asked.count - 1,
    }))
}

// The same without the last columns that rows give.
#[tactic(auto, using(std::proofs::lemmas::Grind::common_steps, isl_meter::proofs::CutLemmas::charges))]
fn all_reduced(
    alloc: Global,
    asked: Remainder,
    kept: usize,
    meter: &mut Meter,
) -> Result<Remainder, Cut>
    requires { IsRemainder meter.old kept asked }
    ensures made { IfOk result (IsReduced meter.old kept asked) }
    ensures meter { IsMetered meter.old meter.new result }
{
    let mut left = asked;
    for _ in 0..left.count {
        let Some(next) = reduced(alloc, &left, kept, meter)? else {
            return Ok(left);
        };
        left = next;
    }
    Ok(left)
}

// Those of the systems without their last columns that have a point. Each system is let go as soon as it was asked.
#[tactic(auto, using(std::proofs::lemmas::Grind::common_steps, isl_meter::proofs::CutLemmas::charges))]
fn all_live_without(
    alloc: Global,
    systems: Vec<System>,
    kept: usize,
    count: usize,
    meter: &mut Meter,
) -> Result<Vec<System>, Cut>
    requires { All (IsAcross meter.old (kept + count)) systems.items }
    ensures made { IfOk result (λ made. AreMade (HoldsLong kept) (IsLive meter.old kept) (λ s. s.definitions ≡ [])
        (All (λ s. s.definitions ≡ []) systems.items) (λ point. Any (HoldsLongBefore kept count point) systems.items) made.items) }
    ensures meter { IsMetered meter.old meter.new result }
{
    let mut made = Vec::new(alloc);
    for system in systems {
        let mut more = left_without(alloc, &system, kept, count, meter)?;
        append(&mut made, &mut more)?;
    }
    Ok(made)
}

/// What is left of the system without the others and without the last columns, over the first `kept` ones.
#[tactic(auto, using(std::proofs::lemmas::Grind::common_steps, isl_meter::proofs::CutLemmas::charges))]
pub fn left_over(
    alloc: Global,
    asked: Remainder,
    kept: usize,
    meter: &mut Meter,
) -> Result<Vec<System>, Cut>
    requires { IsRemainder meter.old kept asked }
    ensures made { IfOk result (λ left. IsLeftOver meter.old kept asked left.items) }
    ensures meter { IsMetered meter.old meter.new result }
{
    let short = all_reduced(alloc, asked, kept, meter)?;
    let others = references(alloc, short.others.as_slice())?;
    let parts = outside(alloc, &short.system, others.as_slice(), meter)?;
    all_live_without(alloc, parts, kept, short.count, meter)
}
