//! A point at which rows hold.

ghost use Rattle.std.specs.Prelude.{◌≡◌, ◌+◌, ◌*◌, ◌<◌, ◌≤◌, ℕ, ℤ, [], ◌∷◌, length, All, IfOk, IfSome, MatchOption, MatchResult};
ghost use Rattle.std.specs.List.{insert};
ghost use Rattle.isl_meter.specs.Gauge.{IsCharged, IsCutBy, IsMetered, IsWithin};
ghost use Rattle.isl_piece.specs.Normal.{IsNormal};
ghost use Rattle.isl_piece.specs.System.{HoldRows};
ghost use Rattle.isl_omega.specs.Column.{IsProper};
ghost use Rattle.isl_piece.specs.System.{HoldsSystem, IsSystemWithin, free_columns};
ghost use Rattle.isl_column.specs.Parts.{AreParts, HoldsPart};
ghost use Rattle.isl_elim.specs.Sample.{IsSample, IsNowhere};
ghost use Rattle.isl_elim.specs.Tame.{AreNumbersLeft, IsDifferenceHead, IsTameOn};
ghost use Rattle.isl_ledger.specs.Answered.{IsTame};
ghost use Rattle.isl_ledger.specs.Difference.{IsDifferenceRow};
ghost use Rattle.isl_ledger.specs.Work.{Size, HasSize};

use crate::between::number_between;
use crate::line::tries_at;
use crate::opened::opened;
use isl_column::Parts;
use isl_meter::{Cut, Meter};
use isl_omega::column::Column;
use isl_piece::{Rows, System};
use isl_presolve::{any_column, with_fixed};
use std::alloc::Global;

// The point with another number at the column, so that the rows hold. One unit is used for each number at which they do not.
#[tactic(auto, using(crate::proofs::SampleLaws::tried_steps))]
fn tried(rows: &Rows, col: usize, point: Vec<i128>, meter: &mut Meter) -> Result<Vec<i128>, Cut>
    requires rows { All (IsProper meter.old (length point.items)) rows.now }
    requires col_in { col < length point.items }
    requires within { All (IsWithin meter.old) point.items }
    ensures exact { MatchResult result
        (λ whole. IsSample meter.old (length point.items) (HoldRows rows.now) whole.items × IsCharged meter.old meter.new)
        (IsCutBy meter.old meter.new) }
{
    let mut whole = point;
    let tries = tries_at(rows.as_slice(), whole.as_slice(), col, meter)?;
    let mut x = meter.add(tries.first, 0)?;
    loop {
        whole[col] = x;
        if rows.hold_at(whole.as_slice(), meter)? {
            return Ok(whole);
        }
        meter.unit()?;
        x = meter.add(x, tries.step)?;
    }
}

// The point with a number put in at the column, so that the rows hold. Equalities and bounds with the coefficients 1 and -1 tell it; else
// numbers are tried.
#[tactic(auto, using(crate::proofs::SampleLaws::tried_steps))]
fn completed(
    alloc: Global,
    rows: &Rows,
    col: usize,
    point: Vec<i128>,
    meter: &mut Meter,
) -> Result<Vec<i128>, Cut>
    requires rows { All (IsProper meter.old (length point.items + 1)) rows.now }
    requires col_in { col ≤ length point.items }
    requires within { All (IsWithin meter.old) point.items }
    ensures exact { MatchResult result
        (λ whole. IsSample meter.old (length point.items + 1) (HoldRows rows.now) whole.items × IsCharged meter.old meter.new)
        (IsCutBy meter.old meter.new) }
    ensures tame { (bits most : ℕ) → meter.old.bits ≡ 127 → bits < most → most ≤ 120 → All (IsDifferenceRow bits) rows.now
        → AreNumbersLeft (bits + 1) most point.items → (y : ℤ) → HoldRows rows.now (insert point.items col y)
        → IsTame 0 meter.old meter.new (λ whole. AreNumbersLeft bits most whole.items) result }
{
    let mut whole = point;
    whole.insert(col, 0)?;
    let Some(number) = number_between(rows.as_slice(), whole.as_slice(), col, meter)? else {
        return tried(rows, col, whole, meter);
    };
    whole[col] = number.get();
    if rows.hold_at(whole.as_slice(), meter)? {
        return Ok(whole);
    }
    whole[col] = 0;
    tried(rows, col, whole, meter)
}

// A point at which the rows hold: one column after another.
#[cycle(sample)]
#[tactic(auto, using(crate::proofs::SampleLaws::sample_steps))]
fn sample_columns(
    alloc: Global,
    rows: &Rows,
    columns: usize,
    meter: &mut Meter,
) -> Result<Option<Vec<i128>>, Cut>
    requires rows { All (IsProper meter.old columns) rows.now }
    requires normal { IsNormal rows.now }
    ensures exact { MatchResult result
        (λ sample. MatchOption sample (IsNowhere columns (HoldRows rows.now)) (λ point. IsSample meter.old columns (HoldRows rows.now) point.items)
        × IsCharged meter.old meter.new)
        (IsCutBy meter.old meter.new) }
    ensures tame { IsTameOn columns (λ bits. All (IsDifferenceRow bits) rows.now) (columns * (columns * columns)) meter.old meter.new
        (λ bits sample. IfSome sample (λ point. AreNumbersLeft bits (bits + columns) point.items)) result }
{
    if rows.is_empty() {
        let zeros = Vec::from_elem(alloc, 0, columns)?;
        return Ok(Some(zeros));
    }
    let col = any_column(rows.as_slice(), columns);
    let parts = Parts::of(alloc, rows.as_slice(), Column { columns, at: col }, meter)?;
    match sample_parts(alloc, parts, columns - 1, meter)? {
        None => Ok(None),
        Some(point) => {
            let whole = completed(alloc, rows, col, point, meter)?;
            Ok(Some(whole))
        }
    }
}

// A point at which the rows hold. Where a congruence and bounds leave one number at a column, it is put there.
#[cycle(sample)]
#[tactic(auto, using(crate::proofs::SampleLaws::sample_steps))]
fn sample_rows(
    alloc: Global,
    rows: Rows,
    columns: usize,
    meter: &mut Meter,
) -> Result<Option<Vec<i128>>, Cut>
    requires rows { All (IsProper meter.old columns) rows }
    requires normal { IsNormal rows }
    ensures exact { MatchResult result
        (λ sample. MatchOption sample (IsNowhere columns (HoldRows rows)) (λ point. IsSample meter.old columns (HoldRows rows) point.items)
        × IsCharged meter.old meter.new)
        (IsCutBy meter.old meter.new) }
    ensures tame { IsTameOn columns (λ bits. All (IsDifferenceRow bits) rows) (columns * (columns * columns)) meter.old meter.new
        (λ bits sample. IfSome sample (λ point. AreNumbersLeft bits (bits + columns) point.items)) result }
{
    match with_fixed(alloc, rows, columns, meter)? {
        None => Ok(None),
        Some(fixed) => sample_columns(alloc, &fixed, columns, meter),
    }
}

// A point at which some of the parts holds.
#[cycle(sample)]
#[tactic(auto, using(crate::proofs::SampleLaws::sample_steps))]
fn sample_parts(
    alloc: Global,
    mut parts: Parts,
    columns: usize,
    meter: &mut Meter,
) -> Result<Option<Vec<i128>>, Cut>
    requires parts { AreParts meter.old columns parts }
    ensures exact { MatchResult result
        (λ sample. MatchOption sample (IsNowhere columns (HoldsPart parts)) (λ point. IsSample meter.old columns (HoldsPart parts) point.items)
        × IsCharged meter.old meter.new)
        (IsCutBy meter.old meter.new) }
    ensures tame { IsTameOn columns (λ bits. IsDifferenceHead parts bits) (columns * (columns * columns)) meter.old meter.new
        (λ bits sample. IfSome sample (λ point. AreNumbersLeft bits (bits + columns) point.items)) result }
{
    while let Some(rows) = parts.next(alloc, columns, meter)? {
        if let Some(point) = sample_rows(alloc, rows, columns, meter)? {
            return Ok(Some(point));
        }
    }
    Ok(None)
}

/// A point of the free columns at which the system holds, with its numbers within the limit of the meter; none exactly where
/// there is no point.
///
/// # Errors
///
/// `Overflow` where a number passes the limit, `Budget` where the units are used up, and `NoMemory`. Of difference constraints over c columns
/// no error but `NoMemory` comes where 127 bits have room for one bit more with each column, and `c^3` units are left.
#[tactic(auto, using(crate::proofs::OpenedLaws::opened_steps))]
pub fn sample_point(
    alloc: Global,
    system: &System,
    meter: &mut Meter,
) -> Result<Option<Vec<i128>>, Cut>
    requires well_formed { IsSystemWithin meter.old system.now }
    ensures exact { IfOk result (λ sample. MatchOption sample
        (IsNowhere (free_columns system.now) (HoldsSystem system.now))
        (λ point. IsSample meter.old (free_columns system.now) (HoldsSystem system.now) point.items)) }
    ensures meter { IsMetered meter.old meter.new result }
    ensures tame { (size : Size) → meter.old.bits ≡ 127 → size.bits + size.columns ≤ 119 → HasSize size system.now
        → IsTame (size.columns * (size.columns * size.columns)) meter.old meter.new (λ _. Unit {0}) result }
{
    let Some(rows) = opened(alloc, system, meter)? else {
        return Ok(None);
    };
    match sample_rows(alloc, rows, system.columns, meter)? {
        None => Ok(None),
        Some(whole) => {
            let mut point = whole;
            point.truncate(system.free());
            Ok(Some(point))
        }
    }
}
