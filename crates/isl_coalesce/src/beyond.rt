//! Whether a point tells that two systems have no joint one. No unit is used.

ghost use Rattle.std.specs.Prelude.{◌≡◌, ◌<ℤ◌, pos, All, IfOk, IsTrue, length};
ghost use Rattle.isl_piece.specs.Row.{HoldsRow, IsRowWithin, IsWellFormed};
ghost use Rattle.isl_assumed.specs.declared.assumed.Assumed.TheVariants.{Nothing};
ghost use Rattle.isl_coalesce.specs.Beyond.{Carries, IsBeyond, IsCarried};
ghost use Rattle.isl_coalesce.specs.Found.{IsPlain};

use crate::candidate::Candidate;
use crate::parts::halves;
use isl_assumed::Assumed;
use isl_meter::{Cut, Meter, Overflow};
use isl_piece::Row;
use std::alloc::{AllocError, Global};

// Steps between points are multiples of one of these: a step of the second keeps the remainders by small numbers.
const STRIDES: [i128; 2] = [1, 12];

// ---- rows
// Whether the row holds at the second point, or does not at the first.
fn carries(row: &Row, from: &[i128], to: &[i128], meter: &mut Meter) -> Result<bool, Overflow>
    requires from { IsWellFormed (length from.now) row.now }
    requires to { IsWellFormed (length to.now) row.now }
    requires within { IsRowWithin meter.old row.now }
    ensures exact { IfOk result (λ yes. IsTrue yes → Carries from.now to.now row.now) }
    ensures meter { IfOk result (λ _. meter.new ≡ meter.old) }
{
    if row.holds_at(to, meter)? {
        return Ok(true);
    }
    Ok(!row.holds_at(from, meter)?)
}

// The same of each of the rows.
fn all_carry(rows: &[Row], from: &[i128], to: &[i128], meter: &mut Meter) -> Result<bool, Overflow>
    requires from { All (IsWellFormed (length from.now)) rows.now }
    requires to { All (IsWellFormed (length to.now)) rows.now }
    requires within { All (IsRowWithin meter.old) rows.now }
    ensures exact { IfOk result (λ yes. IsTrue yes → All (Carries from.now to.now) rows.now) }
    ensures meter { IfOk result (λ _. meter.new ≡ meter.old) }
{
    for row in rows {
        if !carries(row, from, to, meter)? {
            return Ok(false);
        }
    }
    Ok(true)
}

// The same of each of the rows, and of their halves.
fn are_carried(
    alloc: Global,
    rows: &[Row],
    from: &[i128],
    to: &[i128],
    meter: &mut Meter,
) -> Result<bool, Cut>
    requires from { All (IsWellFormed (length from.now)) rows.now }
    requires to { All (IsWellFormed (length to.now)) rows.now }
    requires within { All (IsRowWithin meter.old) rows.now }
    ensures exact { IfOk result (λ yes. IsTrue yes → All (IsCarried from.now to.now) rows.now) }
    ensures meter { IfOk result (λ _. meter.new ≡ meter.old) }
{
    for row in rows {
        if !carries(row, from, to, meter)? {
            return Ok(false);
        }
        let halves = halves(alloc, row, meter)?;
        if !all_carry(halves.as_slice(), from, to, meter)? {
            return Ok(false);
        }
    }
    Ok(true)
}

// ---- systems
// Whether the point tells it, by the points that are guessed for the two.
fn is_beyond(
    alloc: Global,
    first: &Candidate,
    second: &Candidate,
    point: &[i128],
    meter: &mut Meter,
) -> Result<bool, Cut>
    requires first { IsPlain meter.old first.now.system }
    requires second { IsPlain meter.old second.now.system }
    requires columns { second.now.system.columns ≡ first.now.system.columns }
    requires point { length point.now ≡ first.now.system.columns }
    ensures exact { IfOk result (λ yes. IsTrue yes → IsBeyond first.now.system second.now.system) }
{
    let (one, other) = (first.point(), second.point());
    let (rows, others) = (&first.system().rows, &second.system().rows);
    if one.len() != point.len() || other.len() != point.len() {
        return Ok(false);
    }
    if rows.hold_at(point, meter)? || others.hold_at(point, meter)? {
        return Ok(false);
    }
    if !rows.hold_at(one, meter)? || !others.hold_at(other, meter)? {
        return Ok(false);
    }
    Ok(
        are_carried(alloc, rows.as_slice(), other, point, meter)?
            && are_carried(alloc, others.as_slice(), one, point, meter)?,
    )
}

// A point half way from the one to the other, as far as steps of this size lead.
fn half_way(
    alloc: Global,
    one: &[i128],
    other: &[i128],
    stride: i128,
) -> Result<Vec<i128>, AllocError>
    requires { pos 0 <ℤ stride }
    ensures { IfOk result (λ point. length point.items ≡ length one.now) }
{
    let mut point = Vec::with_capacity(alloc, one.len())?;
    for i in 0..one.len() {
        let way = match other.get(i) {
            Some(number) => number.wrapping_sub(one[i]),
            None => 0,
        };
        let steps = way.wrapping_div_euclid(2).wrapping_div_euclid(stride);
        point.push(one[i].wrapping_add(steps.wrapping_mul(stride)))?;
    }
    Ok(point)
}

// Whether one of some points tells it. What is looked for is in no clause.
fn is_seen_apart(
    alloc: Global,
    first: &Candidate,
    second: &Candidate,
    meter: &Meter,
) -> Result<bool, AllocError>
    requires first { IsPlain meter.now first.now.system }
    requires second { IsPlain meter.now second.now.system }
    requires columns { second.now.system.columns ≡ first.now.system.columns }
    ensures { IfOk result (λ yes. IsTrue yes → IsBeyond first.now.system second.now.system) }
{
    // For the proof: the limit has at most 127 bits.
    let _bits = meter.limit();
    let (one, other) = (first.point(), second.point());
    if one.len() != first.system().columns {
        return Ok(false);
    }
    for stride in STRIDES {
        let point = half_way(alloc, one, other, stride)?;
        let mut calculator = Meter::new(127, 1);
        match is_beyond(alloc, first, second, point.as_slice(), &mut calculator) {
            Ok(true) => return Ok(true),
            Ok(false) | Err(Cut::Overflow | Cut::Budget) => {}
            Err(Cut::NoMemory) => return Err(AllocError),
        }
    }
    Ok(false)
}

/// Whether a point is seen that tells that the two have no joint piece. None is looked for where something is assumed.
///
/// # Errors
///
/// `AllocError` where memory ends.
pub(crate) fn are_seen_apart(
    alloc: Global,
    known: &Assumed,
    first: &Candidate,
    second: &Candidate,
    meter: &Meter,
) -> Result<bool, AllocError>
    requires first { IsPlain meter.now first.now.system }
    requires second { IsPlain meter.now second.now.system }
    requires columns { second.now.system.columns ≡ first.now.system.columns }
    ensures { IfOk result (λ yes. IsTrue yes → (known.now ≡ Nothing) × IsBeyond first.now.system second.now.system) }
{
    match known {
        Assumed::Nothing => is_seen_apart(alloc, first, second, meter),
        Assumed::Where(_) => Ok(false),
    }
}
