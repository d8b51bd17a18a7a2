//! The dark shadow of bounds on a column, and what it leaves out.

ghost use Rattle.std.specs.Prelude.{◌≡◌, ◌≢◌, ◌⊎◌, ◌<◌, pos, negsuc, ◌≤ℤ◌, ◌<ℤ◌, ◌+ℤ◌, ℤ, ◌*◌, IsTrue, length, List, [], ◌∷◌, All, IfSome, MatchOption, MatchResult, ◌^◌, ◌≤◌, unsigned_abs, IfErr};
ghost use Rattle.std.specs.List.{AllZip};
ghost use Rattle.isl_meter.specs.Gauge.{IsWithin, IsCutUpTo, IsDone};
ghost use Rattle.isl_piece.specs.declared.row.Row.{Row};
ghost use Rattle.isl_piece.specs.Row.{IsRowUpTo};
ghost use Rattle.isl_omega.specs.Shadow.{last_splinter, neighbour_splinters, IsCapped, AreNeverMet, AreSplintersOf, IsShadowOf, LeavesSplinters, IsShadow};
ghost use Rattle.isl_omega.specs.Sides.{IsLower, IsUpper};
ghost use Rattle.isl_omega.specs.Magnitude.{IsNoOverflow, paired_magnitude};
ghost use Rattle.isl_omega.specs.Units.{IsDoneFor};

use crate::column::Column;
use crate::pair::Pair;
use crate::rows::MOST_PAIRS;
use isl_meter::{Cut, Int, Meter, Overflow};
use isl_piece::{Row, Rows};
use std::alloc::Global;

/// A lower bound, whose values from 0 to `last` are splinters: systems of their own.
#[derive(Drop)]
pub struct Splinters {
    pub lower: Row,
    pub last: Int,
}

/// Upper bounds on a column, to be paired with lower ones. Where moduli must not divide rows, splinters go to neighbours too: further
/// by the factor of the lower bound for each of them.
#[derive(Clone, Copy)]
pub struct Uppers<'a> {
    pub rows: &'a [Row],
    pub column: Column,
    pub neighbours: Int,
}

// The greatest upper factor of a pair that is not exact.
fn widest(greatest: Int, factor: Int, exact: bool) -> Int
    ensures kept { greatest ≤ℤ result }
    ensures covered { IsTrue exact ⊎ (factor ≤ℤ result) }
    ensures least { (m : ℤ) → greatest ≤ℤ m → factor ≤ℤ m → result ≤ℤ m }
{
    if exact || factor <= greatest {
        greatest
    } else {
        factor
    }
}

// The last value of a lower bound of the factor in its splinters: -1, so that there is none, where all pairs are exact.
fn last_value(factor: Int, greatest: Int, meter: &mut Meter) -> Result<Int, Overflow>
    requires within { IsWithin meter.old factor }
    requires not_negative { pos 0 ≤ℤ greatest }
    ensures exact { MatchResult result
        (λ last. (greatest ≡ pos 0 → last ≡ negsuc 0) × (greatest ≢ pos 0 → last ≡ last_splinter factor greatest)
        × IsWithin meter.old last × (meter.new ≡ meter.old))
        (λ _. IsCutUpTo (pos 0) meter.old meter.new Cut.Overflow) }
    ensures no_overflow { meter.old.bits ≡ 127 → unsigned_abs factor ≤ paired_magnitude → IfErr result (λ _. ⊥) }
{
    if greatest.is_zero() {
        return Int::ZERO.sub(Int::ONE, meter);
    }
    let rest = factor.neg(meter).floor_div(greatest, meter);
    factor.sub(Int::ONE, meter)?.add(rest, meter)
}

// The lesser of two caps.
fn least_cap(a: Option<Int>, b: Option<Int>) -> Option<Int>
    ensures { (result ≡ a) ⊎ (result ≡ b) }
{
    match (a, b) {
        (Some(x), Some(y)) => Some(if y < x { y } else { x }),
        (None, _) => b,
        _ => a,
    }
}

// What a lower bound leaves with all upper bounds: the last value of its splinters, and whether they are met nowhere.
#[derive(Drop)]
struct Remainder {
    last: Int,
    never: bool,
}

// The last value, but at most the cap; -1, so that there is none, where that is below 0: then the bounds are met nowhere.
fn capped(last: Int, cap: Option<Int>, meter: &mut Meter) -> Result<Remainder, Overflow>
    requires within { IsWithin meter.old last }
    requires cap_within { IfSome cap (IsWithin meter.old) }
    ensures exact { MatchResult result
        (λ left. IsCapped cap last left.last × (IsTrue left.never → MatchOption cap ⊥ (λ c. c <ℤ pos 0)) × IsWithin meter.old left.last
        × (meter.new ≡ meter.old))
        (λ _. IsCutUpTo (pos 0) meter.old meter.new Cut.Overflow) }
    ensures no_overflow { meter.old.bits ≡ 127 → IfErr result (λ _. ⊥) }
{
    let Some(most) = cap else {
        return Ok(Remainder { last, never: false });
    };
    if most.is_negative() {
        let none = Int::ZERO.sub(Int::ONE, meter)?;
        return Ok(Remainder {
            last: none,
            never: true,
        });
    }
    let least = if most < last { most } else { last };
    Ok(Remainder {
        last: least,
        never: false,
    })
}

// Pushes the dark rows of a lower bound with each upper bound, and answers what is left of it.
fn shadow_of(
    alloc: Global,
    lower: &Row,
    uppers: &Uppers<'_>,
    rows: &mut Rows,
    meter: &mut Meter,
) -> Result<Remainder, Cut>
    requires lower { IsLower meter.old uppers.now.column.columns uppers.now.column.at lower.now }
    requires uppers { All (IsUpper meter.old uppers.now.column.columns uppers.now.column.at) uppers.now.rows.now }
    ensures exact { IsDoneFor (length uppers.now.rows.now) meter.old meter.new
        (λ left. IsShadowOf meter.old uppers.now.column.columns uppers.now.column.at lower.now uppers.now.rows.now
        rows.old rows.new left.last
        × IsWithin meter.old left.last
        × (IsTrue left.never → AreNeverMet uppers.now.column.columns uppers.now.column.at (lower.now ∷ []) uppers.now.rows.now)) result }
    ensures no_overflow { meter.old.bits ≡ 127 → IsRowUpTo paired_magnitude lower.now → All (IsRowUpTo paired_magnitude) uppers.now.rows.now
        → IsNoOverflow result }
{
    let mut greatest = Int::ZERO;
    let mut cap = None;
    for upper in uppers.rows {
        meter.unit()?;
        let pair = Pair::of(alloc, lower, upper, uppers.column, meter)?;
        if rows.len() >= MOST_PAIRS {
            return Err(Cut::NoMemory);
        }
        rows.push(pair.dark)?;
        greatest = widest(
            greatest,
            upper.coefs.get(uppers.column.at).neg(meter),
            pair.exact,
        );
        cap = least_cap(cap, pair.cap);
    }
    let full = last_value(lower.coefs.get(uppers.column.at), greatest, meter)?;
    let left = capped(full, cap, meter)?;
    Ok(left)
}

// The last value of a tail: further by the factor for each neighbour.
fn tail_value(last: Int, factor: Int, neighbours: Int, meter: &mut Meter) -> Result<Int, Overflow>
    requires within { IsWithin meter.old last }
    ensures exact { MatchResult result
        (λ value. (value ≡ last +ℤ neighbour_splinters neighbours factor) × IsWithin meter.old value × (meter.new ≡ meter.old))
        (λ _. IsCutUpTo (pos 0) meter.old meter.new Cut.Overflow) }
    ensures no_overflow { meter.old.bits ≡ 127 → unsigned_abs last ≤ paired_magnitude → unsigned_abs factor ≤ paired_magnitude
        → unsigned_abs neighbours ≤ 1 → IfErr result (λ _. ⊥) }
{
    let more = neighbours.mul(factor, meter)?;
    last.add(more, meter)
}

// Pushes the dark rows of a lower bound, and answers its tail, and whether the bounds are met nowhere.
fn tail_of(
    alloc: Global,
    lower: &Row,
    uppers: &Uppers<'_>,
    rows: &mut Rows,
    meter: &mut Meter,
) -> Result<(Splinters, bool), Cut>
    requires lower { IsLower meter.old uppers.now.column.columns uppers.now.column.at lower.now }
    requires uppers { All (IsUpper meter.old uppers.now.column.columns uppers.now.column.at) uppers.now.rows.now }
    ensures exact { IsDoneFor (length uppers.now.rows.now) meter.old meter.new
        (λ pair. LeavesSplinters meter.old uppers.now.column.columns uppers.now.column.at uppers.now.neighbours lower.now
        uppers.now.rows.now rows.old rows.new pair.0
        × (IsTrue pair.1 → AreNeverMet uppers.now.column.columns uppers.now.column.at (lower.now ∷ []) uppers.now.rows.now)) result }
    ensures no_overflow { meter.old.bits ≡ 127 → IsRowUpTo paired_magnitude lower.now → All (IsRowUpTo paired_magnitude) uppers.now.rows.now
        → unsigned_abs uppers.now.neighbours ≤ 1 → IsNoOverflow result }
{
    let left = shadow_of(alloc, lower, uppers, rows, meter)?;
    let last = tail_value(
        left.last,
        lower.coefs.get(uppers.column.at),
        uppers.neighbours,
        meter,
    )?;
    let tail = Splinters {
        lower: lower.copy(alloc)?,
        last,
    };
    Ok((tail, left.never))
}

// The tail of a lower bound without splinters of its own.
fn least_tail(
    alloc: Global,
    lower: &Row,
    neighbours: Int,
    column: Column,
    meter: &mut Meter,
) -> Result<Splinters, Cut>
    requires lower { IsLower meter.old column.columns column.at lower.now }
    ensures exact { IsDone meter.old meter.new
        (λ tail. (uppers : List Row) → AreSplintersOf meter.old column.at neighbours uppers lower.now tail) result }
    ensures no_overflow { meter.old.bits ≡ 127 → IsRowUpTo paired_magnitude lower.now → unsigned_abs neighbours ≤ 1 → IsNoOverflow result }
{
    let none = Int::ZERO.sub(Int::ONE, meter)?;
    let last = tail_value(none, lower.coefs.get(column.at), neighbours, meter)?;
    Ok(Splinters {
        lower: lower.copy(alloc)?,
        last,
    })
}

// The tails of lower bounds without splinters of their own.
fn least_tails(
    alloc: Global,
    lowers: &[Row],
    neighbours: Int,
    column: Column,
    meter: &mut Meter,
) -> Result<Vec<Splinters>, Cut>
    requires lowers { All (IsLower meter.old column.columns column.at) lowers.now }
    ensures exact { IsDone meter.old meter.new
        (λ tails. (uppers : List Row) → AllZip (AreSplintersOf meter.old column.at neighbours uppers) lowers.now tails.items) result }
    ensures no_overflow { meter.old.bits ≡ 127 → All (IsRowUpTo paired_magnitude) lowers.now → unsigned_abs neighbours ≤ 1 → IsNoOverflow result }
{
    let mut tails = Vec::with_capacity(alloc, lowers.len())?;
    for lower in lowers {
        tails.push(least_tail(alloc, lower, neighbours, column, meter)?)?;
    }
    Ok(tails)
}

// What all pairs leave: their dark rows, a tail for each lower bound, and whether no number meets all bounds anywhere.
#[derive(Drop)]
struct Pairs {
    rows: Rows,
    tails: Vec<Splinters>,
    never: bool,
}

fn either(a: bool, b: bool) -> bool
    ensures { IsTrue result → IsTrue a ⊎ IsTrue b }
{
    a || b
}

// What all pairs leave.
fn pairs_of(
    alloc: Global,
    lowers: &[Row],
    uppers: &Uppers<'_>,
    meter: &mut Meter,
) -> Result<Pairs, Cut>
    requires lowers { All (IsLower meter.old uppers.now.column.columns uppers.now.column.at) lowers.now }
    requires uppers { All (IsUpper meter.old uppers.now.column.columns uppers.now.column.at) uppers.now.rows.now }
    ensures exact { IsDoneFor (length lowers.now * length uppers.now.rows.now) meter.old meter.new
        (λ pairs. IsShadow meter.old uppers.now.column.columns uppers.now.column.at uppers.now.neighbours lowers.now
        uppers.now.rows.now pairs.rows pairs.tails.items
        × (IsTrue pairs.never → AreNeverMet uppers.now.column.columns uppers.now.column.at lowers.now uppers.now.rows.now)) result }
    ensures no_overflow { meter.old.bits ≡ 127 → All (IsRowUpTo paired_magnitude) lowers.now → All (IsRowUpTo paired_magnitude) uppers.now.rows.now
        → unsigned_abs uppers.now.neighbours ≤ 1 → IsNoOverflow result }
{
    let mut rows = Rows::new(alloc);
    let mut tails = Vec::with_capacity(alloc, lowers.len())?;
    let mut never = false;
    for lower in lowers {
        let (tail, none) = tail_of(alloc, lower, uppers, &mut rows, meter)?;
        tails.push(tail)?;
        never = either(never, none);
    }
    Ok(Pairs { rows, tails, never })
}

/// The dark rows of all pairs, and a tail for each lower bound. The tails go further by the bound's factor for each of the neighbours.
/// Where the real row of a pair is false, no tail goes further than that. Each pair costs a unit, and nothing else does. (Pugh, the
/// Omega test: dark shadow and splinters)
///
/// # Errors
///
/// `Overflow` where a number passes the limit of the meter, `Budget` where its units are used up, and `NoMemory`.
pub fn shadow(
    alloc: Global,
    lowers: &[Row],
    uppers: &Uppers<'_>,
    meter: &mut Meter,
) -> Result<(Rows, Vec<Splinters>), Cut>
    requires lowers { All (IsLower meter.old uppers.now.column.columns uppers.now.column.at) lowers.now }
    requires uppers { All (IsUpper meter.old uppers.now.column.columns uppers.now.column.at) uppers.now.rows.now }
    ensures exact { IsDoneFor (length lowers.now * length uppers.now.rows.now) meter.old meter.new
        (λ pair. IsShadow meter.old uppers.now.column.columns uppers.now.column.at uppers.now.neighbours lowers.now
        uppers.now.rows.now pair.0 pair.1.items) result }
    ensures no_overflow { meter.old.bits ≡ 127 → All (IsRowUpTo paired_magnitude) lowers.now → All (IsRowUpTo paired_magnitude) uppers.now.rows.now
        → unsigned_abs uppers.now.neighbours ≤ 1 → IsNoOverflow result }
{
    let Pairs { rows, tails, never } = pairs_of(alloc, lowers, uppers, meter)?;
    if never {
        let least = least_tails(alloc, lowers, uppers.neighbours, uppers.column, meter)?;
        return Ok((rows, least));
    }
    Ok((rows, tails))
}
