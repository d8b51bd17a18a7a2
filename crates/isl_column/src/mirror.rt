//! The column negated, where its upper bounds ask for fewer splinters than the lower ones.

ghost use Rattle.std.specs.Prelude.{◌≡◌, ◌<ℤ◌, ◌≤ℤ◌, pos, ℤ, All, IfOk, IsTrue, MatchResult, map};
ghost use Rattle.isl_math.specs.Order.{abs_of};
ghost use Rattle.isl_meter.specs.Gauge.{IsWithin};
ghost use Rattle.isl_piece.specs.Row.{coef_at};
ghost use Rattle.isl_shadows.specs.Splinters.{splinter_total};
ghost use Rattle.isl_shadows.specs.Mirror.{AskForFewer, mirrored, mirrored_row};
ghost use Rattle.isl_omega.specs.Column.{IsProper};
ghost use Rattle.isl_omega.specs.Shadow.{splinters};
ghost use Rattle.isl_omega.specs.Sides.{IsLower, IsUpper, AreSided};

use isl_meter::{Int, Meter, Overflow};
use isl_omega::column::Column;
use isl_omega::sides::Sides;
use isl_piece::{Row, Rows};
use std::alloc::{AllocError, Global};

// The splinters of a bound with this factor, where `greatest` is the greatest factor of the other side.
fn splinters_of(factor: Int, greatest: Int, meter: &mut Meter) -> Result<Int, Overflow>
    requires within { IsWithin meter.old factor }
    requires positive { pos 0 <ℤ factor }
    requires greatest { pos 0 <ℤ greatest }
    ensures { MatchResult result
        (λ s. (s ≡ splinters factor greatest) × (pos 0 ≤ℤ s) × IsWithin meter.old s × (meter.new ≡ meter.old)) (λ _. ⊥) }
{
    let rest = factor.neg(meter).floor_div(greatest, meter);
    factor.add(rest, meter)
}

// The greatest factor of bounds, 0 where there is none.
fn greatest_factor(bounds: &[Row], column: Column, meter: &Meter) -> Int
    requires proper { All (IsProper meter.now column.columns) bounds.now }
    ensures not_negative { pos 0 ≤ℤ result }
    ensures greatest { All (λ r. abs_of (coef_at r column.at) ≤ℤ result) bounds.now }
    ensures least { (m : ℤ) → pos 0 ≤ℤ m → All (λ r. abs_of (coef_at r column.at) ≤ℤ m) bounds.now → result ≤ℤ m }
{
    let mut greatest = Int::ZERO;
    for bound in bounds {
        let factor = bound.coefs.get(column.at).abs(meter);
        if greatest < factor {
            greatest = factor;
        }
    }
    greatest
}

// The splinters of the lower bound that asks for most.
fn most_splinters(
    lowers: &[Row],
    greatest: Int,
    column: Column,
    meter: &mut Meter,
) -> Result<Int, Overflow>
    requires lowers { All (IsLower meter.old column.columns column.at) lowers.now }
    requires greatest { pos 0 <ℤ greatest }
    ensures { MatchResult result
        (λ most. (most ≤ℤ splinter_total (pos 0) greatest column.at lowers.now) × (pos 0 ≤ℤ most) × IsWithin meter.old most
        × (meter.new ≡ meter.old)) (λ _. ⊥) }
{
    let mut most = Int::ZERO;
    for lower in lowers {
        let own = splinters_of(lower.coefs.get(column.at), greatest, meter)?;
        if most < own {
            most = own;
        }
    }
    Ok(most)
}

// Whether the upper bounds, mirrored, ask for at most so many splinters in all.
fn ask_for_at_most(
    uppers: &[Row],
    greatest: Int,
    most: Int,
    column: Column,
    meter: &mut Meter,
) -> Result<bool, Overflow>
    requires uppers { All (IsUpper meter.old column.columns column.at) uppers.now }
    requires greatest { pos 0 <ℤ greatest }
    requires most { (pos 0 ≤ℤ most) × IsWithin meter.old most }
    ensures { MatchResult result
        (λ few. (IsTrue few → splinter_total (pos 0) greatest column.at (map (mirrored_row column.at) uppers.now) ≤ℤ most)
        × (meter.new ≡ meter.old)) (λ _. ⊥) }
{
    let mut left = most;
    for upper in uppers {
        let own = splinters_of(upper.coefs.get(column.at).neg(meter), greatest, meter)?;
        if left < own {
            return Ok(false);
        }
        left = left.sub(own, meter)?;
    }
    Ok(true)
}

/// Whether the upper bounds, as lower bounds of the column negated, surely ask for no more splinters than the lower bounds do.
pub(crate) fn ask_for_fewer(
    sides: &Sides,
    column: Column,
    meter: &mut Meter,
) -> Result<bool, Overflow>
    requires sided { AreSided meter.old column.columns column.at sides.now }
    ensures { MatchResult result
        (λ fewer. (IsTrue fewer → AskForFewer column.at sides.now.lowers sides.now.uppers) × (meter.new ≡ meter.old)) (λ _. ⊥) }
{
    let of_lowers = greatest_factor(sides.lowers.as_slice(), column, meter);
    let of_uppers = greatest_factor(sides.uppers.as_slice(), column, meter);
    if !of_lowers.is_positive() || !of_uppers.is_positive() {
        return Ok(false);
    }
    let most = most_splinters(sides.lowers.as_slice(), of_uppers, column, meter)?;
    ask_for_at_most(sides.uppers.as_slice(), of_lowers, most, column, meter)
}

// The rows with the coefficient at the column negated.
fn mirrored_rows(
    alloc: Global,
    rows: &Rows,
    column: Column,
    meter: &Meter,
) -> Result<Rows, AllocError>
    requires proper { All (IsProper meter.now column.columns) rows.now }
    ensures { IfOk result (λ new. new ≡ map (mirrored_row column.at) rows.now) }
{
    let mut new = Rows::with_capacity(alloc, rows.len())?;
    for row in rows.as_slice() {
        let mut coefs = row.coefs.copy(alloc)?;
        coefs.set(column.at, row.coefs.get(column.at).neg(meter));
        new.push(Row::new(row.kind, coefs, row.constant(), row.modulus()))?;
    }
    Ok(new)
}

/// The sides of the column negated.
pub(crate) fn mirrored_sides(
    alloc: Global,
    sides: &Sides,
    column: Column,
    meter: &Meter,
) -> Result<Sides, AllocError>
    requires sided { AreSided meter.now column.columns column.at sides.now }
    ensures { IfOk result (λ new. new ≡ mirrored column.at sides.now) }
{
    Ok(Sides {
        lowers: mirrored_rows(alloc, &sides.uppers, column, meter)?,
        uppers: mirrored_rows(alloc, &sides.lowers, column, meter)?,
        divides: sides.divides.copy(alloc)?,
        not_divides: sides.not_divides.copy(alloc)?,
        free: sides.free.copy(alloc)?,
    })
}
