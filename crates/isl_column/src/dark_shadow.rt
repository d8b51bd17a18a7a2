//! What elimination makes of the sides of a column.

ghost use Rattle.std.specs.Prelude.{◌≡◌, ◌≢◌, ◌⊎◌, ◌≤◌, ◌*◌, [], All, IfOk, length, map, unsigned_abs, ◌^◌};
ghost use Rattle.isl_piece.specs.Row.{IsRowWithin, IsRowUpTo};
ghost use Rattle.isl_meter.specs.Gauge.{IsDone};
ghost use Rattle.isl_omega.specs.Magnitude.{IsNoOverflow, IsNoOverflowWith, AreSidesUpTo, substituted_magnitude};
ghost use Rattle.isl_omega.specs.Units.{IsDoneFor};
ghost use Rattle.isl_column.specs.DarkShadow.{IsSmallDarkShadow};
ghost use Rattle.isl_shadows.specs.Neighbours.{IsMetWithin};

use crate::mirror::{ask_for_fewer, mirrored_sides};
use isl_meter::{Cut, Int, Meter};
use isl_omega::column::Column;
use isl_omega::pair::reduced_by;
use isl_omega::rows::settled;
use isl_omega::shadow::{Splinters, Uppers, shadow};
use isl_omega::sides::Sides;
use isl_piece::{Row, Rows};
use std::alloc::{AllocError, Global};

/// Rows, those of their dark shadow without the column, and splinters: some whole number at the column makes the rows hold
/// exactly where the dark shadow holds, or one does with the value of a bound from 0 to the last of its splinters.
#[derive(Drop)]
pub(crate) struct DarkShadow {
    pub rows: Rows,
    pub dark: Option<Rows>,
    pub tails: Vec<Splinters>,
}

impl DarkShadow {
    ghost use Rattle.isl_shadows.specs.Splinters.{rows_of, shifted_row, AreShadowsOf};
    ghost use Rattle.isl_column.specs.DarkShadow.{IsDarkShadowWithFewSplinters};
    ghost use Rattle.isl_omega.specs.Sides.{AreSided, IsUpper};

    // The rows of all sides but the congruences.
    fn all_rows(alloc: Global, sides: &Sides) -> Result<Rows, AllocError>
        ensures { IfOk result (λ rows. rows ≡ rows_of sides.now) }
    {
        let mut rows = sides.lowers.copy(alloc)?;
        rows.append(alloc, &sides.uppers)?;
        rows.append(alloc, &sides.not_divides)?;
        rows.append(alloc, &sides.free)?;
        Ok(rows)
    }

    // The upper bounds that hold with x where these hold with x and with so many whole numbers behind it.
    fn shifted(
        alloc: Global,
        uppers: &[Row],
        neighbours: Int,
        column: Column,
        meter: &mut Meter,
    ) -> Result<Rows, Cut>
        requires uppers { All (IsUpper meter.old column.columns column.at) uppers.now }
        ensures exact { IsDone meter.old meter.new
            (λ rows. (rows ≡ map (shifted_row neighbours column.at) uppers.now) × All (IsRowWithin meter.old) rows) result }
        ensures no_overflow { meter.old.bits ≡ 127 → All (IsRowUpTo substituted_magnitude) uppers.now → unsigned_abs neighbours ≤ 1
            → IsNoOverflow result }
    {
        let mut rows = Rows::new(alloc);
        for upper in uppers {
            let factor = upper.coefs.get(column.at).neg(meter);
            let by = neighbours.mul(factor, meter)?;
            rows.push(reduced_by(alloc, upper, by, meter)?)?;
        }
        Ok(rows)
    }

    // The dark rows and the tails: of the shifted upper bounds.
    fn shadows(
        alloc: Global,
        sides: &Sides,
        neighbours: Int,
        column: Column,
        meter: &mut Meter,
    ) -> Result<(Rows, Vec<Splinters>), Cut>
        requires sided { AreSided meter.old column.columns column.at sides.now }
        ensures exact { IsDoneFor (length sides.now.lowers * length sides.now.uppers) meter.old meter.new
            (λ pair. AreShadowsOf meter.old column.columns column.at neighbours sides.now pair.0 pair.1.items) result }
        ensures no_overflow { meter.old.bits ≡ 127 → AreSidesUpTo substituted_magnitude sides.now → unsigned_abs neighbours ≤ 1
            → IsNoOverflow result }
    {
        let lowers = sides.lowers.as_slice();
        if neighbours.is_zero() {
            let uppers = Uppers {
                rows: sides.uppers.as_slice(),
                column,
                neighbours,
            };
            let pair = shadow(alloc, lowers, &uppers, meter)?;
            return Ok(pair);
        }
        let shifted = DarkShadow::shifted(
            alloc,
            sides.uppers.as_slice(),
            neighbours,
            column,
            meter,
        )?;
        let uppers = Uppers {
            rows: shifted.as_slice(),
            column,
            neighbours,
        };
        let pair = shadow(alloc, lowers, &uppers, meter)?;
        Ok(pair)
    }

    // Where a side has no bound: the rows that do not depend on the column.
    fn open(
        alloc: Global,
        sides: &Sides,
        neighbours: Int,
        column: Column,
        meter: &mut Meter,
    ) -> Result<Self, Cut>
        requires sided { AreSided meter.old column.columns column.at sides.now }
        requires divides { sides.now.divides ≡ [] }
        requires not_divides { IsMetWithin column.columns column.at sides.now.not_divides neighbours }
        requires open { (sides.now.lowers ≡ []) ⊎ (sides.now.uppers ≡ []) }
        ensures exact { IsDone meter.old meter.new (IsDarkShadowWithFewSplinters meter.old column.columns column.at neighbours sides.now) result }
        ensures no_overflow { meter.old.bits ≡ 127 → AreSidesUpTo substituted_magnitude sides.now → unsigned_abs neighbours ≤ 1
            → IsNoOverflowWith IsSmallDarkShadow result }
    {
        let rows = DarkShadow::all_rows(alloc, sides)?;
        let dark = settled(alloc, &sides.free, column, meter)?;
        Ok(DarkShadow {
            rows,
            dark,
            tails: Vec::new(alloc),
        })
    }

    // Where both sides have bounds: the rows that do not depend on the column, and the dark rows.
    fn closed(
        alloc: Global,
        sides: &Sides,
        neighbours: Int,
        column: Column,
        meter: &mut Meter,
    ) -> Result<Self, Cut>
        requires sided { AreSided meter.old column.columns column.at sides.now }
        requires divides { sides.now.divides ≡ [] }
        requires not_divides { IsMetWithin column.columns column.at sides.now.not_divides neighbours }
        requires uppers { sides.now.uppers ≢ [] }
        ensures exact { IsDoneFor (length sides.now.lowers * length sides.now.uppers) meter.old meter.new
            (IsDarkShadowWithFewSplinters meter.old column.columns column.at neighbours sides.now) result }
        ensures no_overflow { meter.old.bits ≡ 127 → AreSidesUpTo substituted_magnitude sides.now → unsigned_abs neighbours ≤ 1
            → IsNoOverflowWith IsSmallDarkShadow result }
    {
        let rows = DarkShadow::all_rows(alloc, sides)?;
        let (pairs, tails) = DarkShadow::shadows(alloc, sides, neighbours, column, meter)?;
        let mut left = sides.free.copy(alloc)?;
        left.append(alloc, &pairs)?;
        let dark = settled(alloc, &left, column, meter)?;
        Ok(DarkShadow { rows, dark, tails })
    }

    // Where both sides have bounds, from the side that asks for fewer splinters: some whole number stands at the column exactly where
    // its opposite stands at the column negated.
    fn cheaper(
        alloc: Global,
        sides: &Sides,
        neighbours: Int,
        column: Column,
        meter: &mut Meter,
    ) -> Result<Self, Cut>
        requires sided { AreSided meter.old column.columns column.at sides.now }
        requires divides { sides.now.divides ≡ [] }
        requires not_divides { IsMetWithin column.columns column.at sides.now.not_divides neighbours }
        requires lowers { sides.now.lowers ≢ [] }
        requires uppers { sides.now.uppers ≢ [] }
        ensures exact { IsDoneFor (length sides.now.lowers * length sides.now.uppers) meter.old meter.new
            (IsDarkShadowWithFewSplinters meter.old column.columns column.at neighbours sides.now) result }
        ensures no_overflow { meter.old.bits ≡ 127 → AreSidesUpTo substituted_magnitude sides.now → unsigned_abs neighbours ≤ 1
            → IsNoOverflowWith IsSmallDarkShadow result }
    {
        if sides.not_divides.is_empty() && ask_for_fewer(sides, column, meter)? {
            let mirrored = mirrored_sides(alloc, sides, column, meter)?;
            return DarkShadow::closed(alloc, &mirrored, Int::ZERO, column, meter);
        }
        DarkShadow::closed(alloc, sides, neighbours, column, meter)
    }

    /// What the sides leave, where no congruence is among them: of a whole number and so many behind it one at least is met by the rows
    /// that moduli must not divide.
    pub fn of(
        alloc: Global,
        sides: &Sides,
        neighbours: Int,
        column: Column,
        meter: &mut Meter,
    ) -> Result<Self, Cut>
        requires sided { AreSided meter.old column.columns column.at sides.now }
        requires divides { sides.now.divides ≡ [] }
        requires not_divides { IsMetWithin column.columns column.at sides.now.not_divides neighbours }
        ensures exact { IsDoneFor (length sides.now.lowers * length sides.now.uppers) meter.old meter.new
            (IsDarkShadowWithFewSplinters meter.old column.columns column.at neighbours sides.now) result }
        ensures no_overflow { meter.old.bits ≡ 127 → AreSidesUpTo substituted_magnitude sides.now → unsigned_abs neighbours ≤ 1
            → IsNoOverflowWith IsSmallDarkShadow result }
    {
        if sides.lowers.is_empty() || sides.uppers.is_empty() {
            return DarkShadow::open(alloc, sides, neighbours, column, meter);
        }
        DarkShadow::cheaper(alloc, sides, neighbours, column, meter)
    }
}
