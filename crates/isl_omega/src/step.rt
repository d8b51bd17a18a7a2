//! The congruence step: the congruences on a column as a substitution for it.

ghost use Rattle.std.specs.Prelude.{◌≡◌, ◌<◌, ◌++◌, ◌∷◌, [], pos, ◌<ℤ◌, All, length, IfOk, IfErr, ◌^◌, ◌≤◌, unsigned_abs};
ghost use Rattle.isl_meter.specs.Gauge.{IsWithin, IsDone};
ghost use Rattle.isl_piece.specs.declared.row.Row.{Row};
ghost use Rattle.isl_piece.specs.Row.{IsWellFormed, IsRowWithin, IsRowUpTo};
ghost use Rattle.isl_omega.specs.Sides.{AreSided};
ghost use Rattle.isl_omega.specs.Step.{IsStepOf};
ghost use Rattle.isl_omega.specs.Magnitude.{IsNoOverflow, AreSidesUpTo, IsNoOverflowWith, given_magnitude, substituted_magnitude};

use crate::column::Column;
use crate::congruence::merged;
use crate::sides::{Side, Sides};
use crate::substitution::Substitution;
use isl_meter::{Cut, Int, Meter};
use isl_piece::{Coefs, Row, RowKind, Rows};
use std::alloc::{AllocError, Global};

/// The congruences on a column as one, what they say of the other columns, and the numbers that they allow.
#[derive(Drop)]
pub struct Progression {
    pub merged: Row,
    pub residual: Rows,
    pub substitution: Substitution,
}

impl Progression {
    ghost use Rattle.isl_omega.specs.Congruence.{AreMergedTo};
    ghost use Rattle.isl_omega.specs.Sides.{IsDivides, AreSided, on_side};
    ghost use Rattle.isl_omega.specs.Step.{residue_row};
    ghost use Rattle.isl_omega.specs.Step.{within_scale, IsSubstitutionOf};
    ghost use Rattle.isl_omega.specs.Substitution.{IsProgressionOf};

    fn of(alloc: Global, divides: &[Row], column: Column, meter: &mut Meter) -> Result<Self, Cut>
        requires some { 0 < length divides.now }
        requires divides { All (IsDivides meter.old column.columns) divides.now }
        ensures exact { IsDone meter.old meter.new
            (λ p. AreMergedTo meter.old column.columns column.at divides.now p.merged p.residual
            × IsProgressionOf column.columns column.at p.merged p.substitution.scale p.substitution.offsets
            × IsWithin meter.old p.substitution.scale × IsRowWithin meter.old p.substitution.offsets) result }
        ensures no_overflow { meter.old.bits ≡ 127 → All (IsRowUpTo given_magnitude) divides.now → length divides.now < 2 → IsNoOverflowWith
            (λ p. IsRowUpTo given_magnitude p.merged × (p.residual ≡ []) × (unsigned_abs p.substitution.scale ≤ given_magnitude)
            × IsRowUpTo given_magnitude p.substitution.offsets) result }
    {
        let (one, others) = merged(alloc, divides, column, meter)?;
        let substitution = Substitution::of(alloc, &one, column, meter)?;
        Ok(Progression {
            merged: one,
            residual: others,
            substitution,
        })
    }

    /// The numbers that leave `rest` when divided by `k`.
    ///
    /// # Errors
    ///
    /// `Overflow` where a number passes the limit of the meter, and `NoMemory`.
    pub fn of_residue(
        alloc: Global,
        k: Int,
        rest: Int,
        column: Column,
        meter: &mut Meter,
    ) -> Result<Self, Cut>
        requires positive { pos 0 <ℤ k }
        requires k_within { IsWithin meter.old k }
        requires rest_within { IsWithin meter.old rest }
        ensures { IsDone meter.old meter.new
            (λ p. (p.merged ≡ residue_row column.columns column.at k rest) × (p.residual ≡ []) × IsRowWithin meter.old p.merged
            × IsProgressionOf column.columns column.at p.merged p.substitution.scale p.substitution.offsets
            × IsWithin meter.old p.substitution.scale × IsRowWithin meter.old p.substitution.offsets) result }
    {
        let mut coefs = Coefs::zeros(alloc, column.columns)?;
        coefs.set(column.at, Int::ONE);
        let one = Row::new(RowKind::Divides, coefs, rest.neg(meter), k);
        let substitution = Substitution::of(alloc, &one, column, meter)?;
        Ok(Progression {
            merged: one,
            residual: Rows::new(alloc),
            substitution,
        })
    }

    // Where there are numbers: the congruence with the scale for its modulus.
    fn within_scale(&self, alloc: Global) -> Result<Row, AllocError>
        ensures { IfOk result (λ row. row ≡ within_scale self.now.merged self.now.substitution.scale) }
    {
        let one = &self.merged;
        Ok(Row::new(
            one.kind,
            one.coefs.copy(alloc)?,
            one.constant(),
            self.substitution.scale,
        ))
    }

    // The rows that are free of the column: those of the moved ones, what the congruences say, and those that were.
    fn free_rows(&self, alloc: Global, moved: Rows, free: &Rows) -> Result<Rows, Cut>
        ensures ok { IfOk result (λ rows. rows ≡ ((moved ++ self.now.residual) ++ free.now)
            ++ within_scale self.now.merged self.now.substitution.scale ∷ []) }
        ensures err { IfErr result (λ cut. cut ≡ Cut.NoMemory) }
    {
        let more = self
            .residual
            .len()
            .saturating_add(free.len())
            .saturating_add(1);
        let mut items = Vec::from(moved);
        items.reserve(more)?;
        let mut rows = Rows::from(items);
        rows.append(alloc, &self.residual)?;
        rows.append(alloc, free)?;
        rows.push(self.within_scale(alloc)?)?;
        Ok(rows)
    }

    /// The sides with the progression in the column's place.
    ///
    /// # Errors
    ///
    /// `Overflow` where a number passes the limit of the meter, and `NoMemory`.
    pub fn put(
        &self,
        alloc: Global,
        sides: &Sides,
        column: Column,
        meter: &mut Meter,
    ) -> Result<Sides, Cut>
        requires sided { AreSided meter.old column.columns column.at sides.now }
        requires progression { IsProgressionOf column.columns column.at self.now.merged self.now.substitution.scale self.now.substitution.offsets }
        requires scale_within { IsWithin meter.old self.now.substitution.scale }
        requires offsets_within { IsRowWithin meter.old self.now.substitution.offsets }
        ensures exact { IsDone meter.old meter.new
            (IsSubstitutionOf meter.old column.columns column.at self.now.merged self.now.residual
            self.now.substitution.scale self.now.substitution.offsets sides.now) result }
        ensures no_overflow { meter.old.bits ≡ 127 → unsigned_abs self.now.substitution.scale ≤ given_magnitude
            → IsRowUpTo given_magnitude self.now.substitution.offsets
            → AreSidesUpTo given_magnitude sides.now → IsNoOverflow result }
    {
        let s = &self.substitution;
        let lowers = s.bounds(alloc, sides.lowers.as_slice(), column, meter)?;
        let uppers = s.bounds(alloc, sides.uppers.as_slice(), column, meter)?;
        let moved = s.rows(alloc, sides.not_divides.as_slice(), column, meter)?;
        let not_divides = Side::NotDivides.copied(alloc, moved.as_slice(), column, meter)?;
        let of_moved = Side::Free.copied(alloc, moved.as_slice(), column, meter)?;
        let free = self.free_rows(alloc, of_moved, &sides.free)?;
        Ok(Sides {
            lowers,
            uppers,
            divides: Rows::new(alloc),
            not_divides,
            free,
        })
    }
}

/// The sides with the congruences on the column as a substitution for it, so that none is left. No unit is used.
///
/// # Errors
///
/// `Overflow` where a number passes the limit of the meter, and `NoMemory`.
pub fn congruence_step(
    alloc: Global,
    sides: &Sides,
    column: Column,
    meter: &mut Meter,
) -> Result<Sides, Cut>
    requires sided { AreSided meter.old column.columns column.at sides.now }
    requires some { 0 < length sides.now.divides }
    ensures exact { IsDone meter.old meter.new (IsStepOf meter.old column.columns column.at sides.now) result }
    ensures no_overflow { meter.old.bits ≡ 127 → AreSidesUpTo given_magnitude sides.now → length sides.now.divides < 2
        → IsNoOverflowWith (AreSidesUpTo substituted_magnitude) result }
{
    let progression = Progression::of(alloc, sides.divides.as_slice(), column, meter)?;
    let new = progression.put(alloc, sides, column, meter)?;
    Ok(new)
}
