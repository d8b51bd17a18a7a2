//! A congruence as a substitution for its column.

ghost use Rattle.std.specs.Prelude.{◌≡◌, ◌<ℤ◌, pos, All, length, ◌^◌, ◌≤◌, unsigned_abs};
ghost use Rattle.isl_meter.specs.Gauge.{IsWithin, IsDone};
ghost use Rattle.isl_piece.specs.Row.{IsRowWithin, IsWellFormed, IsRowUpTo};
ghost use Rattle.isl_piece.specs.declared.row.RowKind.TheVariants.{Divides};
ghost use Rattle.isl_omega.specs.Substitution.{AreProgressionParts, offsets_of, IsProgressionOf, substituted};
ghost use Rattle.isl_omega.specs.Magnitude.{IsNoOverflow, IsNoOverflowWith, given_magnitude};

use crate::column::Column;
use crate::congruence::remainders;
use crate::tighten::tightened;
use isl_meter::{Cut, Int, Meter};
use isl_piece::{Row, RowKind, Rows, combination, weighted_sum};
use std::alloc::Global;

/// The numbers that a congruence allows at a column: `scale` times each of them is the congruence's
/// modulus times any whole number, and what `offsets` has beside the column.
#[derive(Drop)]
pub struct Substitution {
    pub scale: Int,
    pub offsets: Row,
}

// The scale of the progression of a coefficient and a modulus, and what to multiply offsets by.
fn parts(coef: Int, k: Int, meter: &Meter) -> (Int, Int)
    requires coef_within { IsWithin meter.now coef }
    requires within { IsWithin meter.now k }
    requires modulus { pos 0 <ℤ k }
    ensures are { AreProgressionParts coef k result.0 result.1 }
    ensures scale_within { IsWithin meter.now result.0 }
    ensures factor_within { IsWithin meter.now result.1 }
{
    let scale = coef.gcd(k, meter);
    let m = k.floor_div(scale, meter);
    let n = coef.floor_div(scale, meter);
    let factor = n.inverse(m, meter);
    (scale, factor.neg(meter))
}

// `factor` times a congruence's numbers, each reduced by its modulus.
fn offsets(alloc: Global, factor: Int, one: &Row, meter: &mut Meter) -> Result<Row, Cut>
    requires factor_within { IsWithin meter.old factor }
    requires within { IsRowWithin meter.old one.now }
    requires modulus { pos 0 <ℤ one.now.k }
    ensures exact { IsDone meter.old meter.new (λ row. (row ≡ offsets_of factor one.now) × IsRowWithin meter.old row) result }
    ensures no_overflow { meter.old.bits ≡ 127 → unsigned_abs factor ≤ given_magnitude → IsRowUpTo given_magnitude one.now → IsNoOverflow result }
{
    let k = one.modulus();
    let numbers = one.coefs.as_slice();
    let coefs = weighted_sum(alloc, factor, numbers, Int::ZERO, numbers, meter)?;
    let small = remainders(alloc, coefs.as_slice(), k, meter)?;
    let constant = factor.mul(one.constant(), meter)?.modulo(k, meter);
    Ok(Row::new(RowKind::Zero, small, constant, Int::ONE))
}

impl Substitution {
    /// The numbers that the congruence allows.
    pub(crate) fn of(
        alloc: Global,
        one: &Row,
        column: Column,
        meter: &mut Meter,
    ) -> Result<Self, Cut>
        requires kind { one.now.kind ≡ Divides }
        requires well_formed { IsWellFormed column.columns one.now }
        requires within { IsRowWithin meter.old one.now }
        ensures exact { IsDone meter.old meter.new
            (λ s. IsProgressionOf column.columns column.at one.now s.scale s.offsets × IsWithin meter.old s.scale
            × IsRowWithin meter.old s.offsets) result }
        ensures no_overflow { meter.old.bits ≡ 127 → IsRowUpTo given_magnitude one.now → IsNoOverflowWith
            (λ s. (unsigned_abs s.scale ≤ given_magnitude) × IsRowUpTo given_magnitude s.offsets) result }
    {
        let k = one.modulus();
        let (scale, factor) = parts(one.coefs.get(column.at), k, meter);
        let mut row = offsets(alloc, factor, one, meter)?;
        row.coefs.set(column.at, k.sub(scale, meter)?);
        Ok(Substitution {
            scale,
            offsets: row,
        })
    }
}

impl Substitution {
    ghost use Rattle.std.specs.Prelude.{ℤ, map};
    ghost use Rattle.std.specs.List.{AllZip};
    ghost use Rattle.isl_piece.specs.declared.row.RowKind.TheVariants.{AtLeast};
    ghost use Rattle.isl_omega.specs.Column.{IsProper};
    ghost use Rattle.isl_omega.specs.Substitution.{IsMovedBound};

    // The row with the progression in the column's place.
    fn put(&self, alloc: Global, row: &Row, column: Column, meter: &mut Meter) -> Result<Row, Cut>
        requires scale_within { IsWithin meter.old self.now.scale }
        requires offsets_within { IsRowWithin meter.old self.now.offsets }
        requires within { IsRowWithin meter.old row.now }
        requires row_width { length row.now.coefs ≡ column.columns }
        requires offsets_width { length self.now.offsets.coefs ≡ column.columns }
        ensures exact { IsDone meter.old meter.new
            (λ moved. (moved ≡ substituted self.now.scale self.now.offsets column.at row.now) × IsRowWithin meter.old moved) result }
        ensures no_overflow { meter.old.bits ≡ 127 → unsigned_abs self.now.scale ≤ given_magnitude → IsRowUpTo given_magnitude self.now.offsets
            → IsRowUpTo given_magnitude row.now → IsNoOverflow result }
    {
        combination(
            alloc,
            self.scale,
            row,
            row.coefs.get(column.at),
            &self.offsets,
            meter,
        )
    }

    // The bound with the progression in the column's place, divided as far as it goes.
    fn bound(&self, alloc: Global, row: &Row, column: Column, meter: &mut Meter) -> Result<Row, Cut>
        requires scale { pos 0 <ℤ self.now.scale }
        requires scale_within { IsWithin meter.old self.now.scale }
        requires offsets_within { IsRowWithin meter.old self.now.offsets }
        requires offsets_width { length self.now.offsets.coefs ≡ column.columns }
        requires lower { IsProper meter.old column.columns row.now }
        requires kind { row.now.kind ≡ AtLeast }
        ensures exact { IsDone meter.old meter.new
            (λ moved. IsMovedBound column.columns column.at self.now.scale self.now.offsets row.now moved
            × IsRowWithin meter.old moved) result }
        ensures no_overflow { meter.old.bits ≡ 127 → unsigned_abs self.now.scale ≤ given_magnitude → IsRowUpTo given_magnitude self.now.offsets
            → IsRowUpTo given_magnitude row.now → IsNoOverflow result }
    {
        let moved = self.put(alloc, row, column, meter)?;
        Ok(tightened(alloc, moved, column.columns, meter)?)
    }

    /// The bounds with the progression in the column's place, divided as far as they go.
    pub(crate) fn bounds(
        &self,
        alloc: Global,
        rows: &[Row],
        column: Column,
        meter: &mut Meter,
    ) -> Result<Rows, Cut>
        requires scale { pos 0 <ℤ self.now.scale }
        requires scale_within { IsWithin meter.old self.now.scale }
        requires offsets_within { IsRowWithin meter.old self.now.offsets }
        requires offsets_width { length self.now.offsets.coefs ≡ column.columns }
        requires proper { All (IsProper meter.old column.columns) rows.now }
        requires kinds { All (λ r. r.kind ≡ AtLeast) rows.now }
        ensures exact { IsDone meter.old meter.new
            (λ moved. AllZip (IsMovedBound column.columns column.at self.now.scale self.now.offsets) rows.now moved
            × All (IsRowWithin meter.old) moved) result }
        ensures no_overflow { meter.old.bits ≡ 127 → unsigned_abs self.now.scale ≤ given_magnitude → IsRowUpTo given_magnitude self.now.offsets
            → All (IsRowUpTo given_magnitude) rows.now → IsNoOverflow result }
    {
        let mut moved = Rows::with_capacity(alloc, rows.len())?;
        for row in rows {
            moved.push(self.bound(alloc, row, column, meter)?)?;
        }
        Ok(moved)
    }

    /// The rows with the progression in the column's place.
    pub(crate) fn rows(
        &self,
        alloc: Global,
        rows: &[Row],
        column: Column,
        meter: &mut Meter,
    ) -> Result<Rows, Cut>
        requires scale_within { IsWithin meter.old self.now.scale }
        requires offsets_within { IsRowWithin meter.old self.now.offsets }
        requires offsets_width { length self.now.offsets.coefs ≡ column.columns }
        requires proper { All (IsProper meter.old column.columns) rows.now }
        ensures exact { IsDone meter.old meter.new
            (λ moved. (moved ≡ map (substituted self.now.scale self.now.offsets column.at) rows.now)
            × All (IsRowWithin meter.old) moved) result }
        ensures no_overflow { meter.old.bits ≡ 127 → unsigned_abs self.now.scale ≤ given_magnitude → IsRowUpTo given_magnitude self.now.offsets
            → All (IsRowUpTo given_magnitude) rows.now → IsNoOverflow result }
    {
        let mut moved = Rows::with_capacity(alloc, rows.len())?;
        for row in rows {
            moved.push(self.put(alloc, row, column, meter)?)?;
        }
        Ok(moved)
    }
}
