//! The rows of a system by what they say of one column.

ghost use Rattle.std.specs.Prelude.{◌≡◌, All, IfOk, IfErr};
ghost use Rattle.isl_piece.specs.Row.{IsRowWithin, IsWellFormed};

use crate::column::Column;
use isl_meter::{Cut, Int, Meter};
use isl_piece::{Row, RowKind, Rows};
use std::alloc::{AllocError, Global};

/// What a row says of a column.
#[derive(Clone, Copy, PartialEq, Eq)]
pub enum Side {
    /// At least 0, with a coefficient above 0.
    Lower,
    /// At least 0, with a coefficient below 0.
    Upper,
    /// A congruence whose modulus does not divide the coefficient.
    Divides,
    /// The same of a modulus that must not divide.
    NotDivides,
    /// Nothing.
    Free,
}

/// Rows by what they say of a column.
#[derive(Drop)]
pub struct Sides {
    pub lowers: Rows,
    pub uppers: Rows,
    pub divides: Rows,
    pub not_divides: Rows,
    pub free: Rows,
}

impl Side {
    ghost use Rattle.std.specs.Prelude.{◌<ℤ◌, pos};
    ghost use Rattle.isl_math.specs.Divide.{floor_mod};
    ghost use Rattle.isl_meter.specs.Gauge.{IsWithin};
    ghost use Rattle.isl_omega.specs.Sides.{by_sign, unless_multiple, side_of};

    #[tactic(auto, using(std::proofs::lemmas::Grind::common_steps, crate::proofs::SideLemmas::sign_cases))]
    fn by_sign(coef: Int) -> Self
        ensures { result ≡ by_sign coef }
    {
        if coef.is_positive() {
            Side::Lower
        } else if coef.is_negative() {
            Side::Upper
        } else {
            Side::Free
        }
    }

    // The side, unless `k` divides the coefficient.
    #[tactic(auto, using(std::proofs::lemmas::Grind::common_steps, crate::proofs::SideLemmas::multiple_cases))]
    fn unless_multiple(self, coef: Int, k: Int, meter: &Meter) -> Self
        requires within { IsWithin meter.now k }
        requires modulus { pos 0 <ℤ k }
        ensures { result ≡ unless_multiple self (floor_mod coef k) }
    {
        if coef.modulo(k, meter).is_zero() {
            Side::Free
        } else {
            self
        }
    }

    /// What the row says of the column.
    pub fn of(row: &Row, column: Column, meter: &Meter) -> Self
        requires well_formed { IsWellFormed column.columns row.now }
        requires within { IsRowWithin meter.now row.now }
        ensures { result ≡ side_of column.at row.now }
    {
        let coef = row.coefs.get(column.at);
        match row.kind {
            RowKind::Zero => Side::Free,
            RowKind::AtLeast => Side::by_sign(coef),
            RowKind::Divides => Side::Divides.unless_multiple(coef, row.modulus(), meter),
            RowKind::NotDivides => Side::NotDivides.unless_multiple(coef, row.modulus(), meter),
        }
    }
}

impl Side {
    ghost use Rattle.isl_omega.specs.Sides.{on_side, side_of, is_same};

    /// Whether the row is on this side of the column.
    #[tactic(auto, using(std::proofs::lemmas::Grind::common_steps, crate::proofs::SideLemmas::same_true))]
    pub fn has(self, row: &Row, column: Column, meter: &Meter) -> bool
        requires well_formed { IsWellFormed column.columns row.now }
        requires within { IsRowWithin meter.now row.now }
        ensures { result ≡ is_same self (side_of column.at row.now) }
    {
        self == Side::of(row, column, meter)
    }

    /// Copies of the rows on this side of the column, in order.
    ///
    /// # Errors
    ///
    /// `NoMemory`.
    #[tactic(auto, using(std::proofs::lemmas::Grind::common_steps, std::proofs::lemmas::List::Elements::filter_more))]
    pub fn copied(
        self,
        alloc: Global,
        rows: &[Row],
        column: Column,
        meter: &Meter,
    ) -> Result<Rows, Cut>
        requires well_formed { All (IsWellFormed column.columns) rows.now }
        requires within { All (IsRowWithin meter.now) rows.now }
        ensures ok { IfOk result (λ picked. picked ≡ on_side self column.at rows.now) }
        ensures err { IfErr result (λ cut. cut ≡ Cut.NoMemory) }
    {
        let mut picked = Rows::new(alloc);
        for row in rows {
            if self.has(row, column, meter) {
                picked.push(row.copy(alloc)?)?;
            }
        }
        Ok(picked)
    }
}

impl Sides {
    ghost use Rattle.isl_omega.specs.Sides.{AreSidesOf};

    /// Copies of the rows, each on its side.
    ///
    /// # Errors
    ///
    /// `NoMemory`.
    pub fn of(alloc: Global, rows: &[Row], column: Column, meter: &Meter) -> Result<Self, Cut>
        requires well_formed { All (IsWellFormed column.columns) rows.now }
        requires within { All (IsRowWithin meter.now) rows.now }
        ensures ok { IfOk result (AreSidesOf rows.now column.at) }
        ensures err { IfErr result (λ cut. cut ≡ Cut.NoMemory) }
    {
        Ok(Sides {
            lowers: Side::Lower.copied(alloc, rows, column, meter)?,
            uppers: Side::Upper.copied(alloc, rows, column, meter)?,
            divides: Side::Divides.copied(alloc, rows, column, meter)?,
            not_divides: Side::NotDivides.copied(alloc, rows, column, meter)?,
            free: Side::Free.copied(alloc, rows, column, meter)?,
        })
    }
}
