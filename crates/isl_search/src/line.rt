//! Rows of the search. What they prove is looked at before it is told.

use crate::number::{common_divisor, negative, quotient, remainder, sum_of};
use isl_meter::Cut;
use isl_piece::{Row, RowKind};
use std::alloc::{AllocError, Global};

/// A row: a coefficient for each of the first columns, and 0 for those behind.
#[derive(Drop)]
pub(crate) struct Line {
    pub kind: RowKind,
    pub coefs: Vec<i128>,
    pub constant: i128,
    pub k: i128,
}

impl Line {
    pub(crate) fn of_row(alloc: Global, row: &Row) -> Result<Line, AllocError> {
        let mut coefs = Vec::with_capacity(alloc, row.coefs.len())?;
        for coef in row.coefs.as_slice() {
            coefs.push(coef.get())?;
        }
        Ok(Line {
            kind: row.kind,
            coefs,
            constant: row.constant,
            k: row.k,
        })
    }

    /// The coefficient at a column.
    pub(crate) fn coef(&self, column: usize) -> i128 {
        self.coefs.get(column).map_or(0, |number| *number)
    }

    /// The form times 1 or -1, and another number added to its constant, as a bound.
    pub(crate) fn bound(&self, alloc: Global, sign: i128, more: i128) -> Result<Line, Cut> {
        let mut coefs = Vec::with_capacity(alloc, self.coefs.len())?;
        for coef in self.coefs.iter() {
            coefs.push(sum_of(sign, *coef, 0, 0)?)?;
        }
        Ok(Line {
            kind: RowKind::AtLeast,
            coefs,
            constant: sum_of(sign, self.constant, 1, more)?,
            k: 1,
        })
    }

    /// The form with a number added to its constant, as a congruence of this kind.
    pub(crate) fn congruence(
        &self,
        alloc: Global,
        kind: RowKind,
        more: i128,
        k: i128,
    ) -> Result<Line, Cut> {
        Ok(Line {
            kind,
            coefs: Vec::from_slice(alloc, self.coefs.as_slice())?,
            constant: sum_of(1, self.constant, 1, more)?,
            k,
        })
    }

    /// The form less `k` times a new column behind so many, as an equality.
    pub(crate) fn with_column(&self, alloc: Global, columns: usize) -> Result<Line, Cut> {
        let mut coefs = Vec::with_capacity(alloc, columns.saturating_add(1))?;
        for column in 0..columns {
            coefs.push(self.coef(column))?;
        }
        coefs.push(negative(self.k)?)?;
        Ok(Line {
            kind: RowKind::Zero,
            coefs,
            constant: self.constant,
            k: 1,
        })
    }

    /// Rows of which one holds exactly where this one does not.
    pub(crate) fn negations(&self, alloc: Global) -> Result<Vec<Line>, Cut> {
        let mut lines = Vec::new(alloc);
        match self.kind {
            RowKind::Zero => {
                lines.push(self.bound(alloc, 1, -1)?)?;
                lines.push(self.bound(alloc, -1, -1)?)?;
            }
            RowKind::AtLeast => lines.push(self.bound(alloc, -1, -1)?)?,
            RowKind::Divides => {
                lines.push(self.congruence(alloc, RowKind::NotDivides, 0, self.k)?)?;
            }
            RowKind::NotDivides => {
                lines.push(self.congruence(alloc, RowKind::Divides, 0, self.k)?)?;
            }
        }
        Ok(lines)
    }

    /// Whether the row always holds, or never; nothing where it names a column.
    pub(crate) fn truth(&self) -> Option<bool> {
        if self.coefs.iter().any(|coef| *coef != 0) {
            return None;
        }
        let leaves = self.constant.checked_rem_euclid(self.k);
        Some(match self.kind {
            RowKind::Zero => self.constant == 0,
            RowKind::AtLeast => self.constant >= 0,
            RowKind::Divides => leaves == Some(0),
            RowKind::NotDivides => leaves != Some(0),
        })
    }

    /// Whether the forms have the same coefficients, those of the other times 1 or -1.
    pub(crate) fn is_along(&self, other: &Line, sign: i128) -> bool {
        let columns = self.coefs.len().max(other.coefs.len());
        (0..columns).all(|x| self.coef(x) == other.coef(x).saturating_mul(sign))
    }

    /// Whether the rows have the same numbers.
    pub(crate) fn is_same(&self, other: &Line) -> bool {
        self.is_along(other, 1) && self.constant == other.constant && self.k == other.k
    }

    /// Makes the row normal; it stands even where it is constant.
    pub(crate) fn settle(&mut self) -> Result<(), Cut> {
        match self.kind {
            RowKind::Zero => self.settle_zero(),
            RowKind::AtLeast => self.settle_bound(),
            RowKind::Divides | RowKind::NotDivides => self.settle_congruence(),
        }
    }

    // The greatest common divisor of a number and the coefficients.
    fn content(&self, number: i128) -> Result<i128, Cut> {
        let mut common = number;
        for coef in self.coefs.iter() {
            common = common_divisor(common, *coef)?;
        }
        Ok(common)
    }

    // The constant row of such numbers.
    fn set_constant(&mut self, constant: i128, k: i128) {
        for coef in self.coefs.iter_mut() {
            *coef = 0;
        }
        self.constant = constant;
        self.k = k;
    }

    // The numbers divided; the constant is rounded down.
    fn divide(&mut self, common: i128) -> Result<(), Cut> {
        for coef in self.coefs.iter_mut() {
            *coef = quotient(*coef, common)?;
        }
        self.constant = quotient(self.constant, common)?;
        Ok(())
    }

    fn settle_zero(&mut self) -> Result<(), Cut> {
        let common = self.content(0)?;
        if common == 0 {
            let constant = if self.constant == 0 { 0 } else { 1 };
            self.set_constant(constant, 1);
            return Ok(());
        }
        if remainder(self.constant, common)? != 0 {
            self.set_constant(1, 1);
            return Ok(());
        }
        self.divide(common)?;
        let lead = self.coefs.iter().find(|coef| **coef != 0);
        if lead.map_or(0, |coef| *coef) < 0 {
            for coef in self.coefs.iter_mut() {
                *coef = negative(*coef)?;
            }
            self.constant = negative(self.constant)?;
        }
        Ok(())
    }

    fn settle_bound(&mut self) -> Result<(), Cut> {
        let common = self.content(0)?;
        if common == 0 {
            return Ok(());
        }
        self.divide(common)
    }

    fn settle_congruence(&mut self) -> Result<(), Cut> {
        for coef in self.coefs.iter_mut() {
            *coef = remainder(*coef, self.k)?;
        }
        self.constant = remainder(self.constant, self.k)?;
        let common = self.content(self.k)?;
        if remainder(self.constant, common)? != 0 {
            self.set_constant(1, 2);
            return Ok(());
        }
        self.divide(common)?;
        self.k = quotient(self.k, common)?;
        if self.k == 1 {
            self.set_constant(0, 1);
            return Ok(());
        }
        self.take_lesser()
    }

    // Of a congruence and its opposite the one with the lesser list of numbers.
    fn take_lesser(&mut self) -> Result<(), Cut> {
        if !self.is_opposite_less()? {
            return Ok(());
        }
        for coef in self.coefs.iter_mut() {
            *coef = remainder(negative(*coef)?, self.k)?;
        }
        self.constant = remainder(negative(self.constant)?, self.k)?;
        Ok(())
    }

    fn is_opposite_less(&self) -> Result<bool, Cut> {
        for coef in self.coefs.iter() {
            let opposite = remainder(negative(*coef)?, self.k)?;
            if opposite != *coef {
                return Ok(opposite < *coef);
            }
        }
        Ok(remainder(negative(self.constant)?, self.k)? < self.constant)
    }
}
