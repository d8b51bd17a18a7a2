//! Lines of a tableau. What they say is looked at before anything is done by it.

use crate::ratio::{Ratio, common_divisor, product};
use isl_piece::{Row, RowKind};
use std::alloc::{AllocError, Global};

/// What a tableau speaks of: a column, or the form of a row, by its place.
#[derive(Clone, Copy, PartialEq, Eq)]
pub(crate) enum Variable {
    Column,
    Equation(usize),
    Bound(usize),
}

impl Variable {
    /// The variable once a row was taken out.
    pub(crate) fn without(self, row: usize) -> Variable {
        match self {
            Variable::Bound(i) if i > row => Variable::Bound(i - 1),
            Variable::Equation(i) if i > row => Variable::Equation(i - 1),
            same => same,
        }
    }
}

/// A variable inside, times `divisor`, as a form of those outside: a number for each of them, and last the constant.
#[derive(Drop)]
pub(crate) struct Line {
    pub of: Variable,
    pub divisor: i128,
    pub numbers: Vec<i128>,
}

impl Line {
    /// The line of a row; none of a congruence.
    pub(crate) fn of_row(alloc: Global, row: &Row, at: usize) -> Result<Option<Line>, AllocError> {
        let of = match row.kind {
            RowKind::Zero => Variable::Equation(at),
            RowKind::AtLeast => Variable::Bound(at),
            RowKind::Divides | RowKind::NotDivides => return Ok(None),
        };
        let mut numbers = Vec::with_capacity(alloc, row.coefs.len().saturating_add(1))?;
        for coef in row.coefs.as_slice() {
            numbers.push(coef.get())?;
        }
        numbers.push(row.constant)?;
        Ok(Some(Line {
            of,
            divisor: 1,
            numbers,
        }))
    }

    /// The number at a place outside.
    pub(crate) fn number(&self, place: usize) -> i128 {
        self.numbers.get(place).map_or(0, |n| *n)
    }

    /// The constant.
    pub(crate) fn constant(&self) -> i128 {
        self.numbers.last().map_or(0, |n| *n)
    }

    /// How far the variable at the place may rise before this one falls below 0, which is not below it now.
    pub(crate) fn room(&self, place: usize) -> Option<Ratio> {
        let number = self.number(place);
        if number >= 0 || self.constant() < 0 {
            return None;
        }
        Some(Ratio {
            number: self.constant(),
            divisor: number.saturating_neg(),
        })
    }

    /// The variable at the place, as a form of this line's and the others.
    pub(crate) fn solved(
        &self,
        alloc: Global,
        place: usize,
        of: Variable,
    ) -> Result<Line, AllocError> {
        let number = self.number(place);
        let sign = number.signum().saturating_neg();
        let mut numbers = Vec::with_capacity(alloc, self.numbers.len())?;
        for (i, own) in self.numbers.iter().enumerate() {
            let own = if i == place {
                self.divisor.saturating_neg()
            } else {
                *own
            };
            numbers.push(own.saturating_mul(sign))?;
        }
        Ok(Line {
            of,
            divisor: number.saturating_abs(),
            numbers,
        })
    }

    /// Puts the form of the variable at the place in; none where a number is too large.
    pub(crate) fn substitute(&mut self, solved: &Line, place: usize) -> Option<()> {
        let number = self.number(place);
        if number == 0 {
            return Some(());
        }
        let common = common_divisor(number.unsigned_abs(), solved.divisor.unsigned_abs());
        let common = i128::try_from(common).ok()?;
        let number = number.checked_div(common)?;
        let times = solved.divisor.checked_div(common)?;
        if let Some(own) = self.numbers.get_mut(place) {
            *own = 0;
        }
        for (own, other) in self.numbers.iter_mut().zip(solved.numbers.iter()) {
            *own = product(*own, times)?.checked_add(product(number, *other)?)?;
        }
        self.divisor = product(self.divisor, times)?;
        self.shorten()
    }

    // Divides all numbers by their greatest common divisor.
    fn shorten(&mut self) -> Option<()> {
        let mut common = self.divisor.unsigned_abs();
        for number in self.numbers.iter() {
            if common == 1 {
                return Some(());
            }
            common = common_divisor(common, number.unsigned_abs());
        }
        let common = i128::try_from(common).ok()?;
        for number in self.numbers.iter_mut() {
            *number = number.checked_div(common)?;
        }
        self.divisor = self.divisor.checked_div(common)?;
        Some(())
    }
}
