//! Columns, with their bounds, and the sums of these.

use crate::search::Search;
use isl_meter::Cut;

/// A column, with its bounds from below and from above.
#[derive(Drop)]
pub(crate) struct Ends {
    pub column: usize,
    pub low: Vec<usize>,
    pub high: Vec<usize>,
    /// Whether all pairs of bounds are all that is left.
    pub is_exact: bool,
}

impl Ends {
    /// How many rows more there are without the column; nothing where there is no bound on it.
    pub(crate) fn cost(&self) -> Option<i128> {
        let (low, high) = (self.low.len() as i128, self.high.len() as i128);
        if low == 0 && high == 0 {
            return None;
        }
        Some(
            low.saturating_mul(high)
                .saturating_sub(low)
                .saturating_sub(high),
        )
    }
}

impl Search {
    /// The bounds on the column.
    pub(crate) fn ends_at(&self, rows: &[usize], column: usize) -> Result<Ends, Cut> {
        let mut low = Vec::new(self.alloc);
        let mut high = Vec::new(self.alloc);
        let mut greatest = (0, 0);
        for row in rows {
            let number = self.coef(*row, column);
            if number > 0 {
                greatest.0 = number.max(greatest.0);
                low.push(*row)?;
            } else if number < 0 {
                greatest.1 = number.saturating_neg().max(greatest.1);
                high.push(*row)?;
            }
        }
        Ok(Ends {
            column,
            low,
            high,
            is_exact: greatest.0 <= 1 || greatest.1 <= 1,
        })
    }

    /// The column that is likely to cost least, of those that no incongruence has.
    pub(crate) fn best_column(
        &self,
        rows: &[usize],
        nots: &[usize],
        columns: usize,
    ) -> Result<Option<Ends>, Cut> {
        let mut best: Option<(Ends, i128)> = None;
        for column in 0..columns {
            if nots.iter().any(|row| self.coef(*row, column) != 0) {
                continue;
            }
            let ends = self.ends_at(rows, column)?;
            let Some(cost) = ends.cost() else {
                continue;
            };
            let is_better = match &best {
                None => true,
                Some(old) if old.0.is_exact != ends.is_exact => ends.is_exact,
                Some(old) => cost < old.1,
            };
            if is_better {
                best = Some((ends, cost));
            }
        }
        Ok(best.map(|found| found.0))
    }

    /// The rows without the column: the sums of all pairs of bounds.
    pub(crate) fn paired(&mut self, facts: &[usize], ends: &Ends) -> Result<Vec<usize>, Cut> {
        let mut left = Vec::with_capacity(self.alloc, facts.len())?;
        for fact in facts {
            if self.coef(*fact, ends.column) == 0 {
                left.push(*fact)?;
            }
        }
        for low in ends.low.iter() {
            for high in ends.high.iter() {
                left.push(self.pair(*low, *high, ends.column)?)?;
            }
        }
        Ok(left)
    }

    /// The sum of two opposite bounds in which the column goes.
    pub(crate) fn pair(&mut self, low: usize, high: usize, column: usize) -> Result<usize, Cut> {
        let a = self.coef(high, column).saturating_abs();
        let b = self.coef(low, column).saturating_abs();
        self.add(low, a, high, b)
    }
}
