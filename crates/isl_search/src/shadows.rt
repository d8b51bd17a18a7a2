//! Bounds alone, by sums that round (Kohler's rule leaves out sums that others imply).

use crate::ends::Ends;
use crate::number::{common_divisor, quotient};
use crate::search::Search;
use crate::tidy::Tidy;
use isl_meter::Cut;

// How many sums are formed.
const SUMS: usize = 600;

// The rows, and of each from which of the first ones it is a sum.
#[derive(Drop)]
struct Sums {
    rows: Vec<usize>,
    from: Vec<(usize, u128)>,
    formed: usize,
}

impl Sums {
    fn from_rows(search: &Search, rows: &[usize]) -> Result<Sums, Cut> {
        let mut from = Vec::with_capacity(search.alloc, rows.len())?;
        let mut bit: u128 = 1;
        for row in rows {
            from.push((*row, bit))?;
            bit = bit.wrapping_mul(2);
        }
        Ok(Sums {
            rows: Vec::from_slice(search.alloc, rows)?,
            from,
            formed: 0,
        })
    }

    // Which of the first rows this one is a sum of; of more than 128 the last ones are not told apart.
    fn origin(&self, row: usize) -> u128 {
        let found = self.from.iter().rev().find(|own| own.0 == row);
        found.map_or(0, |own| own.1)
    }
}

impl Search {
    /// A proof that the bounds hold nowhere, if their sums show it soon.
    pub(crate) fn shadows(&mut self, rows: &[usize], columns: usize) -> Result<Option<usize>, Cut> {
        let mut sums = Sums::from_rows(self, rows)?;
        for done in 1..columns.saturating_add(1) {
            sums.rows = match self.tightest(sums.rows.as_slice())? {
                Tidy::Never(fact) => return Ok(Some(self.leaf(fact)?)),
                Tidy::Rows(rows) => rows,
            };
            let Some(ends) = self.cheapest(sums.rows.as_slice(), columns)? else {
                return Ok(None);
            };
            if let Some(never) = self.add_sums(&mut sums, &ends, done)? {
                return Ok(Some(self.leaf(never)?));
            }
            if sums.formed > SUMS {
                return Ok(None);
            }
        }
        match self.tightest(sums.rows.as_slice())? {
            Tidy::Never(fact) => Ok(Some(self.leaf(fact)?)),
            Tidy::Rows(_) => Ok(None),
        }
    }

    fn cheapest(&self, rows: &[usize], columns: usize) -> Result<Option<Ends>, Cut> {
        let mut best: Option<(Ends, i128)> = None;
        for column in 0..columns {
            let ends = self.ends_at(rows, column)?;
            if let Some(cost) = ends.cost() {
                let is_less = match &best {
                    None => true,
                    Some(old) => cost < old.1,
                };
                if is_less {
                    best = Some((ends, cost));
                }
            }
        }
        Ok(best.map(|found| found.0))
    }

    // The rows without the column; a sum that never holds, where there is one.
    fn add_sums(
        &mut self,
        sums: &mut Sums,
        ends: &Ends,
        done: usize,
    ) -> Result<Option<usize>, Cut> {
        let mut left = Vec::with_capacity(self.alloc, sums.rows.len())?;
        for row in sums.rows.iter() {
            if self.coef(*row, ends.column) == 0 {
                left.push(*row)?;
            }
        }
        let most = u32::try_from(done).unwrap_or(0).saturating_add(1);
        for low in ends.low.iter() {
            for high in ends.high.iter() {
                let origin = sums.origin(*low) | sums.origin(*high);
                if origin.count_ones() > most {
                    continue;
                }
                let sum = self.least_pair(*low, *high, ends.column)?;
                sums.formed = sums.formed.saturating_add(1);
                match self.truth(sum) {
                    Some(false) => return Ok(Some(sum)),
                    Some(true) => {}
                    None => {
                        left.push(sum)?;
                        sums.from.push((sum, origin))?;
                    }
                }
            }
            if sums.formed > SUMS {
                return Ok(None);
            }
        }
        sums.rows = left;
        Ok(None)
    }

    // The sum of two opposite bounds, by the least factors, in which the column goes.
    fn least_pair(&mut self, low: usize, high: usize, column: usize) -> Result<usize, Cut> {
        let a = self.coef(high, column).saturating_abs();
        let b = self.coef(low, column).saturating_abs();
        let common = common_divisor(a, b)?;
        self.add(low, quotient(a, common)?, high, quotient(b, common)?)
    }
}
