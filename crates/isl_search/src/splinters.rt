//! Bounds whose pairs are not all that is left (Pugh): the values near the bounds of one side are told apart, and what lies behind
//! them is exact.

use crate::ends::Ends;
use crate::number::{quotient, sum_of};
use crate::refute::Reach;
use crate::search::{Branch, Part, Search};
use isl_meter::Cut;

// The values of one column that are told apart.
const VALUES: i128 = 4096;

// The bounds of the side whose values are told apart, those of the other side, and the greatest number of these.
#[derive(Drop)]
struct Plan {
    column: usize,
    side: Vec<usize>,
    others: Vec<usize>,
    greatest: i128,
}

impl Search {
    fn greatest(&self, rows: &[usize], column: usize) -> i128 {
        rows.iter().fold(0, |greatest, row| {
            self.coef(*row, column).saturating_abs().max(greatest)
        })
    }

    // The last value of the bound that is told apart; below 0 where none is.
    fn last_value(&self, bound: usize, column: usize, greatest: i128) -> Result<i128, Cut> {
        let own = self.coef(bound, column).saturating_abs();
        let room = sum_of(own, greatest, -1, own)?;
        quotient(sum_of(1, room, -1, greatest)?, greatest)
    }

    fn count(&self, side: &[usize], column: usize, greatest: i128) -> Result<i128, Cut> {
        let mut count: i128 = 0;
        for bound in side {
            let last = self.last_value(*bound, column, greatest)?;
            count = count.saturating_add(last.saturating_add(1).max(0));
        }
        Ok(count)
    }

    // The side with fewer values.
    fn plan(&self, ends: Ends) -> Result<Plan, Cut> {
        let column = ends.column;
        let low = self.greatest(ends.low.as_slice(), column);
        let high = self.greatest(ends.high.as_slice(), column);
        let below = self.count(ends.low.as_slice(), column, high)?;
        let above = self.count(ends.high.as_slice(), column, low)?;
        if below.min(above) > VALUES {
            return Err(Cut::NoMemory);
        }
        Ok(if above < below {
            Plan {
                column,
                side: ends.high,
                others: ends.low,
                greatest: low,
            }
        } else {
            Plan {
                column,
                side: ends.low,
                others: ends.high,
                greatest: high,
            }
        })
    }

    #[cycle(search)]
    pub(crate) fn splinters(
        &mut self,
        facts: &[usize],
        ends: Ends,
        reach: Reach,
    ) -> Result<Option<usize>, Cut> {
        let Some(less) = reach.deeper() else {
            return Err(Cut::NoMemory);
        };
        let plan = self.plan(ends)?;
        self.told_apart(&plan, 0, facts, &[], less)
    }

    // The values of the bounds from a place on; `behind` are the tightened ones so far.
    #[cycle(search)]
    fn told_apart(
        &mut self,
        plan: &Plan,
        at: usize,
        facts: &[usize],
        behind: &[usize],
        reach: Reach,
    ) -> Result<Option<usize>, Cut> {
        let Some(less) = reach.deeper() else {
            return Err(Cut::NoMemory);
        };
        let Some(bound) = plan.side.get(at).map(|bound| *bound) else {
            let left = self.dark(plan, facts, behind)?;
            return self.refute(left.as_slice(), less);
        };
        let last = self.last_value(bound, plan.column, plan.greatest)?;
        if last < 0 {
            let more = self.with(behind, &[bound])?;
            return self.told_apart(plan, at.saturating_add(1), facts, more.as_slice(), less);
        }
        self.from_value(plan, at, 0, facts, behind, less)
    }

    // The values of a bound from one on; the last of the facts says that it has no lower one.
    #[cycle(search)]
    fn from_value(
        &mut self,
        plan: &Plan,
        at: usize,
        value: i128,
        facts: &[usize],
        behind: &[usize],
        reach: Reach,
    ) -> Result<Option<usize>, Cut> {
        let (Some(less), Some(bound)) = (reach.deeper(), plan.side.get(at).map(|bound| *bound))
        else {
            return Err(Cut::NoMemory);
        };
        let last = self.last_value(bound, plan.column, plan.greatest)?;
        let next = value.saturating_add(1);
        let form = self.bound_of(bound, 1, next.saturating_neg())?;
        let up = self.bring_bound(bound, 1, next.saturating_neg())?;
        let down = self.bring_bound(bound, -1, value)?;
        let with_up = self.with(facts, &[up])?;
        let first = if value >= last {
            let more = self.with(behind, &[up])?;
            let place = at.saturating_add(1);
            self.told_apart(plan, place, with_up.as_slice(), more.as_slice(), less)?
        } else {
            self.from_value(plan, at, next, with_up.as_slice(), behind, less)?
        };
        let Some(first) = first else {
            return Ok(None);
        };
        let with_down = self.with(facts, &[down])?;
        let Some(second) = self.refute(with_down.as_slice(), less)? else {
            return Ok(None);
        };
        let ups = Part {
            brought: up,
            branch: first,
        };
        let downs = Part {
            brought: down,
            branch: second,
        };
        Ok(Some(self.push_branch(Branch::Split(form, ups, downs))?))
    }

    // Behind all values the pairs of tightened bounds are all that is left.
    fn dark(&mut self, plan: &Plan, facts: &[usize], behind: &[usize]) -> Result<Vec<usize>, Cut> {
        let mut left = Vec::with_capacity(self.alloc, facts.len())?;
        for fact in facts {
            if self.coef(*fact, plan.column) == 0 {
                left.push(*fact)?;
            }
        }
        for bound in behind {
            for other in plan.others.iter() {
                left.push(self.pair(*bound, *other, plan.column)?)?;
            }
        }
        Ok(left)
    }
}
