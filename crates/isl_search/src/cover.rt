//! Rows that hold nowhere outside some systems.

use crate::line::Line;
use crate::refute::Reach;
use crate::search::{Branch, Part, Search};
use isl_meter::Cut;
use isl_piece::{RowKind, System};

// A row of an out that is not implied: where it holds, and where it does not.
#[derive(Drop)]
struct Side {
    holds: usize,
    fails: usize,
    form: Line,
}

// What was found of the rows of an out.
#[derive(Drop)]
struct Found {
    parts: Vec<Part>,
    sides: Vec<Side>,
    // The facts, with each side on which the rows so far hold.
    inside: Vec<usize>,
}

impl Search {
    /// A proof that the rows hold at no whole point outside these of the outs; none where some point is not ruled out.
    #[cycle(cover)]
    pub(crate) fn cover(
        &mut self,
        facts: &[usize],
        outs: &[System],
        left: &[usize],
        reach: Reach,
    ) -> Result<Option<usize>, Cut> {
        let Some(less) = reach.deeper() else {
            return Err(Cut::NoMemory);
        };
        if let Some(found) = self.refute(facts, less)? {
            return Ok(Some(found));
        }
        for place in left {
            let Some(out) = outs.get(*place) else {
                continue;
            };
            if self.meets(facts, out, less)? {
                let rest = self.without(left, *place)?;
                return self.outside(facts, outs, *place, rest.as_slice(), less);
            }
        }
        Ok(None)
    }

    // Whether the out meets the rows, as far as it is known.
    fn meets(&mut self, facts: &[usize], out: &System, reach: Reach) -> Result<bool, Cut> {
        let mut all = Vec::from_slice(self.alloc, facts)?;
        for row in out.rows.as_slice() {
            let line = Line::of_row(self.alloc, row)?;
            all.push(self.bring(line)?)?;
        }
        Ok(self.refute(all.as_slice(), reach)?.is_none())
    }

    // The rows outside one out, and then the others.
    #[cycle(cover)]
    fn outside(
        &mut self,
        facts: &[usize],
        outs: &[System],
        out: usize,
        rest: &[usize],
        reach: Reach,
    ) -> Result<Option<usize>, Cut> {
        let (Some(less), Some(system)) = (reach.deeper(), outs.get(out)) else {
            return Err(Cut::NoMemory);
        };
        let mut found = Found {
            parts: Vec::new(self.alloc),
            sides: Vec::new(self.alloc),
            inside: Vec::from_slice(self.alloc, facts)?,
        };
        for row in system.rows.as_slice() {
            let line = Line::of_row(self.alloc, row)?;
            for negated in line.negations(self.alloc)? {
                if !self.row_fails(&mut found, negated, outs, rest, less)? {
                    return Ok(None);
                }
            }
        }
        self.behind_sides(facts, found, outs, out, rest, less)
    }

    // The part where a row of the out fails.
    #[cycle(cover)]
    fn row_fails(
        &mut self,
        found: &mut Found,
        negated: Line,
        outs: &[System],
        rest: &[usize],
        reach: Reach,
    ) -> Result<bool, Cut> {
        let Some(less) = reach.deeper() else {
            return Err(Cut::NoMemory);
        };
        let form = negated.congruence(self.alloc, negated.kind, 0, negated.k)?;
        let is_bound = negated.kind == RowKind::AtLeast;
        let brought = self.bring(negated)?;
        let inside = self.with(found.inside.as_slice(), &[brought])?;
        if let Some(branch) = self.refute(inside.as_slice(), less)? {
            found.parts.push(Part { brought, branch })?;
            return Ok(true);
        }
        if is_bound {
            self.split_off(found, form)?;
            return Ok(true);
        }
        let covered = self.cover(inside.as_slice(), outs, rest, less)?;
        let Some(branch) = covered else {
            return Ok(false);
        };
        found.parts.push(Part { brought, branch })?;
        Ok(true)
    }

    // A split of the rows by a row of the out; the part where it fails is told by the side on which it holds.
    fn split_off(&mut self, found: &mut Found, form: Line) -> Result<(), Cut> {
        let line = form.bound(self.alloc, -1, -1)?;
        let holds = self.bring(line)?;
        let line = form.bound(self.alloc, 1, 0)?;
        let fails = self.bring(line)?;
        let line = form.bound(self.alloc, 1, 0)?;
        let brought = self.bring(line)?;
        let sum = self.add(brought, 1, holds, 1)?;
        let branch = self.leaf(sum)?;
        found.parts.push(Part { brought, branch })?;
        found.inside.push(holds)?;
        found.sides.push(Side { holds, fails, form })?;
        Ok(())
    }

    // The sides on which a row of the out fails, by the other outs; behind all of them, the out itself.
    #[cycle(cover)]
    fn behind_sides(
        &mut self,
        facts: &[usize],
        found: Found,
        outs: &[System],
        out: usize,
        rest: &[usize],
        reach: Reach,
    ) -> Result<Option<usize>, Cut> {
        let Some(less) = reach.deeper() else {
            return Err(Cut::NoMemory);
        };
        let mut inside = Vec::from_slice(self.alloc, facts)?;
        let mut firsts: Vec<usize> = Vec::new(self.alloc);
        for side in found.sides.iter() {
            let all = self.with(inside.as_slice(), &[side.fails])?;
            let covered = self.cover(all.as_slice(), outs, rest, less)?;
            let Some(first) = covered else {
                return Ok(None);
            };
            firsts.push(first)?;
            inside.push(side.holds)?;
        }
        let mut branch = self.push_branch(Branch::Outside(out, found.parts))?;
        let mut sides = found.sides;
        for _ in 0..firsts.len() {
            let (Some(side), Some(first)) = (sides.pop(), firsts.pop()) else {
                break;
            };
            let ups = Part {
                brought: side.fails,
                branch: first,
            };
            let downs = Part {
                brought: side.holds,
                branch,
            };
            branch = self.push_branch(Branch::Split(side.form, ups, downs))?;
        }
        Ok(Some(branch))
    }
}
