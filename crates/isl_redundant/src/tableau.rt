//! Forms of rows over others of them: a simplex tableau. What it finds is looked at before anything is done by it.

use crate::line::{Line, Variable};
use isl_piece::Row;
use std::alloc::{AllocError, Global};

// How many numbers are written at most in one search.
const WORK: usize = 2_000_000;

/// The forms of rows over as many variables as there are columns, which are outside and 0; and how many numbers may still be written.
#[derive(Drop)]
pub(crate) struct Tableau {
    pub rows: usize,
    pub outside: Vec<Variable>,
    pub lines: Vec<Line>,
    work: usize,
}

impl Tableau {
    /// The forms of the rows over the columns.
    pub(crate) fn of(alloc: Global, rows: &[Row], columns: usize) -> Result<Tableau, AllocError> {
        let outside = Vec::from_elem(alloc, Variable::Column, columns)?;
        let mut lines = Vec::with_capacity(alloc, rows.len())?;
        for (at, row) in rows.iter().enumerate() {
            if let Some(line) = Line::of_row(alloc, row, at)? {
                lines.push(line)?;
            }
        }
        Ok(Tableau {
            rows: rows.len(),
            outside,
            lines,
            work: WORK,
        })
    }

    /// Whether the variable at a place outside is a bound.
    pub(crate) fn is_bound(&self, place: usize) -> bool {
        matches!(self.outside.get(place), Some(Variable::Bound(_)))
    }

    /// The line of a variable.
    pub(crate) fn line_of(&self, of: Variable) -> Option<usize> {
        self.lines.iter().position(|line| line.of == of)
    }

    /// Exchanges the variable of a line with one outside. A column that comes inside is let go: nothing is asked of it. `false`
    /// where a number is too large, or the search took long.
    pub(crate) fn exchange(
        &mut self,
        alloc: Global,
        at: usize,
        place: usize,
    ) -> Result<bool, AllocError> {
        if at >= self.lines.len() || place >= self.outside.len() {
            return Ok(false);
        }
        let numbers = self.lines.len().saturating_mul(self.outside.len());
        if numbers > self.work {
            return Ok(false);
        }
        self.work = self.work.saturating_sub(numbers);
        let line = self.lines.swap_remove(at);
        let solved = line.solved(alloc, place, self.outside[place])?;
        self.outside[place] = line.of;
        for other in self.lines.iter_mut() {
            if other.substitute(&solved, place).is_none() {
                return Ok(false);
            }
        }
        if solved.of != Variable::Column {
            self.lines.push(solved)?;
        }
        Ok(true)
    }

    /// Takes the form of a bound out, which is inside.
    pub(crate) fn forget(&mut self, row: usize) {
        if let Some(at) = self.line_of(Variable::Bound(row))
            && at < self.lines.len()
        {
            self.lines.swap_remove(at);
        }
        for line in self.lines.iter_mut() {
            line.of = line.of.without(row);
        }
        for variable in self.outside.iter_mut() {
            *variable = variable.without(row);
        }
        self.rows = self.rows.saturating_sub(1);
    }
}
