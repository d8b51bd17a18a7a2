//! Sums of rows by which one of them is implied: a simplex, which gives up where numbers grow, or it takes long. No clause speaks of what
//! is found: it is looked at.

use crate::line::{Line, Variable};
use crate::ratio::Ratio;
use crate::tableau::Tableau;
use isl_piece::Row;
use std::alloc::{AllocError, Global};

// How often variables are exchanged in one search.
const EXCHANGES: usize = 60;

/// How a search begins.
#[derive(Drop)]
pub(crate) enum Start {
    /// With forms of the rows where the bounds hold.
    Begun(Tableau),
    /// Not at all: with these numbers the rows are to add up to a constant below 0.
    Nowhere(Vec<i128>),
    /// Not at all: it would take long, or numbers grow.
    GivenUp,
}

impl Tableau {
    /// The forms of the rows where the bounds hold, or numbers that show that they hold nowhere.
    pub(crate) fn started(
        alloc: Global,
        rows: &[Row],
        columns: usize,
    ) -> Result<Start, AllocError> {
        let mut tableau = Tableau::of(alloc, rows, columns)?;
        if tableau.put_equations_outside(alloc)? && tableau.put_columns_inside(alloc)? {
            return tableau.meeting_bounds(alloc);
        }
        Ok(Start::GivenUp)
    }

    // Exchanges equations with columns. One that has no column left is let go.
    fn put_equations_outside(&mut self, alloc: Global) -> Result<bool, AllocError> {
        for _ in 0..self.lines.len() {
            let equation = |line: &Line| matches!(line.of, Variable::Equation(_));
            let Some(at) = self.lines.iter().position(equation) else {
                break;
            };
            match self.column_in(at) {
                Some(place) => {
                    if !self.exchange(alloc, at, place)? {
                        return Ok(false);
                    }
                }
                None if at < self.lines.len() => {
                    self.lines.swap_remove(at);
                }
                None => {}
            }
        }
        Ok(true)
    }

    // A column outside that the line has.
    fn column_in(&self, at: usize) -> Option<usize> {
        let line = self.lines.get(at)?;
        (0..self.outside.len()).find(|place| line.number(*place) != 0
            && self.outside.get(*place) == Some(&Variable::Column))
    }

    // Exchanges columns with bounds that have them.
    fn put_columns_inside(&mut self, alloc: Global) -> Result<bool, AllocError> {
        for place in 0..self.outside.len() {
            if self.outside.get(place) != Some(&Variable::Column) {
                continue;
            }
            if let Some(at) = self.lines.iter().position(|line| line.number(place) != 0)
                && !self.exchange(alloc, at, place)?
            {
                return Ok(false);
            }
        }
        Ok(true)
    }

    // Exchanges bounds until each holds.
    fn meeting_bounds(self, alloc: Global) -> Result<Start, AllocError> {
        let mut tableau = self;
        for _ in 0..EXCHANGES {
            let Some(at) = tableau.lines.iter().position(|line| line.constant() < 0) else {
                return Ok(Start::Begun(tableau));
            };
            let Some(place) = tableau.bound_in(at, true) else {
                return tableau.contradiction(alloc, at);
            };
            let own = tableau.lines.get(at).map(|line| Ratio {
                number: line.constant().saturating_neg(),
                divisor: line.number(place),
            });
            let leaving = match (tableau.tightest(place, at), own) {
                (Some((other, room)), Some(own)) if room.is_less(own) => other,
                _ => at,
            };
            if !tableau.exchange(alloc, leaving, place)? {
                return Ok(Start::GivenUp);
            }
        }
        Ok(Start::GivenUp)
    }

    // Numbers for the rows with which they are to add up to a constant below 0: those of a line that never rises to 0.
    fn contradiction(&self, alloc: Global, at: usize) -> Result<Start, AllocError> {
        let Some(Variable::Bound(row)) = self.lines.get(at).map(|line| line.of) else {
            return Ok(Start::GivenUp);
        };
        let Some(mut times) = self.multiples_in(alloc, at, row)? else {
            return Ok(Start::GivenUp);
        };
        for number in times.iter_mut() {
            *number = number.saturating_neg();
        }
        Ok(Start::Nowhere(times))
    }

    // A bound outside which makes that of the line rise, or fall, as it rises.
    fn bound_in(&self, at: usize, rises: bool) -> Option<usize> {
        let line = self.lines.get(at)?;
        (0..self.outside.len()).find(|place| {
            let number = line.number(*place);
            self.is_bound(*place) && number != 0 && (number > 0) == rises
        })
    }

    // The other line that first falls to 0 as the variable at the place rises, and how far that is.
    fn tightest(&self, place: usize, but: usize) -> Option<(usize, Ratio)> {
        let mut tightest: Option<(usize, Ratio)> = None;
        for (at, line) in self.lines.iter().enumerate() {
            if let Some(room) = line.room(place)
                && at != but
                && tightest.is_none_or(|old| room.is_less(old.1))
            {
                tightest = Some((at, room));
            }
        }
        tightest
    }

    // A line which falls below 0 at once if the variable at the place does.
    fn held(&self, place: usize) -> Option<usize> {
        self.lines
            .iter()
            .position(|line| line.constant() == 0 && line.number(place) > 0)
    }

    /// Numbers for the rows, negative for that of the bound, with which they are to add up to a constant of at most 0; none where
    /// the others do not imply it, or that was not found.
    pub(crate) fn multiples(
        &mut self,
        alloc: Global,
        row: usize,
    ) -> Result<Option<Vec<i128>>, AllocError> {
        let bound = Variable::Bound(row);
        if let Some(place) = self.outside.iter().position(|variable| *variable == bound) {
            match self.held(place) {
                Some(at) if self.exchange(alloc, at, place)? => {}
                _ => return Ok(None),
            }
        }
        for _ in 0..EXCHANGES {
            let Some(at) = self.line_of(bound) else {
                return Ok(None);
            };
            let Some(place) = self.bound_in(at, false) else {
                return self.multiples_in(alloc, at, row);
            };
            let own = self.lines.get(at).and_then(|line| line.room(place));
            match (self.tightest(place, at), own) {
                (Some((leaving, room)), Some(own)) if !own.is_less(room) => {
                    if !self.exchange(alloc, leaving, place)? {
                        return Ok(None);
                    }
                }
                _ => return Ok(None),
            }
        }
        Ok(None)
    }

    // The numbers of a line, put where the rows stand.
    fn multiples_in(
        &self,
        alloc: Global,
        at: usize,
        row: usize,
    ) -> Result<Option<Vec<i128>>, AllocError> {
        let Some(line) = self.lines.get(at) else {
            return Ok(None);
        };
        let mut times = Vec::from_elem(alloc, 0, self.rows)?;
        if let Some(own) = times.get_mut(row) {
            *own = line.divisor.saturating_neg();
        }
        for (place, variable) in self.outside.iter().enumerate() {
            if let Variable::Bound(i) | Variable::Equation(i) = *variable
                && let Some(other) = times.get_mut(i)
            {
                *other = line.number(place);
            }
        }
        Ok(Some(times))
    }
}
