//! Proofs that rows hold nowhere: equalities and congruences, then bounds.

ghost use Rattle.std.specs.Prelude.{◌≡◌, ◌<◌, IfSome};

use crate::line::Line;
use crate::search::{Branch, Part, Search};
use crate::tidy::Tidy;
use isl_meter::Cut;
use isl_piece::RowKind;

// How often an equality is put in.
const ROUNDS: usize = 4096;

// The numbers of a residue that are tried.
const RESIDUES: i128 = 4096;

// What is left once no equality gives a column.
#[derive(Drop)]
enum Next {
    Done(usize),
    Divided(usize, Vec<usize>),
    Bounds(Vec<usize>),
}

/// Over how many columns rows are, and how deep a search may go yet.
#[derive(Clone, Copy)]
pub(crate) struct Reach {
    pub columns: usize,
    pub fuel: usize,
}

impl Reach {
    /// One level further down, if there is one.
    pub(crate) fn deeper(self) -> Option<Reach>
        ensures { IfSome result (λ less. less.fuel < self.fuel) }
    {
        let fuel = self.fuel.checked_sub(1)?;
        Some(Reach {
            columns: self.columns,
            fuel,
        })
    }

    /// With one column more.
    pub(crate) fn wider(self) -> Reach
        ensures { result.fuel ≡ self.fuel }
    {
        Reach {
            columns: self.columns.saturating_add(1),
            fuel: self.fuel,
        }
    }
}

impl Search {
    /// A proof that the rows hold at no whole point; none where some point is not ruled out.
    #[cycle(search)]
    pub(crate) fn refute(&mut self, facts: &[usize], reach: Reach) -> Result<Option<usize>, Cut> {
        let Some(less) = reach.deeper() else {
            return Err(Cut::NoMemory);
        };
        match self.without_equalities(facts)? {
            Next::Done(fact) => Ok(Some(self.leaf(fact)?)),
            Next::Divided(fact, rows) => self.fresh(fact, rows.as_slice(), less),
            Next::Bounds(rows) => self.bounds(rows.as_slice(), less),
        }
    }

    // The rows with the congruence as an equality with a new column.
    #[cycle(search)]
    fn fresh(&mut self, fact: usize, rows: &[usize], reach: Reach) -> Result<Option<usize>, Cut> {
        let Some(less) = reach.deeper() else {
            return Err(Cut::NoMemory);
        };
        let line = self.opened(fact, reach.columns)?;
        let brought = self.bring(line)?;
        let all = self.with(rows, &[brought])?;
        let found = self.refute(all.as_slice(), less.wider())?;
        let Some(branch) = found else {
            return Ok(None);
        };
        let part = Part { brought, branch };
        Ok(Some(self.push_branch(Branch::Fresh(fact, part))?))
    }

    // Rows without equalities, whose columns go one after another, and without congruences.
    #[cycle(search)]
    fn bounds(&mut self, facts: &[usize], reach: Reach) -> Result<Option<usize>, Cut> {
        let Some(less) = reach.deeper() else {
            return Err(Cut::NoMemory);
        };
        let rows = self.of_kind(facts, RowKind::AtLeast)?;
        let nots = self.of_kind(facts, RowKind::NotDivides)?;
        let columns = reach.columns;
        let ends = self.best_column(rows.as_slice(), nots.as_slice(), columns)?;
        match ends {
            Some(ends) if ends.is_exact => {
                let left = self.paired(facts, &ends)?;
                self.refute(left.as_slice(), less)
            }
            Some(ends) if nots.is_empty() => {
                if let Some(found) = self.shadows(rows.as_slice(), columns)? {
                    return Ok(Some(found));
                }
                self.splinters(facts, ends, less)
            }
            None if nots.is_empty() => Ok(None),
            _ => {
                if let Some(found) = self.shadows(rows.as_slice(), columns)? {
                    return Ok(Some(found));
                }
                self.residues(facts, nots.as_slice(), less)
            }
        }
    }

    // A part for each number that the form of least modulus may leave.
    #[cycle(search)]
    fn residues(
        &mut self,
        facts: &[usize],
        nots: &[usize],
        reach: Reach,
    ) -> Result<Option<usize>, Cut> {
        let Some(less) = reach.deeper() else {
            return Err(Cut::NoMemory);
        };
        let Some((fact, k)) = self.least_modulus(nots) else {
            return Ok(None);
        };
        if k > RESIDUES {
            return Err(Cut::NoMemory);
        }
        let left = self.without(facts, fact)?;
        let mut parts = Vec::new(self.alloc);
        for rest in 0..k {
            let line = self.residue(fact, rest)?;
            let brought = self.bring(line)?;
            let found = if rest == 0 {
                self.ruled_out(fact, brought, reach.columns)?
            } else {
                let all = self.with(left.as_slice(), &[brought])?;
                self.refute(all.as_slice(), less)?
            };
            let Some(branch) = found else {
                return Ok(None);
            };
            parts.push(Part { brought, branch })?;
        }
        let form = self.bound_of(fact, 1, 0)?;
        Ok(Some(self.push_branch(Branch::Residue(form, k, parts))?))
    }

    // That the form is divided is ruled out by the row that it is not.
    fn ruled_out(
        &mut self,
        fact: usize,
        brought: usize,
        columns: usize,
    ) -> Result<Option<usize>, Cut> {
        if self.truth(brought) == Some(false) {
            return Ok(Some(self.leaf(brought)?));
        }
        let factor = self.modulus(fact).checked_div(self.modulus(brought));
        let factor = factor.ok_or(Cut::Overflow)?;
        if factor == 1 {
            return self.opposed(fact, brought, 1);
        }
        let line = self.opened(brought, columns)?;
        let equality = self.bring(line)?;
        let Some(branch) = self.opposed(fact, equality, factor)? else {
            return Ok(None);
        };
        let part = Part {
            brought: equality,
            branch,
        };
        Ok(Some(self.push_branch(Branch::Fresh(brought, part))?))
    }

    // The row with so many times the other one, added or taken away, if that never holds.
    fn opposed(&mut self, fact: usize, other: usize, factor: i128) -> Result<Option<usize>, Cut> {
        for number in [factor.saturating_neg(), factor] {
            let sum = self.add(fact, 1, other, number)?;
            if self.truth(sum) == Some(false) {
                return Ok(Some(self.leaf(sum)?));
            }
        }
        Ok(None)
    }

    fn modulus(&self, fact: usize) -> i128 {
        self.facts.get(fact).map_or(0, |fact| fact.line.k)
    }

    // Puts in what equalities give.
    fn without_equalities(&mut self, facts: &[usize]) -> Result<Next, Cut> {
        let mut rows = Vec::from_slice(self.alloc, facts)?;
        for _ in 0..ROUNDS {
            rows = match self.tidied(rows.as_slice())? {
                Tidy::Never(fact) => return Ok(Next::Done(fact)),
                Tidy::Rows(rows) => rows,
            };
            let Some((fact, column, number)) = self.least_number(rows.as_slice()) else {
                return self.without_congruences(rows);
            };
            if number != 1 && number != -1 {
                return self.with_remainder(fact, number, rows);
            }
            rows = self.substituted(rows.as_slice(), fact, column, number)?;
        }
        Err(Cut::NoMemory)
    }

    // An equality whose numbers are all above 1: its least one divides the rest.
    fn with_remainder(&mut self, fact: usize, number: i128, rows: Vec<usize>) -> Result<Next, Cut> {
        let k = number.checked_abs().ok_or(Cut::Overflow)?;
        let divided = self.divided(fact, k)?;
        match self.truth(divided) {
            Some(false) => Ok(Next::Done(divided)),
            Some(true) => Err(Cut::NoMemory),
            None => Ok(Next::Divided(divided, rows)),
        }
    }

    fn without_congruences(&self, rows: Vec<usize>) -> Result<Next, Cut> {
        let is_congruence = |fact: &&usize| self.is_kind(**fact, RowKind::Divides);
        match rows.iter().find(is_congruence).map(|fact| *fact) {
            Some(fact) => Ok(Next::Divided(fact, self.without(rows.as_slice(), fact)?)),
            None => Ok(Next::Bounds(rows)),
        }
    }

    // The least number of all equalities, with its row and its column.
    fn least_number(&self, rows: &[usize]) -> Option<(usize, usize, i128)> {
        let mut least: Option<(usize, usize, i128)> = None;
        for row in rows {
            let Some(fact) = self.facts.get(*row) else {
                continue;
            };
            if fact.line.kind != RowKind::Zero {
                continue;
            }
            for (column, number) in fact.line.coefs.iter().enumerate() {
                let size = number.unsigned_abs();
                if size != 0 && least.is_none_or(|old| size < old.2.unsigned_abs()) {
                    least = Some((*row, column, *number));
                }
            }
        }
        least
    }

    // The other rows, with what the equality gives to the column.
    fn substituted(
        &mut self,
        rows: &[usize],
        equality: usize,
        column: usize,
        number: i128,
    ) -> Result<Vec<usize>, Cut> {
        let mut left = Vec::with_capacity(self.alloc, rows.len())?;
        for row in rows {
            let own = self.coef(*row, column);
            if *row == equality {
                continue;
            }
            if own == 0 {
                left.push(*row)?;
                continue;
            }
            let factor = own
                .checked_neg()
                .and_then(|own| own.checked_mul(number))
                .ok_or(Cut::Overflow)?;
            left.push(self.add(*row, 1, equality, factor)?)?;
        }
        Ok(left)
    }

    fn opened(&self, fact: usize, columns: usize) -> Result<Line, Cut> {
        let Some(fact) = self.facts.get(fact) else {
            return Err(Cut::NoMemory);
        };
        fact.line.with_column(self.alloc, columns)
    }

    // `k` divides the form less a number.
    fn residue(&self, fact: usize, rest: i128) -> Result<Line, Cut> {
        let Some(fact) = self.facts.get(fact) else {
            return Err(Cut::NoMemory);
        };
        let less = rest.saturating_neg();
        fact.line
            .congruence(self.alloc, RowKind::Divides, less, fact.line.k)
    }

    fn least_modulus(&self, nots: &[usize]) -> Option<(usize, i128)> {
        let mut least: Option<(usize, i128)> = None;
        for row in nots {
            let k = self.modulus(*row);
            if least.is_none_or(|old| k < old.1) {
                least = Some((*row, k));
            }
        }
        least
    }
}
