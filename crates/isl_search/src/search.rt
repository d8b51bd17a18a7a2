//! What a search has found: rows, each with how it was made, and branches.

use crate::line::Line;
use crate::number::sum_of;
use isl_meter::Cut;
use isl_piece::{Row, RowKind};
use std::alloc::Global;

// How many numbers a search may keep.
const NUMBERS: usize = 6_291_456;

// How many branches.
const BRANCHES: usize = 131_072;

/// How a row was made.
#[derive(Clone, Copy)]
pub(crate) enum How {
    /// It is a row of the system, or one that a branch brings.
    Given,
    /// So many times a row, plus so many times another one.
    Sum(usize, i128, usize, i128),
    /// Of two opposite bounds.
    Tie(usize, usize),
    /// Of an equality, as a congruence.
    Divided(usize, i128),
}

/// A row, how it was made, and the last row of a branch that it stands on.
#[derive(Drop)]
pub(crate) struct Fact {
    pub line: Line,
    pub how: How,
    pub scope: usize,
}

/// A part of a branch: the row that it brings, and its own branch.
#[derive(Clone, Copy)]
pub(crate) struct Part {
    pub brought: usize,
    pub branch: usize,
}

/// A proof, whose parts are found before it is.
#[derive(Drop)]
pub(crate) enum Branch {
    /// The row never holds.
    Leaf(usize),
    /// A congruence as an equality with a new column.
    Fresh(usize, Part),
    /// The form is at least 0, or below.
    Split(Line, Part, Part),
    /// The form leaves one of the numbers from 0 to `k - 1`.
    Residue(Line, i128, Vec<Part>),
    /// Some row of the out fails.
    Outside(usize, Vec<Part>),
}

#[derive(Drop)]
pub(crate) struct Search {
    pub alloc: Global,
    pub facts: Vec<Fact>,
    pub branches: Vec<Branch>,
    room: usize,
}

impl Search {
    pub(crate) fn new(alloc: Global) -> Search {
        Search {
            alloc,
            facts: Vec::new(alloc),
            branches: Vec::new(alloc),
            room: NUMBERS,
        }
    }

    fn push(&mut self, line: Line, how: How, scope: usize) -> Result<usize, Cut> {
        let numbers = line.coefs.len().saturating_add(8);
        let Some(room) = self.room.checked_sub(numbers) else {
            return Err(Cut::NoMemory);
        };
        self.room = room;
        let mut line = line;
        line.settle()?;
        let at = self.facts.len();
        self.facts.push(Fact { line, how, scope })?;
        Ok(at)
    }

    /// A row of the system, as it is.
    pub(crate) fn push_own(&mut self, row: &Row) -> Result<usize, Cut> {
        let line = Line::of_row(self.alloc, row)?;
        let at = self.facts.len();
        self.facts.push(Fact {
            line,
            how: How::Given,
            scope: 0,
        })?;
        Ok(at)
    }

    /// The normal form of a row of the system, as far as a sum with itself gives it: the row itself where it is normal.
    pub(crate) fn normal_own(&mut self, at: usize) -> Result<usize, Cut> {
        if self.is_kind(at, RowKind::NotDivides) {
            return Ok(at);
        }
        let sum = self.add(at, 1, at, 0)?;
        match (self.facts.get(at), self.facts.get(sum)) {
            (Some(own), Some(normal)) if own.line.is_same(&normal.line) => Ok(at),
            _ => Ok(sum),
        }
    }

    /// A row that a branch brings.
    pub(crate) fn bring(&mut self, line: Line) -> Result<usize, Cut> {
        let at = self.facts.len();
        self.push(line, How::Given, at)
    }

    /// Whether the row there always holds, or never.
    pub(crate) fn truth(&self, at: usize) -> Option<bool> {
        self.facts.get(at).and_then(|fact| fact.line.truth())
    }

    /// The coefficient of the row there at a column.
    pub(crate) fn coef(&self, at: usize, column: usize) -> i128 {
        self.facts.get(at).map_or(0, |fact| fact.line.coef(column))
    }

    /// Whether the row there is of this kind.
    pub(crate) fn is_kind(&self, at: usize, kind: RowKind) -> bool {
        self.facts
            .get(at)
            .map_or(false, |fact| fact.line.kind == kind)
    }

    pub(crate) fn push_branch(&mut self, branch: Branch) -> Result<usize, Cut> {
        let at = self.branches.len();
        if at >= BRANCHES {
            return Err(Cut::NoMemory);
        }
        self.branches.push(branch)?;
        Ok(at)
    }

    pub(crate) fn leaf(&mut self, fact: usize) -> Result<usize, Cut> {
        self.push_branch(Branch::Leaf(fact))
    }

    /// `a` times a row plus `b` times another one.
    pub(crate) fn add(
        &mut self,
        first: usize,
        a: i128,
        second: usize,
        b: i128,
    ) -> Result<usize, Cut> {
        let (line, scope) = self.sum(first, a, second, b)?;
        self.push(line, How::Sum(first, a, second, b), scope)
    }

    fn sum(&self, first: usize, a: i128, second: usize, b: i128) -> Result<(Line, usize), Cut> {
        let (Some(one), Some(other)) = (self.facts.get(first), self.facts.get(second)) else {
            return Err(Cut::NoMemory);
        };
        let (p, q) = (&one.line, &other.line);
        let columns = p.coefs.len().max(q.coefs.len());
        let mut coefs = Vec::with_capacity(self.alloc, columns)?;
        for x in 0..columns {
            coefs.push(sum_of(a, p.coef(x), b, q.coef(x))?)?;
        }
        let (kind, k) = match (p.kind, q.kind) {
            (RowKind::Zero, kind) => (kind, q.k),
            (RowKind::Divides, RowKind::NotDivides) => (RowKind::NotDivides, q.k),
            (kind, _) => (kind, p.k),
        };
        let constant = sum_of(a, p.constant, b, q.constant)?;
        let line = Line {
            kind,
            coefs,
            constant,
            k,
        };
        Ok((line, one.scope.max(other.scope)))
    }

    /// Two opposite bounds as an equality.
    pub(crate) fn tie(&mut self, first: usize, second: usize) -> Result<usize, Cut> {
        let (Some(one), Some(other)) = (self.facts.get(first), self.facts.get(second)) else {
            return Err(Cut::NoMemory);
        };
        let line = one.line.congruence(self.alloc, RowKind::Zero, 0, 1)?;
        let scope = one.scope.max(other.scope);
        self.push(line, How::Tie(first, second), scope)
    }

    /// An equality as a congruence.
    pub(crate) fn divided(&mut self, fact: usize, k: i128) -> Result<usize, Cut> {
        let Some(one) = self.facts.get(fact) else {
            return Err(Cut::NoMemory);
        };
        let line = one.line.congruence(self.alloc, RowKind::Divides, 0, k)?;
        let scope = one.scope;
        self.push(line, How::Divided(fact, k), scope)
    }

    /// The form of a row times 1 or -1, and another number added to its constant, as a bound that a branch brings.
    pub(crate) fn bring_bound(&mut self, at: usize, sign: i128, more: i128) -> Result<usize, Cut> {
        let line = self.bound_of(at, sign, more)?;
        self.bring(line)
    }

    pub(crate) fn bound_of(&self, at: usize, sign: i128, more: i128) -> Result<Line, Cut> {
        let Some(fact) = self.facts.get(at) else {
            return Err(Cut::NoMemory);
        };
        fact.line.bound(self.alloc, sign, more)
    }

    /// The rows but one.
    pub(crate) fn without(&self, facts: &[usize], but: usize) -> Result<Vec<usize>, Cut> {
        let mut left = Vec::with_capacity(self.alloc, facts.len())?;
        for fact in facts {
            if *fact != but {
                left.push(*fact)?;
            }
        }
        Ok(left)
    }

    /// The rows of these kinds.
    pub(crate) fn of_kind(&self, facts: &[usize], kind: RowKind) -> Result<Vec<usize>, Cut> {
        let mut found = Vec::new(self.alloc);
        for fact in facts {
            if self.is_kind(*fact, kind) {
                found.push(*fact)?;
            }
        }
        Ok(found)
    }

    /// The rows, and some more.
    pub(crate) fn with(&self, facts: &[usize], more: &[usize]) -> Result<Vec<usize>, Cut> {
        let mut all = Vec::with_capacity(self.alloc, facts.len().saturating_add(more.len()))?;
        all.extend_from_slice(facts)?;
        all.extend_from_slice(more)?;
        Ok(all)
    }
}
