//! Systems whose greatest lists are asked for.

use crate::Case;
use isl_piece::System;
use std::marker::Model;

/// The cases of one column.
#[derive(Drop)]
pub struct Level {
    cases: Vec<Case>,
}

impl Model for Level {
    ghost use Rattle.std.specs.Prelude.{List};
    ghost use Rattle.isl_greatest_law.specs.Case.{CaseView};

    ghost Value = { List CaseView };

    ghost view = { λ l. l.cases.items };
}

impl Level {
    ghost use Rattle.std.specs.Prelude.{◌≡◌};

    pub fn new(cases: Vec<Case>) -> Level
        ensures { result ≡ cases.items }
    {
        Level { cases }
    }

    pub(crate) fn cases(&self) -> &[Case]
        ensures { result.now ≡ self.now }
    {
        self.cases.as_slice()
    }
}

/// Systems over the columns of a front and others behind them, and the cases of each of these, lowest first.
#[derive(Drop)]
pub struct Problem {
    front: usize,
    systems: Vec<System>,
    levels: Vec<Level>,
}

impl Model for Problem {
    ghost use Rattle.isl_greatest.specs.Problem.{ProblemView};

    ghost Value = { ProblemView };

    ghost view = { λ p. record { front = p.front; systems = p.systems.items; levels = p.levels.items } };
}

impl Problem {
    ghost use Rattle.std.specs.Prelude.{◌≡◌, ◌<◌, length};
    ghost use Rattle.isl_greatest.specs.Problem.{cases_at};

    pub fn new(front: usize, systems: Vec<System>, levels: Vec<Level>) -> Problem
        ensures { result ≡ record { front = front; systems = systems.items; levels = levels.items } }
    {
        Problem {
            front,
            systems,
            levels,
        }
    }

    /// The number of columns in front.
    pub fn front(&self) -> usize
        ensures { result ≡ self.now.front }
    {
        self.front
    }

    /// The number of columns behind them.
    pub fn depth(&self) -> usize
        ensures { result ≡ length self.now.levels }
    {
        self.levels.len()
    }

    /// The cases behind so many of these columns.
    pub(crate) fn cases_at(&self, depth: usize) -> &[Case]
        requires { depth < length self.now.levels }
        ensures { result.now ≡ cases_at self.now depth }
    {
        self.levels[depth].cases()
    }
}
