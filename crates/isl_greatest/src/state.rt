//! Where a search stands.

ghost use Rattle.std.specs.Prelude.{◌≡◌, ◌+◌, None, IfOk};

use isl_meter::Int;
use isl_piece::System;
use std::alloc::{AllocError, Global};

/// How far the trial of a case is. `cur` has a column more than what is chosen: the number that is tried.
#[derive(Drop)]
pub(crate) enum Trial {
    /// No row was looked at.
    Entering,
    /// So many bounds from above were looked at.
    Bounding {
        cur: System,
        next: usize,
    },
    /// So many of the other rows hold; so many numbers were tried before.
    Asking {
        cur: System,
        tried: Int,
        next: usize,
    },
    /// All rows hold: is the number greater than the best one?
    Comparing {
        cur: System,
    },
}

/// The columns of the front and of the numbers that are chosen; the case on trial; and the best number of the cases before it.
#[derive(Drop)]
pub(crate) struct State {
    pub(crate) chosen: System,
    pub(crate) case: usize,
    pub(crate) best: Option<System>,
    pub(crate) trial: Trial,
}

// The same columns, where there are some.
fn copied(alloc: Global, system: &Option<System>) -> Result<Option<System>, AllocError>
    ensures { IfOk result (λ copy. copy ≡ system.now) }
{
    match system {
        Some(system) => Ok(Some(system.copy(alloc)?)),
        None => Ok(None),
    }
}

impl State {
    /// The same state with another trial of its case.
    pub(crate) fn with_trial(&self, alloc: Global, trial: Trial) -> Result<State, AllocError>
        ensures { IfOk result (λ state. state ≡ record self.now { trial = trial }) }
    {
        Ok(State {
            chosen: self.chosen.copy(alloc)?,
            case: self.case,
            best: copied(alloc, &self.best)?,
            trial,
        })
    }

    /// The state at the next case.
    pub(crate) fn behind(&self, alloc: Global, best: Option<System>) -> Result<State, AllocError>
        ensures { IfOk result (λ state. state ≡ record { chosen = self.now.chosen; case = self.now.case + 1; best = best; trial = Trial.Entering }) }
    {
        let Some(case) = self.case.checked_add(1) else {
            return Err(AllocError);
        };
        Ok(State {
            chosen: self.chosen.copy(alloc)?,
            case,
            best,
            trial: Trial::Entering,
        })
    }

    /// The state at the next case, with the same best number.
    pub(crate) fn without(&self, alloc: Global) -> Result<State, AllocError>
        ensures { IfOk result (λ state. state ≡ record { chosen = self.now.chosen; case = self.now.case + 1; best = self.now.best; trial = Trial.Entering }) }
    {
        let best = copied(alloc, &self.best)?;
        self.behind(alloc, best)
    }

    /// The state at the first case behind these columns.
    pub(crate) fn at(chosen: System) -> State
        ensures { result ≡ record { chosen = chosen; case = 0; best = None; trial = Trial.Entering } }
    {
        State {
            chosen,
            case: 0,
            best: None,
            trial: Trial::Entering,
        }
    }
}
