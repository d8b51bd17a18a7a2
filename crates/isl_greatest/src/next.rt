//! One step of the search.

ghost use Rattle.std.specs.Prelude.{◌≡◌, ◌↔◌, ◌<◌, ◌≤◌, ◌+◌, ◌<ℤ◌, pos, IfOk, IsTrue, length, MatchResult};
ghost use Rattle.isl_meter.specs.Gauge.{IsCutBy};
ghost use Rattle.isl_piece.specs.Row.{coef_at};
ghost use Rattle.isl_greatest_law.specs.Case.{IsBound};
ghost use Rattle.isl_greatest.specs.Problem.{cases_at, IsProblem};
ghost use Rattle.isl_greatest.specs.State.{case_at, depth_of, IsOnTrial, IsState};
ghost use Rattle.isl_greatest.specs.Next.{IsAsked, IsFailed, IsNextOf, IsOtherAt};

use crate::candidate::{any_candidate, below, top_candidate};
use crate::case::{Case, is_congruence, is_steep};
use crate::problem::Problem;
use crate::question::{later_question, row_question};
use crate::state::{State, Trial};
use isl_meter::{Cut, Int, Meter};
use isl_piece::{Row, System};
use std::alloc::{AllocError, Global};

/// What a step comes to.
#[derive(Drop)]
pub(crate) enum Step {
    /// This state.
    Goes(State),
    /// A row: whether it holds tells the state.
    Asks {
        question: System,
        yes: State,
        other: State,
    },
    /// The columns of the greatest list; or there is no list.
    Ends(Option<System>),
    /// There are lists, and none is the greatest.
    Away,
}

// All cases were tried: the best number is the next one, or there is no list.
fn close(alloc: Global, problem: &Problem, state: &State, meter: &Meter) -> Result<Step, AllocError>
    requires problem { IsProblem meter.now problem.now }
    requires state { IsState meter.now problem.now state.now }
    requires depth { depth_of state.now < length problem.now.levels }
    requires cases { length (cases_at problem.now (depth_of state.now)) ≤ state.now.case }
    ensures { IfOk result (IsNextOf meter.now problem.now state.now) }
{
    match &state.best {
        Some(best) => {
            let chosen = best.copy(alloc)?;
            Ok(Step::Goes(State::at(chosen)))
        }
        None => Ok(Step::Ends(None)),
    }
}

// No row of a case was looked at.
fn enter(
    alloc: Global,
    problem: &Problem,
    case: &Case,
    state: &State,
    meter: &Meter,
) -> Result<Step, AllocError>
    requires problem { IsProblem meter.now problem.now }
    requires state { IsState meter.now problem.now state.now }
    requires trial { state.now.trial ≡ Trial.Entering }
    requires on { IsOnTrial problem.now (depth_of state.now) state.now.case }
    requires case { case.now ≡ case_at problem.now (depth_of state.now) state.now.case }
    ensures { IfOk result (IsNextOf meter.now problem.now state.now) }
{
    match case.tops.as_slice().first() {
        Some(row) => {
            let cur = top_candidate(alloc, &state.chosen, row, meter)?;
            let later = state.with_trial(alloc, Trial::Bounding { cur, next: 1 })?;
            Ok(Step::Goes(later))
        }
        None => {
            let cur = any_candidate(alloc, &state.chosen, meter)?;
            let trial = Trial::Asking {
                cur,
                tried: Int::ZERO,
                next: 0,
            };
            let later = state.with_trial(alloc, trial)?;
            Ok(Step::Goes(later))
        }
    }
}

// Bounds from above are looked at.
fn bound(
    alloc: Global,
    problem: &Problem,
    case: &Case,
    state: &State,
    cur: &System,
    next: usize,
    meter: &Meter,
) -> Result<Step, AllocError>
    requires problem { IsProblem meter.now problem.now }
    requires state { IsState meter.now problem.now state.now }
    requires trial { state.now.trial ≡ Trial.Bounding cur.now next }
    requires case { case.now ≡ case_at problem.now (depth_of state.now) state.now.case }
    ensures { IfOk result (IsNextOf meter.now problem.now state.now) }
{
    let tops = case.tops.as_slice();
    if next >= tops.len() {
        let cur = cur.copy(alloc)?;
        let trial = Trial::Asking {
            cur,
            tried: Int::ZERO,
            next: 0,
        };
        let later = state.with_trial(alloc, trial)?;
        return Ok(Step::Goes(later));
    }
    let row = &tops[next];
    let question = row_question(alloc, cur, row, meter)?;
    let same = cur.copy(alloc)?;
    let yes = state.with_trial(
        alloc,
        Trial::Bounding {
            cur: same,
            next: next + 1,
        },
    )?;
    let lower = top_candidate(alloc, &state.chosen, row, meter)?;
    let other = state.with_trial(
        alloc,
        Trial::Bounding {
            cur: lower,
            next: next + 1,
        },
    )?;
    Ok(Step::Asks {
        question,
        yes,
        other,
    })
}

// The state behind a row that fails at the number.
fn failed(
    alloc: Global,
    problem: &Problem,
    case: &Case,
    row: &Row,
    state: &State,
    cur: &System,
    tried: Int,
    next: usize,
    meter: &mut Meter,
) -> Result<State, Cut>
    requires problem { IsProblem meter.old problem.now }
    requires state { IsState meter.old problem.now state.now }
    requires trial { state.now.trial ≡ Trial.Asking cur.now tried next }
    requires case { case.now ≡ case_at problem.now (depth_of state.now) state.now.case }
    requires row { IsOtherAt case.now next row.now }
    requires asked { IsAsked problem.now state.now case.now row.now }
    ensures { MatchResult result (λ other. IsFailed meter.old problem.now state.now row.now cur.now other × (meter.new ≡ meter.old))
        (IsCutBy meter.old meter.new) }
{
    let period = case.period.get();
    let more = tried.get() + 1;
    if !is_congruence(row) {
        let other = state.without(alloc)?;
        return Ok(other);
    }
    if more >= period {
        let other = state.without(alloc)?;
        return Ok(other);
    }
    let lower = below(alloc, &state.chosen, cur, meter)?;
    let trial = Trial::Asking {
        cur: lower,
        tried: Int::new(more),
        next: 0,
    };
    let other = state.with_trial(alloc, trial)?;
    Ok(other)
}

// All other rows were looked at.
fn settled(
    alloc: Global,
    problem: &Problem,
    case: &Case,
    state: &State,
    cur: &System,
    tried: Int,
    next: usize,
    meter: &Meter,
) -> Result<Step, AllocError>
    requires problem { IsProblem meter.now problem.now }
    requires state { IsState meter.now problem.now state.now }
    requires trial { state.now.trial ≡ Trial.Asking cur.now tried next }
    requires case { case.now ≡ case_at problem.now (depth_of state.now) state.now.case }
    requires all { length case.now.others ≤ next }
    ensures { IfOk result (IsNextOf meter.now problem.now state.now) }
{
    if case.tops.as_slice().is_empty() {
        return Ok(Step::Away);
    }
    let same = cur.copy(alloc)?;
    let later = state.with_trial(alloc, Trial::Comparing { cur: same })?;
    Ok(Step::Goes(later))
}

// Whether the row is not asked: nothing bounds the numbers of the case from above, and it bounds them from below.
fn is_passed(case: &Case, row: &Row, column: usize) -> bool
    requires { column < length row.now.coefs }
    ensures { IsTrue result ↔ ((length case.now.tops ≡ 0) × (IsBound row.now × (pos 0 <ℤ coef_at row.now column))) }
{
    if !case.tops.as_slice().is_empty() {
        return false;
    }
    is_steep(row, column)
}

// The other rows are looked at.
fn ask(
    alloc: Global,
    problem: &Problem,
    case: &Case,
    state: &State,
    cur: &System,
    tried: Int,
    next: usize,
    meter: &mut Meter,
) -> Result<Step, Cut>
    requires problem { IsProblem meter.old problem.now }
    requires state { IsState meter.old problem.now state.now }
    requires trial { state.now.trial ≡ Trial.Asking cur.now tried next }
    requires case { case.now ≡ case_at problem.now (depth_of state.now) state.now.case }
    ensures { MatchResult result (λ next. IsNextOf meter.old problem.now state.now next × (meter.new ≡ meter.old)) (IsCutBy meter.old meter.new) }
{
    let others = case.others.as_slice();
    if next >= others.len() {
        let step = settled(alloc, problem, case, state, cur, tried, next, meter)?;
        return Ok(step);
    }
    let row = &others[next];
    let same = cur.copy(alloc)?;
    let holds = Trial::Asking {
        cur: same,
        tried,
        next: next + 1,
    };
    let yes = state.with_trial(alloc, holds)?;
    if is_passed(case, row, state.chosen.columns) {
        return Ok(Step::Goes(yes));
    }
    let question = row_question(alloc, cur, row, meter)?;
    let other = failed(alloc, problem, case, row, state, cur, tried, next, meter)?;
    Ok(Step::Asks {
        question,
        yes,
        other,
    })
}

// All rows of the case hold at the number.
fn compare(
    alloc: Global,
    problem: &Problem,
    state: &State,
    cur: &System,
    meter: &Meter,
) -> Result<Step, AllocError>
    requires problem { IsProblem meter.now problem.now }
    requires state { IsState meter.now problem.now state.now }
    requires trial { state.now.trial ≡ Trial.Comparing cur.now }
    ensures { IfOk result (IsNextOf meter.now problem.now state.now) }
{
    let same = cur.copy(alloc)?;
    let yes = state.behind(alloc, Some(same))?;
    match &state.best {
        None => Ok(Step::Goes(yes)),
        Some(best) => {
            let question = later_question(alloc, &state.chosen, best, cur, meter)?;
            let other = state.without(alloc)?;
            Ok(Step::Asks {
                question,
                yes,
                other,
            })
        }
    }
}

/// One step of the search.
///
/// # Errors
///
/// `Overflow` where a number passes the limit of the meter, and `NoMemory`.
pub(crate) fn next(
    alloc: Global,
    problem: &Problem,
    state: &State,
    meter: &mut Meter,
) -> Result<Step, Cut>
    requires problem { IsProblem meter.old problem.now }
    requires state { IsState meter.old problem.now state.now }
    ensures { MatchResult result (λ next. IsNextOf meter.old problem.now state.now next × (meter.new ≡ meter.old)) (IsCutBy meter.old meter.new) }
{
    let depth = state.chosen.defined();
    if depth == problem.depth() {
        let numbers = state.chosen.copy(alloc)?;
        return Ok(Step::Ends(Some(numbers)));
    }
    let Some(case) = problem.cases_at(depth).get(state.case) else {
        return Ok(close(alloc, problem, state, meter)?);
    };
    match &state.trial {
        Trial::Entering => Ok(enter(alloc, problem, case, state, meter)?),
        Trial::Bounding { cur, next } => {
            Ok(bound(alloc, problem, case, state, cur, *next, meter)?)
        }
        Trial::Asking { cur, tried, next } => {
            ask(alloc, problem, case, state, cur, *tried, *next, meter)
        }
        Trial::Comparing { cur } => Ok(compare(alloc, problem, state, cur, meter)?),
    }
}
