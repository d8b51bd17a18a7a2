//! Trees of greatest lists.

ghost use Rattle.std.specs.Prelude.{◌≡◌, ◌<◌, ℤ, List, length, IfOk, MatchResult};
ghost use Rattle.isl_meter.specs.Gauge.{IsCharged, IsCutBy, IsMetered};
ghost use Rattle.isl_piece.specs.System.{HoldsSystem};
ghost use Rattle.isl_quast.specs.declared.tree.Quast.{If};
ghost use Rattle.isl_greatest.specs.Decision.{IsContext};
ghost use Rattle.isl_greatest.specs.Fault.{IsPipFault};
ghost use Rattle.isl_greatest.specs.Problem.{IsProblem};
ghost use Rattle.isl_greatest.specs.Search.{AllHaveGreatest, AreEnds, IsReached, IsSettled, IsTreeWithin, IsTurn};
ghost use Rattle.isl_greatest.specs.State.{IsState};

use crate::PipFault;
use crate::decide::{Decision, decide};
use crate::expressed::{leaf_of, test_of};
use crate::next::{Step, next};
use crate::problem::Problem;
use crate::state::State;
use isl_meter::{Cut, Meter};
use isl_piece::System;
use isl_quast::{QExpr, Quast};
use sqlite_items::Boxed;
use std::alloc::{AllocError, Global};

/// A question that a context leaves open: the contexts where it holds and where not, and the states there.
#[derive(Drop)]
pub(crate) struct Split {
    pub(crate) question: System,
    pub(crate) inside: System,
    pub(crate) outside: System,
    pub(crate) yes: State,
    pub(crate) other: State,
}

/// What the steps come to that a context decides.
#[derive(Drop)]
pub(crate) enum Settled {
    /// The columns of the greatest list; or there is no list.
    Ends(Option<System>),
    /// There are lists, and none is the greatest.
    Away,
    /// A question is open.
    Splits(Split),
}

/// What one step comes to in a context.
#[derive(Drop)]
pub(crate) enum Turn {
    /// The search goes on from this state.
    Goes(State),
    /// It is over in this context, or a question is open.
    Stops(Settled),
}

// One step from a state on, and what the context tells of its question.
#[tactic(auto, using(std::proofs::lemmas::Grind::common_steps, isl_meter::proofs::CutLemmas::charges))]
fn moved(
    alloc: Global,
    problem: &Problem,
    context: &System,
    state: &State,
    meter: &mut Meter,
) -> Result<Turn, Cut>
    requires problem { IsProblem meter.old problem.now }
    requires context { IsContext meter.old problem.now.front context.now }
    requires state { IsState meter.old problem.now state.now }
    requires reached { IsReached problem.now context.now state.now }
    ensures turn { IfOk result (IsTurn meter.old problem.now context.now) }
    ensures meter { IsMetered meter.old meter.new result }
{
    match next(alloc, problem, state, meter)? {
        Step::Goes(later) => Ok(Turn::Goes(later)),
        Step::Ends(end) => Ok(Turn::Stops(Settled::Ends(end))),
        Step::Away => Ok(Turn::Stops(Settled::Away)),
        Step::Asks {
            question,
            yes,
            other,
        } => match decide(alloc, context, &question, meter)? {
            Decision::Yes => Ok(Turn::Goes(yes)),
            Decision::No => Ok(Turn::Goes(other)),
            Decision::Both(inside, outside) => Ok(Turn::Stops(Settled::Splits(Split {
                question,
                inside,
                outside,
                yes,
                other,
            }))),
        },
    }
}

// The steps from a state on, until the context leaves a question open. A unit is used for each.
#[tactic(auto, using(std::proofs::lemmas::Grind::common_steps, isl_meter::proofs::CutLemmas::charges))]
fn settle(
    alloc: Global,
    problem: &Problem,
    context: &System,
    state: State,
    meter: &mut Meter,
) -> Result<Settled, Cut>
    requires problem { IsProblem meter.old problem.now }
    requires context { IsContext meter.old problem.now.front context.now }
    requires state { IsState meter.old problem.now state }
    requires reached { IsReached problem.now context.now state }
    ensures settled { IfOk result (IsSettled meter.old problem.now context.now) }
    ensures meter { IsMetered meter.old meter.new result }
    ensures unit { IfOk result (λ _. (meter.old.units < meter.new.units) × (meter.old.units < meter.old.budget)) }
{
    let mut state = state;
    loop {
        meter.unit()?;
        match moved(alloc, problem, context, &state, meter)? {
            Turn::Goes(later) => state = later,
            Turn::Stops(settled) => return Ok(settled),
        }
    }
}

// The tree of what the steps come to.
fn ended(
    alloc: Global,
    problem: &Problem,
    context: &System,
    end: Option<System>,
    meter: &mut Meter,
) -> Result<Quast, Cut>
    requires { AreEnds meter.old problem.now context.now end }
    ensures { MatchResult result
        (λ tree. IsTreeWithin meter.old problem.now (HoldsSystem context.now) tree × (meter.new ≡ meter.old)) (IsCutBy meter.old meter.new) }
{
    match end {
        None => Ok(Quast::Missing),
        Some(numbers) => {
            let leaf = leaf_of(alloc, problem.front(), &numbers, meter)?;
            Ok(Quast::Leaf(leaf))
        }
    }
}

// The tree of a test and two others.
fn branched(alloc: Global, test: QExpr, up: Quast, down: Quast) -> Result<Quast, AllocError>
    ensures { IfOk result (λ tree. tree ≡ If test up down) }
{
    let yes = Boxed::new(alloc, up)?;
    let no = Boxed::new(alloc, down)?;
    Ok(Quast::If { test, yes, no })
}

// The tree from a state on, right at all points of the context.
#[tactic(auto, using(std::proofs::lemmas::Grind::common_steps, isl_meter::proofs::CutLemmas::charges))]
fn build(
    alloc: Global,
    problem: &Problem,
    context: &System,
    state: State,
    meter: &mut Meter,
) -> Result<Quast, PipFault>
    requires problem { IsProblem meter.old problem.now }
    requires context { IsContext meter.old problem.now.front context.now }
    requires state { IsState meter.old problem.now state }
    requires reached { IsReached problem.now context.now state }
    ensures tree { IfOk result (IsTreeWithin meter.old problem.now (HoldsSystem context.now)) }
    ensures meter { MatchResult result (λ _. IsCharged meter.old meter.new) (IsPipFault (¬ AllHaveGreatest problem.now) meter.old meter.new) }
{
    match settle(alloc, problem, context, state, meter)? {
        Settled::Ends(end) => {
            let tree = ended(alloc, problem, context, end, meter)?;
            Ok(tree)
        }
        Settled::Away => Err(PipFault::NoMinimum),
        Settled::Splits(split) => {
            let Split {
                question,
                inside,
                outside,
                yes,
                other,
            } = split;
            let test = test_of(alloc, problem.front(), &question, meter)?;
            let up = build(alloc, problem, &inside, yes, meter)?;
            let down = build(alloc, problem, &outside, other, meter)?;
            let whole = branched(alloc, test, up, down)?;
            Ok(whole)
        }
    }
}

/// The tree that gives, where the columns in front have these numbers, the negatives of the greatest list, and nothing where there is none.
/// (Feautrier, parametric integer programming)
///
/// # Errors
///
/// As every call under a meter; and `NoMinimum` only where at some numbers there are lists, and none is the greatest.
pub fn greatest_tree(alloc: Global, problem: &Problem, meter: &mut Meter) -> Result<Quast, PipFault>
    requires { IsProblem meter.old problem.now }
    ensures tree { IfOk result (IsTreeWithin meter.old problem.now (λ _. Unit {0})) }
    ensures meter { MatchResult result (λ _. IsCharged meter.old meter.new) (IsPipFault (¬ AllHaveGreatest problem.now) meter.old meter.new) }
{
    let context = System::new(alloc, problem.front());
    let chosen = System::new(alloc, problem.front());
    build(alloc, problem, &context, State::at(chosen), meter)
}
