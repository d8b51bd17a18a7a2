//! What a context tells of a question.

ghost use Rattle.std.specs.Prelude.{◌≡◌, ℕ, IfOk};
ghost use Rattle.isl_meter.specs.Gauge.{IsMetered};
ghost use Rattle.isl_piece.specs.System.{free_columns};
ghost use Rattle.isl_greatest.specs.Decision.{IsContext, IsDecision, IsNegation};
ghost use Rattle.isl_greatest.specs.State.{IsQuestion};

use isl_elim::is_empty;
use isl_meter::{Cut, Meter};
use isl_piece::{System, meet, negate};
use std::alloc::Global;

/// The question holds at all points of the context, or at none; or it holds at some, which are the first context, and fails at the others.
#[derive(Drop)]
pub(crate) enum Decision {
    Yes,
    No,
    Both(System, System),
}

// The question whether the row fails.
fn negation(alloc: Global, question: &System, meter: &mut Meter) -> Result<System, Cut>
    requires { IsQuestion meter.old (free_columns question.now) question.now }
    ensures negation { IfOk result (IsNegation meter.old question.now) }
    ensures meter { IsMetered meter.old meter.new result }
{
    let rows = negate(alloc, &question.rows.as_slice()[0], meter)?;
    let definitions = question.definitions.copy(alloc)?;
    Ok(System::over(question.columns, definitions, rows))
}

/// What the context tells of the question. A unit and more is used.
///
/// # Errors
///
/// As every call under a meter.
pub(crate) fn decide(
    alloc: Global,
    context: &System,
    question: &System,
    meter: &mut Meter,
) -> Result<Decision, Cut>
    requires context { IsContext meter.old (free_columns context.now) context.now }
    requires question { IsQuestion meter.old (free_columns context.now) question.now }
    ensures decision { IfOk result (IsDecision meter.old (free_columns context.now) context.now question.now) }
    ensures meter { IsMetered meter.old meter.new result }
{
    let negated = negation(alloc, question, meter)?;
    let outside = meet(alloc, context, &negated)?;
    if is_empty(alloc, &outside, meter)? {
        return Ok(Decision::Yes);
    }
    let inside = meet(alloc, context, question)?;
    if is_empty(alloc, &inside, meter)? {
        return Ok(Decision::No);
    }
    Ok(Decision::Both(inside, outside))
}
