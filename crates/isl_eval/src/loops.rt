//! Loops that visit what an operand selects: their text, or their calls.

ghost use Rattle.std.specs.Prelude.{◌≡◌, true, ℕ, List, length, unsigned_abs, MatchResult, string_bytes};
ghost use Rattle.isl_meter.specs.Gauge.{limit_of, IsCharged};
ghost use Rattle.isl_loop.specs.Formed.{IsLoopOver};
ghost use Rattle.isl_union.specs.KeptValue.{Has, HasNoDefinitions, IsKeptValue};
ghost use Rattle.isl_union.specs.Numbers.{HasNumbersUpTo};
ghost use Rattle.isl_kinds.specs.Typed.{declared_of};
ghost use Rattle.isl_values.specs.State.{scope_of, Fits};
ghost use Rattle.isl_values.specs.Made.{IsSoundExpr, IsWhyUnmade};
ghost use Rattle.isl_values.specs.Ends.{CutAlone};
ghost use Rattle.isl_values.specs.Selection.{Selects};
ghost use Rattle.isl_eval.specs.Coded.{code_text, GenerationEnds, IsCodeOf};
ghost use Rattle.isl_eval.specs.Machine as machine;
ghost use Rattle.isl_eval.specs.Evaluation as spec;
ghost use Rattle.isl_eval.specs.Evaluation.{EndsGeneration, IsCodeOfValue, IsOutcome};

use crate::answers::Answer;
use crate::numbers::numbers_of;
use isl_ast::{Loop, loop_text, run_text};
use isl_loops::codegen;
use isl_meter::Meter;
use isl_refusal::Refusal;
use isl_schedule::GenFault;
use isl_space::Params;
use isl_tree::statement::Expr;
use isl_union::Value;
use isl_values::{State, flat_value_of, refusal_of, under_own};
use isl_words::Options;
use std::alloc::Global;

// The calls of loops, where parameters have their given numbers.
fn text_of_run(
    alloc: Global,
    tree: &Loop,
    params: &Params,
    options: &Options,
    meter: &mut Meter,
) -> Result<String, Refusal>
    requires { IsLoopOver meter.old (length params.now) tree.now }
    ensures { MatchResult result
        (λ text. (string_bytes text ≡ spec.run_text options.now params.now tree.now) × IsCharged meter.old meter.new)
        (IsWhyUnmade true CutAlone meter.old meter.new) }
{
    let numbers = numbers_of(alloc, params, options)?;
    match run_text(alloc, tree, numbers.as_slice(), meter) {
        Ok(text) => Ok(text),
        Err(cut) => Err(refusal_of(cut)),
    }
}

// Loops; or, where they are run, their calls.
fn text_of_loops(
    alloc: Global,
    tree: &Loop,
    params: &Params,
    options: &Options,
    meter: &mut Meter,
) -> Result<String, Refusal>
    requires { IsLoopOver meter.old (length params.now) tree.now }
    ensures { MatchResult result
        (λ text. (string_bytes text ≡ code_text options.now params.now tree.now) × IsCharged meter.old meter.new)
        (IsWhyUnmade true CutAlone meter.old meter.new) }
{
    if options.run() {
        return text_of_run(alloc, tree, params, options, meter);
    }
    Ok(loop_text(alloc, tree, params)?)
}

fn refusal_of_generation(fault: GenFault) -> Refusal
    ensures { result ≡ spec.refusal_of_generation fault }
{
    match fault {
        GenFault::Nested => Refusal::Nested,
        GenFault::TimeShape => Refusal::TimeShape,
        GenFault::Unbounded => Refusal::Unbounded,
        GenFault::SeveralTimes => Refusal::SeveralTimes,
        GenFault::Cut(cut) => refusal_of(cut),
    }
}

// Loops that visit what a value without defined columns has at every valuation.
fn generated(alloc: Global, value: &Value, meter: &mut Meter) -> Result<Loop, Refusal>
    requires kept { IsKeptValue value.now }
    requires numbers { HasNumbersUpTo (unsigned_abs (limit_of meter.old)) value.now }
    requires plain { HasNoDefinitions value.now }
    ensures { IsOutcome true (GenerationEnds (Has value.now)) meter.old meter.new (spec.IsTreeOf meter.old value.now) result }
{
    match codegen(alloc, value, meter) {
        Ok(tree) => Ok(tree),
        Err(fault) => Err(refusal_of_generation(fault)),
    }
}

// What is answered of them.
fn code_of(
    alloc: Global,
    value: &Value,
    options: &Options,
    meter: &mut Meter,
) -> Result<String, Refusal>
    requires kept { IsKeptValue value.now }
    requires numbers { HasNumbersUpTo (unsigned_abs (limit_of meter.old)) value.now }
    requires plain { HasNoDefinitions value.now }
    ensures { IsOutcome true (GenerationEnds (Has value.now)) meter.old meter.new
        (λ text. IsCodeOfValue meter.old options.now value.now (string_bytes text)) result }
{
    let tree = generated(alloc, value, meter)?;
    text_of_loops(alloc, &tree, value.params(), options, meter)
}

/// The loops that visit what an operand selects, or their calls, at assumed valuations.
pub(crate) fn coded(
    alloc: Global,
    operand: &Expr,
    state: &State,
    options: &Options,
    meter: &mut Meter,
) -> Result<Answer, Refusal>
    requires sound { IsSoundExpr (scope_of state.now) operand.now }
    requires fits { Fits (limit_of meter.old) state.now }
    ensures { IsOutcome true (EndsGeneration state.now operand.now) meter.old meter.new
        (λ answer. (text : List ℕ)
        × IsCodeOf state.now meter.old options.now (declared_of (scope_of state.now) operand.now) (Selects state.now operand.now) text
        × (answer ≡ machine.coded text)) result }
{
    let value = flat_value_of(alloc, operand, state, meter)?;
    let under = under_own(alloc, value, state, meter)?;
    let text = code_of(alloc, &under, options, meter)?;
    Ok(Answer::of_code(text))
}
