//! Trees of the least elements, or of the least images, of what an operand selects.

ghost use Rattle.std.specs.Prelude.{◌≡◌, true, ℕ, List, unsigned_abs};
ghost use Rattle.isl_meter.specs.Gauge.{limit_of};
ghost use Rattle.isl_tree.specs.declared.statement.Prefix.TheVariants.{LexMin};
ghost use Rattle.isl_union.specs.KeptValue.{Has};
ghost use Rattle.isl_union.specs.Numbers.{HasNumbersUpTo};
ghost use Rattle.isl_pip.specs.Least.{IsForestOf};
ghost use Rattle.isl_kinds.specs.Typed.{declared_of};
ghost use Rattle.isl_values.specs.State.{scope_of, Fits};
ghost use Rattle.isl_values.specs.Made.{IsSoundExpr};
ghost use Rattle.isl_values.specs.Ends.{WordEnds};
ghost use Rattle.isl_values.specs.Selection.{Selects};
ghost use Rattle.isl_eval.specs.Trees.{IsTextOfTrees};
ghost use Rattle.isl_eval.specs.Machine as machine;
ghost use Rattle.isl_eval.specs.Evaluation as spec;
ghost use Rattle.isl_eval.specs.Evaluation.{EndsTrees, IsOutcome};

use crate::answers::Answer;
use isl_meter::Meter;
use isl_pip::{Forest, PipFault, forest_text, pip};
use isl_refusal::Refusal;
use isl_tree::statement::Expr;
use isl_union::Value;
use isl_values::{State, flat_value_of, refusal_of, under_own};
use std::alloc::Global;

fn refusal_of_trees(fault: PipFault) -> Refusal
    ensures { result ≡ spec.refusal_of_trees fault }
{
    match fault {
        PipFault::NoMinimum => Refusal::NoMinimum,
        PipFault::Cut(cut) => refusal_of(cut),
    }
}

// Trees of the least elements, or of the least images, of a value.
fn forest_of(alloc: Global, value: &Value, meter: &mut Meter) -> Result<Forest, Refusal>
    requires { HasNumbersUpTo (unsigned_abs (limit_of meter.old)) value.now }
    ensures { IsOutcome true (WordEnds LexMin (Has value.now)) meter.old meter.new (IsForestOf value.now) result }
{
    match pip(alloc, value, meter) {
        Ok(forest) => Ok(forest),
        Err(fault) => Err(refusal_of_trees(fault)),
    }
}

/// The trees of the least elements, or of the least images, that an operand selects at assumed valuations.
pub(crate) fn forested(
    alloc: Global,
    operand: &Expr,
    state: &State,
    meter: &mut Meter,
) -> Result<Answer, Refusal>
    requires sound { IsSoundExpr (scope_of state.now) operand.now }
    requires fits { Fits (limit_of meter.old) state.now }
    ensures { IsOutcome true (EndsTrees state.now operand.now) meter.old meter.new
        (λ answer. (text : List ℕ) × IsTextOfTrees state.now (declared_of (scope_of state.now) operand.now) (Selects state.now operand.now) text
        × (answer ≡ machine.coded text)) result }
{
    let value = flat_value_of(alloc, operand, state, meter)?;
    let under = under_own(alloc, value, state, meter)?;
    let forest = forest_of(alloc, &under, meter)?;
    let text = forest_text(alloc, &forest)?;
    Ok(Answer::of_code(text))
}
