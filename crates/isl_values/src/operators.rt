//! What operators make of two values.

ghost use Rattle.std.specs.Prelude.{◌≡◌, false, IfOk, MatchResult, unsigned_abs};
ghost use Rattle.isl_meter.specs.Gauge.{limit_of};
ghost use Rattle.isl_union.specs.KeptValue.{Has, HasNoDefinitions};
ghost use Rattle.isl_operators.specs.Operations.{OperatorHas};
ghost use Rattle.isl_operators.specs.Formed.{OperatorForms};
ghost use Rattle.isl_operators.specs.Made.{IsOperatorOf, operator_works};
ghost use Rattle.isl_kinds.specs.Parts.{operator as operator_part};
ghost use Rattle.isl_kinds.specs.Typed.{joined_names};
ghost use Rattle.isl_values.specs.Live.{IsLiveOf, IsLiveUnder};
ghost use Rattle.isl_state.specs.State.{AtAssumed, Fits, HasNumbersUpTo};
ghost use Rattle.isl_values.specs.Ends.{GoesOn, PairEnds};
ghost use Rattle.isl_values.specs.Made.{is_foreign, uses_units, IsMadeOf, IsValueOf, IsPaid, IsWhyUnworked};

use crate::answers::answered;
use isl_meter::Meter;
use isl_operators::combined;
use isl_refusal::Refusal;
use isl_state::{State, live_part};
use isl_tree::statement::Binary;
use isl_union::{Value, extended};
use std::alloc::Global;
use std::rc::Rc;

// What an operator makes of two values. A sum takes the pieces of the left one where nothing else has them.
fn operated(
    alloc: Global,
    operator: Binary,
    left: Rc<Value>,
    right: &Value,
    meter: &mut Meter,
) -> Result<Rc<Value>, Refusal>
    requires supported { is_foreign (operator_part operator) ≡ false }
    requires left { HasNumbersUpTo (unsigned_abs (limit_of meter.old)) left.value }
    requires right { HasNumbersUpTo (unsigned_abs (limit_of meter.old)) right.now }
    ensures made { MatchResult result
        (λ value. IsMadeOf (λ made. IsOperatorOf operator left.value right.now made) (joined_names left.value.params right.now.params)
        (λ valuation element. OperatorHas operator (Has left.value valuation) (Has right.now valuation) element)
        (unsigned_abs (limit_of meter.old)) (HasNoDefinitions left.value × HasNoDefinitions right.now × (operator_works operator ≡ false))
        value.value
        × IsPaid (operator_works operator) meter.old meter.new)
        (IsWhyUnworked (operator_works operator)
        (PairEnds (OperatorForms operator) left.value.params right.now.params (Has left.value) (Has right.now)) meter.old meter.new) }
    ensures goes_on { IfOk result
        (λ _. GoesOn (PairEnds (OperatorForms operator) left.value.params right.now.params (Has left.value) (Has right.now))) }
{
    let _names = right.params();
    match operator {
        Binary::Union => answered(alloc, extended(alloc, left, right, meter)),
        _ => answered(alloc, combined(alloc, operator, &left, right, meter)),
    }
}

/// What is live of that; where something is assumed each piece of the two is live.
pub(crate) fn joined(
    alloc: Global,
    operator: Binary,
    left: Rc<Value>,
    right: &Value,
    state: &State,
    meter: &mut Meter,
) -> Result<Rc<Value>, Refusal>
    requires supported { is_foreign (operator_part operator) ≡ false }
    requires left { HasNumbersUpTo (unsigned_abs (limit_of meter.old)) left.value }
    requires right { HasNumbersUpTo (unsigned_abs (limit_of meter.old)) right.now }
    requires left_live { IsLiveUnder state.now.assumed left.value }
    requires right_live { IsLiveUnder state.now.assumed right.now }
    requires fits { Fits (limit_of meter.old) state.now }
    ensures made { MatchResult result
        (λ value. IsValueOf state.now.assumed (IsLiveOf state.now.assumed (IsOperatorOf operator left.value right.now))
        (joined_names left.value.params right.now.params)
        (λ valuation element. OperatorHas operator (Has left.value valuation) (Has right.now valuation) element)
        (unsigned_abs (limit_of meter.old)) (HasNoDefinitions left.value × HasNoDefinitions right.now × (operator_works operator ≡ false))
        value.value
        × IsPaid (uses_units state.now.assumed (operator_part operator)) meter.old meter.new)
        (IsWhyUnworked (uses_units state.now.assumed (operator_part operator))
        (PairEnds (OperatorForms operator) left.value.params right.now.params (AtAssumed state.now (Has left.value))
        (AtAssumed state.now (Has right.now))) meter.old meter.new) }
    ensures goes_on { IfOk result
        (λ _. GoesOn (PairEnds (OperatorForms operator) left.value.params right.now.params (AtAssumed state.now (Has left.value))
        (AtAssumed state.now (Has right.now)))) }
{
    match operated(alloc, operator, left, right, meter) {
        Ok(made) => live_part(alloc, made, state.assumed(), meter),
        Err(refusal) => Err(refusal),
    }
}
