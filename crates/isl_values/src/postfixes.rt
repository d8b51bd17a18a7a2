//! What inverses and applications make of values.

ghost use Rattle.std.specs.Prelude.{◌≡◌, true, IfErr, IfOk, MatchResult, unsigned_abs};
ghost use Rattle.isl_meter.specs.Gauge.{limit_of};
ghost use Rattle.isl_union.specs.KeptValue.{Has, HasNoDefinitions};
ghost use Rattle.isl_maps.specs.Inverse.{inverse_element, inverse_of};
ghost use Rattle.isl_operators.specs.Operations.{ApplicationHas};
ghost use Rattle.isl_operators.specs.Formed.{ApplicationForms};
ghost use Rattle.isl_operators.specs.Made.{IsApplicationOf};
ghost use Rattle.isl_kinds.specs.Typed.{joined_names};
ghost use Rattle.isl_values.specs.Live.{narrows, IsLiveOf, IsLiveUnder};
ghost use Rattle.isl_state.specs.State.{AtAssumed, Fits, HasNumbersUpTo};
ghost use Rattle.isl_values.specs.Ends.{CutUnder, GoesOn, PairEnds};
ghost use Rattle.isl_values.specs.Made.{IsMadeOf, IsValueOf, IsPaid, IsWhyUnmade, IsWhyUnworked};

use crate::answers::answered;
use isl_maps::inverse;
use isl_meter::Meter;
use isl_operators::applied;
use isl_refusal::Refusal;
use isl_state::{State, live_part};
use isl_union::Value;
use std::alloc::Global;
use std::rc::Rc;

// A map applied to a value.
fn images_of(
    alloc: Global,
    map: &Value,
    argument: &Value,
    meter: &mut Meter,
) -> Result<Rc<Value>, Refusal>
    requires map { HasNumbersUpTo (unsigned_abs (limit_of meter.old)) map.now }
    requires argument { HasNumbersUpTo (unsigned_abs (limit_of meter.old)) argument.now }
    ensures made { MatchResult result
        (λ value. IsMadeOf (λ made. IsApplicationOf map.now argument.now made) (joined_names map.now.params argument.now.params)
        (λ valuation element. ApplicationHas (Has map.now valuation) (Has argument.now valuation) element)
        (unsigned_abs (limit_of meter.old)) ⊥ value.value
        × IsPaid true meter.old meter.new)
        (IsWhyUnworked true (PairEnds ApplicationForms map.now.params argument.now.params (Has map.now) (Has argument.now))
        meter.old meter.new) }
    ensures goes_on { IfOk result
        (λ _. GoesOn (PairEnds ApplicationForms map.now.params argument.now.params (Has map.now) (Has argument.now))) }
{
    let _names = argument.params();
    answered(alloc, applied(alloc, map, argument, meter))
}

/// What is live of that; each piece of the two is.
pub(crate) fn applied_to(
    alloc: Global,
    map: &Value,
    argument: &Value,
    state: &State,
    meter: &mut Meter,
) -> Result<Rc<Value>, Refusal>
    requires map { HasNumbersUpTo (unsigned_abs (limit_of meter.old)) map.now }
    requires argument { HasNumbersUpTo (unsigned_abs (limit_of meter.old)) argument.now }
    requires map_live { IsLiveUnder state.now.assumed map.now }
    requires argument_live { IsLiveUnder state.now.assumed argument.now }
    requires fits { Fits (limit_of meter.old) state.now }
    ensures made { MatchResult result
        (λ value. IsValueOf state.now.assumed (IsLiveOf state.now.assumed (IsApplicationOf map.now argument.now))
        (joined_names map.now.params argument.now.params)
        (λ valuation element. ApplicationHas (Has map.now valuation) (Has argument.now valuation) element)
        (unsigned_abs (limit_of meter.old)) ⊥ value.value
        × IsPaid true meter.old meter.new)
        (IsWhyUnworked true (PairEnds ApplicationForms map.now.params argument.now.params (AtAssumed state.now (Has map.now))
        (AtAssumed state.now (Has argument.now))) meter.old meter.new) }
    ensures goes_on { IfOk result
        (λ _. GoesOn (PairEnds ApplicationForms map.now.params argument.now.params (AtAssumed state.now (Has map.now))
        (AtAssumed state.now (Has argument.now)))) }
{
    match images_of(alloc, map, argument, meter) {
        Ok(made) => live_part(alloc, made, state.assumed(), meter),
        Err(refusal) => Err(refusal),
    }
}

// The inverse of a value of maps.
fn turned(alloc: Global, operand: &Value, meter: &mut Meter) -> Result<Rc<Value>, Refusal>
    requires numbers { HasNumbersUpTo (unsigned_abs (limit_of meter.old)) operand.now }
    ensures made { IfOk result
        (λ value. IsMadeOf (λ made. made ≡ inverse_of operand.now) operand.now.params
        (λ valuation element. Has operand.now valuation (inverse_element element)) (unsigned_abs (limit_of meter.old))
        (HasNoDefinitions operand.now) value.value) }
    ensures faults { IfErr result (λ refusal. refusal ≡ Refusal.NoMemory) }
    ensures meter { meter.new ≡ meter.old }
{
    answered(alloc, inverse(alloc, operand, meter))
}

/// What is live of that.
pub(crate) fn inverted(
    alloc: Global,
    operand: &Value,
    state: &State,
    meter: &mut Meter,
) -> Result<Rc<Value>, Refusal>
    requires numbers { HasNumbersUpTo (unsigned_abs (limit_of meter.old)) operand.now }
    requires fits { Fits (limit_of meter.old) state.now }
    ensures { MatchResult result
        (λ value. IsValueOf state.now.assumed (IsLiveOf state.now.assumed (λ made. made ≡ inverse_of operand.now)) operand.now.params
        (λ valuation element. Has operand.now valuation (inverse_element element)) (unsigned_abs (limit_of meter.old))
        (HasNoDefinitions operand.now) value.value
        × IsPaid (narrows state.now.assumed) meter.old meter.new)
        (IsWhyUnmade (narrows state.now.assumed) (CutUnder state.now) meter.old meter.new) }
{
    match turned(alloc, operand, meter) {
        Ok(made) => live_part(alloc, made, state.assumed(), meter),
        Err(refusal) => Err(refusal),
    }
}
