//! Operands at assumed valuations alone.

ghost use Rattle.std.specs.Prelude.{◌≡◌, All, Contains, false, true, IfOk, MatchResult, unsigned_abs};
ghost use Rattle.isl_meter.specs.Gauge.{IsCharged, IsMetered, limit_of};
ghost use Rattle.isl_space.specs.Names.{joined};
ghost use Rattle.isl_union.specs.KeptValue.{IsKeptValue};
ghost use Rattle.isl_union.specs.Fault.{IsFaultBy};
ghost use Rattle.isl_assumed.specs.Assumed.{IsPlain, IsSound};
ghost use Rattle.isl_kinds.specs.Typed.{joined_names};
ghost use Rattle.isl_values.specs.Live.{narrows, IsLivePart, IsOperandIn, IsOperandOf};
ghost use Rattle.isl_state.specs.State.{Fits, HasNumbersUpTo};
ghost use Rattle.isl_values.specs.Ends.{CutAlone, CutUnder, OperationEnds};
ghost use Rattle.isl_values.specs.Made.{IsPaid, IsWhyUnmade, IsWhyUnworked};

use crate::answers::answered;
use isl_assumed::{Assumed, under};
use isl_meter::{Cut, Meter};
use isl_outcome::refusal_of;
use isl_refusal::Refusal;
use isl_space::Params;
use isl_state::State;
use isl_union::{OpFault, Value};
use std::alloc::Global;
use std::rc::Rc;

// The elements of the value at the valuations that have the same numbers of its parameters as some assumed one.
#[tactic(auto, using(std::proofs::lemmas::Grind::common_steps, isl_meter::proofs::CutLemmas::charges))]
fn under_onto(
    alloc: Global,
    value: &Value,
    assumed: &Assumed,
    meter: &mut Meter,
) -> Result<Value, Cut>
    requires numbers { HasNumbersUpTo (unsigned_abs (limit_of meter.old)) value.now }
    requires sound { IsSound meter.old assumed.now }
    requires plain { IsPlain assumed.now }
    ensures under { IfOk result (IsOperandIn meter.old assumed.now value.now.params value.now) }
    ensures meter { IsMetered meter.old meter.new result }
{
    let own = assumed.onto(alloc, value.params(), meter)?;
    under(alloc, value, &own, meter)
}

// The same over the joined parameters, which the value declares some of.
fn under_joined(
    alloc: Global,
    names: &Params,
    others: &Params,
    value: &Value,
    assumed: &Assumed,
    meter: &mut Meter,
) -> Result<Value, OpFault>
    requires numbers { HasNumbersUpTo (unsigned_abs (limit_of meter.old)) value.now }
    requires declared { All (Contains (joined names.now others.now)) value.now.params }
    requires sound { IsSound meter.old assumed.now }
    requires plain { IsPlain assumed.now }
    ensures under { IfOk result (IsOperandIn meter.old assumed.now (joined names.now others.now) value.now) }
    ensures meter { MatchResult result (λ _. IsCharged meter.old meter.new)
        (IsFaultBy (joined names.now others.now) meter.old meter.new) }
{
    let (params, _places) = names.align(alloc, others)?;
    let over = Value::empty(alloc, params).union(alloc, value, meter)?;
    Ok(under_onto(alloc, &over, assumed, meter)?)
}

// A new value, as `under_onto` gives it.
fn own_copy(
    alloc: Global,
    value: &Value,
    assumed: &Assumed,
    meter: &mut Meter,
) -> Result<Rc<Value>, Refusal>
    requires numbers { HasNumbersUpTo (unsigned_abs (limit_of meter.old)) value.now }
    requires sound { IsSound meter.old assumed.now }
    requires plain { IsPlain assumed.now }
    ensures { MatchResult result
        (λ under. IsOperandIn meter.old assumed.now value.now.params value.now under.value × IsCharged meter.old meter.new)
        (IsWhyUnmade true CutAlone meter.old meter.new) }
{
    match under_onto(alloc, value, assumed, meter) {
        Ok(under) => Ok(Rc::new(alloc, under)?),
        Err(cut) => Err(refusal_of(cut)),
    }
}

/// The elements of the value at the valuations that have the same numbers of its parameters as some assumed one. Where nothing is assumed
/// it is that value, and not a copy, and nothing is used. (isl manual, on parameter domains)
///
/// # Errors
/// `Overflow`, `Budget` and `NoMemory`, where the work is cut.
pub fn under_own(
    alloc: Global,
    value: Rc<Value>,
    state: &State,
    meter: &mut Meter,
) -> Result<Rc<Value>, Refusal>
    requires numbers { HasNumbersUpTo (unsigned_abs (limit_of meter.old)) value.value }
    requires kept { IsKeptValue value.value }
    requires fits { Fits (limit_of meter.old) state.now }
    ensures { MatchResult result
        (λ under. IsOperandOf state.now.assumed value.value.params (unsigned_abs (limit_of meter.old)) value.value under.value
        × IsPaid (narrows state.now.assumed) meter.old meter.new)
        (IsWhyUnmade (narrows state.now.assumed) (CutUnder state.now) meter.old meter.new) }
{
    match state.assumed() {
        Assumed::Nothing => Ok(value),
        Assumed::Where(_) => own_copy(alloc, &value, state.assumed(), meter),
    }
}

/// The operands of a test, or of another operation of two values, at assumed valuations alone.
#[derive(Drop)]
pub struct Operands {
    pub left: Rc<Value>,
    pub right: Rc<Value>,
}

/// The elements of the right value at the valuations that have the same numbers of the joined parameters as some assumed one, over these
/// parameters. Where nothing is assumed it is that value, and not a copy, and nothing is used. (isl manual, on parameter domains)
///
/// # Errors
/// `TooWide` where something is assumed and the joined parameters are more than 16, before any work; `Overflow`, `Budget` and `NoMemory`,
/// where the work is cut.
pub fn right_under(
    alloc: Global,
    left: &Value,
    right: Rc<Value>,
    state: &State,
    meter: &mut Meter,
) -> Result<Rc<Value>, Refusal>
    requires numbers { HasNumbersUpTo (unsigned_abs (limit_of meter.old)) right.value }
    requires kept { IsKeptValue right.value }
    requires fits { Fits (limit_of meter.old) state.now }
    ensures { MatchResult result
        (λ under. IsOperandOf state.now.assumed (joined_names left.now.params right.value.params) (unsigned_abs (limit_of meter.old))
        right.value under.value × IsPaid (narrows state.now.assumed) meter.old meter.new)
        (IsWhyUnworked (narrows state.now.assumed) (OperationEnds (joined_names left.now.params right.value.params) ⊥ ⊥)
        meter.old meter.new) }
{
    match state.assumed() {
        Assumed::Nothing => Ok(right),
        Assumed::Where(_) => answered(
            alloc,
            under_joined(
                alloc,
                left.params(),
                right.params(),
                &right,
                state.assumed(),
                meter,
            ),
        ),
    }
}

// The same of the left value.
fn left_under(
    alloc: Global,
    left: Rc<Value>,
    right: &Value,
    state: &State,
    meter: &mut Meter,
) -> Result<Rc<Value>, Refusal>
    requires numbers { HasNumbersUpTo (unsigned_abs (limit_of meter.old)) left.value }
    requires kept { IsKeptValue left.value }
    requires fits { Fits (limit_of meter.old) state.now }
    ensures { MatchResult result
        (λ under. IsOperandOf state.now.assumed (joined_names left.value.params right.now.params) (unsigned_abs (limit_of meter.old))
        left.value under.value × IsPaid (narrows state.now.assumed) meter.old meter.new)
        (IsWhyUnworked (narrows state.now.assumed) (OperationEnds (joined_names left.value.params right.now.params) ⊥ ⊥)
        meter.old meter.new) }
{
    match state.assumed() {
        Assumed::Nothing => Ok(left),
        Assumed::Where(_) => answered(
            alloc,
            under_joined(
                alloc,
                left.params(),
                right.params(),
                &left,
                state.assumed(),
                meter,
            ),
        ),
    }
}

/// Both, as `right_under` gives the right one.
///
/// # Errors
/// As of `right_under`.
pub fn both_under(
    alloc: Global,
    left: Rc<Value>,
    right: Rc<Value>,
    state: &State,
    meter: &mut Meter,
) -> Result<Operands, Refusal>
    requires left { HasNumbersUpTo (unsigned_abs (limit_of meter.old)) left.value }
    requires right { HasNumbersUpTo (unsigned_abs (limit_of meter.old)) right.value }
    requires left_kept { IsKeptValue left.value }
    requires right_kept { IsKeptValue right.value }
    requires fits { Fits (limit_of meter.old) state.now }
    ensures { MatchResult result
        (λ both. IsOperandOf state.now.assumed (joined_names left.value.params right.value.params) (unsigned_abs (limit_of meter.old))
        left.value both.left.value
        × IsOperandOf state.now.assumed (joined_names left.value.params right.value.params) (unsigned_abs (limit_of meter.old))
        right.value both.right.value
        × IsPaid (narrows state.now.assumed) meter.old meter.new)
        (IsWhyUnworked (narrows state.now.assumed) (OperationEnds (joined_names left.value.params right.value.params) ⊥ ⊥)
        meter.old meter.new) }
{
    let first = left_under(alloc, left.clone()?, &right, state, meter)?;
    let second = right_under(alloc, &left, right, state, meter)?;
    Ok(Operands {
        left: first,
        right: second,
    })
}
